//! The bodies of entries, read.

ghost use Rattle.std.specs.Prelude.{◌≡◌, ◌≤◌, map, IfOk, true};
ghost use Rattle.rs_bin.specs.Reading.{Takes, most, op_at, pair_at, same_next, write_at, side_of, split_at, epoch_at, carried_body_at, carried_at, commit_at, body_at};

use crate::cursor::{Cursor, MOST};
use crate::error::PartError;
use crate::part::{Part, many};
use rs_entry::{Body, Carried, CarriedBody, Change, Op, Side};
use rs_key::{Epoch, Key, NoMemory, Rows};
use std::alloc::Global;

/// The most operations of a write.
const WRITE_OPERATIONS: u16 = 1_024;

/// The most new regions of a split.
const SPLIT_PAIRS: u8 = 64;

/// The most carried entries of a commit.
const CARRIED: u64 = 4_096;

impl Part for Op {
    ghost use Rattle.rs_bin.specs.Reading.{op_at, same_next};

    ghost at = { op_at };

    ghost next = { same_next };

    /// Returns the least size in bytes: a tag, and a key of one byte behind its length.
    fn least() -> usize {
        4
    }

    #[tactic(auto, unfolding(crate::specs::Reading::op_at))]
    fn take(
        alloc: Global,
        _number: u64,
        _left: u32,
        cursor: &mut Cursor<'_>,
    ) -> Result<Op, PartError> {
        cursor.operation_room()?;
        let kind = cursor.u8(0, 1)?;
        let key = cursor.key(alloc)?;
        if kind == 0 {
            let value = cursor.value(alloc)?;
            return Ok(Op::Put(key, value));
        }
        Ok(Op::Delete(key))
    }

    fn next(&self, number: u64) -> u64 {
        number
    }
}

/// Reads the operations of a write, behind their number.
#[tactic(auto, unfolding(crate::specs::Reading::write_at))]
fn write(alloc: Global, cursor: &mut Cursor<'_>) -> Result<Rows<Op>, PartError>
    ensures { Takes result cursor.new (write_at cursor.old) }
{
    let count = cursor.u16(1, WRITE_OPERATIONS)?;
    many(alloc, 0, u32::from(count), cursor)
}

impl Part for (u64, Key) {
    ghost use Rattle.rs_bin.specs.Reading.{pair_at, same_next};

    ghost at = { pair_at };

    ghost next = { same_next };

    /// Returns the least size in bytes: an id, and a key of one byte behind its length.
    fn least() -> usize {
        11
    }

    #[tactic(auto, unfolding(crate::specs::Reading::pair_at))]
    fn take(
        alloc: Global,
        _number: u64,
        _left: u32,
        cursor: &mut Cursor<'_>,
    ) -> Result<(u64, Key), PartError> {
        cursor.boot_room()?;
        let id = cursor.u64(1, MOST)?;
        let key = cursor.key(alloc)?;
        Ok((id, key))
    }

    fn next(&self, number: u64) -> u64 {
        number
    }
}

/// The ids and the keys of pairs.
#[derive(Debug, Drop)]
struct IdsAndKeys {
    ids: Rows<u64>,
    keys: Rows<Key>,
}

/// Returns pairs, taken apart.
fn ids_and_keys(alloc: Global, pairs: Rows<(u64, Key)>) -> Result<IdsAndKeys, NoMemory>
    ensures ids { IfOk result (λ r. r.ids ≡ map (λ p. p.0) pairs) }
    ensures keys { IfOk result (λ r. r.keys ≡ map (λ p. p.1) pairs) }
{
    let mut ids = Rows::with_room(alloc, pairs.len());
    let mut keys = Rows::with_room(alloc, pairs.len());
    for (id, key) in pairs.into_vec() {
        ids.push(id)?;
        keys.push(key)?;
    }
    Ok(IdsAndKeys { ids, keys })
}

/// Returns the side of a split by its number, which is 0 or 1.
fn side_of(number: u8) -> Side
    ensures { result ≡ side_of number }
{
    if number == 0 { Side::Right } else { Side::Left }
}

/// Reads the side and the pairs of a split.
#[tactic(auto, unfolding(crate::specs::Reading::split_at))]
fn split(alloc: Global, cursor: &mut Cursor<'_>) -> Result<Body, PartError>
    ensures { Takes result cursor.new (split_at cursor.old) }
{
    let side = cursor.u8(0, 1)?;
    let count = cursor.u8(1, SPLIT_PAIRS)?;
    let pairs = many(alloc, 0, u32::from(count), cursor)?;
    let IdsAndKeys { ids, keys } = ids_and_keys(alloc, pairs)?;
    Ok(Body::Split {
        side: side_of(side),
        ids,
        keys,
    })
}

/// Reads an epoch, if one more entry has room.
#[tactic(auto, unfolding(crate::specs::Reading::epoch_at))]
pub fn epoch(cursor: &mut Cursor<'_>) -> Result<Epoch, PartError>
    ensures { Takes result cursor.new (epoch_at cursor.old) }
{
    cursor.line_room()?;
    let conf_ver = cursor.u64(0, MOST)?;
    let version = cursor.u64(0, MOST)?;
    Ok(Epoch { conf_ver, version })
}

/// Reads the body of a carried entry behind its tag.
#[tactic(auto, unfolding(crate::specs::Reading::carried_body_at))]
fn carried_body(alloc: Global, tag: u8, cursor: &mut Cursor<'_>) -> Result<CarriedBody, PartError>
    ensures { Takes result cursor.new (carried_body_at tag cursor.old) }
{
    if tag == 0 {
        return Ok(CarriedBody::Empty);
    }
    if tag == 1 {
        let ops = write(alloc, cursor)?;
        return Ok(CarriedBody::Write(ops));
    }
    let target = cursor.u64(1, MOST)?;
    Ok(CarriedBody::Prepare { target })
}

impl Part for Carried {
    ghost use Rattle.rs_bin.specs.Reading.{carried_at, same_next};

    ghost at = { carried_at };

    ghost next = { same_next };

    /// Returns the least size in bytes: an epoch and a tag.
    fn least() -> usize {
        17
    }

    /// Reads a carried entry. The number is the index of the commit. The last one has this index, and is a prepare;
    /// those before it are empty or writes.
    #[tactic(auto, unfolding(crate::specs::Reading::carried_at))]
    fn take(
        alloc: Global,
        number: u64,
        left: u32,
        cursor: &mut Cursor<'_>,
    ) -> Result<Carried, PartError> {
        let epoch = epoch(cursor)?;
        let tag = if left == 0 {
            cursor.u8(3, 3)?
        } else {
            cursor.u8(0, 1)?
        };
        let body = carried_body(alloc, tag, cursor)?;
        Ok(Carried {
            index: number.saturating_sub(u64::from(left)),
            epoch,
            body,
        })
    }

    fn next(&self, number: u64) -> u64 {
        number
    }
}

/// Reads the source of a commit, its index and what it carries.
#[tactic(auto, unfolding(crate::specs::Reading::commit_at))]
fn commit(alloc: Global, cursor: &mut Cursor<'_>) -> Result<Body, PartError>
    ensures { Takes result cursor.new (commit_at cursor.old) }
{
    let source = cursor.u64(1, MOST)?;
    let commit = cursor.u64(0, MOST)?;
    let room = CARRIED.min(commit.saturating_sub(5)) as u16;
    let count = cursor.u16(0, room)?;
    let carried = many(alloc, commit, u32::from(count), cursor)?;
    Ok(Body::Commit {
        source,
        commit,
        carried,
    })
}

/// Reads a body behind its tag, which is at most 7.
#[tactic(auto, unfolding(crate::specs::Reading::body_at))]
pub fn body(alloc: Global, tag: u8, cursor: &mut Cursor<'_>) -> Result<Body, PartError>
    ensures { Takes result cursor.new (body_at tag cursor.old) }
{
    match tag {
        0 => Ok(Body::Empty),
        1 => {
            let ops = write(alloc, cursor)?;
            Ok(Body::Write(ops))
        }
        2 => split(alloc, cursor),
        3 => {
            let target = cursor.u64(1, MOST)?;
            Ok(Body::Prepare { target })
        }
        4 => commit(alloc, cursor),
        5 => {
            let commit = cursor.u64(0, MOST)?;
            Ok(Body::Rollback { commit })
        }
        _ => {
            let peer = cursor.u64(1, MOST)?;
            let change = if tag == 6 {
                Change::Add(peer)
            } else {
                Change::Remove(peer)
            };
            Ok(Body::Conf { change })
        }
    }
}
