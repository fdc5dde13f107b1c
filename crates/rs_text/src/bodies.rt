//! The bodies of entries, read.

ghost use Rattle.std.specs.Prelude.{◌≡◌, ◌≤◌, map, IfOk};
ghost use Rattle.rs_entry.specs.Entries.{ops_in, pairs_in};
ghost use Rattle.rs_field.specs.Gives.{Gives, Takes, TakesPlain};
ghost use Rattle.rs_text.specs.Bodies.{op_at, ops_at, write_at, side_at, pair_at, pairs_at, split_at, last_number_at, target_at, commit_at, is_body_word, is_conf_word, conf_at, peers_at, boot_peers_at};

use rs_entry::{Body, Change, INIT_INDEX, Op, Side};
use rs_field::{Fields, LineError, TextKind, id_of, is_word};
use rs_key::{Key, NoMemory, Rows};
use std::alloc::Global;

/// The most operations of one write.
const WRITE_OPERATIONS: u64 = 1024;

/// The most operations of a file.
const OPERATIONS: u64 = 1_048_576;

/// The most pairs of one split.
const SPLIT_PAIRS: u64 = 64;

/// The most peers of a region.
const PEERS: u64 = 64;

/// The most region lines and pairs of a file.
pub const BOOTS: u64 = 4096;

/// The most carried entries of one commit.
const CARRIED: u64 = 4096;

/// Reads one operation, from its word on.
#[tactic(auto, unfolding(crate::specs::Bodies::op_at))]
fn op(alloc: Global, room: bool, word: &[u8], fields: &mut Fields<'_>) -> Result<Op, LineError>
    ensures { Takes result fields.new (op_at room word.now fields.old) }
{
    if is_word(word, "put") {
        if !room {
            return Err(LineError::Bad(TextKind::Limit));
        }
        let key = fields.key(alloc)?;
        let value = fields.value(alloc)?;
        return Ok(Op::Put(key, value));
    }
    if is_word(word, "del") {
        if !room {
            return Err(LineError::Bad(TextKind::Limit));
        }
        let key = fields.key(alloc)?;
        return Ok(Op::Delete(key));
    }
    Err(LineError::Bad(TextKind::BadLine))
}

/// Reads operations to the end of the line, of a file that has `total` before them.
fn ops(alloc: Global, total: u64, fields: &mut Fields<'_>) -> Result<Rows<Op>, LineError>
    requires { total ≤ 1048576 }
    ensures { Gives (λ x. x) result (ops_at total fields.old) }
{
    let mut ops = Rows::with_room(alloc, 1);
    for count in 0..WRITE_OPERATIONS {
        let Some(word) = fields.next_field() else {
            return Ok(ops);
        };
        let room = total + count < OPERATIONS;
        let next = op(alloc, room, word, fields)?;
        ops.push(next)?;
    }
    let Some(word) = fields.next_field() else {
        return Ok(ops);
    };
    op(alloc, false, word, fields)?;
    Ok(ops)
}

/// Reads one or more operations.
#[tactic(auto, unfolding(crate::specs::Bodies::write_at))]
pub fn write(alloc: Global, total: u64, fields: &mut Fields<'_>) -> Result<Rows<Op>, LineError>
    requires { total ≤ 1048576 }
    ensures { Gives (λ x. x) result (write_at total fields.old) }
{
    let ops = ops(alloc, total, fields)?;
    if ops.is_empty() {
        return Err(LineError::Bad(TextKind::BadLine));
    }
    Ok(ops)
}

/// Reads the side of a split.
#[tactic(auto, unfolding(crate::specs::Bodies::side_at))]
fn side(fields: &mut Fields<'_>) -> Result<Side, TextKind>
    ensures { TakesPlain result fields.new (side_at fields.old) }
{
    let word = fields.field()?;
    if is_word(word, "right") {
        return Ok(Side::Right);
    }
    if is_word(word, "left") {
        return Ok(Side::Left);
    }
    Err(TextKind::BadLine)
}

/// Reads one pair of a split, from its id on.
#[tactic(auto, unfolding(crate::specs::Bodies::pair_at))]
fn pair(
    alloc: Global,
    room: bool,
    field: &[u8],
    fields: &mut Fields<'_>,
) -> Result<(u64, Key), LineError>
    ensures { Takes result fields.new (pair_at room field.now fields.old) }
{
    let id = id_of(field)?;
    if !room {
        return Err(LineError::Bad(TextKind::Limit));
    }
    let key = fields.key(alloc)?;
    Ok((id, key))
}

/// Reads pairs to the end of the line, of a file that has `boots` region lines and pairs before them.
fn pairs(alloc: Global, boots: u64, fields: &mut Fields<'_>) -> Result<Rows<(u64, Key)>, LineError>
    requires { boots ≤ 4096 }
    ensures { Gives (λ x. x) result (pairs_at boots fields.old) }
{
    let mut pairs = Rows::new(alloc);
    for count in 0..SPLIT_PAIRS {
        let Some(field) = fields.next_field() else {
            return Ok(pairs);
        };
        let room = boots + count < BOOTS;
        let next = pair(alloc, room, field, fields)?;
        pairs.push(next)?;
    }
    let Some(field) = fields.next_field() else {
        return Ok(pairs);
    };
    pair(alloc, false, field, fields)?;
    Ok(pairs)
}

/// Reads an id, to the end of the line.
#[tactic(auto, unfolding(crate::specs::Bodies::target_at))]
pub fn target(fields: &mut Fields<'_>) -> Result<u64, TextKind>
    ensures { result ≡ target_at fields.old }
{
    let id = fields.id()?;
    fields.end()?;
    Ok(id)
}

/// Reads the source, the index and the number of carried entries of a commit.
#[tactic(auto, unfolding(crate::specs::Bodies::commit_at))]
pub fn commit(fields: &mut Fields<'_>) -> Result<(u64, u64, u64), TextKind>
    ensures value { result ≡ commit_at fields.old }
    ensures carried { IfOk result (λ c. c.2 ≤ c.1) }
{
    let source = fields.id()?;
    let commit = fields.number()?;
    let count = fields.number()?;
    if count > CARRIED {
        return Err(TextKind::Limit);
    }
    if count != 0 && commit < count + INIT_INDEX {
        return Err(TextKind::BadCarry);
    }
    fields.end()?;
    Ok((source, commit, count))
}

/// Returns whether a word begins a change of peers.
pub fn is_conf_word(word: &[u8]) -> bool
    ensures { result ≡ is_conf_word word.now }
{
    is_word(word, "add") || is_word(word, "remove")
}

/// Reads a change of peers, which only version 2 has.
#[tactic(auto, unfolding(crate::specs::Bodies::conf_at))]
pub fn conf(version: u64, word: &[u8], fields: &mut Fields<'_>) -> Result<Body, TextKind>
    ensures value { result ≡ conf_at version word.now fields.old }
    ensures operations { IfOk result (λ b. ops_in b ≡ 0) }
    ensures pairs { IfOk result (λ b. pairs_in b ≡ 0) }
{
    if version != 2 {
        return Err(TextKind::BadLine);
    }
    if is_word(word, "add") {
        let peer = target(fields)?;
        return Ok(Body::Conf {
            change: Change::Add(peer),
        });
    }
    if is_word(word, "remove") {
        let peer = target(fields)?;
        return Ok(Body::Conf {
            change: Change::Remove(peer),
        });
    }
    Err(TextKind::BadLine)
}

/// Reads ids to the end of the line, each above the one before, at most 64 of them.
fn peers(alloc: Global, fields: &mut Fields<'_>) -> Result<Rows<u64>, LineError>
    ensures { Gives (λ x. x) result (peers_at 64 0 fields.old) }
{
    let mut ids = Rows::new(alloc);
    let mut before = 0;
    for count in 0..PEERS {
        let Some(field) = fields.next_field() else {
            return Ok(ids);
        };
        let id = match id_of(field) {
            Ok(id) => id,
            Err(kind) => return Err(LineError::Bad(kind)),
        };
        if id <= before {
            return Err(LineError::Bad(TextKind::BadLine));
        }
        ids.push(id)?;
        before = id;
    }
    let Some(field) = fields.next_field() else {
        return Ok(ids);
    };
    match id_of(field) {
        Ok(_) => Err(LineError::Bad(TextKind::Limit)),
        Err(kind) => Err(LineError::Bad(kind)),
    }
}

/// Reads the peers of a region line: in version 2 one or more, in version 1 none.
#[tactic(auto, unfolding(crate::specs::Bodies::boot_peers_at))]
pub fn boot_peers(
    alloc: Global,
    version: u64,
    fields: &mut Fields<'_>,
) -> Result<Rows<u64>, LineError>
    ensures { Gives (λ x. x) result (boot_peers_at version fields.old) }
{
    if version != 2 {
        fields.end()?;
        return Ok(Rows::new(alloc));
    }
    let ids = peers(alloc, fields)?;
    if ids.is_empty() {
        return Err(LineError::Bad(TextKind::BadLine));
    }
    Ok(ids)
}

/// Returns whether a word begins a body.
pub fn is_body_word(word: &[u8]) -> bool
    ensures { result ≡ is_body_word word.now }
{
    is_word(word, "empty")
        || is_word(word, "write")
        || is_word(word, "split")
        || is_word(word, "prepare")
        || is_word(word, "commit")
        || is_word(word, "rollback")
}

/// The ids and the keys of pairs.
#[derive(Debug, Drop)]
struct Parts {
    ids: Rows<u64>,
    keys: Rows<Key>,
}

/// Returns pairs, taken apart.
fn parts_of(alloc: Global, pairs: Rows<(u64, Key)>) -> Result<Parts, NoMemory>
    ensures ids { IfOk result (λ r. r.ids ≡ map (λ p. p.0) pairs) }
    ensures keys { IfOk result (λ r. r.keys ≡ map (λ p. p.1) pairs) }
{
    let mut ids = Rows::with_room(alloc, pairs.len());
    let mut keys = Rows::with_room(alloc, pairs.len());
    for (id, key) in pairs.into_vec() {
        ids.push(id)?;
        keys.push(key)?;
    }
    Ok(Parts { ids, keys })
}

/// Reads the side and the pairs of a split, of a file that has `boots` region lines and pairs before them.
#[tactic(auto, unfolding(crate::specs::Bodies::split_at))]
pub fn split(alloc: Global, boots: u64, fields: &mut Fields<'_>) -> Result<Body, LineError>
    requires { boots ≤ 4096 }
    ensures { Gives (λ x. x) result (split_at boots fields.old) }
{
    let side = side(fields)?;
    let pairs = pairs(alloc, boots, fields)?;
    if pairs.is_empty() {
        return Err(LineError::Bad(TextKind::BadLine));
    }
    let Parts { ids, keys } = parts_of(alloc, pairs)?;
    Ok(Body::Split { side, ids, keys })
}

/// Reads a number, to the end of the line.
#[tactic(auto, unfolding(crate::specs::Bodies::last_number_at))]
pub fn last_number(fields: &mut Fields<'_>) -> Result<u64, TextKind>
    ensures { result ≡ last_number_at fields.old }
{
    let n = fields.number()?;
    fields.end()?;
    Ok(n)
}
