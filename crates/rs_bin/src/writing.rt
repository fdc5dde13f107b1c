//! The binary form of an input, written.

ghost use Rattle.std.specs.Prelude.{◌≡◌, ℕ, List, Ok, IfOk, length};
ghost use Rattle.std.specs.List.{flat_map};
ghost use Rattle.rs_entry.specs.WellFormed.{WellFormed};
ghost use Rattle.rs_bin.specs.Forms.{u8, u16, u32, u64, string_form, bound_form, side_form, pairs_form, write_form, carried_body_form, epoch_form, change_form, commit_form, body_form, peers_form, form_of};
ghost use Rattle.rs_bin.specs.Grammar.{AreCounted, Belongs, StandsAlone};
ghost use Rattle.rs_bin.specs.Reading.{read_form};
ghost use Rattle.rs_bin.specs.Writing.{Appends};

use byteorder::{BigEndian, ByteOrder};
use rs_entry::{Body, Boot, Carried, CarriedBody, Change, Entry, Input, Log, Op, Side, Store};
use rs_key::{Epoch, Key, NoMemory, Rows};
use std::alloc::Global;

// ---- fields

/// Appends a number in eight bytes, as all numbers are: the high byte first.
#[tactic(auto, unfolding(crate::specs::Forms::u64))]
fn put_u64(out: &mut Vec<u8>, n: u64) -> Result<(), NoMemory>
    ensures { Appends result out.old out.new (u64 n) }
{
    let mut bytes = [0; 8];
    BigEndian::write_u64(&mut bytes, n);
    out.extend_from_slice(&bytes)?;
    Ok(())
}

/// Appends the low four bytes of a number.
#[tactic(auto, unfolding(crate::specs::Forms::u32))]
fn put_u32(out: &mut Vec<u8>, n: u64) -> Result<(), NoMemory>
    ensures { Appends result out.old out.new (u32 n) }
{
    let mut bytes = [0; 8];
    BigEndian::write_u64(&mut bytes, n);
    out.extend_from_slice(&bytes[4..])?;
    Ok(())
}

/// Appends the low two bytes of a number.
#[tactic(auto, unfolding(crate::specs::Forms::u16))]
fn put_u16(out: &mut Vec<u8>, n: u64) -> Result<(), NoMemory>
    ensures { Appends result out.old out.new (u16 n) }
{
    let mut bytes = [0; 8];
    BigEndian::write_u64(&mut bytes, n);
    out.extend_from_slice(&bytes[6..])?;
    Ok(())
}

/// Appends the low byte of a number.
#[tactic(auto, unfolding(crate::specs::Forms::u8))]
fn put_u8(out: &mut Vec<u8>, n: u64) -> Result<(), NoMemory>
    ensures { Appends result out.old out.new (u8 n) }
{
    let mut bytes = [0; 8];
    BigEndian::write_u64(&mut bytes, n);
    out.extend_from_slice(&bytes[7..])?;
    Ok(())
}

/// Appends a key or a value, behind its length.
fn put_string(out: &mut Vec<u8>, bytes: &[u8]) -> Result<(), NoMemory>
    ensures { Appends result out.old out.new (string_form bytes.now) }
{
    put_u16(out, bytes.len() as u64)?;
    out.extend_from_slice(bytes)?;
    Ok(())
}

/// Appends a bound of a range: a length of 0 if the bound is missing.
fn put_bound(out: &mut Vec<u8>, bound: &Option<Key>) -> Result<(), NoMemory>
    ensures { Appends result out.old out.new (bound_form bound.now) }
{
    match bound {
        None => put_u16(out, 0),
        Some(key) => put_string(out, key.as_bytes()),
    }
}

// ---- lists

/// An element of a list of a file.
trait Block {
    // Its bytes in a file of the version.
    ghost form: { ℕ → Self → List ℕ };

    /// Appends it. Where memory runs out a part of it may have been appended.
    fn put(&self, out: &mut Vec<u8>, version: u64) -> Result<(), NoMemory>
        ensures { Appends result out.old out.new (form version self.now) };
}

/// Appends all, one after another.
fn put_all<T: Block>(out: &mut Vec<u8>, version: u64, rows: &Rows<T>) -> Result<(), NoMemory>
    ensures { Appends result out.old out.new (flat_map (T.form version) rows.now) }
{
    for row in rows.as_slice() {
        row.put(out, version)?;
    }
    Ok(())
}

// ---- bodies

impl Block for Op {
    ghost use Rattle.rs_bin.specs.Forms.{op_form};

    ghost form = { λ _ x. op_form x };

    fn put(&self, out: &mut Vec<u8>, _version: u64) -> Result<(), NoMemory> {
        match self {
            Op::Put(key, value) => {
                put_u8(out, 0)?;
                put_string(out, key.as_bytes())?;
                put_string(out, value.as_bytes())
            }
            Op::Delete(key) => {
                put_u8(out, 1)?;
                put_string(out, key.as_bytes())
            }
        }
    }
}

/// Appends how many operations there are, and each.
fn put_write(out: &mut Vec<u8>, version: u64, ops: &Rows<Op>) -> Result<(), NoMemory>
    ensures { Appends result out.old out.new (write_form ops.now) }
{
    put_u16(out, ops.len() as u64)?;
    put_all(out, version, ops)
}

/// Appends the side of a split.
fn put_side(out: &mut Vec<u8>, side: Side) -> Result<(), NoMemory>
    ensures { Appends result out.old out.new (side_form side) }
{
    match side {
        Side::Right => put_u8(out, 0),
        Side::Left => put_u8(out, 1),
    }
}

/// Appends ids and keys in turn.
fn put_pairs(out: &mut Vec<u8>, ids: &[u64], keys: &[Key]) -> Result<(), NoMemory>
    ensures { Appends result out.old out.new (pairs_form ids.now keys.now) }
{
    for i in 0..ids.len() {
        if i >= keys.len() {
            return Ok(());
        }
        put_u64(out, ids[i])?;
        put_string(out, keys[i].as_bytes())?;
    }
    Ok(())
}

/// Appends `conf_ver`, and `version`.
fn put_epoch(out: &mut Vec<u8>, epoch: Epoch) -> Result<(), NoMemory>
    ensures { Appends result out.old out.new (epoch_form epoch) }
{
    put_u64(out, epoch.conf_ver)?;
    put_u64(out, epoch.version)
}

/// Appends the tag of a carried entry's body, and what follows it.
fn put_carried_body(out: &mut Vec<u8>, version: u64, body: &CarriedBody) -> Result<(), NoMemory>
    ensures { Appends result out.old out.new (carried_body_form body.now) }
{
    match body {
        CarriedBody::Empty => put_u8(out, 0),
        CarriedBody::Write(ops) => {
            put_u8(out, 1)?;
            put_write(out, version, ops)
        }
        CarriedBody::Prepare { target } => {
            put_u8(out, 3)?;
            put_u64(out, *target)
        }
    }
}

impl Block for Carried {
    ghost use Rattle.rs_bin.specs.Forms.{carried_form};

    ghost form = { λ _ x. carried_form x };

    fn put(&self, out: &mut Vec<u8>, version: u64) -> Result<(), NoMemory> {
        put_epoch(out, self.epoch)?;
        put_carried_body(out, version, &self.body)
    }
}

/// Appends the tag of a change of peers, and the peer.
fn put_change(out: &mut Vec<u8>, change: Change) -> Result<(), NoMemory>
    ensures { Appends result out.old out.new (change_form change) }
{
    match change {
        Change::Add(peer) => {
            put_u8(out, 6)?;
            put_u64(out, peer)
        }
        Change::Remove(peer) => {
            put_u8(out, 7)?;
            put_u64(out, peer)
        }
    }
}

/// Appends the source of a commit, its index, how many entries it carries, and each.
fn put_commit(
    out: &mut Vec<u8>,
    version: u64,
    source: u64,
    commit: u64,
    carried: &Rows<Carried>,
) -> Result<(), NoMemory>
    ensures { Appends result out.old out.new (commit_form source commit carried.now) }
{
    put_u64(out, source)?;
    put_u64(out, commit)?;
    put_u16(out, carried.len() as u64)?;
    put_all(out, version, carried)
}

/// Appends the tag of a body, and what follows it.
fn put_body(out: &mut Vec<u8>, version: u64, body: &Body) -> Result<(), NoMemory>
    ensures { Appends result out.old out.new (body_form body.now) }
{
    match body {
        Body::Empty => put_u8(out, 0),
        Body::Write(ops) => {
            put_u8(out, 1)?;
            put_write(out, version, ops)
        }
        Body::Split { side, ids, keys } => {
            put_u8(out, 2)?;
            put_side(out, *side)?;
            put_u8(out, ids.len() as u64)?;
            put_pairs(out, ids.as_slice(), keys.as_slice())
        }
        Body::Prepare { target } => {
            put_u8(out, 3)?;
            put_u64(out, *target)
        }
        Body::Commit {
            source,
            commit,
            carried,
        } => {
            put_u8(out, 4)?;
            put_commit(out, version, *source, *commit, carried)
        }
        Body::Rollback { commit } => {
            put_u8(out, 5)?;
            put_u64(out, *commit)
        }
        Body::Conf { change } => put_change(out, *change),
    }
}

impl Block for Entry {
    ghost use Rattle.rs_bin.specs.Forms.{entry_form};

    ghost form = { λ _ x. entry_form x };

    fn put(&self, out: &mut Vec<u8>, version: u64) -> Result<(), NoMemory> {
        put_epoch(out, self.epoch)?;
        put_body(out, version, &self.body)
    }
}

// ---- the file

impl Block for Log {
    ghost use Rattle.rs_bin.specs.Forms.{log_form};

    ghost form = { λ _ x. log_form x };

    fn put(&self, out: &mut Vec<u8>, version: u64) -> Result<(), NoMemory> {
        put_u64(out, self.region)?;
        put_u32(out, self.entries.len() as u64)?;
        put_all(out, version, &self.entries)
    }
}

impl Block for u64 {
    ghost use Rattle.rs_bin.specs.Forms.{u64};

    ghost form = { λ _ x. u64 x };

    fn put(&self, out: &mut Vec<u8>, _version: u64) -> Result<(), NoMemory> {
        put_u64(out, *self)
    }
}

/// Appends how many peers there are, and each, in version 2 alone.
fn put_peers(out: &mut Vec<u8>, version: u64, peers: &Rows<u64>) -> Result<(), NoMemory>
    ensures { Appends result out.old out.new (peers_form version peers.now) }
{
    if version != 2 {
        return Ok(());
    }
    put_u8(out, peers.len() as u64)?;
    put_all(out, version, peers)
}

impl Block for Boot {
    ghost use Rattle.rs_bin.specs.Forms.{region_form};

    ghost form = { region_form };

    fn put(&self, out: &mut Vec<u8>, version: u64) -> Result<(), NoMemory> {
        put_u64(out, self.region)?;
        put_bound(out, self.range.start())?;
        put_bound(out, self.range.end())?;
        put_peers(out, version, &self.peers)
    }
}

impl Block for Store {
    ghost use Rattle.rs_bin.specs.Forms.{store_form};

    ghost form = { store_form };

    fn put(&self, out: &mut Vec<u8>, version: u64) -> Result<(), NoMemory> {
        put_u64(out, self.id)?;
        put_u32(out, self.regions.len() as u64)?;
        put_all(out, version, &self.regions)?;
        put_u32(out, self.logs.len() as u64)?;
        put_all(out, version, &self.logs)
    }
}

/// Returns the binary form of any input.
#[tactic(auto, unfolding(crate::specs::Forms::form_of))]
fn form(alloc: Global, input: &Input) -> Result<Vec<u8>, NoMemory>
    ensures { IfOk result (λ bytes. bytes.items ≡ form_of input.now) }
{
    let mut out = Vec::new(alloc);
    put_u32(&mut out, 0x5252_4c31)?;
    put_u8(&mut out, input.version)?;
    put_u32(&mut out, input.stores.len() as u64)?;
    put_all(&mut out, input.version, &input.stores)?;
    Ok(out)
}

/// Returns the binary form of a well-formed input, of which each store has fewer than 2^32 logs: docs/FORMAT.md, "A
/// binary file".
///
/// NoMemory is want of memory, and leaves nothing. What the clauses say:
///
/// - `form`: the bytes are the binary form, so an input has one;
/// - `belongs`: they belong to the input;
/// - `alone`: of all bytes that begin with these, only these themselves belong to an input;
/// - `again`: they are read as this input.
pub fn write_binary(alloc: Global, input: &Input) -> Result<Vec<u8>, NoMemory>
    requires well_formed { WellFormed input.now }
    requires counted { AreCounted input.now }
    ensures form { IfOk result (λ bytes. bytes.items ≡ form_of input.now) }
    ensures belongs { IfOk result (λ bytes. Belongs bytes.items input.now) }
    ensures alone { IfOk result (λ bytes. StandsAlone bytes.items input.now) }
    ensures again { IfOk result (λ bytes. read_form bytes.items ≡ Ok input.now) }
{
    let bytes = form(alloc, input)?;
    Ok(bytes)
}
