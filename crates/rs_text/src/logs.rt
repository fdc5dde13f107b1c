//! The canonical text of an input.

ghost use Rattle.std.specs.Prelude.{◌≡◌, ◌∷◌, [], Ok, IfOk};
ghost use Rattle.std.specs.List.{flat_map};
ghost use Rattle.rs_entry.specs.WellFormed.{WellFormed};
ghost use Rattle.rs_field.specs.Forms.{Appends, more_text, fields_text};
ghost use Rattle.rs_text.specs.Reading.{read_text};
ghost use Rattle.rs_text.specs.Grammar.{Belongs};
ghost use Rattle.rs_text.specs.Logs.{op_forms, side, pair_forms, change_forms, body_forms, carried_body_forms, entry_forms, carried_forms, carry_forms, entry_lines, log_lines, region_forms, store_lines, text_of};

use crate::writing::{Block, Line, put_blocks, put_lines};
use rs_entry::{Body, Boot, Carried, CarriedBody, Change, Entry, Input, Log, Op, Side, Store};
use rs_field::{Text, put_number, put_word};
use rs_key::{Key, NoMemory};
use std::alloc::Global;

/// Appends an operation behind other fields.
fn put_op(out: &mut Vec<u8>, op: &Op) -> Result<(), NoMemory>
    ensures { Appends result out.old out.new (more_text (op_forms op.now)) }
{
    match op {
        Op::Put(key, value) => {
            put_word(out, " put")?;
            key.put(out)?;
            value.put(out)
        }
        Op::Delete(key) => {
            put_word(out, " del")?;
            key.put(out)
        }
    }
}

/// Appends operations behind other fields.
fn put_ops(out: &mut Vec<u8>, ops: &[Op]) -> Result<(), NoMemory>
    ensures { Appends result out.old out.new (more_text (flat_map op_forms ops.now)) }
{
    for op in ops {
        put_op(out, op)?;
    }
    Ok(())
}

/// Appends a side behind other fields.
fn put_side(out: &mut Vec<u8>, s: Side) -> Result<(), NoMemory>
    ensures { Appends result out.old out.new (more_text (side s ∷ [])) }
{
    match s {
        Side::Right => put_word(out, " right"),
        Side::Left => put_word(out, " left"),
    }
}

/// Appends the pairs of a split behind other fields.
fn put_pairs(out: &mut Vec<u8>, ids: &[u64], keys: &[Key]) -> Result<(), NoMemory>
    ensures { Appends result out.old out.new (more_text (pair_forms ids.now keys.now)) }
{
    for i in 0..ids.len() {
        if i >= keys.len() {
            return Ok(());
        }
        ids[i].put(out)?;
        keys[i].put(out)?;
    }
    Ok(())
}

/// Appends a change of peers behind other fields.
fn put_change(out: &mut Vec<u8>, change: Change) -> Result<(), NoMemory>
    ensures { Appends result out.old out.new (more_text (change_forms change)) }
{
    match change {
        Change::Add(peer) => {
            put_word(out, " add")?;
            peer.put(out)
        }
        Change::Remove(peer) => {
            put_word(out, " remove")?;
            peer.put(out)
        }
    }
}

/// Appends a body behind other fields.
fn put_body(out: &mut Vec<u8>, body: &Body) -> Result<(), NoMemory>
    ensures { Appends result out.old out.new (more_text (body_forms body.now)) }
{
    match body {
        Body::Empty => put_word(out, " empty"),
        Body::Write(ops) => {
            put_word(out, " write")?;
            put_ops(out, ops.as_slice())
        }
        Body::Split { side, ids, keys } => {
            put_word(out, " split")?;
            put_side(out, *side)?;
            put_pairs(out, ids.as_slice(), keys.as_slice())
        }
        Body::Prepare { target } => {
            put_word(out, " prepare")?;
            target.put(out)
        }
        Body::Commit {
            source,
            commit,
            carried,
        } => {
            put_word(out, " commit")?;
            source.put(out)?;
            commit.put(out)?;
            (carried.len() as u64).put(out)
        }
        Body::Rollback { commit } => {
            put_word(out, " rollback")?;
            commit.put(out)
        }
        Body::Conf { change } => put_change(out, *change),
    }
}

/// Appends the body of a carried entry behind other fields.
fn put_carried_body(out: &mut Vec<u8>, body: &CarriedBody) -> Result<(), NoMemory>
    ensures { Appends result out.old out.new (more_text (carried_body_forms body.now)) }
{
    match body {
        CarriedBody::Empty => put_word(out, " empty"),
        CarriedBody::Write(ops) => {
            put_word(out, " write")?;
            put_ops(out, ops.as_slice())
        }
        CarriedBody::Prepare { target } => {
            put_word(out, " prepare")?;
            target.put(out)
        }
    }
}

/// Appends the fields of a region's line.
pub fn put_region(out: &mut Vec<u8>, boot: &Boot) -> Result<(), NoMemory>
    ensures { Appends result out.old out.new (fields_text (region_forms boot.now)) }
{
    put_word(out, "region")?;
    boot.region.put(out)?;
    boot.range.put(out)?;
    boot.peers.put(out)
}

impl Line for Boot {
    ghost line = { region_forms };

    fn put_line(&self, out: &mut Vec<u8>) -> Result<(), NoMemory> {
        put_region(out, self)?;
        put_word(out, "\n")
    }
}

/// Appends the fields of an entry's own line.
pub fn put_entry(out: &mut Vec<u8>, entry: &Entry) -> Result<(), NoMemory>
    ensures { Appends result out.old out.new (fields_text (entry_forms entry.now)) }
{
    put_number(out, entry.index)?;
    entry.epoch.put(out)?;
    put_body(out, &entry.body)
}

/// Appends the fields of a carried entry, without the word `carry`.
pub fn put_carried(out: &mut Vec<u8>, carried: &Carried) -> Result<(), NoMemory>
    ensures { Appends result out.old out.new (fields_text (carried_forms carried.now)) }
{
    put_number(out, carried.index)?;
    carried.epoch.put(out)?;
    put_carried_body(out, &carried.body)
}

impl Line for Carried {
    ghost line = { carry_forms };

    fn put_line(&self, out: &mut Vec<u8>) -> Result<(), NoMemory> {
        put_word(out, "carry ")?;
        put_carried(out, self)?;
        put_word(out, "\n")
    }
}

impl Block for Entry {
    ghost lines = { entry_lines };

    fn put_block(&self, out: &mut Vec<u8>) -> Result<(), NoMemory> {
        put_entry(out, self)?;
        put_word(out, "\n")?;
        match &self.body {
            Body::Commit { carried, .. } => put_lines(out, carried),
            _ => Ok(()),
        }
    }
}

impl Block for Log {
    ghost lines = { log_lines };

    fn put_block(&self, out: &mut Vec<u8>) -> Result<(), NoMemory> {
        put_word(out, "log")?;
        self.region.put(out)?;
        put_word(out, "\n")?;
        put_blocks(out, &self.entries)
    }
}

impl Block for Store {
    ghost lines = { store_lines };

    fn put_block(&self, out: &mut Vec<u8>) -> Result<(), NoMemory> {
        put_word(out, "store")?;
        self.id.put(out)?;
        put_word(out, "\n")?;
        put_lines(out, &self.regions)?;
        put_blocks(out, &self.logs)
    }
}

/// Returns the canonical text of an input: one space between fields, hexadecimal digits in lower case.
///
/// Where the input is well formed the text belongs to it (`belongs`), and is read again as it (`again`).
/// Any other input is written too, and no more is said of its text.
pub fn write_logs(alloc: Global, input: &Input) -> Result<Vec<u8>, NoMemory>
    ensures text { IfOk result (λ v. v.items ≡ text_of input.now) }
    ensures belongs { IfOk result (λ v. WellFormed input.now → Belongs v.items input.now) }
    ensures again { IfOk result (λ v. WellFormed input.now → read_text v.items ≡ Ok input.now) }
{
    let text = canonical_text(alloc, input)?;
    Ok(text)
}

/// Returns the canonical text of an input.
#[tactic(auto, unfolding(crate::specs::Logs::text_of, crate::specs::Logs::lines_of))]
fn canonical_text(alloc: Global, input: &Input) -> Result<Vec<u8>, NoMemory>
    ensures { IfOk result (λ v. v.items ≡ text_of input.now) }
{
    let mut out = Vec::new(alloc);
    put_word(&mut out, "raftreplay")?;
    input.version.put(&mut out)?;
    put_word(&mut out, "\n")?;
    put_blocks(&mut out, &input.stores)?;
    put_word(&mut out, "end\n")?;
    Ok(out)
}
