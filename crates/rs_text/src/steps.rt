//! Lines, and what they make of the progress.

ghost use Rattle.std.specs.Prelude.{◌≡◌, ◌≤◌, ◌<◌, ◌+◌, slice_index, None, OnOk, IfOk};
ghost use Rattle.rs_entry.specs.Entries.{ops_in, carried_ops_in, pairs_in};
ghost use Rattle.rs_field.specs.Lines.{fields_of};
ghost use Rattle.rs_field.specs.Fields.{is_digit};
ghost use Rattle.rs_field.specs.Gives.{Gives, TakesPlain};
ghost use Rattle.rs_text.specs.Bodies.{carried_body_at, bad_word};
ghost use Rattle.rs_text.specs.Steps.{Makes, EndsLine, Counts, Opens, close_log, close_store, store_line, region_line, log_line, epoch_at, index_of, body_at, end_line, entry_line, entry_to, commit_to, carried_to, carry_line, free_line, step};

use crate::bodies;
use crate::progress::{OpenCommit, Progress};
use rs_entry::{Body, Boot, Carried, CarriedBody, Entry, FIRST_INDEX, Log, Store};
use rs_field::{Fields, LineError, TextKind, is_word, number_of};
use rs_key::{Epoch, NoMemory, Range, Rows};
use std::alloc::Global;
use std::mem;

/// The most stores of a file.
const STORES: usize = 64;

/// The most entry and carry lines of a file.
const LINES: u64 = 1_048_576;

/// Closes the open log.
#[tactic(auto, unfolding(crate::specs::Steps::close_log))]
pub fn close_log(alloc: Global, p: &mut Progress) -> Result<(), NoMemory>
    requires { Counts p.old }
    ensures value { OnOk result (p.new ≡ close_log p.old) }
    ensures counts { OnOk result (Counts p.new) }
{
    if p.log == 0 {
        return Ok(());
    }
    let entries = mem::replace(&mut p.entries, Rows::new(alloc));
    p.logs.push(Log {
        region: p.log,
        entries,
    })?;
    p.log = 0;
    p.next = FIRST_INDEX;
    Ok(())
}

/// Closes the open store.
#[tactic(auto, unfolding(crate::specs::Steps::close_store))]
pub fn close_store(alloc: Global, p: &mut Progress) -> Result<(), NoMemory>
    requires { Counts p.old }
    ensures value { OnOk result (p.new ≡ close_store p.old) }
    ensures counts { OnOk result (Counts p.new) }
{
    if p.store == 0 {
        return Ok(());
    }
    let regions = mem::replace(&mut p.regions, Rows::new(alloc));
    let logs = mem::replace(&mut p.logs, Rows::new(alloc));
    p.stores.push(Store {
        id: p.store,
        regions,
        logs,
    })?;
    p.store = 0;
    p.last_region = 0;
    Ok(())
}

#[tactic(auto, unfolding(crate::specs::Steps::store_line))]
fn store_line(alloc: Global, p: &mut Progress, fields: &mut Fields<'_>) -> Result<(), LineError>
    requires { Counts p.old }
    ensures value { Makes result p.new (store_line p.old fields.old) }
    ensures counts { OnOk result (Counts p.new) }
{
    let id = fields.id()?;
    let open = usize::from(p.store != 0);
    if p.stores.len() >= STORES - open {
        return Err(LineError::Bad(TextKind::Limit));
    }
    if id <= p.store {
        return Err(LineError::Bad(TextKind::BadLine));
    }
    fields.end()?;
    close_log(alloc, p)?;
    close_store(alloc, p)?;
    p.store = id;
    Ok(())
}

#[tactic(auto, unfolding(crate::specs::Steps::log_line))]
fn log_line(alloc: Global, p: &mut Progress, fields: &mut Fields<'_>) -> Result<(), LineError>
    requires { Counts p.old }
    ensures value { Makes result p.new (log_line p.old fields.old) }
    ensures counts { OnOk result (Counts p.new) }
{
    let id = fields.id()?;
    if id <= p.log {
        return Err(LineError::Bad(TextKind::BadLine));
    }
    fields.end()?;
    close_log(alloc, p)?;
    p.log = id;
    p.next = FIRST_INDEX;
    Ok(())
}

#[tactic(auto, unfolding(crate::specs::Steps::region_line))]
fn region_line(alloc: Global, p: &mut Progress, fields: &mut Fields<'_>) -> Result<(), LineError>
    requires { Counts p.old }
    ensures value { Makes result p.new (region_line p.old fields.old) }
    ensures counts { OnOk result (Counts p.new) }
{
    let region = fields.id()?;
    if p.boots >= bodies::BOOTS {
        return Err(LineError::Bad(TextKind::Limit));
    }
    if region <= p.last_region {
        return Err(LineError::Bad(TextKind::BadLine));
    }
    let start = fields.bound(alloc)?;
    let end = fields.bound(alloc)?;
    let Ok(range) = Range::new(start, end) else {
        return Err(LineError::Bad(TextKind::BadKey));
    };
    let peers = bodies::boot_peers(alloc, p.version, fields)?;
    p.regions.push(Boot {
        region,
        range,
        peers,
    })?;
    p.last_region = region;
    p.boots += 1;
    Ok(())
}

/// Reads the epoch of a line.
#[tactic(auto, unfolding(crate::specs::Steps::epoch_at))]
fn epoch(fields: &mut Fields<'_>) -> Result<Epoch, TextKind>
    ensures { TakesPlain result fields.new (epoch_at fields.old) }
{
    let conf_ver = fields.number()?;
    let version = fields.number()?;
    Ok(Epoch { conf_ver, version })
}

/// Reads the index of a line, of a file that has `lines` entry and carry lines before it.
#[tactic(auto, unfolding(crate::specs::Steps::index_of))]
fn index(lines: u64, field: &[u8]) -> Result<u64, TextKind>
    ensures value { result ≡ index_of lines field.now }
    ensures room { OnOk result (lines < 1048576) }
{
    let index = number_of(field)?;
    if lines >= LINES {
        return Err(TextKind::Limit);
    }
    Ok(index)
}

/// Reads the body of an entry, but for a commit.
#[tactic(auto, unfolding(crate::specs::Steps::body_at))]
fn body(
    alloc: Global,
    p: &Progress,
    word: &[u8],
    fields: &mut Fields<'_>,
) -> Result<Body, LineError>
    requires boots { p.now.boots ≤ 4096 }
    requires operations { p.now.operations ≤ 1048576 }
    ensures value { Gives (λ x. x) result (body_at p.now word.now fields.old) }
    ensures operations { IfOk result (λ b. p.now.operations + ops_in b ≤ 1048576) }
    ensures boots { IfOk result (λ b. p.now.boots + pairs_in b ≤ 4096) }
{
    if is_word(word, "empty") {
        fields.end()?;
        return Ok(Body::Empty);
    }
    if is_word(word, "write") {
        let ops = bodies::write(alloc, p.operations, fields)?;
        return Ok(Body::Write(ops));
    }
    if is_word(word, "split") {
        let body = bodies::split(alloc, p.boots, fields)?;
        return Ok(body);
    }
    if is_word(word, "prepare") {
        let target = bodies::target(fields)?;
        return Ok(Body::Prepare { target });
    }
    if is_word(word, "rollback") {
        let commit = bodies::last_number(fields)?;
        return Ok(Body::Rollback { commit });
    }
    let body = bodies::conf(p.version, word, fields)?;
    Ok(body)
}

/// Adds an entry to the open log.
fn add_entry(p: &mut Progress, entry: Entry) -> Result<(), NoMemory>
    requires counts { Counts p.old }
    requires operations { p.old.operations + ops_in entry.body ≤ 1048576 }
    requires boots { p.old.boots + pairs_in entry.body ≤ 4096 }
    requires lines { p.old.lines < 1048576 }
    ensures value { OnOk result (p.new ≡ entry_to entry p.old) }
    ensures counts { OnOk result (Counts p.new) }
{
    let operations = operations_in(&entry.body);
    let pairs = pairs_in(&entry.body);
    p.entries.push(entry)?;
    p.next += 1;
    p.lines += 1;
    p.operations += operations;
    p.boots += pairs;
    Ok(())
}

fn operations_in(body: &Body) -> u64
    ensures { result ≡ ops_in body.now }
{
    match body {
        Body::Write(ops) => ops.len() as u64,
        _ => 0,
    }
}

fn pairs_in(body: &Body) -> u64
    ensures { result ≡ pairs_in body.now }
{
    match body {
        Body::Split { ids, .. } => ids.len() as u64,
        _ => 0,
    }
}

/// Reads a commit, whose carried entries may follow.
fn add_commit(
    alloc: Global,
    p: &mut Progress,
    index: u64,
    epoch: Epoch,
    parts: (u64, u64, u64),
) -> Result<(), NoMemory>
    requires counts { Counts p.old }
    requires lines { p.old.lines < 1048576 }
    requires carried { parts.2 ≤ parts.1 }
    ensures value { OnOk result (p.new ≡ commit_to index epoch parts p.old) }
    ensures counts { OnOk result (Counts p.new) }
{
    let (source, commit, count) = parts;
    if count == 0 {
        let carried = Rows::new(alloc);
        let body = Body::Commit {
            source,
            commit,
            carried,
        };
        return add_entry(p, Entry { index, epoch, body });
    }
    p.next += 1;
    p.lines += 1;
    p.commit = Some(OpenCommit {
        index,
        epoch,
        source,
        commit,
        count,
        carried: Rows::new(alloc),
    });
    Ok(())
}

/// Reads an entry line, from its index on.
#[tactic(auto, unfolding(crate::specs::Steps::entry_line))]
fn entry_line(
    alloc: Global,
    p: &mut Progress,
    word: &[u8],
    fields: &mut Fields<'_>,
) -> Result<(), LineError>
    requires { Counts p.old }
    ensures value { Makes result p.new (entry_line p.old word.now fields.old) }
    ensures counts { OnOk result (Counts p.new) }
{
    let index = index(p.lines, word)?;
    if index != p.next {
        return Err(LineError::Bad(TextKind::BadIndex));
    }
    let epoch = epoch(fields)?;
    let word = fields.field()?;
    if is_word(word, "commit") {
        let parts = bodies::commit(fields)?;
        add_commit(alloc, p, index, epoch, parts)?;
        return Ok(());
    }
    let body = body(alloc, p, word, fields)?;
    add_entry(p, Entry { index, epoch, body })?;
    Ok(())
}

/// Reads the line `end`.
fn end_line(p: &mut Progress, fields: &mut Fields<'_>) -> Result<(), TextKind>
    requires { Counts p.old }
    ensures value { EndsLine result p.new (end_line p.old fields.old) }
    ensures counts { OnOk result (Counts p.new) }
{
    fields.end()?;
    p.ended = true;
    Ok(())
}

/// Reads a line after which no carried lines are left.
#[tactic(auto, unfolding(crate::specs::Steps::free_line))]
fn free_line(
    alloc: Global,
    p: &mut Progress,
    word: &[u8],
    fields: &mut Fields<'_>,
) -> Result<(), LineError>
    requires { Counts p.old }
    ensures value { Makes result p.new (free_line p.old word.now fields.old) }
    ensures counts { OnOk result (Counts p.new) }
{
    if is_word(word, "store") {
        return store_line(alloc, p, fields);
    }
    if is_word(word, "end") {
        end_line(p, fields)?;
        return Ok(());
    }
    if is_word(word, "region") {
        if p.store == 0 || p.log != 0 {
            return Err(LineError::Bad(TextKind::BadLine));
        }
        return region_line(alloc, p, fields);
    }
    if is_word(word, "log") {
        if p.store == 0 {
            return Err(LineError::Bad(TextKind::BadLine));
        }
        return log_line(alloc, p, fields);
    }
    if begins_with_digit(word) {
        if p.log == 0 {
            return Err(LineError::Bad(TextKind::BadLine));
        }
        return entry_line(alloc, p, word, fields);
    }
    Err(LineError::Bad(TextKind::BadLine))
}

fn begins_with_digit(word: &[u8]) -> bool
    ensures { result ≡ is_digit (slice_index word.now 0) }
{
    match word {
        [] => false,
        [b, ..] => b'0' <= *b && *b <= b'9',
    }
}

/// Reads the body of a carried entry, which is the last or not.
#[tactic(auto, unfolding(crate::specs::Bodies::carried_body_at))]
fn carried_body(
    alloc: Global,
    version: u64,
    operations: u64,
    last: bool,
    word: &[u8],
    fields: &mut Fields<'_>,
) -> Result<CarriedBody, LineError>
    requires { operations ≤ 1048576 }
    ensures value { Gives (λ x. x) result (carried_body_at version operations last word.now fields.old) }
    ensures operations { IfOk result (λ b. operations + carried_ops_in b ≤ 1048576) }
{
    if last {
        if !is_word(word, "prepare") {
            return Err(LineError::Bad(bad_word(version, word)));
        }
        let target = bodies::target(fields)?;
        return Ok(CarriedBody::Prepare { target });
    }
    if is_word(word, "empty") {
        fields.end()?;
        return Ok(CarriedBody::Empty);
    }
    if is_word(word, "write") {
        let ops = bodies::write(alloc, operations, fields)?;
        return Ok(CarriedBody::Write(ops));
    }
    Err(LineError::Bad(bad_word(version, word)))
}

/// Returns what is wrong with a word that no carried entry has here.
fn bad_word(version: u64, word: &[u8]) -> TextKind
    ensures { result ≡ bad_word version word.now }
{
    if bodies::is_body_word(word) || (version == 2 && bodies::is_conf_word(word)) {
        TextKind::BadCarry
    } else {
        TextKind::BadLine
    }
}

fn carried_operations_in(body: &CarriedBody) -> u64
    ensures { result ≡ carried_ops_in body.now }
{
    match body {
        CarriedBody::Write(ops) => ops.len() as u64,
        _ => 0,
    }
}

/// Adds a carried entry to the open commit, and after the last one the commit to the log.
fn add_carried(p: &mut Progress, mut pending: OpenCommit, carried: Carried) -> Result<(), NoMemory>
    requires counts { Counts p.old }
    requires pending { Opens pending }
    requires operations { p.old.operations + carried_ops_in carried.body ≤ 1048576 }
    requires lines { p.old.lines < 1048576 }
    requires none { p.old.commit ≡ None }
    ensures value { OnOk result (p.new ≡ carried_to pending carried p.old) }
    ensures counts { OnOk result (Counts p.new) }
{
    let operations = carried_operations_in(&carried.body);
    pending.carried.push(carried)?;
    p.lines += 1;
    p.operations += operations;
    if pending.carried.len() as u64 != pending.count {
        p.commit = Some(pending);
        return Ok(());
    }
    let OpenCommit {
        index,
        epoch,
        source,
        commit,
        carried,
        ..
    } = pending;
    let body = Body::Commit {
        source,
        commit,
        carried,
    };
    p.entries.push(Entry { index, epoch, body })?;
    Ok(())
}

/// Reads a carry line, from its second field on.
#[tactic(auto, unfolding(crate::specs::Steps::carry_line))]
fn carry_line(
    alloc: Global,
    p: &mut Progress,
    pending: OpenCommit,
    fields: &mut Fields<'_>,
) -> Result<(), LineError>
    requires counts { Counts p.old }
    requires pending { Opens pending }
    requires none { p.old.commit ≡ None }
    ensures value { Makes result p.new (carry_line p.old pending fields.old) }
    ensures counts { OnOk result (Counts p.new) }
{
    let field = fields.field()?;
    let index = index(p.lines, field)?;
    let left = pending.count - (pending.carried.len() as u64 + 1);
    if index != pending.commit - left {
        return Err(LineError::Bad(TextKind::BadCarry));
    }
    let epoch = epoch(fields)?;
    let word = fields.field()?;
    let body = carried_body(alloc, p.version, p.operations, left == 0, word, fields)?;
    add_carried(p, pending, Carried { index, epoch, body })?;
    Ok(())
}

/// Reads one ended line.
#[tactic(auto, unfolding(crate::specs::Steps::step, crate::specs::Steps::line_after, crate::specs::Steps::carry_or_bad))]
pub fn step(alloc: Global, p: &mut Progress, line: &[u8]) -> Result<(), LineError>
    requires { Counts p.old }
    ensures value { Makes result p.new (step p.old (fields_of line.now)) }
    ensures counts { OnOk result (Counts p.new) }
{
    let mut fields = Fields::new(line);
    let word = fields.field()?;
    if p.ended {
        return Err(LineError::Bad(TextKind::BadLine));
    }
    let Some(pending) = p.commit.take() else {
        return free_line(alloc, p, word, &mut fields);
    };
    if !is_word(word, "carry") {
        return Err(LineError::Bad(TextKind::BadLine));
    }
    carry_line(alloc, p, pending, &mut fields)
}
