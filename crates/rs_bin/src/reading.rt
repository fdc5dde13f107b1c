//! A whole file, read.

ghost use Rattle.std.specs.Prelude.{◌≡◌, ◌≤◌, Ok, IfOk, length};
ghost use Rattle.rs_bin.specs.FirstFault.{NoneBefore, NoneBelongs};
ghost use Rattle.rs_bin.specs.Grammar.{Belongs};
ghost use Rattle.rs_bin.specs.Reading.{Takes, Gives, GivesFile, most, start, last_tag, peers_at, stores_at, input_at, whole_at, read_form};

use crate::bodies::{body, epoch};
use crate::cursor::Cursor;
use crate::error::{BinError, PartError};
use crate::part::{Part, many};
use rs_entry::{Boot, Entry, Input, Log, Store};
use rs_key::Rows;
use std::alloc::Global;

/// The first four bytes of a file: "RRL1".
const MAGIC: u32 = 0x5252_4c31;

/// The most stores of a file.
const STORES: u32 = 64;

/// The most peers of a region.
const PEERS: u8 = 64;

/// Returns the greatest tag of a body: changes of peers are in version 2 alone.
fn last_tag(version: u64) -> u8
    ensures { result ≡ last_tag version }
{
    if version == 2 { 7 } else { 5 }
}

impl Part for Entry {
    ghost use Rattle.rs_bin.specs.Reading.{entry_at, same_next};

    ghost at = { entry_at };

    ghost next = { same_next };

    /// Returns the least size in bytes: an epoch and a tag.
    fn least() -> usize {
        17
    }

    /// Reads an entry. The number is one above the index of the log's last entry; the first one has the index 6.
    #[tactic(auto, unfolding(crate::specs::Reading::entry_at))]
    fn take(
        alloc: Global,
        number: u64,
        left: u32,
        cursor: &mut Cursor<'_>,
    ) -> Result<Entry, PartError> {
        let epoch = epoch(cursor)?;
        let tag = cursor.u8(0, last_tag(cursor.version()))?;
        let body = body(alloc, tag, cursor)?;
        Ok(Entry {
            index: number.saturating_sub(u64::from(left) + 1),
            epoch,
            body,
        })
    }

    fn next(&self, number: u64) -> u64 {
        number
    }
}

impl Part for Log {
    ghost use Rattle.rs_bin.specs.Reading.{log_at, log_next};

    ghost at = { log_at };

    ghost next = { log_next };

    /// Returns the least size in bytes: a region, and the number of entries.
    fn least() -> usize {
        12
    }

    #[tactic(auto, unfolding(crate::specs::Reading::log_at))]
    fn take(
        alloc: Global,
        number: u64,
        _left: u32,
        cursor: &mut Cursor<'_>,
    ) -> Result<Log, PartError> {
        let region = cursor.u64_above(number)?;
        let count = cursor.u32(0, u32::MAX)?;
        let entries = many(alloc, u64::from(count) + 6, count, cursor)?;
        Ok(Log { region, entries })
    }

    fn next(&self, _number: u64) -> u64 {
        self.region
    }
}

impl Part for u64 {
    ghost use Rattle.rs_bin.specs.Reading.{peer_at, peer_next};

    ghost at = { peer_at };

    ghost next = { peer_next };

    fn least() -> usize {
        8
    }

    #[tactic(auto, unfolding(crate::specs::Reading::peer_at))]
    fn take(
        _alloc: Global,
        number: u64,
        _left: u32,
        cursor: &mut Cursor<'_>,
    ) -> Result<u64, PartError> {
        cursor.u64_above(number)
    }

    fn next(&self, _number: u64) -> u64 {
        *self
    }
}

/// Reads the peers of a region: in version 2 one or more, in version 1 none.
#[tactic(auto, unfolding(crate::specs::Reading::peers_at))]
fn peers(alloc: Global, cursor: &mut Cursor<'_>) -> Result<Rows<u64>, PartError>
    ensures { Takes result cursor.new (peers_at cursor.old) }
{
    if cursor.version() != 2 {
        return Ok(Rows::new(alloc));
    }
    let count = cursor.u8(1, PEERS)?;
    many(alloc, 0, u32::from(count), cursor)
}

impl Part for Boot {
    ghost use Rattle.rs_bin.specs.Reading.{region_at, region_next};

    ghost at = { region_at };

    ghost next = { region_next };

    /// Returns the least size in bytes: an id, and the lengths of two bounds.
    fn least() -> usize {
        12
    }

    #[tactic(auto, unfolding(crate::specs::Reading::region_at))]
    fn take(
        alloc: Global,
        number: u64,
        _left: u32,
        cursor: &mut Cursor<'_>,
    ) -> Result<Boot, PartError> {
        cursor.boot_room()?;
        let region = cursor.u64_above(number)?;
        let range = cursor.range(alloc)?;
        let peers = peers(alloc, cursor)?;
        Ok(Boot {
            region,
            range,
            peers,
        })
    }

    fn next(&self, _number: u64) -> u64 {
        self.region
    }
}

impl Part for Store {
    ghost use Rattle.rs_bin.specs.Reading.{store_at, store_next};

    ghost at = { store_at };

    ghost next = { store_next };

    /// Returns the least size in bytes: an id, and two numbers.
    fn least() -> usize {
        16
    }

    #[tactic(auto, unfolding(crate::specs::Reading::store_at))]
    fn take(
        alloc: Global,
        number: u64,
        _left: u32,
        cursor: &mut Cursor<'_>,
    ) -> Result<Store, PartError> {
        let id = cursor.u64_above(number)?;
        let count = cursor.u32(0, u32::MAX)?;
        let regions = many(alloc, 0, count, cursor)?;
        let count = cursor.u32(0, u32::MAX)?;
        let logs = many(alloc, 0, count, cursor)?;
        Ok(Store { id, regions, logs })
    }

    fn next(&self, _number: u64) -> u64 {
        self.id
    }
}

/// Reads the stores of a file of the version.
#[tactic(auto, unfolding(crate::specs::Reading::stores_at))]
fn stores(alloc: Global, version: u64, cursor: &mut Cursor<'_>) -> Result<Input, PartError>
    ensures { Takes result cursor.new (stores_at version cursor.old) }
{
    let count = cursor.u32(0, STORES)?;
    let stores = many(alloc, 0, count, cursor)?;
    Ok(Input { version, stores })
}

/// Reads an input.
#[tactic(auto, unfolding(crate::specs::Reading::input_at))]
fn input(alloc: Global, cursor: &mut Cursor<'_>) -> Result<Input, PartError>
    ensures { Takes result cursor.new (input_at cursor.old) }
{
    cursor.u32(MAGIC, MAGIC)?;
    let version = u64::from(cursor.u8(1, 2)?);
    cursor.set_version(version);
    stores(alloc, version, cursor)
}

/// Reads an input, and nothing after it.
#[tactic(auto, unfolding(crate::specs::Reading::whole_at))]
fn whole(alloc: Global, mut cursor: Cursor<'_>) -> Result<Input, PartError>
    ensures { Gives result (whole_at cursor.entry) }
{
    let input = input(alloc, &mut cursor)?;
    if cursor.left() != 0 {
        return Err(PartError::Bad(cursor.left()));
    }
    Ok(input)
}

/// Returns the input of a file, or the offset of its first fault.
#[tactic(auto, unfolding(crate::specs::Reading::read_form))]
fn whole_file(alloc: Global, bytes: &[u8]) -> Result<Input, BinError>
    ensures { GivesFile result (read_form bytes.now) }
{
    match whole(alloc, Cursor::new(bytes)) {
        Ok(input) => Ok(input),
        Err(PartError::Bad(left)) => Err(BinError::Bad(bytes.len().saturating_sub(left) as u64)),
        Err(PartError::NoMemory) => Err(BinError::NoMemory),
    }
}

/// Returns the input whose binary form the bytes are, or the offset of their first fault: of the first field that is
/// cut short or bad, or of the first byte behind a whole file. The form and its rules are in docs/FORMAT.md, "A binary
/// file".
///
/// An offset counts bytes from 0, and is at most the length. NoMemory is want of memory, and tells nothing of the bytes.
/// Room for a list is taken at once, but for no more parts than the bytes that are left can hold.
///
/// Bytes belong to an input where it is well formed, each of its stores has fewer than 2^32 logs, and they are its binary
/// form. What the clauses say:
///
/// - `exact`: the answer is that of reading field by field, with the offset of the first fault;
/// - `found`: the bytes belong to an input that is answered, so it is well formed;
/// - `only`: bytes that belong to an input are read as that input, so no such bytes have a fault, and no bytes belong to
///   two inputs;
/// - `before`: the bytes before the offset of a fault have no fault but that they end, or they belong to an input and
///   more bytes follow;
/// - `none`: where the bad field isn't cut short, no bytes that begin as these do, through that field, belong to an
///   input.
pub fn read_binary(alloc: Global, bytes: &[u8]) -> Result<Input, BinError>
    ensures exact { GivesFile result (read_form bytes.now) }
    ensures found { IfOk result (λ x. Belongs bytes.now x) }
    ensures only { (x : Input) → Belongs bytes.now x → GivesFile result (Ok x) }
    ensures before { NoneBefore bytes.now result }
    ensures none { NoneBelongs bytes.now result }
{
    whole_file(alloc, bytes)
}
