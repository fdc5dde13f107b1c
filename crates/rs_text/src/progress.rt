//! What the lines so far have given.

ghost use Rattle.std.specs.Prelude.{◌≡◌};
ghost use Rattle.rs_text.specs.Steps.{start};

use rs_entry::{Boot, Carried, Entry, FIRST_INDEX, Log, Store};
use rs_key::{Epoch, Rows};
use std::alloc::Global;

/// A commit entry of which carried entries are still to come.
#[derive(Debug, Drop)]
pub struct OpenCommit {
    pub index: u64,
    pub epoch: Epoch,
    pub source: u64,
    pub commit: u64,
    pub count: u64,
    pub carried: Rows<Carried>,
}

/// The input that was read so far: the stores that are whole, and the parts of the store that is open.
#[derive(Debug, Drop)]
pub struct Progress {
    /// The version of the file, by line 1.
    pub version: u64,
    pub stores: Rows<Store>,
    /// The id of the open store; 0 for none.
    pub store: u64,
    pub regions: Rows<Boot>,
    /// The id of the last region line of the open store; 0 for none.
    pub last_region: u64,
    pub logs: Rows<Log>,
    /// The region of the open log; 0 for none.
    pub log: u64,
    pub entries: Rows<Entry>,
    /// The index of the next entry of the open log.
    pub next: u64,
    pub commit: Option<OpenCommit>,
    /// The number of region lines and split pairs so far.
    pub boots: u64,
    /// The number of entry and carry lines so far.
    pub lines: u64,
    /// The number of operations so far.
    pub operations: u64,
    /// The line `end` was read.
    pub ended: bool,
}

/// Returns the progress of a reading that has read line 1 alone.
pub fn start(alloc: Global, version: u64) -> Progress
    ensures { result ≡ start version }
{
    Progress {
        version,
        stores: Rows::new(alloc),
        store: 0,
        regions: Rows::new(alloc),
        last_region: 0,
        logs: Rows::new(alloc),
        log: 0,
        entries: Rows::new(alloc),
        next: FIRST_INDEX,
        commit: None,
        boots: 0,
        lines: 0,
        operations: 0,
        ended: false,
    }
}
