use crate::entry::{Carried, Entry};
use crate::input::Boot;
use crate::outcome::Mode;
use rs_key::Range;
use thiserror::Error;

/// A statement of an input about a region, or about one entry of its log.
#[derive(Debug, Drop)]
pub enum Statement {
    Boot(Boot),
    Entry(Entry),
    Carried(Carried),
}

/// The fault of an input that is no lawful set of committed logs.
#[derive(Debug, Drop, Error)]
pub enum LawFault {
    /// Two stores state the same differently: the store of the first statement, and of the other.
    /// The index is 0 where the statements are about a region.
    #[error("stores {first} and {second} state the same of region {region} differently, at index {index}")]
    Differ {
        first: u64,
        second: u64,
        region: u64,
        index: u64,
        was: Statement,
        is: Statement,
    },
    /// Two regions that are there from the start share a key; the one with the lesser id first.
    #[error("two regions that are there from the start share a key")]
    Overlap {
        one: Boot,
        other: Boot,
    },
    /// A split makes a region whose id is used already.
    #[error("store {store}: the split of region {region} at index {index} makes region {id}, whose id is used already")]
    Reused {
        store: u64,
        region: u64,
        index: u64,
        id: u64,
    },
    /// An accepted Commit of a source that hasn't prepared this merge.
    #[error("store {store}: the Commit of region {region} at index {index} joins region {source}, which hasn't prepared this merge")]
    NotPrepared {
        store: u64,
        region: u64,
        index: u64,
        source: u64,
        commit: u64,
    },
    /// An accepted Commit of a source that isn't next to the target.
    #[error("store {store}: the Commit of region {region} at index {index} joins region {source}, which isn't next to it")]
    NotNext {
        store: u64,
        region: u64,
        index: u64,
        source: u64,
        commit: u64,
        target_range: Range,
        source_range: Range,
    },
    /// A Rollback of a merge that the region isn't in.
    #[error("store {store}: region {region} isn't in the merge that its Rollback at index {index} undoes")]
    BadRollback {
        store: u64,
        region: u64,
        index: u64,
        commit: u64,
        mode: Mode,
    },
    /// A region stands before a Commit whose source never comes to it.
    #[error("store {store}: the Commit of region {region} at index {index} waits for region {source}, which never comes to it")]
    Waits {
        store: u64,
        region: u64,
        index: u64,
        source: u64,
        commit: u64,
    },
    /// A region has a log and is never made.
    #[error("store {store}: region {region} has a log and is never made")]
    Unborn {
        store: u64,
        region: u64,
    },
}
