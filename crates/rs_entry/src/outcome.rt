use rs_key::{Epoch, Key, Range, Rows, Value};

/// The mode of a region.
#[derive(Clone, Copy, Debug, PartialEq, Eq)]
pub enum Mode {
    Normal,
    /// The region prepared, at the index `commit`, its merge into the target.
    Merging { target: u64, commit: u64 },
    /// The region was merged into the target: a tombstone.
    Merged { target: u64 },
    /// The region's peer on this store was removed: a tombstone.
    Removed,
}

/// The reply to an entry.
#[derive(Debug, Drop)]
pub enum Reply {
    /// Accepted, with the region's version after it.
    Done(u64),
    /// Its epoch didn't match the region's, which is this.
    Stale(Epoch),
    /// A write, refused whole: its first key outside the region.
    Outside(Key),
    /// Refused, since the region is merging into this target.
    Merging(u64),
    /// A split, refused: the first place, from 1, whose key can't cut the range.
    BadSplit(u64),
    /// A conf change, refused.
    BadPeer,
    /// An empty entry.
    Empty,
}

/// A region at the end.
#[derive(Debug, Drop)]
pub struct RegionLine {
    pub region: u64,
    pub epoch: Epoch,
    pub range: Range,
    pub mode: Mode,
    /// The index of the last entry applied; `INIT_INDEX` where there was none.
    pub applied: u64,
    /// The number of entries of its own log that lie past that index.
    pub left: u64,
    /// The ids of the stores of its peers; in version 1 there are none.
    pub peers: Rows<u64>,
}

/// The reply to one entry, with its region and index.
#[derive(Debug, Drop)]
pub struct ReplyLine {
    pub region: u64,
    pub index: u64,
    pub reply: Reply,
}

/// A key with its last value.
#[derive(Debug, Drop)]
pub struct Pair {
    pub key: Key,
    pub value: Value,
}

/// One write of a key, by an entry of a region: its value, or none for a deletion.
#[derive(Debug, Drop)]
pub struct Item {
    pub region: u64,
    pub index: u64,
    pub value: Option<Value>,
}

/// All writes of a key, oldest first.
#[derive(Debug, Drop)]
pub struct KeyHistory {
    pub key: Key,
    pub items: Rows<Item>,
}

/// The outcome of one store.
#[derive(Debug, Drop)]
pub struct StoreOutcome {
    pub id: u64,
    /// By id.
    pub regions: Rows<RegionLine>,
    /// By region, then by index.
    pub replies: Rows<ReplyLine>,
    /// By key.
    pub pairs: Rows<Pair>,
    /// By key.
    pub histories: Rows<KeyHistory>,
}

/// The outcome of all stores, by id.
#[derive(Debug, Drop)]
pub struct Outcome {
    pub stores: Rows<StoreOutcome>,
}
