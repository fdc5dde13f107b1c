use crate::entry::Entry;
use rs_key::{Range, Rows};

/// The applied index of a region that has applied no entry of its log: TiKV's `RAFT_INIT_LOG_INDEX`.
pub const INIT_INDEX: u64 = 5;

/// The index of the first entry of each log, the one after `INIT_INDEX`.
pub const FIRST_INDEX: u64 = 6;

/// A region that a store has from the start.
#[derive(Debug, Drop)]
pub struct Boot {
    pub region: u64,
    pub range: Range,
    /// The ids of the stores of its peers, rising; in version 1 there are none.
    pub peers: Rows<u64>,
}

/// A store's log of one region.
#[derive(Debug, Drop)]
pub struct Log {
    pub region: u64,
    /// The entries with the indexes `FIRST_INDEX`, 7, 8 and so on.
    pub entries: Rows<Entry>,
}

/// One store: its first regions and its logs, each by rising id.
#[derive(Debug, Drop)]
pub struct Store {
    pub id: u64,
    pub regions: Rows<Boot>,
    pub logs: Rows<Log>,
}

/// The committed logs of several stores, by rising id.
#[derive(Debug, Drop)]
pub struct Input {
    /// 1, or 2 where regions have peers.
    pub version: u64,
    pub stores: Rows<Store>,
}
