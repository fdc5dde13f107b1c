use rs_key::{Epoch, Key, Rows, Value};

/// One operation of a write.
#[derive(Debug, Drop)]
pub enum Op {
    Put(Key, Value),
    Delete(Key),
}

/// The range that a region keeps at a split: the rightmost, or the leftmost.
#[derive(Clone, Copy, Debug, PartialEq, Eq)]
pub enum Side {
    Right,
    Left,
}

/// A change of a region's list of peers, which are ids of stores.
#[derive(Clone, Copy, Debug, PartialEq, Eq)]
pub enum Change {
    Add(u64),
    Remove(u64),
}

/// The proposal of an entry.
#[derive(Debug, Drop)]
pub enum Body {
    /// The entry that a new leader commits. It has no effect.
    Empty,
    /// Operations in their order, at least one.
    Write(Rows<Op>),
    /// New regions by their ids, and the keys to cut the range at; both lists have one length.
    Split {
        side: Side,
        ids: Rows<u64>,
        keys: Rows<Key>,
    },
    /// The region, as the source of a merge, is to be taken over by the target.
    Prepare {
        target: u64,
    },
    /// The region, as the target of a merge, takes over the source, whose Prepare has the index `commit`.
    /// The carried entries are those of the source's log up to that index which some store may lack.
    Commit {
        source: u64,
        commit: u64,
        carried: Rows<Carried>,
    },
    /// The merge that was prepared at the index `commit` is rolled back.
    Rollback {
        commit: u64,
    },
    /// A change of peers, in version 2 alone.
    Conf {
        change: Change,
    },
}

/// One committed entry of a region's log.
#[derive(Debug, Drop)]
pub struct Entry {
    pub index: u64,
    /// The region's epoch when the entry was proposed.
    pub epoch: Epoch,
    pub body: Body,
}

/// The proposal of a carried entry.
#[derive(Debug, Drop)]
pub enum CarriedBody {
    Empty,
    Write(Rows<Op>),
    Prepare { target: u64 },
}

/// An entry of a source's log that the target's Commit carries.
#[derive(Debug, Drop)]
pub struct Carried {
    pub index: u64,
    pub epoch: Epoch,
    pub body: CarriedBody,
}
