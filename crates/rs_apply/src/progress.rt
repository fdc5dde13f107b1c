use crate::region::Region;
use rs_key::Rows;

/// The result of a call of `advance`. docs/BATCH.md tells when each comes.
#[derive(Clone, Copy, Debug, PartialEq, Eq)]
pub enum Progress {
    /// The region has applied its last entry, and what it leaves is sent.
    Ended,
    /// The next entry commits a merge whose source hasn't handed over.
    WaitsFor { source: u64, commit: u64 },
    /// The budget is used up, and entries that may be applied are left.
    More,
    /// No entry that may be applied is left.
    Rests,
}

/// The stage of a machine's region.
#[derive(Drop)]
pub enum Life<'p> {
    /// The region wasn't made yet.
    Unborn,
    Born(Region<'p>),
    /// The region has ended. These are the merges that it has committed.
    Over(Rows<(u64, u64)>),
}
