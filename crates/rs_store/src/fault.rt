use rs_entry::Mode;
use rs_key::Range;
use thiserror::Error;

/// The fault of an entry that can't be applied.
#[derive(Debug, Drop, Error)]
pub enum StepFault {
    /// A Rollback of a merge that the region isn't in.
    #[error("region {region} isn't in the merge that its Rollback at index {index} undoes")]
    BadRollback {
        region: u64,
        index: u64,
        commit: u64,
        mode: Mode,
    },
    /// An accepted Commit of a source that hasn't prepared this merge.
    #[error("the Commit of region {region} at index {index} joins region {source}, which hasn't prepared this merge")]
    NotPrepared {
        region: u64,
        index: u64,
        source: u64,
        commit: u64,
    },
    /// An accepted Commit of a source that isn't next to the target.
    #[error("the Commit of region {region} at index {index} joins region {source}, which isn't next to it")]
    NotNext {
        region: u64,
        index: u64,
        source: u64,
        commit: u64,
        target_range: Range,
        source_range: Range,
    },
}

/// The fault of a store whose run is refused.
#[derive(Debug, Drop, Error)]
pub enum StoreFault {
    /// The next entry of a region that is ready can't be applied.
    #[error("{0}")]
    Step(StepFault),
    /// A region stands before a Commit whose source never comes to it.
    #[error("the Commit of region {region} at index {index} waits for region {source}, which never comes to it")]
    Waits {
        region: u64,
        index: u64,
        source: u64,
        commit: u64,
    },
    /// A region has a log and is never made.
    #[error("region {region} has a log and is never made")]
    Unborn {
        region: u64,
    },
}
