//! The machine that applies a region's log.
//!
//! It has a region's state and the items of its keys, and takes both from entry to entry as the plan's fold does. At
//! a split it sends the new regions to their machines, at a merge it takes over what the source's machine sends, and
//! where the region ends it sends what is left. docs/BATCH.md tells who sends what when.
#![tactic(auto)]

mod advance;
mod apply_entry;
mod births;
mod catch_up;
mod ending;
mod handle;
mod local_entries;
mod lookahead;
mod machine;
mod merge;
mod next;
mod progress;
mod records;
mod region;
mod sources;
mod split;

pub use machine::ApplyFsm;
pub use progress::Progress;
