//! A region's peer machine.
//!
//! It is told how far the store's own log of the region is there and, by a target that stands before its commit, how
//! far the region has to come for that. It passes both on to the region's apply machine, and keeps how far that one
//! has come. docs/BATCH.md tells who sends what when.
#![tactic(auto)]

mod machine;

pub use machine::PeerFsm;
