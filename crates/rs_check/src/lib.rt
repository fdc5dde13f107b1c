//! The log check, and the plan that its yes gives.
//!
//! The check finds the first thing in committed logs that no lawful raft group could have committed: two stores
//! that say differently of the same, overlapping regions, an id that is used again, or an order that meets a fault.
//! docs/RULES.md tells the faults and their order.
#![tactic(auto)]

mod differ;
mod entry_index;
mod entry_scan;
mod laws;
mod log_check;
mod overlap;
mod plan;
mod region_table;
mod reused_ids;
mod rows;
mod statements;

pub use laws::overlap_laws;
pub use log_check::{CheckError, check};
pub use plan::{Maker, Plan};
pub use region_table::RegionTable;
pub use rs_store::Line;
