//! The rules by which regions change: what becomes of an entry, and what an accepted entry makes of regions.
//!
//! A `RegionState` is a region on one store. `verdict` says of an entry, before it is applied, whether the
//! region accepts it; the `exec_` calls do what an accepted entry says. docs/RULES.md tells the rules.
#![tactic(auto)]

mod action;
mod laws;
mod line;
mod peers;
mod reshape;
mod split;
mod state;
mod verdict;

pub use action::{Action, Turn, action_of, carried_action_of};
pub use laws::{cut_laws, epoch_laws, join_laws, peer_laws, split_laws};
pub use line::Line;
pub use state::RegionState;
pub use verdict::Verdict;
