//! What comes of a plan: accepted writes in their order, the history of each key, replies, and the outcome of a store.
//!
//! The definitions say what the lines, replies, pairs and histories of a store are, and theorems tell when two outcomes
//! are equal. The code keeps accepted writes, splits them at a key, sorts them into histories and makes pairs of these.
#![tactic(auto)]

mod accepted_write;
mod grouping;
mod key_code;
mod pairs;
mod writes;

pub use accepted_write::AcceptedWrite;
pub use pairs::pairs_of;
pub use writes::Writes;
