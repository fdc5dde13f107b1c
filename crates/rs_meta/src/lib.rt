//! A store's control machine.
//!
//! It holds what the store's regions leave when they end. Once each address of the store has its ending, they become
//! the store's outcome. docs/BATCH.md tells who sends what when.
#![tactic(auto)]

mod endings;
mod machine;
mod reading;
mod store_addresses;

pub use machine::StoreFsm;
