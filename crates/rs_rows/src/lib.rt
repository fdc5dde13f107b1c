//! Lists of public types, want of memory, copies and equality.
//!
//! `Rows` is the list of public types: contracts see it as a list. What takes memory answers `NoMemory` where there is
//! none. `TryClone` copies and `Same` compares plain data, each by one loop for all lists.
#![tactic(auto)]

mod copies;
mod equality;
mod no_memory;
mod rows;

pub use copies::TryClone;
pub use equality::Same;
pub use no_memory::NoMemory;
pub use rows::Rows;
