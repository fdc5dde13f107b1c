//! A large lawful input from a number.
//!
//! Region 1 has all keys. In each round it splits a region off, both are written to, and region 1 takes the other over
//! again. The second of two stores lacks some entries of the regions that were split off, and takes them from the
//! commits that carry them. docs/FORMAT.md shows the smallest of these inputs.
#![tactic(auto)]

mod inputs;
mod kept;
mod round;

pub use inputs::make;
