//! The binary form of an input, read and written.
//!
//! An input has one binary form, in which numbers are big-endian and lists stand behind their numbers. The reader gives the
//! input whose form the bytes are, or the offset of the first fault; the writer gives the form of a well-formed input.
//! docs/FORMAT.md shows it byte by byte.
#![tactic(auto)]

mod bodies;
mod cursor;
mod error;
mod part;
mod reading;
mod writing;

pub use error::BinError;
pub use reading::read_binary;
pub use writing::write_binary;

#[cfg(test)]
mod tests;
