//! Keys, values, key ranges and epochs.
//!
//! A key is a list of bytes, and a range holds the keys from its start on and below its end. Ranges are
//! cut at keys and joined again, and no key is lost or gained by it. An epoch counts how often a region
//! changed its peers and its range. docs/RULES.md tells the rules.
#![tactic(auto)]

mod bounds;
mod bytes;
mod epoch;
mod equality;
mod key;
mod range;
mod short;
mod value;

pub use bytes::Bytes;
pub use epoch::{Epoch, Kind};
pub use key::{Key, KeyError};
pub use range::{CutError, Empty, Range};
pub use rs_rows::{NoMemory, Rows, Same, TryClone};
pub use value::Value;
