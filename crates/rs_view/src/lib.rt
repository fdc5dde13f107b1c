//! The region table of one store, published to readers in other threads.
//!
//! One thread takes reshapings into a cut of the store and publishes it at one step; readers look keys up in the table of
//! the cut that is published, with no lock and no wait. What a reader sees never goes back: each cut that it finds contains
//! each cut that it found before or was told of.
#![tactic(auto)]

mod add_error;
mod door;
mod found;
mod opening;
mod publisher;
mod publishing;
mod rule;
mod step;
mod store_cut;
mod view;

pub use add_error::AddError;
pub use door::Door;
pub use found::Found;
pub use opening::start;
pub use publisher::Publisher;
pub use rule::{Known, Rising, TableReader, TableWriter};
pub use step::Step;
pub use store_cut::StoreCut;
pub use view::{Told, View};
