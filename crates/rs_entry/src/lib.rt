//! The plain data of logs and outcomes.
//!
//! An input is what committed logs say: for each store the regions that it has from the start, and the
//! logs of its regions, entry by entry. An outcome is what came of them. docs/FORMAT.md shows both as text.
#![tactic(auto)]

mod copies;
mod entry;
mod equality;
mod input;
mod law_fault;
mod outcome;

pub use entry::{Body, Carried, CarriedBody, Change, Entry, Op, Side};
pub use input::{Boot, FIRST_INDEX, INIT_INDEX, Input, Log, Store};
pub use law_fault::{LawFault, Statement};
pub use outcome::{
    Item, KeyHistory, Mode, Outcome, Pair, RegionLine, Reply, ReplyLine, StoreOutcome,
};
