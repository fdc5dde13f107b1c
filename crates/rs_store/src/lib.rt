//! What one store comes to when it applies its logs in the canonical order.
//!
//! On each store the least region that is ready takes its next entry, until none is ready. docs/RULES.md tells
//! when a region is ready, and what faults an order can meet.
#![tactic(auto)]

mod carriers;
mod counts;
mod cursor;
mod effect;
mod fault;
mod ids;
mod indexed_store;
mod joiners;
mod next_entry;
mod opening;
mod place_map;
mod readiness;
mod region_places;
mod regions;
mod replies;
mod rollbacks;
mod step;
mod store_run;
mod survey;
mod walk;

pub use effect::Effect;
pub use fault::{StepFault, StoreFault};
pub use indexed_store::{IndexedStore, own};
pub use next_entry::NextEntry;
pub use place_map::PlaceMap;
pub use readiness::{find_carried, is_accept, own_next};
pub use regions::{Made, Origin, Regions};
pub use replies::reply_to;
pub use rs_region::Line;
pub use store_run::{StoreRun, run_store};
pub use walk::{Advance, Arrived, Walk};
