//! The run: a plan's outcome by pollers in threads.
//!
//! Two pools of pollers and the main thread serve the machines of `rs_handlers`. docs/BATCH.md tells how they fit
//! together.
#![tactic(auto)]

mod crew;
mod deliveries;
mod main_thread;
mod options;
mod outcomes;
mod routers;
mod run_plan;
mod workers;

pub use options::Options;
pub use run_plan::{run, run_on};
