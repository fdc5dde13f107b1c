//! One worker of a batch system: it takes a machine by its ticket, lets its handler work on the machine's messages, and
//! gives the machine back. docs/BATCH.md tells how to build a batch system on it.
#![tactic(auto)]

mod given;
mod handler;
mod handling;
mod poller;
mod stop;
#[cfg(test)]
mod tests;
mod turns;
mod visits;
mod worked;
mod worker;

pub use handler::{Handler, More};
pub use poller::Poller;
pub use stop::Stop;
pub use worked::Worked;
pub use worker::Worker;
