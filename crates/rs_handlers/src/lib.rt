//! The machines of a plan behind routers, and what workers do with them.
//!
//! A worker has a seat at the machines of a kind: its desks of their router with its pass of the router's scheduler. A
//! handler lets machines of its kind handle their messages and go on, and sends what they have to tell. docs/BATCH.md
//! tells how the pools fit together.
#![tactic(auto)]

mod apply_handler;
mod control_handler;
mod deliveries;
mod delivery;
mod gathered;
mod machine;
mod opening;
mod peer_handler;
mod seat;
mod sending;

pub use apply_handler::ApplyHandler;
pub use control_handler::{ControlHandler, ControlOut};
pub use deliveries::Deliveries;
pub use delivery::Told;
pub use gathered::Gathered;
pub use machine::Machine;
pub use opening::{apply_machines, control_machines, open, peer_machines, seats};
pub use peer_handler::PeerHandler;
pub use seat::Seat;
