//! A scheduler whose passes have a deque each. A pass pushes to its own deque, and pops from it; where that is empty it
//! steals from the others, from the next one round.
#![tactic(auto)]

mod deque_rule;
mod laws;
mod opening;
mod steal_pass;
mod steal_scheduler;
mod stealing;
#[cfg(test)]
mod tests;
mod thief;

pub use deque_rule::{DequePass, DequeView, Foreign, Own, TicketRule};
pub use laws::deque_laws;
pub use steal_pass::StealPass;
pub use steal_scheduler::StealScheduler;
pub use thief::Thief;
