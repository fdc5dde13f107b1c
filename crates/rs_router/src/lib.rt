//! Mailboxes by address, and the scheduler that passes their tickets on to the workers. docs/BATCH.md tells how to build
//! a batch system on it.
#![tactic(auto)]

mod desks;
mod queue_calls;
mod queue_opening;
mod queue_rule;
mod queue_scheduler;
mod refusal;
mod route_error;
mod router;
mod router_opening;
mod scheduler;

pub use desks::Desks;
pub use queue_rule::{Line, LinePass, Tickets};
pub use queue_scheduler::{QueueScheduler, SchedulerPass};
pub use refusal::abandon;
pub use route_error::RouteError;
pub use router::Router;
pub use scheduler::{Refused, Scheduler};
