use crate::handler::Handler;
use rs_mailcore::{Fsm, Named};
use rs_router::Scheduler;

/// The parts of a worker beside its desks: its pass of the scheduler, its handler with what came out of the machines,
/// its number, and how many messages it handles in a turn at most.
#[derive(Drop)]
pub struct Worker<F: Fsm, S: Scheduler, H: Handler<F, S>> {
    pub pass: S::Pass,
    pub handler: H,
    pub out: H::Out,
    pub number: u32,
    pub batch: u32,
    ghost fitting: { H.fits handler out } by { H.one_fit handler out },
}
