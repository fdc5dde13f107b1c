ghost use Rattle.std.specs.Prelude.{◌≡◌, true, false};
ghost use Rattle.rs_poll.specs.Answers.{MatchWorked};

use crate::routers::Routers;
use once_cell::race::OnceBox;
use rs_apply::ApplyFsm;
use rs_base::Gate;
use rs_handlers::{ApplyHandler, ControlHandler, PeerHandler};
use rs_key::NoMemory;
use rs_mailcore::{Fsm, Named};
use rs_meta::StoreFsm;
use rs_peer::PeerFsm;
use rs_poll::{Handler, Poller, Stop, Worked};
use rs_router::QueueScheduler;
use std::sync::Wait;

/// A poller of the raft pool.
pub type PeerPoller<'r, 'p> = Poller<'r, PeerFsm<'p>, QueueScheduler, PeerHandler<'r, 'p>>;

/// A poller of the apply pool.
pub type ApplyPoller<'r, 'p> = Poller<'r, ApplyFsm<'p>, QueueScheduler, ApplyHandler<'r, 'p>>;

/// The poller of the control machines.
pub type ControlPoller<'r, 'p> = Poller<'r, StoreFsm<'p>, QueueScheduler, ControlHandler<'p>>;

/// A worker of the raft pool, with the reason for which it ends the run where memory runs out.
#[derive(Drop)]
pub struct PeerWorker<'r, 'p> {
    pub poller: PeerPoller<'r, 'p>,
    pub no_memory: Box<Stop>,
}

impl<'r, 'p> PeerWorker<'r, 'p> {
    /// Serves until the run ends.
    pub fn serve<R: Wait, G: Gate>(
        self,
        rt: &R,
        gate: &G,
        stop: &OnceBox<Stop>,
        routers: &Routers<'p>,
    ) {
        let PeerWorker { poller, no_memory } = self;
        serve(rt, gate, stop, routers, poller, no_memory);
    }
}

/// A worker of the apply pool, with the reason for which it ends the run where memory runs out.
#[derive(Drop)]
pub struct ApplyWorker<'r, 'p> {
    pub poller: ApplyPoller<'r, 'p>,
    pub no_memory: Box<Stop>,
}

impl<'r, 'p> ApplyWorker<'r, 'p> {
    /// Serves until the run ends.
    pub fn serve<R: Wait, G: Gate>(
        self,
        rt: &R,
        gate: &G,
        stop: &OnceBox<Stop>,
        routers: &Routers<'p>,
    ) {
        let ApplyWorker { poller, no_memory } = self;
        serve(rt, gate, stop, routers, poller, no_memory);
    }
}

/// Lets a poller serve until the run ends. Where memory runs out it ends the run.
fn serve<'r, F: Fsm, H: Handler<F, QueueScheduler>, R: Wait, G: Gate>(
    rt: &R,
    gate: &G,
    stop: &OnceBox<Stop>,
    routers: &Routers<'_>,
    mut poller: Poller<'r, F, QueueScheduler, H>,
    no_memory: Box<Stop>,
) {
    let mut note = stop.note();
    if poller.serve(rt, gate, stop, &mut note).is_err() {
        end(stop, no_memory, routers);
    }
}

/// Returns whether a turn had a ticket.
pub fn had_ticket(worked: Worked) -> bool
    ensures { MatchWorked worked (λ _. result ≡ true) (λ _. result ≡ true) (result ≡ false) }
{
    match worked {
        Worked::Turned(_) | Worked::Gone(_) => true,
        Worked::Nothing => false,
    }
}

/// Ends the run for the reason, unless it was ended already, and wakes all that wait.
pub fn end(stop: &OnceBox<Stop>, reason: Box<Stop>, routers: &Routers<'_>) {
    // Where another was first, the run ends for that one's reason.
    let _first = stop.set(reason);
    routers.wake();
}
