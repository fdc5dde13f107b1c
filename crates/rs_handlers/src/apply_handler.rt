ghost use Rattle.std.specs.Prelude.{◌≡◌};
ghost use Rattle.rs_apply.specs.Machines.{is_more};
ghost use Rattle.rs_handlers.specs.Handling.{is_yes};

use crate::seat::Seat;
use crate::sending::send_all;
use rs_apply::{ApplyFsm, Progress};
use rs_key::{NoMemory, Rows};
use rs_meta::StoreFsm;
use rs_msg::{ApplyMsg, Outbox};
use rs_peer::PeerFsm;
use rs_poll::{Handler, More};
use rs_router::{Desks, QueueScheduler, Router, Scheduler, SchedulerPass};
use std::mem;
use std::sync::Wait;

/// Lets apply machines handle their messages and apply their entries, and sends what they have for machines of all
/// kinds.
#[derive(Drop)]
pub struct ApplyHandler<'r, 'p> {
    pub peers: Seat<'r, 'p, PeerFsm<'p>>,
    pub control: Seat<'r, 'p, StoreFsm<'p>>,
    pub handles: u64,
    pub advances: u64,
    pub asked: More,
    ghost one_plan: { control.plan.now ≡ peers.plan.now },
}

impl<'r, 'p> Handler<ApplyFsm<'p>, QueueScheduler> for ApplyHandler<'r, 'p> {
    ghost use Rattle.rs_apply.specs.Fitting.{Fits};
    ghost use Rattle.rs_check.specs.Values.{count_of};
    ghost use Rattle.rs_poll.specs.Handing.{all_known};
    ghost use Rattle.rs_handlers.specs.Handling.{Advances, SendsAll, TellsApply};
    ghost use Rattle.rs_handlers.specs.Outs.{Fits_prop};

    type Out = Outbox<'p>;

    ghost name = { λ h. h.peers.plan.now };

    ghost count = { λ h. count_of h.peers.plan.now };

    ghost handles = { λ h. h.handles };

    ghost advances = { λ h. h.advances };

    ghost asked = { λ h. h.asked };

    ghost fits = { λ h out. Fits h.peers.plan.now out };

    ghost one_fit = { λ h out. Fits_prop h.peers.plan.now out };

    ghost handled = { TellsApply };

    ghost advanced = { Advances };

    ghost sent = { λ h out lent i out_after lent_after. SendsAll out (all_known h.peers.desks.stations.items) (all_known i.peers.desks.stations.items) (all_known h.control.desks.stations.items) (all_known i.control.desks.stations.items) lent lent_after out_after };

    fn handle(
        &mut self,
        machine: &mut ApplyFsm<'p>,
        message: ApplyMsg<'p>,
        out: &mut Outbox<'p>,
    ) -> Result<(), NoMemory> {
        machine.handle(message, out)?;
        self.handles = self.handles.saturating_add(1);
        Ok(())
    }

    /// Lets the machine go on, and asks for more where it used its budget up. Where memory runs out nothing is left to
    /// send.
    fn advance(
        &mut self,
        machine: &mut ApplyFsm<'p>,
        budget: u32,
        out: &mut Outbox<'p>,
    ) -> Result<More, NoMemory> {
        match machine.advance(budget, out) {
            Ok(progress) => {
                self.advances = self.advances.saturating_add(1);
                self.asked = more_after(progress);
                Ok(self.asked)
            }
            Err(NoMemory) => {
                *out = Outbox::new(out.applies.allocator());
                Err(NoMemory)
            }
        }
    }

    fn send_out<R: Wait>(
        &mut self,
        rt: &R,
        router: &Router<ApplyFsm<'p>, QueueScheduler>,
        desks: &mut Desks<ApplyFsm<'p>>,
        pass: &mut SchedulerPass,
        out: &mut Outbox<'p>,
    ) -> Result<(), NoMemory> {
        let alloc = out.applies.allocator();
        let sent = mem::replace(out, Outbox::new(alloc));
        self.peers.send_all(rt, sent.peers)?;
        self.control.send_all(rt, sent.stores)?;
        send_all(rt, router, desks, pass, sent.applies)
    }
}

/// Returns whether the machine is to run again for this.
fn more_after(progress: Progress) -> More
    ensures { is_yes result ≡ is_more progress }
{
    match progress {
        Progress::More => More::Yes,
        Progress::Ended | Progress::WaitsFor { .. } | Progress::Rests => More::No,
    }
}
