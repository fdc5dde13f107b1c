ghost use Rattle.rs_apply.specs.Fitting.{Fits};
ghost use Rattle.rs_handlers.specs.Outs.{Fits_prop};

use crate::seat::Seat;
use rs_apply::ApplyFsm;
use rs_key::{NoMemory, Rows};
use rs_msg::{Outbox, PeerMsg};
use rs_peer::PeerFsm;
use rs_poll::{Handler, More};
use rs_router::{Desks, QueueScheduler, Router, Scheduler, SchedulerPass};
use std::mem;
use std::sync::Wait;

/// Lets peer machines handle their messages, and sends what they have for apply machines.
#[derive(Drop)]
pub struct PeerHandler<'r, 'p> {
    pub applies: Seat<'r, 'p, ApplyFsm<'p>>,
    pub handles: u64,
    pub advances: u64,
}

impl<'r, 'p> Handler<PeerFsm<'p>, QueueScheduler> for PeerHandler<'r, 'p> {
    ghost use Rattle.rs_apply.specs.Fitting.{Fits};
    ghost use Rattle.rs_check.specs.Values.{count_of};
    ghost use Rattle.rs_handlers.specs.Outs.{Fits_prop};
    ghost use Rattle.rs_poll.specs.declared.handler.More.TheVariants.{No};
    ghost use Rattle.rs_poll.specs.Handing.{all_known};
    ghost use Rattle.rs_handlers.specs.Handling.{SendsTasks, TellsPeer};
    ghost use Rattle.std.specs.Prelude.{◌≡◌};

    type Out = Outbox<'p>;

    ghost name = { λ h. h.applies.plan.now };

    ghost count = { λ h. count_of h.applies.plan.now };

    ghost handles = { λ h. h.handles };

    ghost advances = { λ h. h.advances };

    ghost asked = { λ _. No };

    ghost fits = { λ h out. Fits h.applies.plan.now out };

    ghost one_fit = { λ h out. Fits_prop h.applies.plan.now out };

    ghost handled = { TellsPeer };

    ghost advanced = { λ x budget out more y out_after. (more ≡ No) × (y ≡ x) × (out_after ≡ out) };

    ghost sent = { λ h out lent i out_after lent_after. SendsTasks out (all_known h.applies.desks.stations.items) (all_known i.applies.desks.stations.items) out_after × (lent_after ≡ lent) };

    fn handle(
        &mut self,
        machine: &mut PeerFsm<'p>,
        message: PeerMsg<'p>,
        out: &mut Outbox<'p>,
    ) -> Result<(), NoMemory> {
        machine.handle(message, out)?;
        self.handles = self.handles.saturating_add(1);
        Ok(())
    }

    /// Does nothing and never asks for more: a peer machine handles each message at once.
    fn advance(
        &mut self,
        _machine: &mut PeerFsm<'p>,
        _budget: u32,
        _out: &mut Outbox<'p>,
    ) -> Result<More, NoMemory> {
        self.advances = self.advances.saturating_add(1);
        Ok(More::No)
    }

    fn send_out<R: Wait>(
        &mut self,
        rt: &R,
        _router: &Router<PeerFsm<'p>, QueueScheduler>,
        _desks: &mut Desks<PeerFsm<'p>>,
        _pass: &mut SchedulerPass,
        out: &mut Outbox<'p>,
    ) -> Result<(), NoMemory> {
        let alloc = out.applies.allocator();
        let applies = mem::replace(&mut out.applies, Rows::new(alloc));
        self.applies.send_all(rt, applies)
    }
}
