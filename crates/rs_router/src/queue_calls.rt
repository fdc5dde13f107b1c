use crate::queue_rule::{Popped, Pushed, Tickets};
use crate::queue_scheduler::{QueueScheduler, SchedulerPass};
use crate::scheduler::{Refused, Scheduler};
use rs_mailbox::Ticket;
use std::sync::Wait;

impl Scheduler for QueueScheduler {
    ghost use Rattle.std.specs.Prelude.{[]};
    ghost use Rattle.rs_router.specs.Ids.{one_id};
    ghost use Rattle.rs_router.specs.Lines.{Saw};
    ghost use Rattle.rs_router.specs.Passes.{id_of, id_with};

    type Pass = SchedulerPass;

    type Id = (Tickets, u32);

    ghost size = { λ s. s.addresses };

    ghost id = { λ s. id_with s.queue s.addresses };

    ghost pass_id = { id_of };

    ghost one_id = { one_id };

    ghost pushed = { λ p. p.pass.me.view.client.pushed };

    ghost popped = { λ p. p.pass.me.view.client.popped };

    ghost empties = { λ p. p.empties };

    ghost saw_empty = { λ p. Saw [] p.pass.me.view.client };

    fn push<R: Wait>(
        &self,
        rt: &R,
        pass: &mut SchedulerPass,
        ticket: Ticket,
    ) -> Result<(), Refused> {
        match self.queue.push_as::<Pushed, R>(rt, &mut pass.pass, ticket) {
            Ok(()) => {
                self.wake();
                Ok(())
            }
            Err(ticket) => Err(Refused { ticket }),
        }
    }

    fn pop<R: Wait>(&self, rt: &R, pass: &mut SchedulerPass) -> Option<Ticket> {
        if let Some(ticket) = self.queue.pop_as::<Popped, R>(rt, &mut pass.pass) {
            return Some(ticket);
        }
        pass.empties = pass.empties.saturating_add(1);
        None
    }

    fn idle<R: Wait>(&self, rt: &R, pass: &mut SchedulerPass) {
        if let Some(parker) = self.parkers.get(pass.place as usize) {
            parker.park(rt);
        }
    }

    fn wake(&self) {
        for parker in self.parkers.iter() {
            parker.unpark();
        }
    }
}
