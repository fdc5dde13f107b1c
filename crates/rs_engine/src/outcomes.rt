ghost use Rattle.std.specs.Prelude.{◌≡◌, ◌<◌, IfOk, length};
ghost use Rattle.rs_history.specs.Outcomes.{outcome_of};
ghost use Rattle.rs_handlers.specs.Stores.{AreThere};

use rs_entry::Outcome;
use rs_handlers::{Gathered, Seat};
use rs_key::NoMemory;
use rs_mailbox::Closed;
use rs_meta::StoreFsm;
use std::alloc::Global;
use std::sync::Wait;

/// The main thread's seat at the control machines, and the outcomes that it has taken from them.
#[derive(Drop)]
pub struct Taking<'r, 'p> {
    pub seat: Seat<'r, 'p, StoreFsm<'p>>,
    pub gathered: Gathered<'p>,
    ghost one_plan: { gathered.plan.now ≡ seat.plan.now },
}

impl<'r, 'p> Taking<'r, 'p> {
    /// Takes a control machine by closing its mailbox, and keeps its outcome where it is complete.
    pub fn take(&mut self, place: u32) -> Result<(), NoMemory>
        requires { place < length self.old.seat.plan.now.stores }
        ensures { self.new.seat.plan ≡ self.old.seat.plan }
    {
        let Closed::Machine(machine) = self.seat.close(place) else {
            return Ok(());
        };
        if machine.complete() {
            let place = machine.place();
            let outcome = machine.into_outcome()?;
            self.gathered.put(place, outcome);
        }
        Ok(())
    }

    /// Waits until there may be a ticket of a control machine. It may return at any time.
    pub fn idle<R: Wait>(&mut self, rt: &R)
        ensures { self.new.seat.plan ≡ self.old.seat.plan }
    {
        self.seat.idle(rt);
    }

    /// Returns the plan's outcome, once each store's is there.
    pub fn into_outcome(self, alloc: Global) -> Result<Outcome, NoMemory>
        requires { AreThere self.gathered.outcomes.items }
        ensures { IfOk result (λ outcome. outcome ≡ outcome_of self.entry.seat.plan.now) }
    {
        let Taking { seat, gathered } = self;
        drop(seat);
        gathered.into_outcome(alloc)
    }
}
