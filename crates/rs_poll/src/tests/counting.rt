ghost use Rattle.std.specs.Prelude.{◌≡◌};

use crate::handler::{Handler, More};
use crate::tests::{Note, Tally};
use rs_router::{Desks, Router, Scheduler};
use rs_rows::NoMemory;
use std::sync::Wait;
use std::sync::atomic::{AtomicU64, Ordering};

/// Adds each message to its machine, and counts all messages in one number that the workers share.
#[derive(Drop)]
pub struct Counting<'a> {
    pub seen: &'a AtomicU64,
    pub mailboxes: u32,
    pub handles: u64,
    pub advances: u64,
    pub asked: More,
    /// How many messages the machine had handled when it last advanced.
    pub before_advance: u64,
    pub again: bool,
}

impl<'a> Counting<'a> {
    /// It has counted nothing. Its machines ask for more exactly where they are to run again.
    pub fn new(seen: &'a AtomicU64, mailboxes: u32, again: bool) -> Counting<'a>
        ensures { result.mailboxes ≡ mailboxes }
    {
        Counting {
            seen,
            mailboxes,
            handles: 0,
            advances: 0,
            asked: More::No,
            before_advance: 0,
            again,
        }
    }
}

impl<'a, S: Scheduler> Handler<Tally, S> for Counting<'a> {
    ghost use mathlib.Core.HLevel.{Unit-prop};

    type Out = ();

    ghost name = { λ h. 7 };

    ghost count = { λ h. h.mailboxes };

    ghost handles = { λ h. h.handles };

    ghost advances = { λ h. h.advances };

    ghost asked = { λ h. h.asked };

    ghost fits = { λ h o. Unit {0} };

    ghost one_fit = { λ h o. Unit-prop };

    ghost handled = { λ x m o y p. Unit {0} };

    ghost advanced = { λ x n o more y p. Unit {0} };

    ghost sent = { λ h o ks i p ls. ls ≡ ks };

    fn handle(
        &mut self,
        machine: &mut Tally,
        message: Note,
        _out: &mut (),
    ) -> Result<(), NoMemory> {
        machine.messages = machine.messages.saturating_add(1);
        machine.total = machine.total.saturating_add(message.number);
        self.handles = self.handles.saturating_add(1);
        self.seen.fetch_add(1, Ordering::SeqCst);
        Ok(())
    }

    fn advance(
        &mut self,
        machine: &mut Tally,
        _budget: u32,
        _out: &mut (),
    ) -> Result<More, NoMemory> {
        self.advances = self.advances.saturating_add(1);
        self.before_advance = machine.messages;
        self.asked = if self.again { More::Yes } else { More::No };
        Ok(self.asked)
    }

    fn send_out<R: Wait>(
        &mut self,
        _rt: &R,
        _router: &Router<Tally, S>,
        _desks: &mut Desks<Tally>,
        _pass: &mut S::Pass,
        _out: &mut (),
    ) -> Result<(), NoMemory> {
        Ok(())
    }
}
