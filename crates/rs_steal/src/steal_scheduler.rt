ghost use Rattle.std.specs.Prelude.{◌≡◌, ◌++◌, ◌∷◌, [], ◌<◌, MatchResult, MatchOption};
ghost use Rattle.rs_router.specs.Lists.{SameBag, Adds, Rose};
ghost use Rattle.rs_steal.specs.Deques.{deques_of};
ghost use Rattle.rs_steal.specs.Steps.{popped_by, pushed_by, knows, Pushed, Popped, FoundEmpty};

use crate::deque_rule::{Gets, Puts};
use crate::steal_pass::StealPass;
use crate::stealing::steal_round;
use rs_mailbox::Ticket;
use rs_router::{Refused, Scheduler};
use std::sync::Wait;
use std::thread::Parker;

/// A scheduler whose passes have a deque each, and steal from one another. Tickets that went into one deque come out in
/// the order in which they went in. The passes hold the deques: where all of them are dropped, so are the tickets.
#[derive(Drop)]
pub struct StealScheduler {
    pub parkers: Vec<Parker>,
    pub addresses: u32,
}

impl Scheduler for StealScheduler {
    ghost use Rattle.rs_steal.specs.Ids.{one_number};
    ghost use Rattle.rs_steal.specs.Steps.{popped_by, pushed_by, FoundEmpty};

    type Pass = StealPass;

    type Id = u32;

    ghost size = { λ s. s.addresses };

    ghost id = { λ s. s.addresses };

    ghost pass_id = { λ p. p.addresses };

    ghost one_id = { one_number };

    ghost pushed = { pushed_by };

    ghost popped = { popped_by };

    ghost empties = { λ p. p.empties };

    ghost saw_empty = { FoundEmpty };

    /// Adds the ticket to the pass's own deque. Refused is want of memory; it has the ticket, and the pass knows what it
    /// knew of each deque.
    fn push<R: Wait>(&self, rt: &R, pass: &mut StealPass, ticket: Ticket) -> Result<(), Refused>
        requires pass { self.now.addresses ≡ pass.old.addresses }
        requires below { ticket.address < self.now.addresses }
        ensures pass { self.now.addresses ≡ pass.new.addresses }
        ensures pushed { MatchResult result (λ _. pushed_by pass.new ≡ pushed_by pass.old ++ ticket.address ∷ []) (λ r. (pushed_by pass.new ≡ pushed_by pass.old) × (r.ticket.address ≡ ticket.address)) }
        ensures popped { SameBag (popped_by pass.old) (popped_by pass.new) }
        ensures empties { pass.new.empties ≡ pass.old.empties }
        ensures deques { deques_of pass.new ≡ deques_of pass.old }
        ensures step { MatchResult result (λ _. Pushed ticket.address pass.old pass.new) (λ _. knows pass.new ≡ knows pass.old) }
    {
        match pass.own.push_as::<Puts>(ticket) {
            Ok(()) => {
                self.wake();
                Ok(())
            }
            Err(ticket) => Err(Refused { ticket }),
        }
    }

    /// The ticket at the front of the pass's own deque, or else that at the front of the first other deque that has one,
    /// from the next pass's round. None only where each deque was empty at a step of the call.
    fn pop<R: Wait>(&self, rt: &R, pass: &mut StealPass) -> Option<Ticket>
        requires pass { self.now.addresses ≡ pass.old.addresses }
        ensures pass { self.now.addresses ≡ pass.new.addresses }
        ensures pushed { pushed_by pass.new ≡ pushed_by pass.old }
        ensures popped { MatchOption result (SameBag (popped_by pass.old) (popped_by pass.new)) (λ t. (t.address < self.now.addresses) × Adds t.address (popped_by pass.old) (popped_by pass.new)) }
        ensures empties { MatchOption result (Rose pass.old.empties pass.new.empties) (λ _. pass.new.empties ≡ pass.old.empties) }
        ensures empty { MatchOption result (FoundEmpty pass.old) (λ _. Unit {0}) }
        ensures deques { deques_of pass.new ≡ deques_of pass.old }
        ensures step { MatchOption result (knows pass.new ≡ knows pass.old) (λ t. Popped t.address pass.old pass.new) }
    {
        if let Some(ticket) = pass.own.pop_as::<Gets>() {
            return Some(ticket);
        }
        if let Some(ticket) = steal_round(rt, &mut pass.thieves) {
            return Some(ticket);
        }
        pass.empties = pass.empties.saturating_add(1);
        None
    }

    fn idle<R: Wait>(&self, rt: &R, pass: &mut StealPass) {
        if let Some(parker) = self.parkers.get(pass.place as usize) {
            parker.park(rt);
        }
    }

    fn wake(&self) {
        for parker in self.parkers.iter() {
            parker.unpark();
        }
    }
}
