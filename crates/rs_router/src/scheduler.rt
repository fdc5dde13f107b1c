ghost use Rattle.std.specs.Prelude.{◌≡◌, ◌++◌, ◌∷◌, [], ◌<◌, ℕ, List, MatchResult, MatchOption};
ghost use Rattle.rs_router.specs.Lists.{SameBag, Adds, Rose};

use rs_mailbox::Ticket;
use std::sync::Wait;
use thiserror::Error;

/// Memory ran out. It carries a ticket of the address that was given.
#[derive(Debug, Drop, Error)]
#[error("out of memory: a ticket was refused")]
pub struct Refused {
    pub ticket: Ticket,
}

/// A scheduler takes tickets and hands them out again, each to one of its passes. A worker has a pass.
///
/// It has a number of addresses, and a ticket's address is below it. A pass has a list of the addresses pushed through
/// it, and a list of those popped through it, of which clauses say how often each address stands in it, and not in what
/// order. No clause says that a ticket that was pushed is ever popped.
pub trait Scheduler: Drop {
    /// A worker's right to push and to pop.
    type Pass: Drop;

    /// The identity that a scheduler and its passes share, and no other scheduler has.
    type Id;

    /// The number of addresses.
    ghost size: { Self → ℕ };

    ghost id: { Self → Self.Id };

    ghost pass_id: { Self.Pass → Self.Id };

    ghost one_id: { (x y : Self.Id) → IsProp (x ≡ y) };

    /// The addresses pushed through the pass, in order.
    ghost pushed: { Self.Pass → List ℕ };

    /// The addresses popped through the pass, in any order.
    ghost popped: { Self.Pass → List ℕ };

    /// The number of pops through the pass that answered None.
    ghost empties: { Self.Pass → ℕ };

    /// At a step of a pop through this pass there was no ticket: each queue was empty at a step.
    ghost saw_empty: { Self.Pass → Type 0 };

    /// Adds the ticket. Refused is want of memory, and then the pass's lists are as they were.
    fn push<R: Wait>(&self, rt: &R, pass: &mut Self::Pass, ticket: Ticket) -> Result<(), Refused>
        requires pass { id self.now ≡ pass_id pass.old }
        requires below { ticket.address < size self.now }
        ensures pass { id self.now ≡ pass_id pass.new }
        ensures pushed { MatchResult result (λ _. pushed pass.new ≡ pushed pass.old ++ ticket.address ∷ []) (λ r. (pushed pass.new ≡ pushed pass.old) × (r.ticket.address ≡ ticket.address)) }
        ensures popped { SameBag (popped pass.old) (popped pass.new) }
        ensures empties { empties pass.new ≡ empties pass.old };

    /// Returns a ticket. None only where the queue was empty at a step of the call; then the count of empty pops
    /// rises, or stands at its last value.
    fn pop<R: Wait>(&self, rt: &R, pass: &mut Self::Pass) -> Option<Ticket>
        requires pass { id self.now ≡ pass_id pass.old }
        ensures pass { id self.now ≡ pass_id pass.new }
        ensures pushed { pushed pass.new ≡ pushed pass.old }
        ensures popped { MatchOption result (SameBag (popped pass.old) (popped pass.new)) (λ t. (t.address < size self.now) × Adds t.address (popped pass.old) (popped pass.new)) }
        ensures empties { MatchOption result (Rose (empties pass.old) (empties pass.new)) (λ _. empties pass.new ≡ empties pass.old) }
        ensures empty { MatchOption result (saw_empty pass.old) (λ _. Unit {0}) };

    /// Waits until there may be a ticket. It may return at any time.
    fn idle<R: Wait>(&self, rt: &R, pass: &mut Self::Pass)
        requires pass { id self.now ≡ pass_id pass.old }
        ensures pass { id self.now ≡ pass_id pass.new }
        ensures pushed { pushed pass.new ≡ pushed pass.old }
        ensures popped { SameBag (popped pass.old) (popped pass.new) }
        ensures empties { empties pass.new ≡ empties pass.old };

    /// Lets the `idle` that each pass is in return, or else its next one. No clause shows this.
    fn wake(&self);
}
