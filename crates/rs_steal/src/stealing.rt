ghost use Rattle.std.specs.Prelude.{◌≡◌, ◌∷◌, [], All, map, MatchOption};
ghost use Rattle.crossbeam_deque.specs.Handles.{view, stealer_deque};
ghost use Rattle.rs_steal.specs.Rule.{TakenOut, WasEmpty};
ghost use Rattle.rs_steal.specs.Thieves.{deque_of, views_of, Stole};

use crate::deque_rule::Gets;
use crate::thief::Thief;
use crossbeam_deque::Steal;
use rs_mailbox::Ticket;
use std::sync::Wait;

// Takes the ticket at the front of another's deque. A steal that has to be tried again is tried again.
fn steal<R: Wait>(rt: &R, thief: &mut Thief) -> Option<Ticket>
    ensures deque { stealer_deque thief.new.stealer ≡ stealer_deque thief.old.stealer }
    ensures rule { MatchOption result ((view thief.new.pass ≡ view thief.old.pass) × WasEmpty (view thief.old.pass)) (λ x. TakenOut (view thief.old.pass) (x.address ∷ []) (view thief.new.pass)) }
{
    for _ in rt.forever() {
        match thief.stealer.steal_as::<Gets>(&mut thief.pass) {
            Steal::Success(ticket) => return Some(ticket),
            Steal::Empty => return None,
            Steal::Retry => {}
        }
    }
    unreachable!()
}

/// Steals from the first of these deques that has a ticket.
pub(crate) fn steal_round<R: Wait>(rt: &R, thieves: &mut Vec<Thief>) -> Option<Ticket>
    ensures deques { map deque_of thieves.new.items ≡ map deque_of thieves.old.items }
    ensures rule { MatchOption result ((views_of thieves.new.items ≡ views_of thieves.old.items) × All WasEmpty (views_of thieves.old.items)) (λ x. Stole x.address (views_of thieves.old.items) (views_of thieves.new.items)) }
{
    for k in 0..thieves.len() {
        if let Some(ticket) = steal(rt, &mut thieves[k]) {
            return Some(ticket);
        }
    }
    None
}
