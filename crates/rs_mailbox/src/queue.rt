ghost use Rattle.std.specs.Prelude.{◌≡◌, ◌≤◌, ◌<◌, ◌^◌, ◌*◌, Some, length, MatchOption, MatchResult};
ghost use Rattle.crossbeam_queue.specs.Fifo.{Held};
ghost use Rattle.crossbeam_queue.specs.SegTies.{IsSegPassOf};
ghost use Rattle.rs_mailbox.specs.InOrder.{sends, gets, Stands, StandsAt, Fronts};

use crate::trail::{Got, MessagePass, MessageQueue, Sent};
use rs_mailcore::Named;
use std::sync::Wait;

// Err with the message where memory ran out, and then nothing was pushed.
pub(crate) fn push_message<M: Named + Drop, R: Wait>(
    rt: &R,
    queue: &MessageQueue<M>,
    pass: &mut MessagePass<M>,
    message: M,
) -> Result<(), M>
    requires queue { IsSegPassOf queue.now pass.old }
    requires name { pass.old.me.view.client.name ≡ Some (M.name message) }
    requires few { length pass.old.me.view.client.sent < 2 ^ 50 }
    ensures queue { IsSegPassOf queue.now pass.new }
    ensures sent { MatchResult result (λ _. (pass.new.me.view.client ≡ sends pass.old.me.view.client message) × Stands M.name pass.old.me.view.client) (λ x. (x ≡ message) × (pass.new.me.view.client ≡ pass.old.me.view.client)) }
{
    queue.push_as::<Sent, R>(rt, pass, message)
}

// None only where the queue was empty at a step of the call.
pub(crate) fn pop_message<M: Named + Drop, R: Wait>(
    rt: &R,
    queue: &MessageQueue<M>,
    pass: &mut MessagePass<M>,
) -> Option<M>
    requires queue { IsSegPassOf queue.now pass.old × (pass.old.id ≡ 0) }
    ensures queue { IsSegPassOf queue.now pass.new × (pass.new.id ≡ 0) }
    ensures got { MatchOption result ((pass.new.me.view.client ≡ pass.old.me.view.client) × Held 0 (StandsAt M.name pass.old.me.view.client)) (λ x. (pass.new.me.view.client ≡ gets pass.old.me.view.client x) × Fronts M.name pass.old.me.view.client x) }
{
    queue.pop_as::<Got, R>(rt, pass)
}
