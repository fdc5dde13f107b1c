ghost use Rattle.std.specs.Prelude.{◌≡◌, ◌≤◌, ◌+◌, ℕ, IfOk, MatchResult, OnOk};
ghost use Rattle.rs_mailbox.specs.Stations.{handled_of, mailbox_name, IsStationOf, IsTurnOf};
ghost use Rattle.rs_router.specs.Lists.{Rose};
ghost use Rattle.rs_poll.specs.Counts.{RoseBy};

use crate::handler::{Handler, More};
use crate::worker::Worker;
use rs_mailbox::{Mailbox, Station, Turn};
use rs_mailcore::{Fsm, Named};
use rs_router::Scheduler;
use rs_rows::NoMemory;
use std::sync::Wait;

fn handle_in<F: Fsm, S: Scheduler, H: Handler<F, S>>(
    mailbox: &Mailbox<F>,
    station: &Station<F>,
    turn: &mut Turn<F>,
    worker: &mut Worker<F, S, H>,
    message: F::Message,
) -> Result<(), NoMemory>
    requires turn { IsTurnOf F.name mailbox.now station.now turn.old }
    requires name { mailbox_name F.name mailbox.now ≡ H.name worker.old.handler }
    requires message { F.Message.name message ≡ H.name worker.old.handler }
    ensures turn { IsTurnOf F.name mailbox.now station.now turn.new }
    ensures handled { handled_of turn.new ≡ handled_of turn.old }
    ensures name { H.name worker.new.handler ≡ H.name worker.old.handler }
    ensures count { H.count worker.new.handler ≡ H.count worker.old.handler }
    ensures pass { worker.new.pass ≡ worker.old.pass }
    ensures numbers { (worker.new.number ≡ worker.old.number) × (worker.new.batch ≡ worker.old.batch) }
    ensures handles { MatchResult result (λ _. RoseBy 1 (H.handles worker.old.handler) (H.handles worker.new.handler)) (λ _. H.handles worker.new.handler ≡ H.handles worker.old.handler) }
    ensures advances { H.advances worker.new.handler ≡ H.advances worker.old.handler }
{
    worker
        .handler
        .handle(turn.machine(), message, &mut worker.out)
}

fn advance_in<F: Fsm, S: Scheduler, H: Handler<F, S>>(
    mailbox: &Mailbox<F>,
    station: &Station<F>,
    turn: &mut Turn<F>,
    worker: &mut Worker<F, S, H>,
) -> Result<More, NoMemory>
    requires turn { IsTurnOf F.name mailbox.now station.now turn.old }
    requires name { mailbox_name F.name mailbox.now ≡ H.name worker.old.handler }
    ensures turn { IsTurnOf F.name mailbox.now station.now turn.new }
    ensures handled { handled_of turn.new ≡ handled_of turn.old }
    ensures name { H.name worker.new.handler ≡ H.name worker.old.handler }
    ensures count { H.count worker.new.handler ≡ H.count worker.old.handler }
    ensures pass { worker.new.pass ≡ worker.old.pass }
    ensures numbers { (worker.new.number ≡ worker.old.number) × (worker.new.batch ≡ worker.old.batch) }
    ensures handles { H.handles worker.new.handler ≡ H.handles worker.old.handler }
    ensures advances { MatchResult result (λ _. Rose (H.advances worker.old.handler) (H.advances worker.new.handler)) (λ _. H.advances worker.new.handler ≡ H.advances worker.old.handler) }
    ensures asked { IfOk result (λ more. H.asked worker.new.handler ≡ more) }
{
    worker
        .handler
        .advance(turn.machine(), worker.batch, &mut worker.out)
}

/// Handles at most a batch of messages, and then advances once.
pub(crate) fn work<R: Wait, F: Fsm, S: Scheduler, H: Handler<F, S>>(
    rt: &R,
    mailbox: &Mailbox<F>,
    station: &mut Station<F>,
    turn: &mut Turn<F>,
    worker: &mut Worker<F, S, H>,
) -> Result<More, NoMemory>
    requires station { IsStationOf F.name mailbox.now station.old }
    requires turn { IsTurnOf F.name mailbox.now station.old turn.old }
    requires name { mailbox_name F.name mailbox.now ≡ H.name worker.old.handler }
    ensures station { station.new ≡ station.old }
    ensures turn { IsTurnOf F.name mailbox.now station.new turn.new }
    ensures handled { (handled_of turn.old ≤ handled_of turn.new) × (handled_of turn.new ≤ handled_of turn.old + worker.old.batch) }
    ensures name { H.name worker.new.handler ≡ H.name worker.old.handler }
    ensures count { H.count worker.new.handler ≡ H.count worker.old.handler }
    ensures pass { worker.new.pass ≡ worker.old.pass }
    ensures numbers { (worker.new.number ≡ worker.old.number) × (worker.new.batch ≡ worker.old.batch) }
    ensures handles { OnOk result ((messages : ℕ) × (handled_of turn.new ≡ handled_of turn.old + messages) × RoseBy messages (H.handles worker.old.handler) (H.handles worker.new.handler)) }
    ensures advances { OnOk result (Rose (H.advances worker.old.handler) (H.advances worker.new.handler)) }
    ensures asked { IfOk result (λ more. H.asked worker.new.handler ≡ more) }
{
    for done in 0..worker.batch {
        let Some(message) = mailbox.next_message(rt, station, turn) else {
            break;
        };
        handle_in(mailbox, station, turn, worker, message)?;
    }
    advance_in(mailbox, station, turn, worker)
}
