ghost use Rattle.std.specs.Prelude.{◌≡◌, ◌<◌, IfOk, MatchResult};
ghost use Rattle.rs_mailbox.specs.Stations.{handled_of, mailbox_name, view, IsCalm, IsStationOf, IsTurnOf};
ghost use Rattle.rs_router.specs.Lists.{Rose, SameBag, StartsWith};
ghost use Rattle.rs_poll.specs.Answers.{OnAgain, OnTurned};
ghost use Rattle.rs_poll.specs.Visits.{Abandons, Comes, GivesBack, GivesUp, Handles, Quits, Settles, Visits};

use crate::given::Given;
use crate::handler::{Handler, More};
use crate::handling::work;
use crate::worked::Visited;
use crate::worker::Worker;
use rs_base::Gate;
use rs_mailbox::{Mailbox, Released, Station, Taken, Ticket, Turn};
use rs_mailcore::{Fsm, Named};
use rs_router::{Refused, Scheduler, abandon};
use rs_rows::NoMemory;
use std::sync::Wait;

// Has the machine run again.
fn come_again<F: Fsm>(mailbox: &Mailbox<F>, station: &mut Station<F>, turn: Turn<F>) -> Given
    requires station { IsStationOf F.name mailbox.now station.old }
    requires turn { IsTurnOf F.name mailbox.now station.old turn }
    ensures station { IsStationOf F.name mailbox.now station.new }
    ensures calm { IsCalm station.new }
    ensures ticket { OnAgain result (λ t. t.address ≡ mailbox.now.address) }
    ensures steps { Comes (handled_of turn) result (view station.old).deeds (view station.new).deeds }
{
    match mailbox.reschedule(station, turn) {
        Ok(ticket) => Given::Again(ticket),
        Err(gone) => {
            drop(gone);
            Given::Dropped
        }
    }
}

// Gives the machine back. It is to run again where it asked for more, or where messages came while it was released.
fn give_back<F: Fsm>(
    mailbox: &Mailbox<F>,
    station: &mut Station<F>,
    turn: Turn<F>,
    more: More,
) -> Given
    requires station { IsStationOf F.name mailbox.now station.old }
    requires turn { IsTurnOf F.name mailbox.now station.old turn }
    ensures station { IsStationOf F.name mailbox.now station.new }
    ensures calm { IsCalm station.new }
    ensures ticket { OnAgain result (λ t. t.address ≡ mailbox.now.address) }
    ensures steps { GivesBack more (handled_of turn) result (view station.old).deeds (view station.new).deeds }
{
    match more {
        More::Yes => come_again(mailbox, station, turn),
        More::No => match mailbox.release(station, turn) {
            Released::Idle => Given::Home,
            Released::Again(again) => come_again(mailbox, station, again),
            Released::Dropped(machine) => {
                drop(machine);
                Given::Dropped
            }
        },
    }
}

// Gives the machine back, and pushes its ticket where it is to run again. Where the ticket is refused, the mailbox is
// closed.
fn settle<R: Wait, F: Fsm, S: Scheduler>(
    rt: &R,
    scheduler: &S,
    mailbox: &Mailbox<F>,
    station: &mut Station<F>,
    pass: &mut S::Pass,
    turn: Turn<F>,
    more: More,
) -> Result<Visited, NoMemory>
    requires station { IsStationOf F.name mailbox.now station.old }
    requires turn { IsTurnOf F.name mailbox.now station.old turn }
    requires pass { S.id scheduler.now ≡ S.pass_id pass.old }
    requires below { mailbox.now.address < S.size scheduler.now }
    ensures station { IsStationOf F.name mailbox.now station.new }
    ensures calm { IsCalm station.new }
    ensures pass { S.id scheduler.now ≡ S.pass_id pass.new }
    ensures pushed { StartsWith (S.pushed pass.new) (S.pushed pass.old) }
    ensures popped { SameBag (S.popped pass.old) (S.popped pass.new) }
    ensures empties { S.empties pass.new ≡ S.empties pass.old }
    ensures steps { MatchResult result (λ v. Settles more (handled_of turn) mailbox.now.address v (S.pushed pass.old) (S.pushed pass.new) (view station.old).deeds (view station.new).deeds) (λ _. Abandons (handled_of turn) (view station.old).deeds (view station.new).deeds) }
{
    match give_back(mailbox, station, turn, more) {
        Given::Home => Ok(Visited::Turned),
        Given::Dropped => Ok(Visited::Gone),
        Given::Again(ticket) => match scheduler.push(rt, pass, ticket) {
            Ok(()) => Ok(Visited::Turned),
            Err(Refused { ticket }) => {
                abandon(mailbox, station, ticket);
                Err(NoMemory)
            }
        },
    }
}

// Memory was refused with a turn in hand: the machine is given back, the mailbox is closed, and the ticket is spent.
fn give_up<F: Fsm>(mailbox: &Mailbox<F>, station: &mut Station<F>, turn: Turn<F>)
    requires station { IsStationOf F.name mailbox.now station.old }
    requires turn { IsTurnOf F.name mailbox.now station.old turn }
    ensures station { IsStationOf F.name mailbox.now station.new }
    ensures calm { IsCalm station.new }
    ensures steps { Quits (handled_of turn) (view station.old).deeds (view station.new).deeds }
{
    match come_again(mailbox, station, turn) {
        Given::Again(ticket) => abandon(mailbox, station, ticket),
        _ => {}
    }
}

/// Takes the machine of a ticket, works on it and gives it back. With no memory the mailbox is closed, unless it was.
pub(crate) fn visit<R: Wait, G: Gate, F: Fsm, S: Scheduler, H: Handler<F, S>>(
    rt: &R,
    gate: &G,
    scheduler: &S,
    mailbox: &Mailbox<F>,
    station: &mut Station<F>,
    worker: &mut Worker<F, S, H>,
    ticket: Ticket,
) -> Result<Visited, NoMemory>
    requires station { IsStationOf F.name mailbox.now station.old }
    requires calm { IsCalm station.old }
    requires name { mailbox_name F.name mailbox.now ≡ H.name worker.old.handler }
    requires pass { S.id scheduler.now ≡ S.pass_id worker.old.pass }
    requires ticket { ticket.address ≡ mailbox.now.address }
    requires below { mailbox.now.address < S.size scheduler.now }
    ensures station { IsStationOf F.name mailbox.now station.new }
    ensures calm { IsCalm station.new }
    ensures pass { S.id scheduler.now ≡ S.pass_id worker.new.pass }
    ensures name { H.name worker.new.handler ≡ H.name worker.old.handler }
    ensures count { H.count worker.new.handler ≡ H.count worker.old.handler }
    ensures numbers { (worker.new.number ≡ worker.old.number) × (worker.new.batch ≡ worker.old.batch) }
    ensures advances { IfOk result (λ v. OnTurned v (Rose (H.advances worker.old.handler) (H.advances worker.new.handler))) }
    ensures pushed { StartsWith (S.pushed worker.new.pass) (S.pushed worker.old.pass) }
    ensures popped { SameBag (S.popped worker.old.pass) (S.popped worker.new.pass) }
    ensures empties { S.empties worker.new.pass ≡ S.empties worker.old.pass }
    ensures steps { MatchResult result (λ v. Visits (Handles worker.old.batch (H.handles worker.old.handler) (H.handles worker.new.handler)) (H.asked worker.new.handler) mailbox.now.address v (S.pushed worker.old.pass) (S.pushed worker.new.pass) (view station.old).deeds (view station.new).deeds) (λ _. GivesUp worker.old.batch (view station.old).deeds (view station.new).deeds) }
{
    let address = ticket.address();
    let mut turn = match mailbox.take(station, ticket) {
        Taken::Machine(turn) => turn,
        Taken::Not(_word) => return Ok(Visited::Gone),
    };
    gate.pass(rt, worker.number, address);
    match work(rt, mailbox, station, &mut turn, worker) {
        Ok(more) => settle(
            rt,
            scheduler,
            mailbox,
            station,
            &mut worker.pass,
            turn,
            more,
        ),
        Err(NoMemory) => {
            give_up(mailbox, station, turn);
            Err(NoMemory)
        }
    }
}
