ghost use Rattle.std.specs.Prelude.{◌≡◌, ◌<◌, IfOk, MatchResult, length};
ghost use Rattle.rs_router.specs.Desks.{AreDesksOf, AllCalm, AllNamed, ChangesAt};
ghost use Rattle.rs_router.specs.Lists.{Adds, Rose, SameBag, StartsWith};
ghost use Rattle.rs_router.specs.Turns.{turn_steps};
ghost use Rattle.rs_poll.specs.Answers.{MatchWorked, OnTurned};
ghost use Rattle.rs_poll.specs.Visits.{GivesUp, Handles, Leaves, Turns, Visits};

use crate::handler::Handler;
use crate::visits::visit;
use crate::worked::{Visited, Worked};
use crate::worker::Worker;
use rs_base::Gate;
use rs_mailbox::Ticket;
use rs_mailcore::{Fsm, Named};
use rs_router::{Desks, Router, Scheduler};
use rs_rows::NoMemory;
use std::sync::Wait;

// A visit to the mailbox of a ticket: of the desks, one station changes.
fn visit_at<R: Wait, G: Gate, F: Fsm, S: Scheduler, H: Handler<F, S>>(
    rt: &R,
    gate: &G,
    router: &Router<F, S>,
    desks: &mut Desks<F>,
    worker: &mut Worker<F, S, H>,
    ticket: Ticket,
) -> Result<Visited, NoMemory>
    requires desks { AreDesksOf F.name router.now.mailboxes.items desks.old.stations.items }
    requires pass { S.id router.now.scheduler ≡ S.pass_id worker.old.pass }
    requires calm { AllCalm desks.old.stations.items }
    requires router { AllNamed F.name (H.name worker.old.handler) router.now.mailboxes.items }
    requires below { ticket.address < length router.now.mailboxes.items }
    ensures desks { AreDesksOf F.name router.now.mailboxes.items desks.new.stations.items }
    ensures pass { S.id router.now.scheduler ≡ S.pass_id worker.new.pass }
    ensures calm { AllCalm desks.new.stations.items }
    ensures name { H.name worker.new.handler ≡ H.name worker.old.handler }
    ensures count { H.count worker.new.handler ≡ H.count worker.old.handler }
    ensures numbers { (worker.new.number ≡ worker.old.number) × (worker.new.batch ≡ worker.old.batch) }
    ensures advances { IfOk result (λ v. OnTurned v (Rose (H.advances worker.old.handler) (H.advances worker.new.handler))) }
    ensures pushed { StartsWith (S.pushed worker.new.pass) (S.pushed worker.old.pass) }
    ensures popped { SameBag (S.popped worker.old.pass) (S.popped worker.new.pass) }
    ensures empties { S.empties worker.new.pass ≡ S.empties worker.old.pass }
    ensures steps { MatchResult result (λ v. ChangesAt ticket.address (Visits (Handles worker.old.batch (H.handles worker.old.handler) (H.handles worker.new.handler)) (H.asked worker.new.handler) ticket.address v (S.pushed worker.old.pass) (S.pushed worker.new.pass)) (turn_steps desks.old.stations.items) (turn_steps desks.new.stations.items)) (λ _. ChangesAt ticket.address (GivesUp worker.old.batch) (turn_steps desks.old.stations.items) (turn_steps desks.new.stations.items)) }
{
    let address = ticket.address();
    let mailbox = router.mailbox(address);
    let station = &mut desks.stations[address as usize];
    visit(
        rt,
        gate,
        router.scheduler(),
        mailbox,
        station,
        worker,
        ticket,
    )
}

/// Takes one turn over the parts of a worker.
pub(crate) fn take_turn<R: Wait, G: Gate, F: Fsm, S: Scheduler, H: Handler<F, S>>(
    rt: &R,
    gate: &G,
    router: &Router<F, S>,
    desks: &mut Desks<F>,
    worker: &mut Worker<F, S, H>,
) -> Result<Worked, NoMemory>
    requires desks { AreDesksOf F.name router.now.mailboxes.items desks.old.stations.items }
    requires pass { S.id router.now.scheduler ≡ S.pass_id worker.old.pass }
    requires calm { AllCalm desks.old.stations.items }
    requires router { AllNamed F.name (H.name worker.old.handler) router.now.mailboxes.items }
    requires count { length router.now.mailboxes.items ≡ H.count worker.old.handler }
    ensures desks { AreDesksOf F.name router.now.mailboxes.items desks.new.stations.items }
    ensures pass { S.id router.now.scheduler ≡ S.pass_id worker.new.pass }
    ensures calm { AllCalm desks.new.stations.items }
    ensures name { H.name worker.new.handler ≡ H.name worker.old.handler }
    ensures count { H.count worker.new.handler ≡ H.count worker.old.handler }
    ensures numbers { (worker.new.number ≡ worker.old.number) × (worker.new.batch ≡ worker.old.batch) }
    ensures pushed { StartsWith (S.pushed worker.new.pass) (S.pushed worker.old.pass) }
    ensures popped { IfOk result (λ w. MatchWorked w (λ a. Adds a (S.popped worker.old.pass) (S.popped worker.new.pass)) (λ a. Adds a (S.popped worker.old.pass) (S.popped worker.new.pass)) (SameBag (S.popped worker.old.pass) (S.popped worker.new.pass))) }
    ensures empties { IfOk result (λ w. MatchWorked w (λ _. S.empties worker.new.pass ≡ S.empties worker.old.pass) (λ _. S.empties worker.new.pass ≡ S.empties worker.old.pass) (Rose (S.empties worker.old.pass) (S.empties worker.new.pass) × S.saw_empty worker.old.pass)) }
    ensures advances { IfOk result (λ w. MatchWorked w (λ _. Rose (H.advances worker.old.handler) (H.advances worker.new.handler)) (λ _. Unit {0}) (H.advances worker.new.handler ≡ H.advances worker.old.handler)) }
    ensures handles { IfOk result (λ w. MatchWorked w (λ _. Unit {0}) (λ _. Unit {0}) (H.handles worker.new.handler ≡ H.handles worker.old.handler)) }
    ensures steps { IfOk result (λ w. MatchWorked w (λ a. ChangesAt a (Turns (Handles worker.old.batch (H.handles worker.old.handler) (H.handles worker.new.handler)) (H.asked worker.new.handler) a (S.pushed worker.old.pass) (S.pushed worker.new.pass)) (turn_steps desks.old.stations.items) (turn_steps desks.new.stations.items)) (λ a. ChangesAt a (Leaves (Handles worker.old.batch (H.handles worker.old.handler) (H.handles worker.new.handler)) (H.asked worker.new.handler)) (turn_steps desks.old.stations.items) (turn_steps desks.new.stations.items)) (turn_steps desks.new.stations.items ≡ turn_steps desks.old.stations.items)) }
{
    let Some(ticket) = router.scheduler().pop(rt, &mut worker.pass) else {
        return Ok(Worked::Nothing);
    };
    let address = ticket.address();
    let visited = visit_at(rt, gate, router, desks, worker, ticket)?;
    worker
        .handler
        .send_out(rt, router, desks, &mut worker.pass, &mut worker.out)?;
    Ok(match visited {
        Visited::Turned => Worked::Turned(address),
        Visited::Gone => Worked::Gone(address),
    })
}
