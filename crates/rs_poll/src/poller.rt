ghost use Rattle.std.specs.Prelude.{◌≡◌, IfOk, OnOk, IsSome, length};
ghost use Rattle.once_cell.specs.Once.{cell_name};
ghost use Rattle.rs_router.specs.Desks.{AreDesksOf, AllCalm, AllNamed, ChangesAt};
ghost use Rattle.rs_router.specs.Lists.{Adds, Rose, SameBag, StartsWith};
ghost use Rattle.rs_router.specs.Turns.{turn_steps};
ghost use Rattle.rs_poll.specs.Answers.{MatchWorked};
ghost use Rattle.rs_poll.specs.Kept.{AllNamed_prop, AreDesksOf_prop};
ghost use Rattle.rs_poll.specs.Visits.{Handles, Leaves, Turns};

use crate::handler::Handler;
use crate::stop::Stop;
use crate::turns::take_turn;
use crate::worked::Worked;
use crate::worker::Worker;
use once_cell::race::{Note, OnceBox};
use rs_base::Gate;
use rs_mailcore::{Fsm, Named};
use rs_router::{Desks, Router, Scheduler};
use rs_rows::NoMemory;
use std::mem;
use std::sync::Wait;

/// One worker, with its desks of a router.
///
/// All its stations are calm between its calls, so it never has a machine then. It goes into a thread by value, and
/// brings all that its calls need.
#[derive(Drop)]
pub struct Poller<'r, F: Fsm, S: Scheduler, H: Handler<F, S>> {
    pub router: &'r Router<F, S>,
    pub desks: Desks<F>,
    pub worker: Worker<F, S, H>,
    ghost tied: { AreDesksOf F.name router.now.mailboxes.items desks.stations.items } by { AreDesksOf_prop F.one_name F.name router.now.mailboxes.items desks.stations.items },
    ghost owned: { S.id router.now.scheduler ≡ S.pass_id worker.pass } by { S.one_id (S.id router.now.scheduler) (S.pass_id worker.pass) },
    ghost calm: { AllCalm desks.stations.items },
    ghost named: { AllNamed F.name (H.name worker.handler) router.now.mailboxes.items } by { AllNamed_prop F.one_name F.name (H.name worker.handler) router.now.mailboxes.items },
    ghost counted: { length router.now.mailboxes.items ≡ H.count worker.handler },
}

impl<'r, F: Fsm, S: Scheduler, H: Handler<F, S>> Poller<'r, F, S, H> {
    /// Returns a worker of this number, which handles at most `batch` messages in a turn.
    pub fn new(
        router: &'r Router<F, S>,
        desks: Desks<F>,
        pass: S::Pass,
        handler: H,
        out: H::Out,
        worker: u32,
        batch: u32,
    ) -> Poller<'r, F, S, H>
        requires desks { AreDesksOf F.name router.now.mailboxes.items desks.stations.items }
        requires pass { S.id router.now.scheduler ≡ S.pass_id pass }
        requires calm { AllCalm desks.stations.items }
        requires name { AllNamed F.name (H.name handler) router.now.mailboxes.items }
        requires count { length router.now.mailboxes.items ≡ H.count handler }
        requires out { H.fits handler out }
        ensures router { result.router.now ≡ router.now }
        ensures desks { result.desks ≡ desks }
        ensures pass { result.worker.pass ≡ pass }
        ensures handler { (result.worker.handler ≡ handler) × (result.worker.out ≡ out) }
        ensures numbers { (result.worker.number ≡ worker) × (result.worker.batch ≡ batch) }
    {
        Poller {
            router,
            desks,
            worker: Worker {
                pass,
                handler,
                out,
                number: worker,
                batch,
            },
        }
    }

    /// Returns what came out of the machines and wasn't sent.
    pub fn out(&self) -> &H::Out
        ensures { result.now ≡ self.now.worker.out }
    {
        &self.worker.out
    }

    /// Takes what came out of the machines and wasn't sent, and leaves `out` in its place.
    pub fn replace_out(&mut self, out: H::Out) -> H::Out
        requires fits { H.fits self.old.worker.handler out }
        ensures out { result ≡ self.old.worker.out }
        ensures fits { H.fits self.old.worker.handler result }
        ensures left { self.new.worker.out ≡ out }
        ensures router { self.new.router ≡ self.old.router }
        ensures desks { self.new.desks ≡ self.old.desks }
        ensures worker { (self.new.worker.pass ≡ self.old.worker.pass) × (self.new.worker.handler ≡ self.old.worker.handler) }
        ensures numbers { (self.new.worker.number ≡ self.old.worker.number) × (self.new.worker.batch ≡ self.old.worker.batch) }
    {
        let worker = &mut self.worker;
        mem::replace(&mut worker.out, out)
    }

    /// Takes one turn, in these steps: it pops a ticket and takes its machine, passes the gate, handles at most
    /// `batch` messages, advances once, gives the machine back, and sends what came out. The machine is rescheduled
    /// where it asked for more, or where its release found more messages announced than handled.
    ///
    /// Where memory is refused while it has the machine, or its ticket is refused, the mailbox is closed and the
    /// machine dropped. After NoMemory the run is to end.
    pub fn poll_once<R: Wait, G: Gate>(&mut self, rt: &R, gate: &G) -> Result<Worked, NoMemory>
        ensures router { self.new.router.now ≡ self.old.router.now }
        ensures numbers { (self.new.worker.number ≡ self.old.worker.number) × (self.new.worker.batch ≡ self.old.worker.batch) }
        ensures name { H.name self.new.worker.handler ≡ H.name self.old.worker.handler }
        ensures pushed { StartsWith (S.pushed self.new.worker.pass) (S.pushed self.old.worker.pass) }
        ensures popped { IfOk result (λ w. MatchWorked w (λ a. Adds a (S.popped self.old.worker.pass) (S.popped self.new.worker.pass)) (λ a. Adds a (S.popped self.old.worker.pass) (S.popped self.new.worker.pass)) (SameBag (S.popped self.old.worker.pass) (S.popped self.new.worker.pass))) }
        ensures empties { IfOk result (λ w. MatchWorked w (λ _. S.empties self.new.worker.pass ≡ S.empties self.old.worker.pass) (λ _. S.empties self.new.worker.pass ≡ S.empties self.old.worker.pass) (Rose (S.empties self.old.worker.pass) (S.empties self.new.worker.pass) × S.saw_empty self.old.worker.pass)) }
        ensures advances { IfOk result (λ w. MatchWorked w (λ _. Rose (H.advances self.old.worker.handler) (H.advances self.new.worker.handler)) (λ _. Unit {0}) (H.advances self.new.worker.handler ≡ H.advances self.old.worker.handler)) }
        ensures handles { IfOk result (λ w. MatchWorked w (λ _. Unit {0}) (λ _. Unit {0}) (H.handles self.new.worker.handler ≡ H.handles self.old.worker.handler)) }
        ensures steps { IfOk result (λ w. MatchWorked w (λ a. ChangesAt a (Turns (Handles self.old.worker.batch (H.handles self.old.worker.handler) (H.handles self.new.worker.handler)) (H.asked self.new.worker.handler) a (S.pushed self.old.worker.pass) (S.pushed self.new.worker.pass)) (turn_steps self.old.desks.stations.items) (turn_steps self.new.desks.stations.items)) (λ a. ChangesAt a (Leaves (Handles self.old.worker.batch (H.handles self.old.worker.handler) (H.handles self.new.worker.handler)) (H.asked self.new.worker.handler)) (turn_steps self.old.desks.stations.items) (turn_steps self.new.desks.stations.items)) (turn_steps self.new.desks.stations.items ≡ turn_steps self.old.desks.stations.items)) }
    {
        take_turn(rt, gate, self.router, &mut self.desks, &mut self.worker)
    }

    /// Takes turns until `stop` is set, and waits where there was no ticket. Ok comes only where the note knows the cell's
    /// value.
    pub fn serve<R: Wait, G: Gate>(
        &mut self,
        rt: &R,
        gate: &G,
        stop: &OnceBox<Stop>,
        note: &mut Note<Stop>,
    ) -> Result<(), NoMemory>
        requires note { note.old.cell ≡ cell_name stop.now }
        ensures router { self.new.router.now ≡ self.old.router.now }
        ensures numbers { (self.new.worker.number ≡ self.old.worker.number) × (self.new.worker.batch ≡ self.old.worker.batch) }
        ensures name { H.name self.new.worker.handler ≡ H.name self.old.worker.handler }
        ensures pushed { StartsWith (S.pushed self.new.worker.pass) (S.pushed self.old.worker.pass) }
        ensures note { note.new.cell ≡ cell_name stop.now }
        ensures known { OnOk result (IsSome note.new.known) }
    {
        for _ in rt.forever() {
            if stop.get_as(note).is_some() {
                return Ok(());
            }
            if let Worked::Nothing = self.poll_once(rt, gate)? {
                idle(rt, self.router, &mut self.worker);
            }
        }
        unreachable!()
    }
}

// Waits until there may be a ticket.
fn idle<R: Wait, F: Fsm, S: Scheduler, H: Handler<F, S>>(
    rt: &R,
    router: &Router<F, S>,
    worker: &mut Worker<F, S, H>,
)
    requires pass { S.id router.now.scheduler ≡ S.pass_id worker.old.pass }
    ensures pass { S.id router.now.scheduler ≡ S.pass_id worker.new.pass }
    ensures handler { worker.new.handler ≡ worker.old.handler }
    ensures numbers { (worker.new.number ≡ worker.old.number) × (worker.new.batch ≡ worker.old.batch) }
    ensures pushed { S.pushed worker.new.pass ≡ S.pushed worker.old.pass }
{
    router.scheduler().idle(rt, &mut worker.pass);
}
