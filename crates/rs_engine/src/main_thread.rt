ghost use Rattle.std.specs.Prelude.{◌≡◌, IfOk, OnOk};
ghost use Rattle.rs_history.specs.Outcomes.{outcome_of};
ghost use Rattle.rs_handlers.specs.Outs.{FitsControl};
ghost use Rattle.rs_handlers.specs.Stores.{AreThere};

use crate::deliveries::Telling;
use crate::outcomes::Taking;
use crate::workers::{ApplyPoller, ControlPoller, PeerPoller, had_ticket};
use once_cell::race::OnceBox;
use rs_apply::ApplyFsm;
use rs_base::{Gate, OpenGate};
use rs_check::Plan;
use rs_entry::Outcome;
use rs_handlers::{ControlOut, Seat};
use rs_key::NoMemory;
use rs_poll::Stop;
use std::alloc::Global;
use std::sync::Wait;
use std::{mem, thread};

/// The main thread of the run.
///
/// It tells the peer machines of their logs, serves all three kinds of machines, and takes the control machines once
/// they are complete.
#[derive(Drop)]
pub struct MainThread<'r, 'p> {
    pub plan: &'p Plan,
    pub telling: Telling<'r, 'p>,
    pub taking: Taking<'r, 'p>,
    /// The seat by which it closes mailboxes of apply machines.
    pub applies_seat: Seat<'r, 'p, ApplyFsm<'p>>,
    pub peers: PeerPoller<'r, 'p>,
    pub applies: ApplyPoller<'r, 'p>,
    pub control: ControlPoller<'r, 'p>,
    ghost telling_plan: { telling.seat.plan.now ≡ plan.now },
    ghost taking_plan: { taking.seat.plan.now ≡ plan.now },
    ghost applies_plan: { applies_seat.plan.now ≡ plan.now },
    ghost control_plan: { control.worker.handler.plan.now ≡ plan.now },
}

impl<'r, 'p> MainThread<'r, 'p> {
    /// Works until it holds the outcome of each store, and gives the plan's. It may wait for tickets where the pools
    /// have workers beside it. NoMemory comes also where a worker ended the run.
    pub fn gather<R: Wait, G: Gate>(
        mut self,
        rt: &R,
        alloc: Global,
        gate: &G,
        stop: &OnceBox<Stop>,
        is_helped: bool,
    ) -> Result<Outcome, NoMemory>
        ensures { IfOk result (λ outcome. outcome ≡ outcome_of self.entry.plan.now) }
    {
        self.tell_each(rt)?;
        self.take_told(alloc)?;
        self.work(rt, alloc, gate, stop, is_helped)?;
        let MainThread { taking, .. } = self;
        taking.into_outcome(alloc)
    }

    /// Tells each address of its log for the first time.
    fn tell_each<R: Wait>(&mut self, rt: &R) -> Result<(), NoMemory>
        ensures { self.new.plan ≡ self.old.plan }
    {
        for address in 0..self.plan.count() {
            self.telling.tell_next(rt)?;
        }
        Ok(())
    }

    /// Takes turns until the outcome of each store is there.
    fn work<R: Wait, G: Gate>(
        &mut self,
        rt: &R,
        alloc: Global,
        gate: &G,
        stop: &OnceBox<Stop>,
        is_helped: bool,
    ) -> Result<(), NoMemory>
        ensures plan { self.new.plan ≡ self.old.plan }
        ensures there { OnOk result (AreThere self.new.taking.gathered.outcomes.items) }
    {
        let mut note = stop.note();
        for _ in rt.forever() {
            if self.taking.gathered.is_whole() {
                return Ok(());
            }
            if stop.get_as(&mut note).is_some() {
                return Err(NoMemory);
            }
            if !self.turn(rt, alloc, gate)? {
                self.wait(rt, is_helped);
            }
        }
        unreachable!()
    }

    /// Takes one turn at everything, and returns whether there was anything to do.
    fn turn<R: Wait, G: Gate>(&mut self, rt: &R, alloc: Global, gate: &G) -> Result<bool, NoMemory>
        ensures { self.new.plan ≡ self.old.plan }
    {
        let told = self.telling.tell_next(rt)?;
        let peers = self.peers.poll_once(rt, gate)?;
        let applies = self.applies.poll_once(rt, gate)?;
        let control = self.control.poll_once(rt, &OpenGate)?;
        self.take_told(alloc)?;
        Ok(told || had_ticket(peers) || had_ticket(applies) || had_ticket(control))
    }

    /// Does what the control machines told: closes the mailboxes of regions that ended removed, and takes the machines
    /// that are complete.
    fn take_told(&mut self, alloc: Global) -> Result<(), NoMemory>
        ensures { self.new.plan ≡ self.old.plan }
    {
        let out = take_out(alloc, &mut self.control);
        for address in out.removed.into_vec() {
            self.telling.close(address);
            drop(self.applies_seat.close(address));
        }
        for place in out.complete.into_vec() {
            self.taking.take(place)?;
        }
        Ok(())
    }

    /// Waits for a control machine's ticket where the pools have workers, and else yields. It may return at any time.
    fn wait<R: Wait>(&mut self, rt: &R, is_helped: bool)
        ensures { self.new.plan ≡ self.old.plan }
    {
        if is_helped {
            self.taking.idle(rt);
        } else {
            thread::yield_now();
        }
    }
}

/// Returns what the control machines have told since the last call.
fn take_out<'r, 'p>(alloc: Global, poller: &mut ControlPoller<'r, 'p>) -> ControlOut
    ensures plan { poller.new.worker.handler.plan ≡ poller.old.worker.handler.plan }
    ensures out { FitsControl poller.old.worker.handler.plan.now result }
{
    let worker = &mut poller.worker;
    mem::replace(&mut worker.out, ControlOut::new(alloc))
}
