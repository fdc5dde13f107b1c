ghost use Rattle.std.specs.Prelude.{◌≡◌, ◌≢◌, ◌≤◌, ◌<◌, Some, None, is_some, MatchBool, MatchOption, MatchResult, IfOk, IfErr, IsTrue, ◌↔◌, []};
ghost use mathlib.Core.Option.{some};
ghost use lib.ListN.{get_elem?};
ghost use Rattle.rs_mailcore.specs.declared.thread.Thread.{Thread};
ghost use Rattle.rs_mailcore.specs.declared.step.Step.TheVariants.{Announce, Notify, Take, Release, Recheck, Retake, Close, Look, Reschedule, Push, Pop};
ghost use Rattle.rs_mailcore.specs.Keeping.{moment, opening, MayStep, Steps, IsAwake};
ghost use Rattle.rs_mailcore.specs.Sitting.{is_home, Fronts, IsSeated};

use crate::ledger::Ledger;
use crate::letter::Letter;
use crate::named::Fsm;
use crate::step::Step;
use rs_rows::NoMemory;
use std::alloc::Global;

/// A mailbox for one thread: the machine, its messages, and the steps of its stations as plain calls. Stations are
/// numbered from 0. Each call makes one step for one station, and requires that the station may make it.
#[derive(Drop)]
pub struct Desk<F: Fsm> {
    ledger: Ledger<F::Message>,
    machine: Option<F>,
}

impl<F: Fsm> Desk<F> {
    /// Returns an idle mailbox with the machine home, nothing in its queue and calm stations.
    pub fn new(alloc: Global, machine: F, stations: u32) -> Result<Desk<F>, NoMemory>
        requires { (1 ≤ stations) × (stations ≤ 4096) }
        ensures opening { IfOk result (λ d. moment d.ledger ≡ opening stations) }
        ensures machine { IfOk result (λ d. d.machine ≡ Some machine) }
        ensures seated { IfOk result (λ d. IsSeated (moment d.ledger) d.machine) }
    {
        let ledger = Ledger::new(alloc, stations)?;
        Ok(Desk {
            ledger,
            machine: Some(machine),
        })
    }

    /// Returns whether this station is there, and may make this step.
    pub fn may_step(&self, station: u32, step: &Step<F::Message>) -> bool
        ensures { IsTrue result ↔ MayStep (moment self.now.ledger) station step.now }
    {
        self.ledger.may_step(station as usize, step)
    }

    /// Returns the state word: 0 Notified, 1 Idle, 2 Drop, 3 Held. Where the mailbox is open and has messages, it
    /// isn't at rest: it is Notified or Held, or some station is about to look after the messages.
    pub fn word(&self) -> u64
        requires { IsSeated (moment self.now.ledger) self.now.machine }
        ensures word { result ≡ self.now.ledger.word }
        ensures awake { IsAwake (moment self.now.ledger) }
    {
        self.ledger.word()
    }

    /// Announces one more message.
    #[tactic(auto, using(crate::proofs::Seats::stays_seated))]
    pub fn announce(&mut self, station: u32)
        requires seated { IsSeated (moment self.old.ledger) self.old.machine }
        requires enabled { MayStep (moment self.old.ledger) station Announce }
        ensures step { Steps (moment self.old.ledger) station Announce (moment self.new.ledger) }
        ensures seated { IsSeated (moment self.new.ledger) self.new.machine }
        ensures machine { self.new.machine ≡ self.old.machine }
    {
        self.ledger.announce(station as usize);
    }

    /// Returns true exactly where it found Idle, which is Notified then.
    #[tactic(auto, using(crate::proofs::Seats::stays_seated))]
    pub fn notify(&mut self, station: u32) -> bool
        requires seated { IsSeated (moment self.old.ledger) self.old.machine }
        requires enabled { MayStep (moment self.old.ledger) station Notify }
        ensures step { Steps (moment self.old.ledger) station Notify (moment self.new.ledger) }
        ensures seated { IsSeated (moment self.new.ledger) self.new.machine }
        ensures machine { self.new.machine ≡ self.old.machine }
        ensures found { MatchBool result (self.old.ledger.word ≡ 1) (self.old.ledger.word ≢ 1) }
    {
        self.ledger.notify(station as usize)
    }

    /// Returns the machine. Err exactly where it found this word, not Notified, and then nothing is changed.
    #[tactic(auto, using(crate::proofs::Seats::taken_out, crate::proofs::Seats::not_taken, crate::proofs::Seats::there_at_rest))]
    pub fn take(&mut self, station: u32) -> Result<F, u64>
        requires seated { IsSeated (moment self.old.ledger) self.old.machine }
        requires enabled { MayStep (moment self.old.ledger) station Take }
        ensures step { Steps (moment self.old.ledger) station Take (moment self.new.ledger) }
        ensures seated { IsSeated (moment self.new.ledger) self.new.machine }
        ensures machine { MatchResult result (λ x. (self.old.machine ≡ Some x) × (self.new.machine ≡ None)) (λ _. self.new.machine ≡ self.old.machine) }
        ensures found { MatchResult result (λ _. self.old.ledger.word ≡ 0) (λ word. (word ≡ self.old.ledger.word) × (word ≢ 0)) }
    {
        self.ledger.take(station as usize)?;
        Ok(self.machine.take().unwrap())
    }

    /// Puts the machine home. Some exactly where it found Drop: then the machine is handed out.
    #[tactic(auto, using(crate::proofs::Seats::put_home, crate::proofs::Seats::handed_out))]
    pub fn release(&mut self, station: u32, machine: F) -> Option<F>
        requires seated { IsSeated (moment self.old.ledger) self.old.machine }
        requires enabled { MayStep (moment self.old.ledger) station Release }
        ensures step { Steps (moment self.old.ledger) station Release (moment self.new.ledger) }
        ensures seated { IsSeated (moment self.new.ledger) self.new.machine }
        ensures machine { MatchOption result (self.new.machine ≡ Some machine) (λ x. (x ≡ machine) × (self.new.machine ≡ self.old.machine)) }
        ensures found { MatchOption result (self.old.ledger.word ≡ 3) (λ _. self.old.ledger.word ≡ 2) }
    {
        if self.ledger.release(station as usize) {
            self.machine = Some(machine);
            return None;
        }
        Some(machine)
    }

    /// Returns true exactly where more was announced than the station remembers. Else it is calm.
    #[tactic(auto, using(crate::proofs::Seats::stays_seated))]
    pub fn recheck(&mut self, station: u32) -> bool
        requires seated { IsSeated (moment self.old.ledger) self.old.machine }
        requires enabled { MayStep (moment self.old.ledger) station Recheck }
        ensures step { Steps (moment self.old.ledger) station Recheck (moment self.new.ledger) }
        ensures seated { IsSeated (moment self.new.ledger) self.new.machine }
        ensures machine { self.new.machine ≡ self.old.machine }
        ensures found { (x : Thread) × (get_elem? self.old.ledger.threads.items station ≡ some x) × MatchBool result (x.stance.remembered < self.old.ledger.announced) (self.old.ledger.announced ≤ x.stance.remembered) }
    {
        self.ledger.recheck(station as usize)
    }

    /// Returns the machine once more. Some exactly where it found Idle.
    #[tactic(auto, using(crate::proofs::Seats::retaken_out, crate::proofs::Seats::not_retaken, crate::proofs::Seats::there_at_rest))]
    pub fn retake(&mut self, station: u32) -> Option<F>
        requires seated { IsSeated (moment self.old.ledger) self.old.machine }
        requires enabled { MayStep (moment self.old.ledger) station Retake }
        ensures step { Steps (moment self.old.ledger) station Retake (moment self.new.ledger) }
        ensures seated { IsSeated (moment self.new.ledger) self.new.machine }
        ensures machine { MatchOption result (self.new.machine ≡ self.old.machine) (λ x. (self.old.machine ≡ Some x) × (self.new.machine ≡ None)) }
        ensures found { MatchOption result (self.old.ledger.word ≢ 1) (λ _. self.old.ledger.word ≡ 1) }
    {
        if !self.ledger.retake(station as usize) {
            return None;
        }
        self.machine.take()
    }

    /// Closes the mailbox for good. Answers the word that it found, and the machine exactly where it was home.
    #[tactic(auto, using(crate::proofs::Seats::closed))]
    pub fn close(&mut self, station: u32) -> (u64, Option<F>)
        requires seated { IsSeated (moment self.old.ledger) self.old.machine }
        requires enabled { MayStep (moment self.old.ledger) station Close }
        ensures step { Steps (moment self.old.ledger) station Close (moment self.new.ledger) }
        ensures seated { IsSeated (moment self.new.ledger) self.new.machine }
        ensures machine { (result.1 ≡ self.old.machine) × (self.new.machine ≡ None) }
        ensures home { is_some result.1 ≡ is_home self.old.ledger.place }
        ensures found { result.0 ≡ self.old.ledger.word }
    {
        let found = self.ledger.close(station as usize);
        (found, self.machine.take())
    }

    /// Returns the word that it found. Nothing is changed.
    pub fn look(&mut self, station: u32) -> u64
        requires seated { IsSeated (moment self.old.ledger) self.old.machine }
        requires enabled { MayStep (moment self.old.ledger) station Look }
        ensures step { Steps (moment self.old.ledger) station Look (moment self.new.ledger) }
        ensures found { result ≡ self.old.ledger.word }
        ensures stays { self.new ≡ self.old }
    {
        self.ledger.look(station as usize)
    }

    /// Puts the machine home, notified. Some exactly where it found Drop: then the machine is handed out.
    #[tactic(auto, using(crate::proofs::Seats::rescheduled_home, crate::proofs::Seats::rescheduled_out))]
    pub fn reschedule(&mut self, station: u32, machine: F) -> Option<F>
        requires seated { IsSeated (moment self.old.ledger) self.old.machine }
        requires enabled { MayStep (moment self.old.ledger) station Reschedule }
        ensures step { Steps (moment self.old.ledger) station Reschedule (moment self.new.ledger) }
        ensures seated { IsSeated (moment self.new.ledger) self.new.machine }
        ensures machine { MatchOption result (self.new.machine ≡ Some machine) (λ x. (x ≡ machine) × (self.new.machine ≡ self.old.machine)) }
        ensures found { MatchOption result (self.old.ledger.word ≡ 3) (λ _. self.old.ledger.word ≡ 2) }
    {
        if self.ledger.reschedule(station as usize) {
            self.machine = Some(machine);
            return None;
        }
        Some(machine)
    }

    /// Puts a message at the end of the queue. Err is want of memory: it hands the message back, and nothing is changed.
    #[tactic(auto, using(crate::proofs::Seats::stays_seated, crate::proofs::Seats::same_seated))]
    pub fn push(&mut self, station: u32, message: F::Message) -> Result<(), F::Message>
        requires seated { IsSeated (moment self.old.ledger) self.old.machine }
        requires enabled { MayStep (moment self.old.ledger) station (Push message) }
        ensures step { MatchResult result (λ _. Steps (moment self.old.ledger) station (Push message) (moment self.new.ledger)) (λ _. moment self.new.ledger ≡ moment self.old.ledger) }
        ensures seated { IsSeated (moment self.new.ledger) self.new.machine }
        ensures machine { self.new.machine ≡ self.old.machine }
        ensures back { IfErr result (λ y. y ≡ message) }
    {
        self.ledger.push(station as usize, message)
    }

    /// Takes the message at the front of the queue. None exactly where the queue is empty.
    #[tactic(auto, using(crate::proofs::Seats::stays_seated))]
    pub fn pop(&mut self, station: u32) -> Option<F::Message>
        requires seated { IsSeated (moment self.old.ledger) self.old.machine }
        requires enabled { MayStep (moment self.old.ledger) station Pop }
        ensures step { Steps (moment self.old.ledger) station Pop (moment self.new.ledger) }
        ensures seated { IsSeated (moment self.new.ledger) self.new.machine }
        ensures machine { self.new.machine ≡ self.old.machine }
        ensures found { MatchOption result (self.old.ledger.queue.items ≡ []) (λ x. Fronts self.old.ledger.queue.items x self.new.ledger.queue.items) }
    {
        let Letter { message, .. } = self.ledger.pop(station as usize)?;
        Some(message)
    }
}
