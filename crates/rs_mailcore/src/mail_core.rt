ghost use Rattle.std.specs.Prelude.{◌≡◌, ◌≤◌, MatchResult, IfOk, IsTrue, ◌↔◌};
ghost use Rattle.rs_mailcore.specs.Keeping.{moment, opening, IsSound, MayStep, Steps, IsAwake, IsPush};

use crate::ledger::Ledger;
use crate::step::Step;
use rs_rows::NoMemory;
use std::alloc::Global;

/// A mailbox whose messages are numbers, without a machine, and its steps as one call.
#[derive(Drop)]
pub struct Core {
    pub ledger: Ledger<u64>,
}

impl Core {
    /// Returns an idle mailbox with the machine home, nothing in its queue and calm threads.
    pub fn new(alloc: Global, threads: u32) -> Result<Core, NoMemory>
        requires { (1 ≤ threads) × (threads ≤ 4096) }
        ensures opening { IfOk result (λ c. moment c.ledger ≡ opening threads) }
        ensures sound { IfOk result (λ c. IsSound (moment c.ledger)) }
    {
        Ok(Core {
            ledger: Ledger::new(alloc, threads)?,
        })
    }

    /// Returns whether this thread is there, and may make this step.
    pub fn may_step(&self, thread: usize, step: &Step<u64>) -> bool
        ensures { IsTrue result ↔ MayStep (moment self.now.ledger) thread step.now }
    {
        self.ledger.may_step(thread, step)
    }

    /// Makes any step that the thread may make. NoMemory comes for a push alone, and changes nothing.
    pub fn step(&mut self, thread: usize, step: Step<u64>) -> Result<(), NoMemory>
        requires sound { IsSound (moment self.old.ledger) }
        requires enabled { MayStep (moment self.old.ledger) thread step }
        ensures step { MatchResult result (λ _. Steps (moment self.old.ledger) thread step (moment self.new.ledger)) (λ _. IsPush step × (moment self.new.ledger ≡ moment self.old.ledger)) }
    {
        let ledger = &mut self.ledger;
        match step {
            Step::Announce => ledger.announce(thread),
            Step::Notify => {
                ledger.notify(thread);
            }
            Step::Take => {
                let _ = ledger.take(thread);
            }
            Step::Release => {
                ledger.release(thread);
            }
            Step::Recheck => {
                ledger.recheck(thread);
            }
            Step::Retake => {
                ledger.retake(thread);
            }
            Step::Close => {
                ledger.close(thread);
            }
            Step::Look => {
                ledger.look(thread);
            }
            Step::Reschedule => {
                ledger.reschedule(thread);
            }
            Step::Push(message) => {
                if ledger.push(thread, message).is_err() {
                    return Err(NoMemory);
                }
            }
            Step::Pop => {
                let _ = ledger.pop(thread);
            }
        }
        Ok(())
    }

    /// Returns the state word. Where the mailbox is open and has messages, it isn't at rest: it is Notified or Held,
    /// or some thread is about to look after the messages.
    pub fn word(&self) -> u64
        requires { IsSound (moment self.now.ledger) }
        ensures word { result ≡ self.now.ledger.word }
        ensures awake { IsAwake (moment self.now.ledger) }
    {
        self.ledger.word()
    }
}
