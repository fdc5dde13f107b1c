ghost use Rattle.std.specs.Prelude.{◌≡◌, ◌≢◌, ℕ, ◌+◌, ◌<◌, ◌≤◌, [], ◌∷◌, MatchBool, MatchResult, MatchOption, IfErr, IfOk, IsTrue, ◌↔◌, leb, ◌==◌, length};
ghost use mathlib.Core.Option.{some};
ghost use lib.ListN.{get_elem?};
ghost use Rattle.rs_mailcore.specs.declared.thread.Thread.{Thread};
ghost use Rattle.rs_mailcore.specs.declared.step.Step.TheVariants.{Announce, Notify, Take, Release, Recheck, Retake, Close, Look, Reschedule, Push, Pop};
ghost use Rattle.rs_mailcore.specs.Moment as at;
ghost use Rattle.rs_mailcore.specs.Keeping.{moment, opening, with_thread, IsSound, MayStep, Steps, IsAwake};

use crate::letter::{Letter, Place};
use crate::step::Step;
use crate::thread::{Phase, Stance, Thread};
use rs_rows::NoMemory;
use std::alloc::Global;
use std::collections::VecDeque;

/// All of a mailbox but its machine. Threads are numbered from 0. Each call makes one step for one thread, and requires
/// that the thread may make it.
#[derive(Drop)]
pub struct Ledger<M> {
    /// 0 Notified, 1 Idle, 2 Drop, 3 Held.
    pub word: u64,
    /// The number of messages that were announced. It never falls.
    pub announced: u64,
    pub place: Place,
    /// The number of messages that were taken.
    pub handled: u64,
    pub queue: VecDeque<Letter<M>>,
    pub threads: Vec<Thread>,
}

const NOTIFIED: u64 = 0;

const IDLE: u64 = 1;

const DROPPED: u64 = 2;

const HELD: u64 = 3;

fn given_from(place: Place) -> Place
    ensures { result ≡ at.given_from place }
{
    match place {
        Place::With(thread) => Place::With(thread),
        _ => Place::Given,
    }
}

impl<M> Ledger<M> {
    /// Returns an idle mailbox with the machine home, nothing in its queue and calm threads.
    pub fn new(alloc: Global, threads: u32) -> Result<Ledger<M>, NoMemory>
        requires { (1 ≤ threads) × (threads ≤ 4096) }
        ensures opening { IfOk result (λ c. moment c ≡ opening threads) }
        ensures sound { IfOk result (λ c. IsSound (moment c)) }
    {
        let newcomer = Thread {
            stance: Stance {
                phase: Phase::Calm,
                announced: 0,
                remembered: 0,
            },
            pushed: 0,
            taken: 0,
        };
        let threads = Vec::from_elem(alloc, newcomer, threads as usize)?;
        Ok(Ledger {
            word: IDLE,
            announced: 0,
            place: Place::Home,
            handled: 0,
            queue: VecDeque::new(alloc),
            threads,
        })
    }

    /// Returns whether this thread is there, and may make this step.
    #[tactic(auto, using(crate::proofs::Kept::may_at))]
    pub fn may_step(&self, thread: usize, step: &Step<M>) -> bool
        ensures { IsTrue result ↔ MayStep (moment self.now) thread step.now }
    {
        if thread >= self.threads.as_slice().len() {
            return false;
        }
        self.thread_at(thread).may(step)
    }

    /// Returns the state word. Where the mailbox is open and has messages, it isn't at rest: it is Notified or Held,
    /// or some thread is about to look after the messages.
    pub fn word(&self) -> u64
        requires { IsSound (moment self.now) }
        ensures word { result ≡ self.now.word }
        ensures awake { IsAwake (moment self.now) }
    {
        self.word
    }

    fn thread_at(&self, thread: usize) -> Thread
        requires { (x : Thread) × (get_elem? self.now.threads.items thread ≡ some x) }
        ensures { get_elem? self.now.threads.items thread ≡ some result }
    {
        self.threads.as_slice()[thread]
    }

    // The thread, which was `was`, takes this stance, and the words and the place become these.
    fn goes(
        &mut self,
        thread: usize,
        was: Thread,
        word: u64,
        place: Place,
        announced: u64,
        stance: Stance,
    )
        requires { get_elem? self.old.threads.items thread ≡ some was }
        ensures { moment self.new ≡ at.goes (moment self.old) thread was word place announced stance.phase stance.announced stance.remembered }
    {
        self.threads.as_mut_slice()[thread] = Thread { stance, ..was };
        self.word = word;
        self.place = place;
        self.announced = announced;
    }

    fn put(&mut self, thread: usize, was: Thread, now: Thread)
        requires { get_elem? self.old.threads.items thread ≡ some was }
        ensures { moment self.new ≡ with_thread (moment self.old) thread now }
    {
        self.threads.as_mut_slice()[thread] = now;
    }

    /// Announces one more message.
    pub fn announce(&mut self, thread: usize)
        requires sound { IsSound (moment self.old) }
        requires enabled { MayStep (moment self.old) thread Announce }
        ensures step { Steps (moment self.old) thread Announce (moment self.new) }
    {
        let was = self.thread_at(thread);
        let announced = self.announced + 1;
        let stance = Stance {
            phase: Phase::Notifying,
            announced: was.stance.announced + 1,
            remembered: was.stance.remembered,
        };
        self.goes(thread, was, self.word, self.place, announced, stance);
    }

    /// Returns true exactly where it found Idle, which is Notified then.
    pub fn notify(&mut self, thread: usize) -> bool
        requires sound { IsSound (moment self.old) }
        requires enabled { MayStep (moment self.old) thread Notify }
        ensures step { Steps (moment self.old) thread Notify (moment self.new) }
        ensures found { MatchBool result (self.old.word ≡ 1) (self.old.word ≢ 1) }
    {
        let was = self.thread_at(thread);
        let stance = Stance {
            phase: Phase::Calm,
            ..was.stance
        };
        if self.word == IDLE {
            self.goes(thread, was, NOTIFIED, self.place, self.announced, stance);
            return true;
        }
        self.goes(thread, was, self.word, self.place, self.announced, stance);
        false
    }

    /// Takes the machine. Err exactly where it found this word, not Notified, and then nothing is changed.
    pub fn take(&mut self, thread: usize) -> Result<(), u64>
        requires sound { IsSound (moment self.old) }
        requires enabled { MayStep (moment self.old) thread Take }
        ensures step { Steps (moment self.old) thread Take (moment self.new) }
        ensures found { MatchResult result (λ _. self.old.word ≡ 0) (λ word. (word ≡ self.old.word) × (word ≢ 0)) }
    {
        let was = self.thread_at(thread);
        if self.word == NOTIFIED {
            let stance = Stance {
                phase: Phase::Holding,
                announced: was.stance.announced,
                remembered: self.handled,
            };
            self.goes(
                thread,
                was,
                HELD,
                Place::With(thread as u64),
                self.announced,
                stance,
            );
            return Ok(());
        }
        Err(self.word)
    }

    /// Lets the machine go. True exactly where it found Held: then the machine goes home, and the thread looks next
    /// whether more was announced.
    pub fn release(&mut self, thread: usize) -> bool
        requires sound { IsSound (moment self.old) }
        requires enabled { MayStep (moment self.old) thread Release }
        ensures step { Steps (moment self.old) thread Release (moment self.new) }
        ensures found { MatchBool result (self.old.word ≡ 3) (self.old.word ≡ 2) }
    {
        let was = self.thread_at(thread);
        if self.word == HELD {
            let stance = Stance {
                phase: Phase::Releasing,
                announced: was.stance.announced,
                remembered: self.handled,
            };
            self.goes(thread, was, IDLE, Place::Home, self.announced, stance);
            return true;
        }
        self.hands_out(thread, was);
        false
    }

    // The thread lets the machine go out of a closed mailbox.
    fn hands_out(&mut self, thread: usize, was: Thread)
        requires { get_elem? self.old.threads.items thread ≡ some was }
        ensures { moment self.new ≡ at.hands_out (moment self.old) thread was }
    {
        let stance = Stance {
            phase: Phase::Calm,
            announced: was.stance.announced,
            remembered: self.handled,
        };
        self.goes(thread, was, self.word, Place::Given, self.announced, stance);
    }

    /// Returns true exactly where more was announced than the thread remembers. Else it is calm.
    pub fn recheck(&mut self, thread: usize) -> bool
        requires sound { IsSound (moment self.old) }
        requires enabled { MayStep (moment self.old) thread Recheck }
        ensures step { Steps (moment self.old) thread Recheck (moment self.new) }
        ensures found { (x : Thread) × (get_elem? self.old.threads.items thread ≡ some x) × MatchBool result (x.stance.remembered < self.old.announced) (self.old.announced ≤ x.stance.remembered) }
    {
        let was = self.thread_at(thread);
        if self.announced <= was.stance.remembered {
            let stance = Stance {
                phase: Phase::Calm,
                ..was.stance
            };
            self.goes(thread, was, self.word, self.place, self.announced, stance);
            return false;
        }
        true
    }

    /// Takes the machine again. True exactly where it found Idle.
    pub fn retake(&mut self, thread: usize) -> bool
        requires sound { IsSound (moment self.old) }
        requires enabled { MayStep (moment self.old) thread Retake }
        ensures step { Steps (moment self.old) thread Retake (moment self.new) }
        ensures found { MatchBool result (self.old.word ≡ 1) (self.old.word ≢ 1) }
    {
        let was = self.thread_at(thread);
        if self.word == IDLE {
            let stance = Stance {
                phase: Phase::Holding,
                announced: was.stance.announced,
                remembered: self.handled,
            };
            self.goes(
                thread,
                was,
                HELD,
                Place::With(thread as u64),
                self.announced,
                stance,
            );
            return true;
        }
        let stance = Stance {
            phase: Phase::Calm,
            ..was.stance
        };
        self.goes(thread, was, self.word, self.place, self.announced, stance);
        false
    }

    /// Closes the mailbox for good, and answers the word that it found. A machine that was home is given away.
    pub fn close(&mut self, thread: usize) -> u64
        requires sound { IsSound (moment self.old) }
        requires enabled { MayStep (moment self.old) thread Close }
        ensures step { Steps (moment self.old) thread Close (moment self.new) }
        ensures found { result ≡ self.old.word }
    {
        let found = self.word;
        self.word = DROPPED;
        self.place = given_from(self.place);
        found
    }

    /// Returns the word that it found. Nothing is changed.
    pub fn look(&mut self, thread: usize) -> u64
        requires sound { IsSound (moment self.old) }
        requires enabled { MayStep (moment self.old) thread Look }
        ensures step { Steps (moment self.old) thread Look (moment self.new) }
        ensures found { result ≡ self.old.word }
        ensures stays { self.new ≡ self.old }
    {
        self.word
    }

    /// Lets the machine go, notified. True exactly where it found Held: then the machine goes home.
    pub fn reschedule(&mut self, thread: usize) -> bool
        requires sound { IsSound (moment self.old) }
        requires enabled { MayStep (moment self.old) thread Reschedule }
        ensures step { Steps (moment self.old) thread Reschedule (moment self.new) }
        ensures found { MatchBool result (self.old.word ≡ 3) (self.old.word ≡ 2) }
    {
        let was = self.thread_at(thread);
        if self.word == HELD {
            let stance = Stance {
                phase: Phase::Calm,
                announced: was.stance.announced,
                remembered: self.handled,
            };
            self.goes(thread, was, NOTIFIED, Place::Home, self.announced, stance);
            return true;
        }
        self.hands_out(thread, was);
        false
    }

    /// Puts a message at the end of the queue. Err is want of memory: it hands the message back, and nothing is changed.
    pub fn push(&mut self, thread: usize, message: M) -> Result<(), M>
        requires sound { IsSound (moment self.old) }
        requires enabled { MayStep (moment self.old) thread (Push message) }
        ensures step { MatchResult result (λ _. Steps (moment self.old) thread (Push message) (moment self.new)) (λ _. moment self.new ≡ moment self.old) }
        ensures back { IfErr result (λ y. y ≡ message) }
    {
        let was = self.thread_at(thread);
        let letter = Letter {
            sender: thread as u64,
            number: was.pushed + 1,
            message,
        };
        match self.queue.push_back(letter) {
            Ok(()) => {
                let pushed = was.pushed + 1;
                self.put(thread, was, Thread { pushed, ..was });
                Ok(())
            }
            Err(refused) => {
                let Letter { message, .. } = refused.value;
                Err(message)
            }
        }
    }

    /// Takes the message at the front of the queue. None exactly where the queue is empty.
    pub fn pop(&mut self, thread: usize) -> Option<Letter<M>>
        requires sound { IsSound (moment self.old) }
        requires enabled { MayStep (moment self.old) thread Pop }
        ensures step { Steps (moment self.old) thread Pop (moment self.new) }
        ensures found { MatchOption result (self.old.queue.items ≡ []) (λ l. self.old.queue.items ≡ l ∷ self.new.queue.items) }
    {
        let letter = self.queue.pop_front()?;
        let sender = letter.sender as usize;
        let from = self.thread_at(sender);
        self.handled += 1;
        let taken = from.taken + 1;
        self.put(sender, from, Thread { taken, ..from });
        Some(letter)
    }
}
