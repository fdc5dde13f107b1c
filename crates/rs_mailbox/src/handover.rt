ghost use Rattle.std.specs.Prelude.{◌≡◌, ◌≢◌, ℕ, ◌+◌, ◌^◌, ◌<◌, ◌≤◌, true, length, All, IfOk, MatchBool, MatchResult};

use crate::hand::Hand;
use crate::held::Held;
use crate::plays;
use crate::stored::{HasCount, Stored};
use crate::view::View;
use atomic_table::{Seat, Table};
use rs_mailcore::Named;
use rs_rows::{NoMemory, Rows};
use std::alloc::Global;

/// A value that threads hand to each other: it lies at home, or is out with one hand. The state word is 0 Notified,
/// 1 Idle, 2 Drop or 3 Held, and a second word counts the announcements. No call but `new` takes memory, and none waits.
///
/// What holds between any two atomic steps is the table's rule: the value is home exactly where the word is Idle or
/// Notified; one hand at most has it; announced is the sum of what the hands announced; where the word is Idle and more
/// was announced than handled, some hand is about to look; Drop stays. `look` tells it. What a hand did is in its view.
/// That a notified value is ever taken no clause says.
#[derive(Drop)]
pub struct Handover<T: HasCount> {
    pub(crate) table: Table<Option<Stored<T>>, View<T::Name>, T, plays::Order<T>, Global>,
    ghost sized: { (table.shared.table_id.words ≡ 2) × (table.shared.table_id.slots ≡ 1) },
}

/// The result of a release.
#[derive(Drop)]
pub enum Back<T> {
    /// The value is home, or another hand has it by now.
    Idle,
    /// More was announced than handled, and the hand has the value again.
    Again(Held<T>),
    /// The handover is closed, and the value is the caller's.
    Dropped(T),
}

/// The result of a close.
#[derive(Drop)]
pub enum Shut<T> {
    /// The value, which was home.
    Value(T),
    /// Another hand has the value, and gets it for good as it gives it back.
    Elsewhere,
    /// The handover was closed before.
    Already,
}

type Sitting<T, N> = Seat<Option<Stored<T>>, View<N>>;

const STATE: usize = 0;

const ANNOUNCED: usize = 1;

const NOTIFIED: u64 = 0;

const IDLE: u64 = 1;

const DROPPED: u64 = 2;

const HELD: u64 = 3;

impl<T: HasCount + Drop> Handover<T> {
    ghost use Rattle.rs_mailbox.specs.Making.{IsNewHand};
    ghost use Rattle.rs_mailbox.specs.Hands.{handover_name, IsFresh};

    // The table with the value at home, and its first seat.
    fn opened(alloc: Global, value: T) -> Result<(Handover<T>, Sitting<T, T::Name>), NoMemory>
        requires { T.count value ≡ 0 }
        ensures { IfOk result (λ r. (T.name r.0.table.shared.key ≡ T.name value) × IsNewHand r.0.table.shared.table_id (T.name r.0.table.shared.key) r.1 × (r.1.id ≡ 0) × (r.1.me.0.made ≡ 1)) }
    {
        let Ok((table, mut seat)) = Table::vacant(alloc, &[3, 0], 1, &value) else {
            return Err(NoMemory);
        };
        table.shared.load::<plays::Empty>(&mut seat, 0);
        drop(
            table
                .shared
                .exchange(&mut seat, 0, Some(Stored { value, handled: 0 })),
        );
        table.shared.store::<plays::Settle>(&mut seat, 0, 1);
        Ok((Handover { table }, seat))
    }

    // One more hand, which the first one splits off.
    fn next_hand(&self, first: &mut Sitting<T, T::Name>) -> Hand<T>
        requires first { IsNewHand self.now.table.shared.table_id (T.name self.now.table.shared.key) first.old × (first.old.id ≡ 0) × (first.old.me.0.made < 4096) }
        ensures first { IsNewHand self.now.table.shared.table_id (T.name self.now.table.shared.key) first.new × (first.new.id ≡ 0) × (first.new.me.0.made ≡ first.old.me.0.made + 1) }
        ensures hand { IsNewHand self.now.table.shared.table_id (T.name self.now.table.shared.key) result.seat × (result.seat.me.0.number ≡ first.old.me.0.made) }
    {
        let seat = self.table.shared.split_seat::<plays::Next>(first);
        Hand { seat }
    }

    /// Makes an idle handover with the value at home, and calm hands that have made no step. The value's name becomes
    /// the handover's.
    pub fn new(
        alloc: Global,
        value: T,
        hands: u32,
    ) -> Result<(Handover<T>, Rows<Hand<T>>), NoMemory>
        requires count { T.count value ≡ 0 }
        requires hands { (1 ≤ hands) × (hands ≤ 4096) }
        ensures name { IfOk result (λ r. handover_name T.name r.0 ≡ T.name value) }
        ensures count { IfOk result (λ r. length r.1 ≡ hands) }
        ensures hands { IfOk result (λ r. All (IsFresh T.name r.0) r.1) }
    {
        let mut list = Vec::with_capacity(alloc, hands as usize)?;
        let (handover, mut first) = Handover::opened(alloc, value)?;
        for k in 1..hands {
            list.push_reserved(handover.next_hand(&mut first));
        }
        list.push_reserved(Hand { seat: first });
        Ok((handover, Rows::from_vec(list)))
    }
}

impl<T: HasCount + Drop> Handover<T> {
    ghost use Rattle.rs_mailcore.specs.declared.thread.Phase.TheVariants.{Calm, Notifying, Holding};
    ghost use Rattle.rs_mailbox.specs.declared.view.Kind.TheVariants.{Announce, Notify, Take, Look, Reschedule};
    ghost use Rattle.rs_mailbox.specs.Stood.{Stood};
    ghost use Rattle.rs_mailbox.specs.Calls.{Releases, Closes, OnAgain, OnDropped, OnValue};
    ghost use Rattle.rs_mailbox.specs.Hands.{seen, handover_name, IsHandOf, IsHeldBy};
    ghost use Rattle.rs_mailbox.specs.Steps.{deed, moved, turns};

    /// Adds one to the count of announcements. The hand has to notify next.
    pub fn announce(&self, hand: &mut Hand<T>)
        requires hand { IsHandOf T.name self.now hand.old }
        requires calm { (seen hand.old).stance.phase ≡ Calm }
        requires few { (seen hand.old).stance.announced < 2 ^ 50 }
        ensures hand { IsHandOf T.name self.now hand.new }
        ensures step { (found : ℕ) × (seen hand.new ≡ moved (seen hand.old) Notifying ((seen hand.old).stance.announced + 1) (seen hand.old).stance.remembered (deed Announce found 0)) }
    {
        self.table
            .shared
            .fetch_add::<plays::Announce>(&mut hand.seat, ANNOUNCED, 1);
    }

    /// Turns Idle into Notified. True exactly where it found Idle.
    pub fn notify(&self, hand: &mut Hand<T>) -> bool
        requires hand { IsHandOf T.name self.now hand.old }
        requires notifying { (seen hand.old).stance.phase ≡ Notifying }
        ensures hand { IsHandOf T.name self.now hand.new }
        ensures step { (found : ℕ) × (seen hand.new ≡ turns (seen hand.old) Calm (seen hand.old).stance.remembered (deed Notify found 0)) × MatchBool result (found ≡ 1) (found ≢ 1) }
    {
        let found = self
            .table
            .shared
            .compare_exchange::<plays::Notify>(&mut hand.seat, STATE, IDLE, NOTIFIED);
        found == IDLE
    }

    /// Returns the value, where the handover is Notified. Err exactly where it found this word, not Notified. Where
    /// this hand has closed the handover, the answer is Err(2).
    pub fn take(&self, hand: &mut Hand<T>) -> Result<Held<T>, u64>
        requires hand { IsHandOf T.name self.now hand.old }
        requires calm { (seen hand.old).stance.phase ≡ Calm }
        ensures hand { IsHandOf T.name self.now hand.new }
        ensures held { IfOk result (λ h. IsHeldBy T.name T.count self.now hand.new h) }
        ensures step { MatchResult result (λ h. seen hand.new ≡ turns (seen hand.old) Holding h.stored.handled (deed Take 0 h.stored.handled)) (λ word. (word ≢ 0) × (seen hand.new ≡ turns (seen hand.old) Calm (seen hand.old).stance.remembered (deed Take word 0))) }
        ensures closed { MatchResult result (λ _. (seen hand.old).shut ≢ true) (λ word. (seen hand.old).shut ≡ true → word ≡ 2) }
    {
        let shared = &self.table.shared;
        let found = shared.compare_exchange::<plays::Take>(&mut hand.seat, STATE, NOTIFIED, HELD);
        if found != NOTIFIED {
            return Err(found);
        }
        let stored = shared.exchange(&mut hand.seat, 0, None).unwrap();
        Ok(Held { stored })
    }

    /// Returns the state word. It also tells that the rule held of the two words, the value at home and the views of
    /// all hands when the word was loaded.
    pub fn look(&self, hand: &mut Hand<T>) -> u64
        requires hand { IsHandOf T.name self.now hand.old }
        requires calm { (seen hand.old).stance.phase ≡ Calm }
        ensures hand { IsHandOf T.name self.now hand.new }
        ensures step { seen hand.new ≡ turns (seen hand.old) Calm (seen hand.old).stance.remembered (deed Look result 0) }
        ensures stood { Stood T.name T.count hand.old.seat.me result }
    {
        self.table.shared.load::<plays::Look>(&mut hand.seat, STATE)
    }

    /// Puts the value home, looks at the count of announcements, and takes the value again where more was announced
    /// than handled and the word is Idle. Dropped exactly where it found Drop.
    pub fn release(&self, hand: &mut Hand<T>, held: Held<T>) -> Back<T>
        requires hand { IsHandOf T.name self.now hand.old }
        requires held { IsHeldBy T.name T.count self.now hand.old held }
        ensures hand { IsHandOf T.name self.now hand.new }
        ensures steps { Releases (seen hand.old) held.stored.handled result (seen hand.new) }
        ensures again { OnAgain result (λ x. IsHeldBy T.name T.count self.now hand.new x) }
        ensures dropped { OnDropped result (λ x. x ≡ held.stored.value) }
    {
        let Held { stored } = held;
        let handled = stored.handled;
        let shared = &self.table.shared;
        drop(shared.exchange(&mut hand.seat, 0, Some(stored)));
        let found = shared.compare_exchange::<plays::Release>(&mut hand.seat, STATE, HELD, IDLE);
        if found != HELD {
            let Stored { value, handled: _ } = shared.exchange(&mut hand.seat, 0, None).unwrap();
            return Back::Dropped(value);
        }
        let announced = shared.load::<plays::Recheck>(&mut hand.seat, ANNOUNCED);
        if announced <= handled {
            return Back::Idle;
        }
        let found = shared.compare_exchange::<plays::Retake>(&mut hand.seat, STATE, IDLE, HELD);
        if found != IDLE {
            return Back::Idle;
        }
        let stored = shared.exchange(&mut hand.seat, 0, None).unwrap();
        Back::Again(Held { stored })
    }

    /// Puts the value home and leaves the handover Notified. Err exactly where it found Drop: the value is the caller's.
    pub fn reschedule(&self, hand: &mut Hand<T>, held: Held<T>) -> Result<(), T>
        requires hand { IsHandOf T.name self.now hand.old }
        requires held { IsHeldBy T.name T.count self.now hand.old held }
        ensures hand { IsHandOf T.name self.now hand.new }
        ensures step { MatchResult result (λ _. seen hand.new ≡ turns (seen hand.old) Calm held.stored.handled (deed Reschedule 3 held.stored.handled)) (λ x. (x ≡ held.stored.value) × (seen hand.new ≡ turns (seen hand.old) Calm held.stored.handled (deed Reschedule 2 held.stored.handled))) }
    {
        let Held { stored } = held;
        let shared = &self.table.shared;
        drop(shared.exchange(&mut hand.seat, 0, Some(stored)));
        let found = shared.compare_exchange::<plays::Reschedule>(
            &mut hand.seat,
            STATE,
            HELD,
            NOTIFIED,
        );
        if found != HELD {
            let Stored { value, handled: _ } = shared.exchange(&mut hand.seat, 0, None).unwrap();
            return Err(value);
        }
        Ok(())
    }

    /// Closes the handover for good. Value exactly where it found Idle or Notified, Elsewhere where it found Held,
    /// Already where it found Drop.
    pub fn close(&self, hand: &mut Hand<T>) -> Shut<T>
        requires hand { IsHandOf T.name self.now hand.old }
        requires calm { (seen hand.old).stance.phase ≡ Calm }
        ensures hand { IsHandOf T.name self.now hand.new }
        ensures step { Closes (seen hand.old) result (seen hand.new) }
        ensures value { OnValue result (λ x. T.name x ≡ handover_name T.name self.now) }
    {
        let shared = &self.table.shared;
        let found = shared.swap::<plays::Close>(&mut hand.seat, STATE, DROPPED);
        if found == HELD {
            return Shut::Elsewhere;
        }
        if found == DROPPED {
            return Shut::Already;
        }
        let Stored { value, handled: _ } = shared.exchange(&mut hand.seat, 0, None).unwrap();
        Shut::Value(value)
    }
}
