ghost use Rattle.std.specs.Prelude.{◌≡◌, ◌≢◌, ◌+◌, ◌^◌, ◌<◌, ◌≤◌, true, length, All, Some, IfOk, IfSome, MatchOption, List, ◌∷◌};

use crate::contents::{Contents, Reader};
use crate::hand::Hand;
use crate::handover::{Back, Handover, Shut};
use crate::naming::open_queue;
use crate::outcomes::{Closed, Dropped, Released, SendError, Taken};
use crate::queue::{pop_message, push_message};
use crate::station::Station;
use crate::ticket::Ticket;
use crate::trail::{MessagePass, MessageQueue};
use crate::turn::Turn;
use rs_mailcore::{Fsm, Named};
use rs_rows::{NoMemory, Rows};
use std::alloc::Global;
use std::sync::Wait;

/// A machine with the queue of its messages. Many threads send to it, each by its station, and the one that has the
/// machine takes the messages.
///
/// Each message is taken at most once, in its sender's order, and has the mailbox's name. The machine has one owner: the
/// mailbox, one turn, or whoever it was handed out to. No call but `new` takes memory, beside the push of `send`. Where a
/// mailbox is dropped, its machine and the messages in its queue are dropped. That a notified machine runs, or that a
/// queued message is ever taken, no clause says.
pub struct Mailbox<F: Fsm> {
    pub(crate) handover: Handover<Contents<F>>,
    pub(crate) queue: MessageQueue<F::Message>,
    pub(crate) address: u32,
    ghost same: { (handover.table.shared.key.reader.pass.web ≡ queue.web) × (handover.table.shared.key.reader.pass.heap ≡ queue.heap) },
}

const DROPPED: u64 = 2;

/// The greatest number of messages that a station may announce.
const MOST: u64 = 1 << 50;

impl<F: Fsm> Drop for Mailbox<F> {
    fn drop(self) {
        let Mailbox {
            handover,
            queue,
            address: _,
        } = self;
        drop(handover);
        queue.destroy();
    }
}

// A station of a hand and a pass that have done nothing.
fn station_of<F: Fsm>(hand: Hand<Contents<F>>, sender: MessagePass<F::Message>) -> Station<F>
    requires hand { hand.seat.me.0.stance.announced ≡ 0 }
    requires sender { length sender.me.view.client.sent ≡ 0 }
    ensures { (result.hand ≡ hand) × (result.sender ≡ sender) }
{
    Station {
        hand,
        sender,
        announced: 0,
    }
}

impl<F: Fsm> Mailbox<F> {
    ghost use Rattle.rs_mailbox.specs.Hands.{IsFresh};
    ghost use Rattle.rs_mailbox.specs.Passes.{IsSender};
    ghost use Rattle.rs_mailbox.specs.Stations.{mailbox_name, IsNewStation};

    // The mailbox, and what its stations are made of.
    fn opened(
        alloc: Global,
        address: u32,
        machine: F,
        stations: u32,
    ) -> Result<
        (
            Mailbox<F>,
            Rows<Hand<Contents<F>>>,
            Vec<MessagePass<F::Message>>,
        ),
        NoMemory,
    >
        requires stations { (1 ≤ stations) × (stations ≤ 4096) }
        ensures name { IfOk result (λ r. (mailbox_name F.name r.0 ≡ F.name machine) × (r.0.handover.table.shared.key.reader.pass.me.view.client.name ≡ Some (F.name machine)) × (r.0.address ≡ address)) }
        ensures hands { IfOk result (λ r. (length r.1 ≡ stations) × All (IsFresh ⟦<Contents<F> as Named>⟧.name r.0.handover) r.1) }
        ensures senders { IfOk result (λ r. (length r.2.items ≡ stations) × All (IsSender r.0.queue (F.name machine)) r.2.items) }
    {
        let (queue, reader, senders) = open_queue(alloc, &machine, stations)?;
        let reader = Reader { pass: reader };
        match Handover::new(alloc, Contents { machine, reader }, stations) {
            Ok((handover, hands)) => Ok((
                Mailbox {
                    handover,
                    queue,
                    address,
                },
                hands,
                senders,
            )),
            Err(NoMemory) => {
                queue.destroy();
                Err(NoMemory)
            }
        }
    }

    /// Makes an idle mailbox of this address with the machine home, and calm stations that have done nothing. The
    /// machine's name becomes the mailbox's.
    pub fn new(
        alloc: Global,
        address: u32,
        machine: F,
        stations: u32,
    ) -> Result<(Mailbox<F>, Rows<Station<F>>), NoMemory>
        requires stations { (1 ≤ stations) × (stations ≤ 4096) }
        ensures name { IfOk result (λ r. mailbox_name F.name r.0 ≡ F.name machine) }
        ensures address { IfOk result (λ r. r.0.address ≡ address) }
        ensures count { IfOk result (λ r. length r.1 ≡ stations) }
        ensures stations { IfOk result (λ r. All (IsNewStation F.name r.0) r.1) }
    {
        let mut list = Vec::with_capacity(alloc, stations as usize)?;
        let (mailbox, hands, mut senders) = Mailbox::opened(alloc, address, machine, stations)?;
        let mut hands = hands.into_vec();
        for k in 0..stations {
            let hand = hands.pop().unwrap();
            let sender = senders.pop().unwrap();
            list.push_reserved(station_of(hand, sender));
        }
        Ok((mailbox, Rows::from_vec(list)))
    }
}

impl<F: Fsm> Mailbox<F> {
    ghost use Rattle.crossbeam_queue.specs.Fifo.{Held};
    ghost use Rattle.rs_mailbox.specs.InOrder.{gets, Stands, StandsAt};
    ghost use Rattle.rs_mailbox.specs.Mail.{Sends, Takes, MatchTaken, Gives, OnAgain, LeavesCalm, Reschedules, Shuts, OnMachine};
    ghost use Rattle.rs_mailbox.specs.Stations.{mailbox_name, view, trail, machine_of, handled_of, reader_of, IsCalm, IsStationOf, IsTurnOf};

    /// Returns the address that its tickets have.
    pub fn address(&self) -> u32
        ensures { result ≡ self.now.address }
    {
        self.address
    }

    /// Pushes the message, announces it, and notifies. A ticket comes exactly where the machine was idle: it has to run.
    ///
    /// After an error nothing was pushed. Closed comes exactly where the mailbox was found closed at the first step, and
    /// Spent exactly where it was found open and the station has announced 2^50 messages. Ok doesn't say that the message
    /// will be taken.
    pub fn send<R: Wait>(
        &self,
        rt: &R,
        station: &mut Station<F>,
        message: F::Message,
    ) -> Result<Option<Ticket>, SendError<F::Message>>
        requires station { IsStationOf F.name self.now station.old }
        requires calm { IsCalm station.old }
        requires name { F.Message.name message ≡ mailbox_name F.name self.now }
        ensures station { IsStationOf F.name self.now station.new }
        ensures calm { IsCalm station.new }
        ensures answer { Sends self.now.address (view station.old) (trail station.old) message result (view station.new) (trail station.new) }
        ensures order { IfOk result (λ _. Stands F.Message.name (trail station.old)) }
    {
        if self.handover.look(&mut station.hand) == DROPPED {
            return Err(SendError::Closed(message));
        }
        if station.announced >= MOST {
            return Err(SendError::Spent(message));
        }
        if let Err(message) = push_message(rt, &self.queue, &mut station.sender, message) {
            return Err(SendError::NoMemory(message));
        }
        self.handover.announce(&mut station.hand);
        station.announced += 1;
        if self.handover.notify(&mut station.hand) {
            return Ok(Some(Ticket {
                address: self.address,
            }));
        }
        Ok(None)
    }

    /// Returns the machine, where the mailbox is notified. Not exactly where it found this word, not Notified: always
    /// 2 where this station has closed the mailbox. The ticket is spent.
    pub fn take(&self, station: &mut Station<F>, ticket: Ticket) -> Taken<F>
        requires station { IsStationOf F.name self.now station.old }
        requires calm { IsCalm station.old }
        requires ticket { ticket.address ≡ self.now.address }
        ensures station { IsStationOf F.name self.now station.new }
        ensures step { Takes (view station.old) result (view station.new) }
        ensures turn { MatchTaken result (λ t. IsTurnOf F.name self.now station.new t) (λ _. IsCalm station.new) }
        ensures name { MatchTaken result (λ t. F.name (machine_of t) ≡ mailbox_name F.name self.now) (λ _. Unit {0}) }
        ensures closed { MatchTaken result (λ _. (view station.old).shut ≢ true) (λ word. (view station.old).shut ≡ true → word ≡ 2) }
        ensures sender { station.new.sender ≡ station.old.sender }
    {
        let Ticket { address: _ } = ticket;
        match self.handover.take(&mut station.hand) {
            Ok(held) => Taken::Machine(Turn { held }),
            Err(word) => Taken::Not(word),
        }
    }

    /// Takes the message at the front of the queue. None only where the queue was empty at a step of the call, and then
    /// no message was taken.
    pub fn next_message<R: Wait>(
        &self,
        rt: &R,
        station: &mut Station<F>,
        turn: &mut Turn<F>,
    ) -> Option<F::Message>
        requires station { IsStationOf F.name self.now station.old }
        requires turn { IsTurnOf F.name self.now station.old turn.old }
        ensures station { station.new ≡ station.old }
        ensures turn { IsTurnOf F.name self.now station.new turn.new }
        ensures machine { machine_of turn.new ≡ machine_of turn.old }
        ensures handled { MatchOption result (handled_of turn.new ≡ handled_of turn.old) (λ _. handled_of turn.new ≡ handled_of turn.old + 1) }
        ensures got { MatchOption result (reader_of turn.new ≡ reader_of turn.old) (λ x. reader_of turn.new ≡ gets (reader_of turn.old) x) }
        ensures name { IfSome result (λ x. F.Message.name x ≡ mailbox_name F.name self.now) }
        ensures order { MatchOption result (Held 0 (StandsAt F.Message.name (reader_of turn.old))) (λ x. (rest : List F.Message) × StandsAt F.Message.name (reader_of turn.old) (x ∷ rest)) }
    {
        let message = pop_message(rt, &self.queue, &mut turn.held.stored.value.reader.pass)?;
        turn.held.stored.handled += 1;
        Some(message)
    }

    /// Gives the machine back. Dropped exactly where the mailbox is closed; Again exactly where more was announced than
    /// handled and the machine was idle once more.
    pub fn release(&self, station: &mut Station<F>, turn: Turn<F>) -> Released<F>
        requires station { IsStationOf F.name self.now station.old }
        requires turn { IsTurnOf F.name self.now station.old turn }
        ensures station { IsStationOf F.name self.now station.new }
        ensures steps { Gives (view station.old) (handled_of turn) (machine_of turn) result (view station.new) }
        ensures again { OnAgain result (λ t. IsTurnOf F.name self.now station.new t) }
        ensures name { OnAgain result (λ t. F.name (machine_of t) ≡ mailbox_name F.name self.now) }
        ensures calm { LeavesCalm result (IsCalm station.new) }
        ensures sender { station.new.sender ≡ station.old.sender }
    {
        let Turn { held } = turn;
        match self.handover.release(&mut station.hand, held) {
            Back::Idle => Released::Idle,
            Back::Again(held) => Released::Again(Turn { held }),
            Back::Dropped(contents) => {
                let Contents { machine, reader: _ } = contents;
                Released::Dropped(machine)
            }
        }
    }

    /// Gives the machine back, and has it run again: the ticket has the mailbox's address. Err exactly where the mailbox
    /// is closed, and then the machine is the caller's.
    pub fn reschedule(&self, station: &mut Station<F>, turn: Turn<F>) -> Result<Ticket, Dropped<F>>
        requires station { IsStationOf F.name self.now station.old }
        requires turn { IsTurnOf F.name self.now station.old turn }
        ensures station { IsStationOf F.name self.now station.new }
        ensures calm { IsCalm station.new }
        ensures step { Reschedules self.now.address (view station.old) (handled_of turn) (machine_of turn) result (view station.new) }
        ensures sender { station.new.sender ≡ station.old.sender }
    {
        let Turn { held } = turn;
        match self.handover.reschedule(&mut station.hand, held) {
            Ok(()) => Ok(Ticket {
                address: self.address,
            }),
            Err(contents) => {
                let Contents { machine, reader: _ } = contents;
                Err(Dropped { machine })
            }
        }
    }

    /// Closes the mailbox for good. The machine comes exactly where it was home. Elsewhere: another station has it.
    pub fn close(&self, station: &mut Station<F>) -> Closed<F>
        requires station { IsStationOf F.name self.now station.old }
        requires calm { IsCalm station.old }
        ensures station { IsStationOf F.name self.now station.new }
        ensures calm { IsCalm station.new }
        ensures step { Shuts (view station.old) result (view station.new) }
        ensures name { OnMachine result (λ x. F.name x ≡ mailbox_name F.name self.now) }
        ensures sender { station.new.sender ≡ station.old.sender }
    {
        match self.handover.close(&mut station.hand) {
            Shut::Value(contents) => {
                let Contents { machine, reader: _ } = contents;
                Closed::Machine(machine)
            }
            Shut::Elsewhere => Closed::Elsewhere,
            Shut::Already => Closed::Already,
        }
    }
}
