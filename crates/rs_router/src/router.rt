ghost use Rattle.std.specs.Prelude.{◌≡◌, ◌<◌, ℕ, length, map, slice_index, slice_index_or};
ghost use Rattle.rs_mailbox.specs.Stations.{mailbox_name, view, trail, IsCalm, IsStationOf};
ghost use Rattle.rs_mailbox.specs.Mail.{Shuts, OnMachine};
ghost use Rattle.rs_router.specs.Desks.{AreDesksOf, AllCalm, AllShutOnce, CalmAt, ChangesAt, NamedAt};
ghost use Rattle.rs_router.specs.Lists.{SameBag, StartsWith};
ghost use Rattle.rs_router.specs.Routes.{OnOpen, Routes};
ghost use Rattle.rs_router.specs.Turns.{turn_steps};

use crate::desks::Desks;
use crate::refusal::abandon;
use crate::route_error::RouteError;
use crate::scheduler::{Refused, Scheduler};
use rs_mailbox::{Closed, Mailbox, SendError, Station};
use rs_mailcore::{Fsm, Named};
use std::sync::Wait;

/// Mailboxes by address, from 0 on, and the scheduler that takes their tickets.
///
/// A worker sends with its desks and with its pass of the scheduler. The calls of a router leave the desks the router's,
/// and the pass its scheduler's.
#[derive(Drop)]
pub struct Router<F: Fsm, S: Scheduler> {
    pub mailboxes: Vec<Mailbox<F>>,
    pub scheduler: S,
    pub count: u32,
    ghost addressed: { (i : ℕ) → i < length mailboxes.items → slice_index (map (λ b. b.address) mailboxes.items) i ≡ i },
    ghost sized: { S.size scheduler ≡ length mailboxes.items },
    ghost counted: { count ≡ length mailboxes.items },
}

// A message for one mailbox: what came of it, and the ticket to the scheduler.
fn send_at<F: Fsm, S: Scheduler, R: Wait>(
    rt: &R,
    scheduler: &S,
    mailbox: &Mailbox<F>,
    station: &mut Station<F>,
    pass: &mut S::Pass,
    message: F::Message,
) -> Result<(), RouteError<F::Message>>
    requires station { IsStationOf F.name mailbox.now station.old }
    requires calm { IsCalm station.old }
    requires name { F.Message.name message ≡ mailbox_name F.name mailbox.now }
    requires pass { S.id scheduler.now ≡ S.pass_id pass.old }
    requires below { mailbox.now.address < S.size scheduler.now }
    ensures station { IsStationOf F.name mailbox.now station.new }
    ensures calm { IsCalm station.new }
    ensures pass { S.id scheduler.now ≡ S.pass_id pass.new }
    ensures answer { Routes mailbox.now.address (view station.old) (trail station.old) (S.pushed pass.old) message result (view station.new) (trail station.new) (S.pushed pass.new) }
    ensures popped { SameBag (S.popped pass.old) (S.popped pass.new) }
    ensures empties { S.empties pass.new ≡ S.empties pass.old }
{
    match mailbox.send(rt, station, message) {
        Ok(None) => Ok(()),
        Ok(Some(ticket)) => match scheduler.push(rt, pass, ticket) {
            Ok(()) => Ok(()),
            Err(Refused { ticket }) => {
                abandon(mailbox, station, ticket);
                Err(RouteError::NoMemory(None))
            }
        },
        Err(SendError::Closed(message)) => Err(RouteError::Closed(message)),
        Err(SendError::NoMemory(message)) => Err(RouteError::NoMemory(Some(message))),
        Err(SendError::Spent(message)) => Err(RouteError::Spent(message)),
    }
}

impl<F: Fsm, S: Scheduler> Router<F, S> {
    /// Returns the number of mailboxes. Addresses are below it.
    pub fn count(&self) -> u32
        ensures { result ≡ length self.now.mailboxes.items }
    {
        self.count
    }

    /// Returns the scheduler that tickets are pushed to.
    pub fn scheduler(&self) -> &S
        ensures { result.now ≡ self.now.scheduler }
    {
        &self.scheduler
    }

    /// Returns the mailbox of the machine at the address.
    pub fn mailbox(&self, address: u32) -> &Mailbox<F>
        requires below { address < length self.now.mailboxes.items }
        ensures mailbox { result.now ≡ slice_index_or self.now.mailboxes.items address result.now }
        ensures address { result.now.address ≡ address }
    {
        &self.mailboxes[address as usize]
    }

    /// Sends the message to the mailbox of this address, and pushes the ticket where the machine was idle.
    ///
    /// Ok doesn't say that the message will be handled. Where the scheduler refuses the ticket, the message was sent, and
    /// the mailbox is closed: see [`abandon`].
    pub fn send<R: Wait>(
        &self,
        rt: &R,
        desks: &mut Desks<F>,
        pass: &mut S::Pass,
        address: u32,
        message: F::Message,
    ) -> Result<(), RouteError<F::Message>>
        requires desks { AreDesksOf F.name self.now.mailboxes.items desks.old.stations.items }
        requires pass { S.id self.now.scheduler ≡ S.pass_id pass.old }
        requires below { address < length self.now.mailboxes.items }
        requires calm { CalmAt address desks.old.stations.items }
        requires name { NamedAt F.name (F.Message.name message) address self.now.mailboxes.items }
        ensures desks { AreDesksOf F.name self.now.mailboxes.items desks.new.stations.items }
        ensures pass { S.id self.now.scheduler ≡ S.pass_id pass.new }
        ensures station { ChangesAt address (λ s t. IsCalm t × Routes address (view s) (trail s) (S.pushed pass.old) message result (view t) (trail t) (S.pushed pass.new)) desks.old.stations.items desks.new.stations.items }
        ensures calm { AllCalm desks.old.stations.items → AllCalm desks.new.stations.items }
        ensures turns { OnOpen result (turn_steps desks.new.stations.items ≡ turn_steps desks.old.stations.items) }
        ensures pushed { StartsWith (S.pushed pass.new) (S.pushed pass.old) }
        ensures popped { SameBag (S.popped pass.old) (S.popped pass.new) }
        ensures empties { S.empties pass.new ≡ S.empties pass.old }
    {
        let mailbox = self.mailbox(address);
        let station = &mut desks.stations[address as usize];
        send_at(rt, &self.scheduler, mailbox, station, pass, message)
    }

    /// Closes the mailbox of this address for good. The machine comes exactly where it was home.
    pub fn close(&self, desks: &mut Desks<F>, address: u32) -> Closed<F>
        requires desks { AreDesksOf F.name self.now.mailboxes.items desks.old.stations.items }
        requires below { address < length self.now.mailboxes.items }
        requires calm { CalmAt address desks.old.stations.items }
        ensures desks { AreDesksOf F.name self.now.mailboxes.items desks.new.stations.items }
        ensures station { ChangesAt address (λ s t. IsCalm t × Shuts (view s) result (view t) × (t.sender ≡ s.sender)) desks.old.stations.items desks.new.stations.items }
        ensures calm { AllCalm desks.old.stations.items → AllCalm desks.new.stations.items }
        ensures name { (n : F.Name) → NamedAt F.name n address self.now.mailboxes.items → OnMachine result (λ x. F.name x ≡ n) }
    {
        let mailbox = self.mailbox(address);
        let station = &mut desks.stations[address as usize];
        mailbox.close(station)
    }

    /// Closes each mailbox once, and drops the machines that were home.
    pub fn close_all(&self, desks: &mut Desks<F>)
        requires desks { AreDesksOf F.name self.now.mailboxes.items desks.old.stations.items }
        requires calm { AllCalm desks.old.stations.items }
        ensures desks { AreDesksOf F.name self.now.mailboxes.items desks.new.stations.items }
        ensures calm { AllCalm desks.new.stations.items }
        ensures stations { AllShutOnce desks.old.stations.items desks.new.stations.items }
    {
        for address in 0..self.count() {
            drop(self.close(desks, address));
        }
    }
}
