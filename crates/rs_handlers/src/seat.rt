ghost use Rattle.std.specs.Prelude.{◌≡◌, ◌<◌, All, OnOk, length};
ghost use Rattle.rs_mailbox.specs.Mail.{OnMachine, Shuts};
ghost use Rattle.rs_mailbox.specs.Stations.{view};
ghost use Rattle.rs_poll.specs.Kept.{AllNamed_prop, AreDesksOf_prop};
ghost use Rattle.rs_poll.specs.Handing.{all_known, Hands, HandsAll};
ghost use Rattle.rs_router.specs.Desks.{AreDesksOf, AllCalm, AllNamed, ChangesAt};
ghost use Rattle.rs_router.specs.Ids.{one_id};
ghost use Rattle.rs_router.specs.Passes.{id_of, id_with};
ghost use Rattle.rs_handlers.specs.Routes.{IsFor};

use crate::machine::Machine;
use crate::sending::{send, send_all};
use rs_check::Plan;
use rs_entry::Input;
use rs_key::{NoMemory, Rows};
use rs_mailbox::Closed;
use rs_mailcore::{Fsm, Named};
use rs_router::{Desks, QueueScheduler, Router, Scheduler, SchedulerPass};
use std::sync::Wait;

/// One worker's seat at the machines of one kind: its desks of their router, and its pass of the router's scheduler.
///
/// The machines are the plan's. The seat's stations are calm between its calls.
#[derive(Drop)]
pub struct Seat<'r, 'p, F: Machine> {
    pub plan: &'p Plan,
    pub router: &'r Router<F, QueueScheduler>,
    pub desks: Desks<F>,
    pub pass: SchedulerPass,
    ghost tied: { AreDesksOf F.name router.now.mailboxes.items desks.stations.items } by { AreDesksOf_prop F.one_name F.name router.now.mailboxes.items desks.stations.items },
    ghost owned: { id_with router.now.scheduler.queue router.now.scheduler.addresses ≡ id_of pass } by { one_id (id_with router.now.scheduler.queue router.now.scheduler.addresses) (id_of pass) },
    ghost calm: { AllCalm desks.stations.items },
    ghost named: { AllNamed F.name plan.now router.now.mailboxes.items } by { AllNamed_prop F.one_name F.name plan.now router.now.mailboxes.items },
    ghost counted: { length router.now.mailboxes.items ≡ F.count plan.now },
}

impl<'r, 'p, F: Machine> Seat<'r, 'p, F> {
    /// Sends the message to the address.
    pub fn send<R: Wait>(
        &mut self,
        rt: &R,
        address: u32,
        message: F::Message,
    ) -> Result<(), NoMemory>
        requires message { IsFor F.Message.name (F.count self.old.plan.now) self.old.plan.now (address, message) }
        ensures plan { self.new.plan ≡ self.old.plan }
        ensures router { self.new.router ≡ self.old.router }
        ensures sent { OnOk result (ChangesAt address (Hands message) (all_known self.old.desks.stations.items) (all_known self.new.desks.stations.items)) }
    {
        send(
            rt,
            self.router,
            &mut self.desks,
            &mut self.pass,
            address,
            message,
        )
    }

    /// Sends the messages in their order, each to the address beside it.
    pub fn send_all<R: Wait>(
        &mut self,
        rt: &R,
        messages: Rows<(u32, F::Message)>,
    ) -> Result<(), NoMemory>
        requires messages { All (IsFor F.Message.name (F.count self.old.plan.now) self.old.plan.now) messages }
        ensures plan { self.new.plan ≡ self.old.plan }
        ensures router { self.new.router ≡ self.old.router }
        ensures sent { OnOk result (HandsAll messages (all_known self.old.desks.stations.items) (all_known self.new.desks.stations.items)) }
    {
        if messages.is_empty() {
            return Ok(());
        }
        send_all(rt, self.router, &mut self.desks, &mut self.pass, messages)
    }

    /// Closes the mailbox of the address for good.
    pub fn close(&mut self, address: u32) -> Closed<F>
        requires below { address < F.count self.old.plan.now }
        ensures plan { self.new.plan ≡ self.old.plan }
        ensures router { self.new.router ≡ self.old.router }
        ensures shut { ChangesAt address (λ s t. Shuts (view s) result (view t) × (t.sender ≡ s.sender)) self.old.desks.stations.items self.new.desks.stations.items }
        ensures name { OnMachine result (λ machine. F.name machine ≡ self.old.plan.now) }
    {
        self.router.close(&mut self.desks, address)
    }

    /// Waits until there may be a ticket. It may return at any time.
    pub fn idle<R: Wait>(&mut self, rt: &R)
        ensures plan { self.new.plan ≡ self.old.plan }
        ensures router { self.new.router ≡ self.old.router }
    {
        self.router.scheduler().idle(rt, &mut self.pass);
    }
}
