ghost use Rattle.std.specs.Prelude.{◌≡◌, All, OnErr, OnOk};
ghost use Rattle.rs_poll.specs.Handing.{all_known, Hands, HandsAll};
ghost use Rattle.rs_router.specs.Desks.{AreDesksOf, AllCalm, ChangesAt};
ghost use Rattle.rs_router.specs.Lists.{SameBag, StartsWith};
ghost use Rattle.rs_router.specs.Turns.{turn_steps};
ghost use Rattle.rs_handlers.specs.Routes.{HadMemory, Reaches};

use rs_key::{NoMemory, Rows};
use rs_mailcore::{Fsm, Named};
use rs_router::{Desks, RouteError, Router, Scheduler};
use std::sync::Wait;

/// Sends a message. One to a closed mailbox is dropped, and so is one of a station that has sent all that it may.
pub fn send<F: Fsm, S: Scheduler, R: Wait>(
    rt: &R,
    router: &Router<F, S>,
    desks: &mut Desks<F>,
    pass: &mut S::Pass,
    address: u32,
    message: F::Message,
) -> Result<(), NoMemory>
    requires reaches { Reaches F.name F.Message.name router.now.mailboxes.items (address, message) }
    requires desks { AreDesksOf F.name router.now.mailboxes.items desks.old.stations.items }
    requires calm { AllCalm desks.old.stations.items }
    requires pass { S.id router.now.scheduler ≡ S.pass_id pass.old }
    ensures desks { AreDesksOf F.name router.now.mailboxes.items desks.new.stations.items }
    ensures calm { AllCalm desks.new.stations.items }
    ensures pass { S.id router.now.scheduler ≡ S.pass_id pass.new }
    ensures pushed { StartsWith (S.pushed pass.new) (S.pushed pass.old) }
    ensures popped { SameBag (S.popped pass.old) (S.popped pass.new) }
    ensures empties { S.empties pass.new ≡ S.empties pass.old }
    ensures sent { OnOk result (ChangesAt address (Hands message) (all_known desks.old.stations.items) (all_known desks.new.stations.items)) }
    ensures turns { OnOk result (turn_steps desks.new.stations.items ≡ turn_steps desks.old.stations.items) }
{
    unless_no_memory(router.send(rt, desks, pass, address, message))
}

/// Drops a message that came back, unless it did for want of memory.
fn unless_no_memory<M: Drop>(sent: Result<(), RouteError<M>>) -> Result<(), NoMemory>
    ensures ok { OnOk result (HadMemory sent) }
    ensures err { OnErr result (¬ HadMemory sent) }
{
    match sent {
        Ok(()) | Err(RouteError::Closed(_)) | Err(RouteError::Spent(_)) => Ok(()),
        Err(RouteError::NoMemory(_)) => Err(NoMemory),
    }
}

/// Sends the messages in their order, each to the address beside it.
pub fn send_all<F: Fsm, S: Scheduler, R: Wait>(
    rt: &R,
    router: &Router<F, S>,
    desks: &mut Desks<F>,
    pass: &mut S::Pass,
    messages: Rows<(u32, F::Message)>,
) -> Result<(), NoMemory>
    requires reach { All (Reaches F.name F.Message.name router.now.mailboxes.items) messages }
    requires desks { AreDesksOf F.name router.now.mailboxes.items desks.old.stations.items }
    requires calm { AllCalm desks.old.stations.items }
    requires pass { S.id router.now.scheduler ≡ S.pass_id pass.old }
    ensures desks { AreDesksOf F.name router.now.mailboxes.items desks.new.stations.items }
    ensures calm { AllCalm desks.new.stations.items }
    ensures pass { S.id router.now.scheduler ≡ S.pass_id pass.new }
    ensures pushed { StartsWith (S.pushed pass.new) (S.pushed pass.old) }
    ensures popped { SameBag (S.popped pass.old) (S.popped pass.new) }
    ensures empties { S.empties pass.new ≡ S.empties pass.old }
    ensures sent { OnOk result (HandsAll messages (all_known desks.old.stations.items) (all_known desks.new.stations.items)) }
    ensures turns { OnOk result (turn_steps desks.new.stations.items ≡ turn_steps desks.old.stations.items) }
{
    for (address, message) in messages.into_vec() {
        send(rt, router, desks, pass, address, message)?;
    }
    Ok(())
}
