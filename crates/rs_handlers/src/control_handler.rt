ghost use Rattle.std.specs.Prelude.{◌≡◌, ◌<◌, [], ◌∷◌, ◌++◌, IfSome, IsOk, MatchOption, OnOk, OnErr};
ghost use Rattle.rs_check.specs.Values.{count_of};
ghost use Rattle.rs_msg.specs.Names.{name_of_store};
ghost use Rattle.rs_handlers.specs.Handling.{removed_by};
ghost use Rattle.rs_handlers.specs.Outs.{FitsControl};
ghost use Rattle.rs_handlers.specs.Stores.{IsComplete};

use rs_check::Plan;
use rs_entry::Mode;
use rs_key::{NoMemory, Rows};
use rs_meta::StoreFsm;
use rs_msg::StoreMsg;
use rs_poll::{Handler, More};
use rs_router::{Desks, QueueScheduler, Router, Scheduler, SchedulerPass};
use std::alloc::Global;
use std::sync::Wait;

/// The messages of the control machines to the run's main thread.
#[derive(Drop)]
pub struct ControlOut {
    /// The places of stores whose machine was found complete.
    pub complete: Rows<u32>,
    /// The addresses of regions that ended removed.
    pub removed: Rows<u32>,
}

impl ControlOut {
    /// Returns the output in which nothing is told. It takes no memory.
    pub fn new(alloc: Global) -> ControlOut
        ensures complete { result.complete ≡ [] }
        ensures removed { result.removed ≡ [] }
    {
        ControlOut {
            complete: Rows::new(alloc),
            removed: Rows::new(alloc),
        }
    }

    /// Names the machine, by its store's place, exactly where it is complete.
    pub fn name_if_complete(&mut self, machine: &StoreFsm<'_>) -> Result<(), NoMemory>
        requires { FitsControl machine.now.plan.now self.old }
        ensures fits { FitsControl machine.now.plan.now self.new }
        ensures named { IsComplete machine.now → OnOk result (self.new.complete ≡ self.old.complete ++ machine.now.place ∷ []) }
        ensures unnamed { ¬ IsComplete machine.now → IsOk result × (self.new.complete ≡ self.old.complete) }
        ensures err { OnErr result (self.new.complete ≡ self.old.complete) }
        ensures removed { self.new.removed ≡ self.old.removed }
    {
        if !machine.complete() {
            return Ok(());
        }
        self.complete.push(machine.place())
    }
}

/// Lets control machines handle their messages.
#[derive(Drop)]
pub struct ControlHandler<'p> {
    pub plan: &'p Plan,
    pub handles: u64,
    pub advances: u64,
}

impl<'p> Handler<StoreFsm<'p>, QueueScheduler> for ControlHandler<'p> {
    ghost use Rattle.std.specs.Prelude.{◌≡◌, length};
    ghost use Rattle.rs_handlers.specs.Handling.{NamesStore, TellsStore};
    ghost use Rattle.rs_handlers.specs.Outs.{FitsControl, FitsControl_prop};
    ghost use Rattle.rs_poll.specs.declared.handler.More.TheVariants.{No};

    type Out = ControlOut;

    ghost name = { λ h. h.plan.now };

    ghost count = { λ h. length h.plan.now.stores };

    ghost handles = { λ h. h.handles };

    ghost advances = { λ h. h.advances };

    ghost asked = { λ _. No };

    ghost fits = { λ h out. FitsControl h.plan.now out };

    ghost one_fit = { λ h out. FitsControl_prop h.plan.now out };

    ghost handled = { TellsStore };

    ghost advanced = { λ x budget out more y out_after. (more ≡ No) × NamesStore x out y out_after };

    ghost sent = { λ h out lent i out_after lent_after. (out_after ≡ out) × (lent_after ≡ lent) };

    fn handle(
        &mut self,
        machine: &mut StoreFsm<'p>,
        message: StoreMsg<'p>,
        out: &mut ControlOut,
    ) -> Result<(), NoMemory> {
        if let Some(address) = removed_by(self.plan, &message) {
            out.removed.push(address)?;
        }
        machine.handle(message)?;
        self.handles = self.handles.saturating_add(1);
        Ok(())
    }

    /// Names the machine if it is complete, and asks for no more.
    fn advance(
        &mut self,
        machine: &mut StoreFsm<'p>,
        _budget: u32,
        out: &mut ControlOut,
    ) -> Result<More, NoMemory> {
        out.name_if_complete(machine)?;
        self.advances = self.advances.saturating_add(1);
        Ok(More::No)
    }

    /// Sends nothing: the run's main thread takes what is told.
    fn send_out<R: Wait>(
        &mut self,
        _rt: &R,
        _router: &Router<StoreFsm<'p>, QueueScheduler>,
        _desks: &mut Desks<StoreFsm<'p>>,
        _pass: &mut SchedulerPass,
        _out: &mut ControlOut,
    ) -> Result<(), NoMemory> {
        Ok(())
    }
}

/// Returns the address of a region that the message says to have ended removed.
fn removed_by(plan: &Plan, message: &StoreMsg<'_>) -> Option<u32>
    requires { name_of_store message.now ≡ plan.now }
    ensures within { IfSome result (λ address. address < count_of plan.now) }
    ensures value { MatchOption result (removed_by plan.now message.now ≡ []) (λ address. removed_by plan.now message.now ≡ address ∷ []) }
{
    match message {
        StoreMsg::Reshaped { .. } => None,
        StoreMsg::Ended { ending } => match plan.ends(ending.address()) {
            Mode::Removed => Some(ending.address()),
            Mode::Normal | Mode::Merging { .. } | Mode::Merged { .. } => None,
        },
    }
}
