ghost use Rattle.std.specs.Prelude.{◌≡◌, ◌<◌, ◌++◌, ◌∷◌, [], All, IfOk, IfSome, OnOk, map};
ghost use Rattle.std.specs.List.{range_with_len};
ghost use Rattle.rs_check.specs.Values.{count_of};
ghost use Rattle.rs_msg.specs.Names.{name_of_peer};
ghost use Rattle.rs_handlers.specs.Delivering.{IsNext, last_own, opening};
ghost use Rattle.rs_handlers.specs.Routes.{IsFor};

use crate::delivery::Told;
use rs_check::Plan;
use rs_key::NoMemory;
use rs_msg::PeerMsg;
use std::alloc::Global;
use std::collections::VecDeque;

/// The deliveries of the logs to the peer machines that are still to be made.
///
/// Each address is told once, and then its index rises by at most a chunk with each message, up to the last entry of
/// its own log. The addresses take turns.
#[derive(Drop)]
pub struct Deliveries<'p> {
    plan: &'p Plan,
    chunk: u32,
    waiting: VecDeque<Told>,
    ghost known: { All (λ told. told.address < count_of plan.now) waiting.items },
}

impl<'p> Deliveries<'p> {
    /// Returns the deliveries of the plan, none of which was made.
    pub fn new(alloc: Global, plan: &'p Plan, chunk: u32) -> Result<Deliveries<'p>, NoMemory>
        ensures plan { IfOk result (λ d. d.plan ≡ plan.entry) }
        ensures chunk { IfOk result (λ d. d.chunk ≡ chunk) }
        ensures all { IfOk result (λ d. d.waiting.items ≡ map opening (range_with_len 0 (count_of plan.now))) }
    {
        let mut waiting = VecDeque::with_capacity(alloc, plan.count() as usize)?;
        for address in 0..plan.count() {
            line_up(&mut waiting, Told { address, upto: 5 })?;
        }
        Ok(Deliveries {
            plan,
            chunk,
            waiting,
        })
    }

    /// Returns the next message with its address. None where all was told.
    pub fn next(&mut self) -> Result<Option<(u32, PeerMsg<'p>)>, NoMemory>
        ensures plan { self.new.plan ≡ self.old.plan }
        ensures chunk { self.new.chunk ≡ self.old.chunk }
        ensures message { IfOk result (λ next. IfSome next (IsFor name_of_peer (count_of self.old.plan.now) self.old.plan.now)) }
        ensures next { IfOk result (λ next. IsNext self.old.plan self.old.chunk self.old.waiting.items next self.new.waiting.items) }
    {
        let Some(told) = self.waiting.pop_front() else {
            return Ok(None);
        };
        let last = last_own(self.plan, told.address);
        let upto = told.upto.saturating_add(u64::from(self.chunk)).min(last);
        if upto < last {
            self.wait(Told { upto, ..told })?;
        }
        let plan = self.plan;
        Ok(Some((told.address, PeerMsg::Deliver { plan, upto })))
    }

    /// Records that the address waits for its next message.
    fn wait(&mut self, told: Told) -> Result<(), NoMemory>
        requires { told.address < count_of self.old.plan.now }
        ensures plan { self.new.plan ≡ self.old.plan }
        ensures chunk { self.new.chunk ≡ self.old.chunk }
        ensures waiting { OnOk result (self.new.waiting.items ≡ self.old.waiting.items ++ told ∷ []) }
    {
        self.waiting.push_back(told)?;
        Ok(())
    }
}

/// Records that the address waits for its first message, behind the others.
fn line_up(waiting: &mut VecDeque<Told>, told: Told) -> Result<(), NoMemory>
    ensures { OnOk result (waiting.new.items ≡ waiting.old.items ++ told ∷ []) }
{
    waiting.push_back(told)?;
    Ok(())
}

/// Returns the index of the last entry of the address's own log; 5 where it has none.
fn last_own(plan: &Plan, address: u32) -> u64
    requires { address < count_of plan.now }
    ensures { result ≡ last_own plan.now address }
{
    plan.own(address).saturating_add(5)
}
