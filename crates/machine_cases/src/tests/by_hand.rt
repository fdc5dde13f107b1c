ghost use Rattle.std.specs.Prelude.{◌≡◌, ◌<◌, All, OnOk, IfOk};
ghost use Rattle.rs_msg.specs.Names.{name_of_apply, name_of_peer, name_of_store};
ghost use Rattle.rs_apply.specs.Fitting.{Fits, FitsApply, FitsPeer, FitsStore};

use crate::tests::machines::RegionMachines;
use crate::tests::sent::sent;
use crate::tests::step::Step;
use rs_apply::Progress;
use rs_check::Plan;
use rs_entry::StoreOutcome;
use rs_key::{Key, Rows};
use rs_meta::StoreFsm;
use rs_msg::{ApplyMsg, Outbox, PeerMsg, StoreMsg};
use std::alloc::Global;
use std::mem;
use std::test::Fail;

/// The machines of two regions of a store and of the store itself, and what they have to send.
#[derive(Drop)]
pub struct ByHand<'p> {
    plan: &'p Plan,
    first: RegionMachines<'p>,
    second: RegionMachines<'p>,
    control: StoreFsm<'p>,
    out: Outbox<'p>,
    ghost first_plan: { first.plan.now ≡ plan.now },
    ghost second_plan: { second.plan.now ≡ plan.now },
    ghost control_plan: { control.plan.now ≡ plan.now },
}

impl<'p> ByHand<'p> {
    /// The store at the place, counted from 0, with the regions of this address and of the next one.
    pub fn new(alloc: Global, plan: &'p Plan, place: u32, address: u32) -> Result<ByHand<'p>, Fail>
        ensures { IfOk result (λ store. Fits store.plan.now store.out) }
    {
        let Some(next) = address.checked_add(1) else {
            return Err(Fail::new("no next address"));
        };
        if next >= plan.count() || place as usize >= plan.input().stores.len() {
            return Err(Fail::new("the plan has no such machines"));
        }
        let first = RegionMachines::new(plan, address)?;
        let second = RegionMachines::new(plan, next)?;
        let control = StoreFsm::new(alloc, plan, place)?;
        Ok(ByHand {
            plan,
            first,
            second,
            control,
            out: Outbox::new(alloc),
        })
    }

    /// Takes the steps in their order, and fails at the first at which something else is seen.
    pub fn play(&mut self, steps: &[Step<'_>]) -> Result<(), Fail>
        requires { Fits self.old.plan.now self.old.out }
        ensures plan { self.new.plan ≡ self.old.plan }
        ensures fits { OnOk result (Fits self.new.plan.now self.new.out) }
    {
        for step in steps {
            self.take(*step)?;
        }
        Ok(())
    }

    fn take(&mut self, step: Step<'_>) -> Result<(), Fail>
        requires { Fits self.old.plan.now self.old.out }
        ensures plan { self.new.plan ≡ self.old.plan }
        ensures fits { OnOk result (Fits self.new.plan.now self.new.out) }
    {
        let plan = self.plan;
        match step {
            Step::Deliver(address, upto) => {
                self.tell_peer(plan, address, PeerMsg::Deliver { plan, upto })
            }
            Step::Applied(address, upto) => {
                self.tell_peer(plan, address, PeerMsg::Applied { plan, upto })
            }
            Step::MergedInto(address, target) => {
                self.tell_peer(plan, address, PeerMsg::MergeResult { plan, target })
            }
            Step::Task(address, upto) => {
                self.tell_apply(plan, address, ApplyMsg::Task { plan, upto })
            }
            Step::HandOver(address, target, commit) => {
                let msg = ApplyMsg::CatchUpLogs {
                    plan,
                    target,
                    commit,
                };
                self.tell_apply(plan, address, msg)
            }
            Step::Reshaped(address, nth) => {
                self.tell_control(plan, StoreMsg::Reshaped { plan, address, nth })
            }
            Step::HandOn => self.hand_on(),
            Step::Advance(address, budget, wanted) => self.advance(address, budget, wanted),
            Step::Sends(wanted) => self.sends(wanted),
            Step::Peer(address, applied, tombstone) => self.peer_is(address, applied, tombstone),
            Step::Finds(key, region) => self.finds(key, region),
            Step::IsComplete(wanted) => self.is_complete(wanted),
        }
    }

    fn tell_peer(&mut self, plan: &Plan, address: u32, msg: PeerMsg<'p>) -> Result<(), Fail>
        requires plan { self.old.plan.now ≡ plan.now }
        requires message { name_of_peer msg ≡ plan.now }
        requires fits { Fits self.old.plan.now self.old.out }
        ensures plan { self.new.plan ≡ self.old.plan }
        ensures fits { OnOk result (Fits self.new.plan.now self.new.out) }
    {
        let _ = plan;
        if address == self.first.address {
            self.first.tell_peer(msg, &mut self.out)?;
        } else if address == self.second.address {
            self.second.tell_peer(msg, &mut self.out)?;
        } else {
            return Err(no_machine());
        }
        Ok(())
    }

    fn tell_apply(&mut self, plan: &Plan, address: u32, msg: ApplyMsg<'p>) -> Result<(), Fail>
        requires plan { self.old.plan.now ≡ plan.now }
        requires message { name_of_apply msg ≡ plan.now }
        requires fits { Fits self.old.plan.now self.old.out }
        ensures plan { self.new.plan ≡ self.old.plan }
        ensures fits { OnOk result (Fits self.new.plan.now self.new.out) }
    {
        let _ = plan;
        if address == self.first.address {
            self.first.tell_apply(msg, &mut self.out)?;
        } else if address == self.second.address {
            self.second.tell_apply(msg, &mut self.out)?;
        } else {
            return Err(no_machine());
        }
        Ok(())
    }

    fn tell_control(&mut self, plan: &Plan, msg: StoreMsg<'p>) -> Result<(), Fail>
        requires plan { self.old.plan.now ≡ plan.now }
        requires message { name_of_store msg ≡ plan.now }
        requires fits { Fits self.old.plan.now self.old.out }
        ensures plan { self.new.plan ≡ self.old.plan }
        ensures fits { OnOk result (Fits self.new.plan.now self.new.out) }
    {
        let _ = plan;
        self.control.handle(msg)?;
        Ok(())
    }

    fn hand_on(&mut self) -> Result<(), Fail>
        requires { Fits self.old.plan.now self.old.out }
        ensures plan { self.new.plan ≡ self.old.plan }
        ensures fits { OnOk result (Fits self.new.plan.now self.new.out) }
    {
        let empty = Outbox::new(self.out.peers.allocator());
        let sent = mem::replace(&mut self.out, empty);
        let plan = self.plan;
        self.hand_to_peers(plan, sent.peers)?;
        self.hand_to_applies(plan, sent.applies)?;
        self.hand_to_control(plan, sent.stores)
    }

    fn hand_to_peers(&mut self, plan: &Plan, sent: Rows<(u32, PeerMsg<'p>)>) -> Result<(), Fail>
        requires plan { self.old.plan.now ≡ plan.now }
        requires fits { Fits self.old.plan.now self.old.out }
        requires sent { All (FitsPeer plan.now) sent }
        ensures plan { self.new.plan ≡ self.old.plan }
        ensures fits { OnOk result (Fits self.new.plan.now self.new.out) }
    {
        for (address, msg) in sent.into_vec() {
            self.tell_peer(plan, address, msg)?;
        }
        Ok(())
    }

    fn hand_to_applies(&mut self, plan: &Plan, sent: Rows<(u32, ApplyMsg<'p>)>) -> Result<(), Fail>
        requires plan { self.old.plan.now ≡ plan.now }
        requires fits { Fits self.old.plan.now self.old.out }
        requires sent { All (FitsApply plan.now) sent }
        ensures plan { self.new.plan ≡ self.old.plan }
        ensures fits { OnOk result (Fits self.new.plan.now self.new.out) }
    {
        for (address, msg) in sent.into_vec() {
            self.tell_apply(plan, address, msg)?;
        }
        Ok(())
    }

    fn hand_to_control(&mut self, plan: &Plan, sent: Rows<(u32, StoreMsg<'p>)>) -> Result<(), Fail>
        requires plan { self.old.plan.now ≡ plan.now }
        requires fits { Fits self.old.plan.now self.old.out }
        requires sent { All (FitsStore plan.now) sent }
        ensures plan { self.new.plan ≡ self.old.plan }
        ensures fits { OnOk result (Fits self.new.plan.now self.new.out) }
    {
        for (_, msg) in sent.into_vec() {
            self.tell_control(plan, msg)?;
        }
        Ok(())
    }

    fn advance(&mut self, address: u32, budget: u32, wanted: Progress) -> Result<(), Fail>
        requires { Fits self.old.plan.now self.old.out }
        ensures plan { self.new.plan ≡ self.old.plan }
        ensures fits { OnOk result (Fits self.new.plan.now self.new.out) }
    {
        let came = if address == self.first.address {
            self.first.advance(budget, &mut self.out)?
        } else if address == self.second.address {
            self.second.advance(budget, &mut self.out)?
        } else {
            return Err(no_machine());
        };
        is(came == wanted, "the machine came to something else")
    }

    fn sends(&self, wanted: &str) -> Result<(), Fail> {
        let text = sent(self.out.peers.allocator(), &self.out)?;
        is(text.as_str() == wanted, text.as_str())
    }

    fn peer_is(&self, address: u32, applied: u64, tombstone: bool) -> Result<(), Fail> {
        let is_so = if address == self.first.address {
            self.first.peer_is(applied, tombstone)
        } else if address == self.second.address {
            self.second.peer_is(applied, tombstone)
        } else {
            return Err(no_machine());
        };
        is(is_so, "the peer machine is in another state")
    }

    fn finds(&self, key: u8, region: u64) -> Result<(), Fail> {
        let key = Key::new(self.out.peers.allocator(), &[key])?;
        is(
            self.control.find(&key) == Some(region),
            "the key is in another region",
        )
    }

    fn is_complete(&self, wanted: bool) -> Result<(), Fail> {
        is(
            self.control.complete() == wanted,
            "the store is complete too early, or isn't yet",
        )
    }

    /// The store's outcome. It fails where an ending or a reshaping is missing.
    pub fn outcome(self) -> Result<StoreOutcome, Fail> {
        if !self.control.complete() {
            return Err(Fail::new("an ending or a reshaping is missing"));
        }
        Ok(self.control.into_outcome()?)
    }
}

fn no_machine() -> Fail {
    Fail::new("it has no such machine")
}

/// Fails with this text where it isn't so.
fn is(so: bool, otherwise: &str) -> Result<(), Fail> {
    if so {
        Ok(())
    } else {
        Err(Fail::new(otherwise))
    }
}
