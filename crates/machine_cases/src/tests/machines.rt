ghost use Rattle.std.specs.Prelude.{◌≡◌, ◌<◌, IfOk, OnOk};
ghost use Rattle.rs_check.specs.Values.{count_of};
ghost use Rattle.rs_msg.specs.Names.{name_of_apply, name_of_peer};
ghost use Rattle.rs_apply.specs.Fitting.{Fits};

use rs_apply::{ApplyFsm, Progress};
use rs_check::Plan;
use rs_key::NoMemory;
use rs_msg::{ApplyMsg, Outbox, PeerMsg};
use rs_peer::PeerFsm;

/// The two machines of one region on one store.
#[derive(Drop)]
pub struct RegionMachines<'p> {
    plan: &'p Plan,
    pub address: u32,
    peer: PeerFsm<'p>,
    apply: ApplyFsm<'p>,
    ghost peer_plan: { peer.plan.now ≡ plan.now },
    ghost apply_plan: { apply.plan.now ≡ plan.now },
}

impl<'p> RegionMachines<'p> {
    /// Returns the two machines of the region at the address.
    pub fn new(plan: &'p Plan, address: u32) -> Result<RegionMachines<'p>, NoMemory>
        requires { address < count_of plan.now }
        ensures { IfOk result (λ machines. machines.plan ≡ plan.entry) }
    {
        let apply = ApplyFsm::new(plan, address)?;
        Ok(RegionMachines {
            plan,
            address,
            peer: PeerFsm::new(plan, address),
            apply,
        })
    }

    /// Lets the peer machine handle a message.
    pub fn tell_peer(&mut self, msg: PeerMsg<'p>, out: &mut Outbox<'p>) -> Result<(), NoMemory>
        requires message { name_of_peer msg ≡ self.old.plan.now }
        requires fits { Fits self.old.plan.now out.old }
        ensures plan { self.new.plan ≡ self.old.plan }
        ensures fits { OnOk result (Fits self.new.plan.now out.new) }
    {
        self.peer.handle(msg, out)
    }

    /// Lets the apply machine handle a message.
    pub fn tell_apply(&mut self, msg: ApplyMsg<'p>, out: &mut Outbox<'p>) -> Result<(), NoMemory>
        requires message { name_of_apply msg ≡ self.old.plan.now }
        ensures plan { self.new.plan ≡ self.old.plan }
        ensures out { out.new ≡ out.old }
    {
        self.apply.handle(msg, out)
    }

    /// Whether the peer knows this applied index, and is a tombstone or not.
    pub fn peer_is(&self, applied: u64, tombstone: bool) -> bool {
        self.peer.applied() == applied && self.peer.is_tombstone() == tombstone
    }

    /// Lets the apply machine go on.
    pub fn advance(&mut self, budget: u32, out: &mut Outbox<'p>) -> Result<Progress, NoMemory>
        requires { Fits self.old.plan.now out.old }
        ensures plan { self.new.plan ≡ self.old.plan }
        ensures fits { OnOk result (Fits self.new.plan.now out.new) }
    {
        self.apply.advance(budget, out)
    }
}
