ghost use Rattle.std.specs.Prelude.{◌≡◌, ◌<◌, ◌++◌, ◌∷◌, [], List, OnErr, OnOk};
ghost use Rattle.std.specs.List.{All};
ghost use Rattle.rs_check.specs.Values.{count_of};
ghost use Rattle.rs_msg.specs.declared.messages.PeerMsg.{PeerMsg as Told};
ghost use Rattle.rs_msg.specs.declared.messages.PeerMsg.TheVariants as told;
ghost use Rattle.rs_msg.specs.Names.{name_of_peer};
ghost use Rattle.rs_peer.specs.Kept.{IsKeptOf, applied_after, tombstone_after};
ghost use Rattle.rs_peer.specs.Sent.{AddsFront, IsOfPlan, sent_for};

use rs_check::Plan;
use rs_entry::Input;
use rs_key::NoMemory;
use rs_mailcore::{Fsm, Named};
use rs_msg::{ApplyMsg, Outbox, PeerMsg};

/// The peer machine of one region on one store.
#[derive(Drop)]
pub struct PeerFsm<'p> {
    plan: &'p Plan,
    address: u32,
    applied: u64,
    tombstone: bool,
    ghost below: { address < count_of plan.now },
}

impl<'p> PeerFsm<'p> {
    /// Returns a machine that was told nothing yet. It takes no memory.
    pub fn new(plan: &'p Plan, address: u32) -> PeerFsm<'p>
        requires below { address < count_of plan.now }
        ensures plan { result.plan ≡ plan.entry }
        ensures address { result.address ≡ address }
        ensures kept { IsKeptOf [] result.applied result.tombstone }
    {
        PeerFsm {
            plan,
            address,
            applied: 5,
            tombstone: false,
        }
    }

    /// Passes on what its apply machine has to know, also where the region was taken over, and keeps the rest.
    ///
    /// Where memory runs out the machine is as it was.
    pub fn handle(&mut self, msg: PeerMsg<'p>, out: &mut Outbox<'p>) -> Result<(), NoMemory>
        requires plan { name_of_peer msg ≡ self.old.plan.now }
        ensures plan { self.new.plan ≡ self.old.plan }
        ensures address { self.new.address ≡ self.old.address }
        ensures applied { OnOk result (self.new.applied ≡ applied_after msg.entry self.old.applied) }
        ensures tombstone { OnOk result (self.new.tombstone ≡ tombstone_after msg.entry self.old.tombstone) }
        ensures kept { OnOk result ((msgs : List Told) → IsKeptOf msgs self.old.applied self.old.tombstone → IsKeptOf (msgs ++ msg.entry ∷ []) self.new.applied self.new.tombstone) }
        ensures unchanged { OnErr result (self.new ≡ self.old) }
        ensures sent { OnOk result (out.new.applies ≡ out.old.applies ++ sent_for self.old.address msg.entry) }
        ensures front { OnErr result (AddsFront out.old.applies (sent_for self.old.address msg.entry) out.new.applies) }
        ensures of_plan { All (IsOfPlan self.old.plan.now) out.old.applies → All (IsOfPlan self.old.plan.now) out.new.applies }
        ensures peers { out.new.peers ≡ out.old.peers }
        ensures stores { out.new.stores ≡ out.old.stores }
    {
        let address = self.address;
        match msg {
            PeerMsg::Deliver { plan, upto } => {
                out.applies.push((address, ApplyMsg::Task { plan, upto }))
            }
            PeerMsg::CatchUp {
                plan,
                target,
                commit,
            } => catch_up(plan, address, target, commit, out),
            PeerMsg::Applied { upto, .. } => {
                self.applied = self.applied.max(upto);
                Ok(())
            }
            PeerMsg::MergeResult { .. } => {
                self.tombstone = true;
                Ok(())
            }
        }
    }

    /// Returns the greatest of 5 and the indexes that it was told to be applied.
    pub fn applied(&self) -> u64
        ensures { result ≡ self.now.applied }
    {
        self.applied
    }

    /// Returns whether it was told that the region was taken over.
    pub fn is_tombstone(&self) -> bool
        ensures { result ≡ self.now.tombstone }
    {
        self.tombstone
    }
}

impl<'p> Named for PeerFsm<'p> {
    type Name = Input;

    ghost name = { λ machine. machine.plan.now };
}

impl<'p> Fsm for PeerFsm<'p> {
    ghost use Rattle.std.specs.Coded.{Coded-set};
    ghost use Rattle.rs_entry.specs.contracts.input.Input.{the_row};

    type Message = PeerMsg<'p>;

    ghost one_name = { Coded-set the_row.coded };
}

/// Lets the apply machine come up to its prepare, and then has it hand over.
fn catch_up<'p>(
    plan: &'p Plan,
    address: u32,
    target: u64,
    commit: u64,
    out: &mut Outbox<'p>,
) -> Result<(), NoMemory>
    requires below { address < count_of plan.now }
    ensures sent { OnOk result (out.new.applies ≡ out.old.applies ++ sent_for address (told.CatchUp plan.entry target commit)) }
    ensures front { OnErr result (AddsFront out.old.applies (sent_for address (told.CatchUp plan.entry target commit)) out.new.applies) }
    ensures of_plan { All (IsOfPlan plan.now) out.old.applies → All (IsOfPlan plan.now) out.new.applies }
    ensures peers { out.new.peers ≡ out.old.peers }
    ensures stores { out.new.stores ≡ out.old.stores }
{
    let task = ApplyMsg::Task { plan, upto: commit };
    out.applies.push((address, task))?;
    let hand_over = ApplyMsg::CatchUpLogs {
        plan,
        target,
        commit,
    };
    out.applies.push((address, hand_over))
}
