ghost use Rattle.std.specs.Prelude.{◌≡◌, ◌<◌, [], true, false, ◌||◌, OnOk, OnErr, IfOk};
ghost use Rattle.std.specs.List.{All};
ghost use Rattle.rs_check.specs.Values.{count_of};
ghost use Rattle.rs_msg.specs.Names.{name_of_apply};
ghost use Rattle.rs_apply.specs.Findings.{boot_of};
ghost use Rattle.rs_apply.specs.Fitting.{Fits};
ghost use Rattle.rs_apply.specs.Handling.{held_after, merges_so_far, named_after, tells_merge, IsBornBy, IsOpened};
ghost use Rattle.rs_apply.specs.Machines.{IsAdvance, IsTied};

use crate::advance::advance;
use crate::births::{born, opened};
use crate::handle::{ends_by, is_new, merges_so_far};
use crate::progress::{Life, Progress};
use rs_check::Plan;
use rs_entry::Input;
use rs_key::{NoMemory, Rows};
use rs_mailcore::{Fsm, Named};
use rs_msg::{ApplyMsg, Closed, Outbox};
use std::mem;

/// The machine that applies a region's log.
#[derive(Drop)]
pub struct ApplyFsm<'p> {
    plan: &'p Plan,
    address: u32,
    /// Whether a call has met want of memory.
    spent: bool,
    /// The greatest index that a Task has named; 5 at first.
    named: u64,
    /// Whether the CatchUpLogs came of the merge by which the region ends.
    caught: bool,
    /// The states that sources have handed over for merges that aren't committed yet.
    closed: Vec<Closed<'p>>,
    /// The merges that were asked for.
    asked: Rows<(u64, u64)>,
    life: Life<'p>,
    ghost below: { address < count_of plan.now },
    ghost plans: { All (λ x. x.plan.now ≡ plan.now) closed.items },
    ghost tied: { IsTied plan address life },
}

impl<'p> ApplyFsm<'p> {
    ghost use Rattle.rs_apply.specs.Views.{IsSince, stage_of};

    /// Returns the machine of the region at the address. A region from the start is born with applied index 5. Any
    /// other waits for its Birth.
    pub fn new(plan: &'p Plan, address: u32) -> Result<ApplyFsm<'p>, NoMemory>
        requires { address < count_of plan.now }
        ensures plan { IfOk result (λ m. m.plan ≡ plan.entry) }
        ensures address { IfOk result (λ m. m.address ≡ address) }
        ensures fresh { IfOk result (λ m. m.spent ≡ false) }
        ensures named { IfOk result (λ m. m.named ≡ 5) }
        ensures caught { IfOk result (λ m. m.caught ≡ false) }
        ensures closed { IfOk result (λ m. m.closed.items ≡ []) }
        ensures asked { IfOk result (λ m. m.asked ≡ []) }
        ensures opened { IfOk result (λ m. IsOpened (boot_of plan.now address) m.life) }
    {
        plan.laws();
        let alloc = plan.input().stores.allocator();
        let life = opened(plan, address)?;
        Ok(ApplyFsm {
            plan,
            address,
            spent: false,
            named: 5,
            caught: false,
            closed: Vec::new(alloc),
            asked: Rows::new(alloc),
            life,
        })
    }

    /// Tells the machine a message of its plan. After NoMemory every later call answers NoMemory.
    pub fn handle(&mut self, msg: ApplyMsg<'p>, out: &mut Outbox<'p>) -> Result<(), NoMemory>
        requires name { name_of_apply msg ≡ self.old.plan.now }
        ensures plan { self.new.plan ≡ self.old.plan }
        ensures address { self.new.address ≡ self.old.address }
        ensures spent { OnErr result (self.new.spent ≡ true) }
        ensures fresh { OnOk result ((self.old.spent ≡ false) × (self.new.spent ≡ false)) }
        ensures named { OnOk result (self.new.named ≡ named_after self.old.named msg.entry) }
        ensures caught { OnOk result (self.new.caught ≡ (self.old.caught || tells_merge self.old.plan.now self.old.address msg.entry)) }
        ensures born { OnOk result (IsBornBy self.old.address msg.entry self.old.life self.new.life) }
        ensures closed { OnOk result (self.new.closed.items ≡ held_after self.old.plan.now self.old.address self.old.closed.items (merges_so_far self.old.plan.now self.old.address self.old.life) msg.entry) }
        ensures asked { OnOk result (self.new.asked ≡ self.old.asked) }
        ensures out { out.new ≡ out.old }
    {
        if self.spent {
            return Err(NoMemory);
        }
        self.spent = true;
        match msg {
            ApplyMsg::Task { upto, .. } => self.named = self.named.max(upto),
            ApplyMsg::Birth { piece } => {
                self.plan.laws();
                let life = mem::replace(&mut self.life, Life::Unborn);
                let piece = Box::into_inner(piece);
                let alloc = out.peers.allocator();
                let life = born(self.plan, self.address, life, piece, alloc);
                drop(mem::replace(&mut self.life, life));
            }
            ApplyMsg::CatchUpLogs { target, commit, .. } => {
                self.caught = self.caught || ends_by(self.plan, self.address, target, commit);
            }
            ApplyMsg::SourceDone { closed } => {
                let closed = Box::into_inner(closed);
                let merged = merges_so_far(self.plan, self.address, &self.life);
                if is_new(self.plan, self.address, &self.closed, merged, &closed) {
                    self.closed.push(closed)?;
                } else {
                    drop(closed);
                }
            }
            ApplyMsg::Noop { .. } => {}
        }
        self.spent = false;
        Ok(())
    }

    /// Applies the entries that are named and there, at most as many entries as the budget, and tells how far that was.
    pub fn advance(&mut self, budget: u32, out: &mut Outbox<'p>) -> Result<Progress, NoMemory>
        ensures plan { self.new.plan ≡ self.old.plan }
        ensures address { self.new.address ≡ self.old.address }
        ensures spent { OnErr result (self.new.spent ≡ true) }
        ensures fresh { OnOk result ((self.old.spent ≡ false) × (self.new.spent ≡ false)) }
        ensures named { self.new.named ≡ self.old.named }
        ensures caught { self.new.caught ≡ self.old.caught }
        ensures since { IsSince (stage_of self.old.life) }
        ensures advance { IfOk result (λ p. IsAdvance self.old.plan self.old.address self.old.named self.old.caught budget self.old.life self.old.closed.items self.old.asked out.old p self.new.life self.new.closed.items self.new.asked out.new) }
        ensures fits { OnOk result (Fits self.old.plan.now out.old → Fits self.old.plan.now out.new) }
    {
        if self.spent {
            return Err(NoMemory);
        }
        match mem::replace(&mut self.life, Life::Unborn) {
            Life::Unborn => Ok(Progress::Rests),
            Life::Over(merged) => {
                self.life = Life::Over(merged);
                Ok(Progress::Rests)
            }
            Life::Born(region) => {
                self.spent = true;
                self.plan.laws();
                let mut closed = mem::replace(&mut self.closed, Vec::new(out.peers.allocator()));
                let (life, progress) = advance(
                    region,
                    budget,
                    self.named,
                    self.caught,
                    &mut closed,
                    &mut self.asked,
                    out,
                )?;
                self.closed = closed;
                self.life = life;
                self.spent = false;
                Ok(progress)
            }
        }
    }
}

impl<'p> Named for ApplyFsm<'p> {
    type Name = Input;

    ghost name = { λ machine. machine.plan.now };
}

impl<'p> Fsm for ApplyFsm<'p> {
    ghost use Rattle.std.specs.Coded.{Coded-set};
    ghost use Rattle.rs_entry.specs.contracts.input.Input.{the_row};

    type Message = ApplyMsg<'p>;

    ghost one_name = { Coded-set the_row.coded };
}
