ghost use Rattle.std.specs.Prelude.{◌≡◌, ◌+◌, ◌-◌, ◌<◌, ◌≤◌, ◌^◌, ◌⊎◌, ◌++◌, ℕ, Some, None, OnOk, IfOk, IsSome};
ghost use Rattle.std.specs.List.{All};
ghost use Rattle.rs_region.specs.Verdicts.{verdict};
ghost use Rattle.rs_store.specs.Runs.{line_entry, IsFormed};
ghost use Rattle.rs_check.specs.Lawfulness.{PlanLaws};
ghost use Rattle.rs_check.specs.Plans.{stop_of};
ghost use Rattle.rs_check.specs.Values.{count_of, replies_to, reshaped_by};
ghost use Rattle.rs_msg.specs.Held.{IsHeld};
ghost use Rattle.rs_apply.specs.Merges.{merges_from, waits_at};
ghost use Rattle.rs_apply.specs.Runs.{HasDone, HasRun};
ghost use Rattle.rs_apply.specs.Steps.{HasNext};

use crate::apply_entry::change;
use crate::lookahead::{is_reshaping, merge_in, unheld};
use crate::next::Next;
use crate::records::{note_merge, note_reply, tell_reshaping};
use rs_check::Plan;
use rs_entry::ReplyLine;
use rs_key::{NoMemory, Rows};
use rs_msg::{Closed, Map, Outbox};
use rs_region::RegionState;
use rs_store::NextEntry;
use std::alloc::Global;

/// A region that was made, as it is after an index.
#[derive(Drop)]
pub struct Region<'p> {
    pub plan: &'p Plan,
    pub address: u32,
    /// The index of the last entry that it has applied.
    pub index: u64,
    pub state: RegionState,
    pub map: Map<'p>,
    pub replies: Rows<ReplyLine>,
    /// The merges that it has committed, by their sources and the indexes of their prepares.
    pub merged: Rows<(u64, u64)>,
    /// The number of times that it was reshaped.
    pub reshaped: u64,
    ghost below: { address < count_of plan.now },
    ghost since: { 5 ≤ index },
    ghost within: { index ≤ stop_of plan.now address },
    ghost held: { IsHeld plan.now address index state map },
    ghost answered: { replies ≡ replies_to plan.now address (index - 5) },
    ghost merges: { merged ≡ merges_from plan.now address 5 (index - 5) },
    ghost counted: { reshaped ≡ reshaped_by plan.now address index },
    ghost few: { reshaped ≤ index },
}

impl<'p> Region<'p> {
    /// Returns a region that has applied nothing yet.
    pub fn new(
        plan: &'p Plan,
        address: u32,
        state: RegionState,
        map: Map<'p>,
        alloc: Global,
    ) -> Region<'p>
        requires laws { PlanLaws plan.now }
        requires below { address < count_of plan.now }
        requires held { IsHeld plan.now address 5 state map }
        ensures plan { result.plan ≡ plan.entry }
        ensures address { result.address ≡ address }
        ensures index { result.index ≡ 5 }
    {
        Region {
            plan,
            address,
            index: 5,
            state,
            map,
            replies: Rows::new(alloc),
            merged: Rows::new(alloc),
            reshaped: 0,
        }
    }

    /// The entry that it applies next, and what becomes of it.
    pub fn next_entry(&self) -> NextEntry<'p>
        requires laws { PlanLaws self.now.plan.now }
        requires within { self.now.index < stop_of self.now.plan.now self.now.address }
        ensures entry { HasNext self.now.plan.now self.now.address self.now.index (line_entry result.line) }
        ensures formed { IsFormed (line_entry result.line).body }
        ensures verdict { result.verdict ≡ verdict self.now.state (line_entry result.line) }
    {
        let Some(line) = self.plan.entry(self.address, self.index + 1) else {
            unreachable!()
        };
        let verdict = line.verdict(&self.state);
        NextEntry { line, verdict }
    }

    /// The merge that it waits for before it applies the entry.
    pub fn waits(&self, next_entry: NextEntry<'p>, closed: &[Closed<'p>]) -> Option<(u64, u64)>
        requires entry { HasNext self.now.plan.now self.now.address self.now.index (line_entry next_entry.line) }
        requires verdict { next_entry.verdict ≡ verdict self.now.state (line_entry next_entry.line) }
        ensures { result ≡ waits_at self.now.plan.now self.now.address closed.now self.now.index }
    {
        let merge = merge_in(next_entry.verdict, next_entry.line.action());
        unheld(self.plan, self.address, closed, merge)
    }

    /// Applies the entry, which is the next.
    pub fn step(
        self,
        next_entry: NextEntry<'p>,
        closed: &mut Vec<Closed<'p>>,
        out: &mut Outbox<'p>,
    ) -> Result<Region<'p>, NoMemory>
        requires laws { PlanLaws self.plan.now }
        requires entry { HasNext self.plan.now self.address self.index (line_entry next_entry.line) }
        requires formed { IsFormed (line_entry next_entry.line).body }
        requires verdict { next_entry.verdict ≡ verdict self.state (line_entry next_entry.line) }
        requires plans { All (λ x. x.plan.now ≡ self.plan.now) closed.old.items }
        requires ready { waits_at self.plan.now self.address closed.old.items self.index ≡ None }
        ensures plan { IfOk result (λ r. r.plan ≡ self.entry.plan) }
        ensures address { IfOk result (λ r. r.address ≡ self.entry.address) }
        ensures index { IfOk result (λ r. r.index ≡ self.entry.index + 1) }
        ensures plans { OnOk result (All (λ x. x.plan.now ≡ self.entry.plan.now) closed.new.items) }
        ensures done { OnOk result (HasDone self.entry.plan self.entry.address self.entry.index closed.old.items out.old closed.new.items out.new) }
    {
        let NextEntry { line, verdict } = next_entry;
        let action = line.action();
        let Region {
            plan,
            address,
            index,
            mut state,
            mut map,
            mut replies,
            mut merged,
            reshaped,
        } = self;
        let next = Next {
            plan,
            address,
            index,
            line,
        };
        let region = state.region;
        let reply = change(next, verdict, &mut state, &mut map, closed, out)?;
        note_reply(&mut replies, region, index + 1, reply)?;
        note_merge(&mut merged, merge_in(verdict, action))?;
        let is = is_reshaping(verdict, action);
        let reshaped = tell_reshaping(next, reshaped, is, &mut out.stores)?;
        Ok(Region {
            plan,
            address,
            index: index + 1,
            state,
            map,
            replies,
            merged,
            reshaped,
        })
    }

    /// Applies entries up to the last, at most as many as the budget, until it has to wait.
    pub fn run(
        self,
        last: u64,
        budget: u32,
        closed: &mut Vec<Closed<'p>>,
        out: &mut Outbox<'p>,
    ) -> Result<Region<'p>, NoMemory>
        requires laws { PlanLaws self.plan.now }
        requires last { last ≤ stop_of self.plan.now self.address }
        requires plans { All (λ x. x.plan.now ≡ self.plan.now) closed.old.items }
        ensures plan { IfOk result (λ r. r.plan ≡ self.entry.plan) }
        ensures address { IfOk result (λ r. r.address ≡ self.entry.address) }
        ensures within { IfOk result (λ r. (self.entry.index ≤ r.index) × (r.index ≤ self.entry.index + budget)) }
        ensures last { IfOk result (λ r. (r.index ≡ self.entry.index) ⊎ (r.index ≤ last)) }
        ensures stops { IfOk result (λ r. (r.index ≡ self.entry.index + budget) ⊎ ((last ≤ r.index) ⊎ IsSome (waits_at self.entry.plan.now self.entry.address closed.new.items r.index))) }
        ensures plans { OnOk result (All (λ x. x.plan.now ≡ self.entry.plan.now) closed.new.items) }
        ensures ran { IfOk result (λ r. HasRun self.entry.plan self.entry.address self.entry.index (r.index - self.entry.index) closed.old.items out.old closed.new.items out.new) }
    {
        let mut region = self;
        for step in 0..budget {
            if region.index >= last {
                return Ok(region);
            }
            let next_entry = region.next_entry();
            if region.waits(next_entry, closed).is_some() {
                return Ok(region);
            }
            region = region.step(next_entry, closed, out)?;
        }
        Ok(region)
    }
}
