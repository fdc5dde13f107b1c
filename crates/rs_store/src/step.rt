ghost use Rattle.std.specs.Prelude.{◌≡◌, ℕ, ◌+◌, ◌<◌, ◌≤◌, ◌^◌, [], Some, None, Ok, IfOk, OnOk, ◌&&◌, true, false, length};
ghost use Rattle.rs_entry.specs.declared.entry.Body.{Body};
ghost use Rattle.rs_key.specs.Ranges.{first_bad_cut, is_next_to};
ghost use Rattle.rs_store.specs.declared.regions.Origin.TheVariants as origins;
ghost use Rattle.rs_region.specs.Actions.{body_for, turn_body, turned_on};
ghost use Rattle.rs_region.specs.Verdicts.{verdict};
ghost use Rattle.rs_region.specs.Reshapings.{split_kept, split_new, committed};
ghost use Rattle.rs_region.specs.declared.verdict.Verdict.TheVariants as verdicts;
ghost use Rattle.rs_store.specs.Stores.{ByRegion, own, is_paused, step, step_by, accept, commit_in, with_region, with_regions, is_prepared_for, commit_with, as_merged, passed, reshaped, born};
ghost use Rattle.rs_store.specs.Runs.{seen, bare, IsLow, IsAllLow, IsFormed, IsGood, line_entry, is_plain, passes};
ghost use Rattle.rs_entry.specs.declared.outcome.Reply.TheVariants as replies;
ghost use Rattle.rs_store.specs.Walks.{came, done, gained, passes_to, written, IsNextEntry};

use crate::effect::Effect;
use crate::fault::StepFault;
use crate::indexed_store::IndexedStore;
use crate::next_entry::{NextEntry, passes};
use crate::readiness::is_paused;
use crate::regions::{Made, Origin, Regions};
use crate::replies::{ops_in, reply_to};
use rs_entry::{INIT_INDEX, Mode, Op, Reply, Side};
use rs_key::{Key, NoMemory, Rows};
use rs_region::{Action, RegionState, Turn, Verdict};
use std::alloc::Global;

fn commit_in(action: Action<'_>) -> u64
    ensures { result ≡ commit_in (body_for action.entry) }
{
    match action {
        Action::Turns(Turn::Rollback { commit }) => commit,
        _ => 0,
    }
}

/// Returns the region one entry on, which is a reshaping.
fn recorded(made: Made) -> Result<Made, NoMemory>
    requires { made.applied < 2 ^ 62 }
    ensures { IfOk result (λ now. now ≡ reshaped made made.state) }
{
    let mut made = made;
    made.applied += 1;
    made.reshapings.push(made.applied)?;
    Ok(made)
}

fn is_prepared_for(target: u64, commit: u64, mode: Mode) -> bool
    ensures { result ≡ is_prepared_for target commit mode }
{
    match mode {
        Mode::Merging {
            target: own,
            commit: prepared,
        } => own == target && prepared == commit,
        _ => false,
    }
}

/// Puts the new regions.
#[tactic(auto, using(crate::proofs::Updates::with_last))]
fn put_all(
    alloc: Global,
    regions: &mut Regions,
    new: Rows<RegionState>,
    origin: Origin,
) -> Result<(), NoMemory>
    ensures { OnOk result (seen regions.new ≡ with_regions (seen regions.old) new origin) }
{
    let mut new = new;
    while let Some(state) = new.pop() {
        regions.put(state.region, born(alloc, state, origin))?;
    }
    Ok(())
}

/// Returns a region that has applied nothing yet.
pub fn born(alloc: Global, state: RegionState, origin: Origin) -> Made
    ensures { result ≡ born state origin }
{
    Made {
        state,
        applied: INIT_INDEX,
        origin,
        reshapings: Rows::new(alloc),
    }
}

/// Splits the region, and returns its version then.
fn split(
    regions: &mut Regions,
    id: u64,
    made: Made,
    side: Side,
    ids: &Rows<u64>,
    keys: &Rows<Key>,
) -> Result<u64, NoMemory>
    requires low { IsLow id made }
    requires lengths { length ids.now ≡ length keys.now }
    requires few { length keys.now ≤ 64 }
    requires good { first_bad_cut made.state.range keys.now ≡ None }
    ensures regions { OnOk result (seen regions.new ≡ with_regions (with_region (seen regions.old) id (reshaped made (split_kept made.state side keys.now))) (split_new made.state side ids.now keys.now) (origins.Split id (made.applied + 1))) }
    ensures version { IfOk result (λ version. version ≡ (split_kept made.state side keys.now).epoch.version) }
{
    let mut made = recorded(made)?;
    let new = made.state.exec_split(side, ids, keys)?;
    let version = made.state.epoch.version;
    let origin = Origin::Split {
        parent: id,
        index: made.applied,
    };
    regions.put(id, made)?;
    put_all(ids.allocator(), regions, new, origin)?;
    Ok(version)
}

/// Turns the region, and returns its version then.
fn turn(
    indexed: &IndexedStore<'_>,
    regions: &mut Regions,
    id: u64,
    made: Made,
    turn: Turn,
) -> Result<u64, NoMemory>
    requires low { IsLow id made }
    ensures regions { OnOk result (seen regions.new ≡ with_region (seen regions.old) id (reshaped made (turned_on indexed.now.id (made.applied + 1) turn made.state))) }
    ensures version { IfOk result (λ version. version ≡ (turned_on indexed.now.id (made.applied + 1) turn made.state).epoch.version) }
{
    let mut made = recorded(made)?;
    let store = indexed.store().id;
    made.state.turn_on(store, turn, made.applied)?;
    let version = made.state.epoch.version;
    regions.put(id, made)?;
    Ok(version)
}

/// The region takes over the source, which was taken out. Returns its version then.
fn join(
    regions: &mut Regions,
    id: u64,
    made: Made,
    source: u64,
    taken: Made,
) -> Result<u64, NoMemory>
    requires low { IsLow id made }
    requires source { taken.state.epoch.version < 2 ^ 62 }
    requires next { is_next_to made.state.range taken.state.range ≡ true }
    ensures regions { OnOk result (seen regions.new ≡ with_region (with_region (seen regions.old) source (as_merged taken id)) id (reshaped made (committed made.state taken.state))) }
    ensures version { IfOk result (λ version. version ≡ (committed made.state taken.state).epoch.version) }
{
    let mut made = recorded(made)?;
    let mut taken = taken;
    made.state.exec_commit(&mut taken.state)?;
    let version = made.state.epoch.version;
    regions.put(source, taken)?;
    regions.put(id, made)?;
    Ok(version)
}

fn may_join(indexed: &IndexedStore<'_>, id: u64, source: u64, commit: u64, taken: &Made) -> bool
    ensures { result ≡ (is_prepared_for id commit taken.now.state.mode && is_paused (own indexed.now source) taken.now.state) }
{
    is_prepared_for(id, commit, taken.state.mode) && is_paused(indexed, source, &taken.state)
}

/// The region commits a merge.
fn merge<'a>(
    indexed: &IndexedStore<'_>,
    regions: &mut Regions,
    id: u64,
    made: Made,
    source: u64,
    commit: u64,
) -> Result<Result<Effect<'a>, StepFault>, NoMemory>
    requires low { IsLow id made }
    requires all { IsAllLow (seen regions.old) }
    requires out { seen regions.old id ≡ None }
    requires merging { is_prepared_for id commit made.state.mode ≡ false }
    ensures { IfOk result (λ r. (b : Body) → commit_with indexed.now (bare (with_region (seen regions.old) id made)) id made b source commit (with_region (seen regions.old) id made source) ≡ came (seen regions.new) r) }
{
    let index = made.applied + 1;
    let Some(taken) = regions.take(source) else {
        return Ok(Err(StepFault::NotPrepared {
            region: id,
            index,
            source,
            commit,
        }));
    };
    if !may_join(indexed, id, source, commit, &taken) {
        return Ok(Err(StepFault::NotPrepared {
            region: id,
            index,
            source,
            commit,
        }));
    }
    if !made.state.range.is_next_to(&taken.state.range) {
        return Ok(Err(StepFault::NotNext {
            region: id,
            index,
            source,
            commit,
            target_range: made.state.range,
            source_range: taken.state.range,
        }));
    }
    let version = join(regions, id, made, source, taken)?;
    Ok(Ok(answered(id, index, version)))
}

/// The effect of the entry at the index, which reshaped its region.
fn answered<'a>(region: u64, index: u64, version: u64) -> Effect<'a>
    ensures { (f : ByRegion) → gained f result ≡ done f region index version }
{
    Effect {
        region,
        index,
        ops: &[],
        reply: Some(Reply::Done(version)),
    }
}

/// An accepted entry that reshapes the region, which was taken out.
#[tactic(auto, using(crate::proofs::Updates::put_over))]
fn accept<'a>(
    indexed: &IndexedStore<'_>,
    regions: &mut Regions,
    id: u64,
    made: Made,
    action: Action<'a>,
) -> Result<Result<Effect<'a>, StepFault>, NoMemory>
    requires low { IsLow id made }
    requires all { IsAllLow (seen regions.old) }
    requires out { seen regions.old id ≡ None }
    requires formed { IsFormed (body_for action) }
    requires good { IsGood made.state (body_for action) }
    requires reshapes { is_plain (body_for action) ≡ false }
    ensures { IfOk result (λ r. accept indexed.now (bare (with_region (seen regions.old) id made)) id made (body_for action.entry) ≡ came (seen regions.new) r) }
{
    let index = made.applied + 1;
    match action {
        Action::Nothing | Action::Writes(_) => unreachable!(),
        Action::Splits { side, ids, keys } => {
            let version = split(regions, id, made, side, ids, keys)?;
            Ok(Ok(answered(id, index, version)))
        }
        Action::Merges { source, commit, .. } => merge(indexed, regions, id, made, source, commit),
        Action::Turns(by) => {
            let version = turn(indexed, regions, id, made, by)?;
            Ok(Ok(answered(id, index, version)))
        }
    }
}

/// The effect of an entry that leaves its region as it is, but for the index.
fn passed_over<'a>(id: u64, made: &Made, next_entry: NextEntry<'a>) -> Result<Effect<'a>, NoMemory>
    requires { made.now.applied < 2 ^ 62 }
    ensures { IfOk result (λ t. (f : ByRegion) → gained f t ≡ passes_to f id made.now next_entry.entry.verdict (line_entry next_entry.entry.line).body) }
{
    let action = next_entry.line.action();
    Ok(Effect {
        region: id,
        index: made.applied + 1,
        ops: written(next_entry.verdict, action),
        reply: reply_to(next_entry.verdict, action, &made.state)?,
    })
}

/// What an entry with the verdict writes.
fn written<'a>(verdict: Verdict, action: Action<'a>) -> &'a [Op]
    ensures { result.now ≡ written verdict (body_for action.entry) }
{
    match verdict {
        Verdict::Accept => ops_in(action),
        _ => &[],
    }
}

/// Applies the region's next entry.
pub fn step<'a>(
    indexed: &IndexedStore<'_>,
    regions: &mut Regions,
    id: u64,
    next_entry: NextEntry<'a>,
) -> Result<Result<Effect<'a>, StepFault>, NoMemory>
    requires low { IsAllLow (seen regions.old) }
    requires next_entry { IsNextEntry indexed.now (seen regions.old) id next_entry }
    ensures { IfOk result (λ r. step indexed.now (bare (seen regions.old)) id ≡ came (seen regions.new) r) }
{
    let action = next_entry.line.action();
    if passes(next_entry.verdict, action) {
        let Some(made) = regions.get(id) else {
            unreachable!()
        };
        let effect = passed_over(id, made, next_entry)?;
        regions.pass(id);
        return Ok(Ok(effect));
    }
    let Some(made) = regions.take(id) else {
        unreachable!()
    };
    match next_entry.verdict {
        Verdict::Accept => accept(indexed, regions, id, made, action),
        _ => Ok(Err(StepFault::BadRollback {
            region: id,
            index: made.applied + 1,
            commit: commit_in(action),
            mode: made.state.mode,
        })),
    }
}
