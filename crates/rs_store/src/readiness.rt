ghost use Rattle.std.specs.Prelude.{◌≡◌, ℕ, ◌+◌, ◌<◌, ◌≤◌, ◌^◌, ◌==◌, Option, Some, None, IfOk, IfSome, OnOk, slice_get, map, true};
ghost use Rattle.std.specs.List.{find};
ghost use Rattle.std.specs.Option.{option_copied, option_map};
ghost use Rattle.rs_entry.specs.Entries.{entry_of};
ghost use Rattle.rs_store.specs.Stores.{own, ids_of, is_paused, goes_on, merge_of, merge_in, own_next, stands, entry_at, carried_at, carried_next, next, has_applied, is_ready, least_ready, step, is_accept};
ghost use Rattle.rs_store.specs.Runs.{seen, bare, forget, told, next_in, IsLow, IsAllLow, IsFormed, IsFormedStore, line_entry};
ghost use Rattle.rs_store.specs.Carriers.{carriers, standing_for};

use crate::carriers::Carriers;
use crate::indexed_store::IndexedStore;
use crate::regions::{Made, Regions};
use rs_entry::{Body, Carried, Entry, INIT_INDEX, Mode};
use rs_key::{NoMemory, Rows};
use rs_region::{Action, Line, RegionState, Verdict, action_of};
use std::marker::Model;

/// The merge before which a region stands.
#[derive(Drop)]
pub struct Standing<'a> {
    pub source: u64,
    pub commit: u64,
    pub carried: &'a Rows<Carried>,
}

impl<'a> Model for Standing<'a> {
    ghost use Rattle.rs_store.specs.Stores.{Merge};

    ghost Value = { Merge };

    ghost view = { λ s. record { source = s.source; commit = s.commit; carried = s.carried.now } };
}

/// Returns whether the region has prepared a merge and its log has no rollback that fits.
pub fn is_paused(indexed: &IndexedStore<'_>, id: u64, state: &RegionState) -> bool
    ensures { result ≡ is_paused (own indexed.now id) state.now }
{
    match state.mode {
        Mode::Merging { commit, .. } => !indexed.has_rollback(id, commit, &state.epoch),
        _ => false,
    }
}

fn goes_on(indexed: &IndexedStore<'_>, id: u64, state: &RegionState) -> bool
    ensures { result ≡ goes_on (own indexed.now id) state.now }
{
    match state.mode {
        Mode::Merged { .. } | Mode::Removed => false,
        _ => !is_paused(indexed, id, state),
    }
}

/// Looks for the rollback of the region's merge, where it is merging, so that it needn't be looked for again.
pub fn look(indexed: &mut IndexedStore<'_>, regions: &Regions, id: u64) -> Result<(), NoMemory>
    ensures { indexed.new ≡ indexed.old }
{
    let Some(made) = regions.get(id) else {
        return Ok(());
    };
    match made.state.mode {
        Mode::Merging { commit, .. } => indexed.look(id, commit, &made.state.epoch),
        _ => Ok(()),
    }
}

/// Returns whether the entry is applied.
pub fn is_accept(verdict: Verdict) -> bool
    ensures { result ≡ is_accept verdict }
{
    match verdict {
        Verdict::Accept => true,
        _ => false,
    }
}

fn merge_in(body: &Body) -> Option<Standing<'_>>
    ensures { result ≡ merge_in body.now }
{
    match action_of(body) {
        Action::Merges {
            source,
            commit,
            carried,
        } => Some(Standing {
            source,
            commit,
            carried,
        }),
        _ => None,
    }
}

/// Returns the merge of the entry, where it is a commit that the region accepts.
#[tactic(auto, using(crate::proofs::Verdicts::no_merge_of))]
pub fn merge_of<'a>(state: &RegionState, entry: &'a Entry) -> Option<Standing<'a>>
    ensures { result ≡ merge_of state.now (Some entry.now) }
{
    let Some(merge) = merge_in(&entry.body) else {
        return None;
    };
    if !is_accept(state.verdict(entry)) {
        return None;
    }
    Some(merge)
}

/// Returns the log's entry after the applied index; `None` at its end.
pub fn own_next(log: &[Entry], applied: u64) -> Option<&Entry>
    ensures { option_copied result ≡ own_next log.now applied }
{
    log.get(applied.saturating_sub(INIT_INDEX) as usize)
}

/// Returns the merge that the region stands before.
pub fn stands<'a>(indexed: &IndexedStore<'a>, regions: &Regions, id: u64) -> Option<Standing<'a>>
    ensures { result ≡ stands indexed.now (bare (seen regions.now)) id }
{
    let Some(made) = regions.get(id) else {
        return None;
    };
    if !goes_on(indexed, id, &made.state) {
        return None;
    }
    match own_next(indexed.own(id), made.applied) {
        None => None,
        Some(entry) => merge_of(&made.state, entry),
    }
}

/// Returns the carried entry with this index; `None` if there is none.
pub fn find_carried(carried: &[Carried], index: u64) -> Option<&Carried>
    ensures { option_copied result ≡ find (λ c. c.index == index) carried.now }
{
    for c in carried {
        if c.index == index {
            return Some(c);
        }
    }
    None
}

fn carried_at<'a>(
    indexed: &IndexedStore<'a>,
    regions: &Regions,
    t: u64,
    id: u64,
    index: u64,
) -> Option<&'a Carried>
    ensures { entry_at (option_copied result) ≡ carried_at id index (stands indexed.now (bare (seen regions.now)) t) }
{
    let Some(merge) = stands(indexed, regions, t) else {
        return None;
    };
    if merge.source != id {
        return None;
    }
    find_carried(merge.carried.as_slice(), index)
}

fn carried_next<'a>(
    indexed: &IndexedStore<'a>,
    ids: &[u64],
    regions: &Regions,
    id: u64,
    index: u64,
) -> Option<&'a Carried>
    ensures { entry_at (option_copied result) ≡ carried_next indexed.now (bare (seen regions.now)) ids.now id index }
{
    for t in ids {
        if let Some(c) = carried_at(indexed, regions, *t, id, index) {
            return Some(c);
        }
    }
    None
}

/// Returns what is carried for the region at the index.
fn carried_for<'a>(
    indexed: &IndexedStore<'a>,
    standing: &Carriers,
    regions: &Regions,
    id: u64,
    index: u64,
) -> Option<&'a Carried>
    requires { carriers standing.now ≡ standing_for indexed.now (bare (seen regions.now)) (ids_of indexed.now) }
    ensures { entry_at (option_copied result) ≡ carried_next indexed.now (bare (seen regions.now)) (ids_of indexed.now) id index }
{
    carried_next(indexed, standing.get(id), regions, id, index)
}

/// Returns the region's next entry, if the region's own log or a commit has it.
#[tactic(auto, using(crate::proofs::Verdicts::formed_carried))]
pub fn next<'a>(
    indexed: &IndexedStore<'a>,
    standing: &Carriers,
    regions: &Regions,
    id: u64,
    made: &Made,
) -> Option<Line<'a>>
    requires standing { carriers standing.now ≡ standing_for indexed.now (bare (seen regions.now)) (ids_of indexed.now) }
    requires low { made.now.applied < 2 ^ 62 }
    ensures value { option_map line_entry result ≡ next indexed.now (bare (seen regions.now)) id made.now }
    ensures formed { IsFormedStore indexed.now → IfSome result (λ line. IsFormed (line_entry line).body) }
{
    if let Some(entry) = own_next(indexed.own(id), made.applied) {
        return Some(Line::Own(entry));
    }
    match carried_for(indexed, standing, regions, id, made.applied + 1) {
        None => None,
        Some(c) => Some(Line::Carried(c)),
    }
}

fn has_applied(regions: &Regions, id: u64, commit: u64) -> bool
    ensures { result ≡ has_applied commit (seen regions.now id) }
{
    match regions.get(id) {
        None => false,
        Some(made) => commit <= made.applied,
    }
}

/// Returns whether the region can apply its next entry: it goes on, has one, and a merge's source is there.
pub fn is_ready(indexed: &IndexedStore<'_>, standing: &Carriers, regions: &Regions, id: u64) -> bool
    requires standing { carriers standing.now ≡ standing_for indexed.now (bare (seen regions.now)) (ids_of indexed.now) }
    requires low { IsAllLow (seen regions.now) }
    ensures { result ≡ is_ready indexed.now (bare (seen regions.now)) id }
{
    let Some(made) = regions.get(id) else {
        return false;
    };
    if !goes_on(indexed, id, &made.state) {
        return false;
    }
    match next(indexed, standing, regions, id, made) {
        None => false,
        Some(Line::Carried(_)) => true,
        Some(Line::Own(entry)) => match merge_of(&made.state, entry) {
            None => true,
            Some(merge) => has_applied(regions, merge.source, merge.commit),
        },
    }
}
