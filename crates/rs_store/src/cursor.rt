ghost use Rattle.std.specs.Prelude.{◌≡◌, ℕ, ◌+◌, ◌<◌, ◌≤◌, ◌^◌, ◌==◌, Option, Some, None, IfOk, OnOk, IsSome, IfSome, IfNone, true, false, ◌&&◌, length, slice_index};
ghost use Rattle.rs_store.specs.Stores.{ids_of, after, is_ready, merge_of, own_next, stands, least_ready};
ghost use Rattle.rs_store.specs.Runs.{seen, bare, forget, told, line_entry, is_quiet, IsAllLow, IsFormedStore};
ghost use Rattle.rs_store.specs.Places.{known};
ghost use Rattle.rs_region.specs.Actions.{body_for};
ghost use Rattle.rs_store.specs.Cursor.{IsCalm, MayPass};
ghost use Rattle.rs_store.specs.Walks.{IsNextEntry};
ghost use Rattle.rs_store.specs.Carriers.{carriers, standing_for};

use crate::carriers::Carriers;
use crate::indexed_store::IndexedStore;
use crate::next_entry::{NextEntry, passes};
use crate::place_map::PlaceMap;
use crate::readiness::{is_accept, is_ready, merge_of, own_next, stands};
use crate::regions::Regions;
use rs_entry::Entry;
use rs_region::{Action, RegionState};

fn is_quiet(action: Action<'_>) -> bool
    ensures { result ≡ is_quiet (body_for action.entry) }
{
    match action {
        Action::Nothing | Action::Writes(_) | Action::Turns(_) => true,
        Action::Splits { .. } | Action::Merges { .. } => false,
    }
}

/// Returns whether the region's next step can change nothing for others.
pub fn is_calm(
    indexed: &IndexedStore<'_>,
    awaited: &PlaceMap,
    regions: &Regions,
    id: u64,
    next_entry: NextEntry<'_>,
) -> bool
    requires next_entry { IsNextEntry indexed.now (seen regions.now) id next_entry }
    requires low { IsAllLow (seen regions.now) }
    ensures { result ≡ true → IsCalm indexed.now (known awaited.now) (seen regions.now) id }
{
    if stands(indexed, regions, id).is_some() {
        return false;
    }
    let Some(made) = regions.get(id) else {
        return false;
    };
    if awaited.get(id, made.applied + 1).is_some() {
        return false;
    }
    is_quiet(next_entry.line.action()) || !is_accept(next_entry.verdict)
}

/// Returns whether the region's next entry, one of its own log, is passed without a change for others.
pub fn may_pass(
    indexed: &IndexedStore<'_>,
    awaited: &PlaceMap,
    regions: &Regions,
    id: u64,
    next_entry: NextEntry<'_>,
) -> bool
    requires next_entry { IsNextEntry indexed.now (seen regions.now) id next_entry }
    requires low { IsAllLow (seen regions.now) }
    ensures { result ≡ true → MayPass indexed.now (known awaited.now) (seen regions.now) id }
{
    let Some(made) = regions.get(id) else {
        return false;
    };
    let log = indexed.own(id);
    if own_next(log, made.applied).is_none() {
        return false;
    }
    if !passes(next_entry.verdict, next_entry.line.action()) {
        return false;
    }
    if awaited.get(id, made.applied + 1).is_some() {
        return false;
    }
    has_no_merge(&made.state, log, made.applied + 1)
}

/// Returns whether the entry that follows the index is no commit that is accepted.
fn has_no_merge(state: &RegionState, log: &[Entry], applied: u64) -> bool
    ensures { result ≡ true → merge_of state.now (own_next log.now applied) ≡ None }
{
    match own_next(log, applied) {
        None => true,
        Some(entry) => merge_of(state, entry).is_none(),
    }
}

/// Returns whether the cursor may stay.
pub fn may_stay(calm: bool, lone: bool) -> bool
    ensures { result ≡ (calm && lone) }
{
    calm && lone
}

/// Returns the place of the first region that is ready, from the cursor on.
pub fn ready_from(
    indexed: &IndexedStore<'_>,
    standing: &Carriers,
    ids: &[u64],
    regions: &Regions,
    cursor: usize,
) -> Option<usize>
    requires ids { ids.now ≡ ids_of indexed.now }
    requires standing { carriers standing.now ≡ standing_for indexed.now (bare (seen regions.now)) (ids_of indexed.now) }
    requires low { IsAllLow (seen regions.now) }
    requires before { (k : ℕ) → k < cursor → k < length ids.now → is_ready indexed.now (bare (seen regions.now)) (slice_index ids.now k) ≡ false }
    ensures none { IfNone result (least_ready indexed.now (bare (seen regions.now)) ≡ None) }
    ensures first { IfSome result (λ at. least_ready indexed.now (bare (seen regions.now)) ≡ Some (slice_index ids.now at)) }
    ensures within { IfSome result (λ at. at < length ids.now) }
    ensures ready { IfSome result (λ at. is_ready indexed.now (bare (seen regions.now)) (slice_index ids.now at) ≡ true) }
    ensures others { IfSome result (λ at. (k : ℕ) → k < at → is_ready indexed.now (bare (seen regions.now)) (slice_index ids.now k) ≡ false) }
{
    for at in cursor..ids.len() {
        if is_ready(indexed, standing, regions, ids[at]) {
            return Some(at);
        }
    }
    None
}
