ghost use Rattle.std.specs.Prelude.{◌≡◌, ◌++◌, ◌∷◌, [], true, false, Some, None, OnOk, IfOk, MatchOption};
ghost use Rattle.std.specs.List.{All};
ghost use Rattle.rs_key.specs.Ranges.{is_next_to, meets};
ghost use Rattle.rs_entry.specs.declared.entry.Body.TheVariants as body;
ghost use Rattle.rs_region.specs.Verdicts.{verdict};
ghost use Rattle.rs_region.specs.declared.verdict.Verdict.TheVariants as verdicts;
ghost use Rattle.rs_store.specs.Runs.{line_entry};
ghost use Rattle.rs_msg.specs.Maps.{HasItems, LiesIn, items_at, items_of_both};
ghost use Rattle.rs_check.specs.Lawfulness.{PlanLaws};
ghost use Rattle.rs_check.specs.Plans.{address_of};
ghost use Rattle.rs_check.specs.Values.{region_of};
ghost use Rattle.rs_msg.specs.Held.{IsHeld};
ghost use Rattle.rs_apply.specs.Merges.{unheld, IsWithout, merge_results};
ghost use Rattle.rs_apply.specs.Steps.{IsNext};

use crate::next::Next;
use crate::sources::take_closed;
use rs_entry::{Carried, Reply};
use rs_key::{Key, NoMemory, Range, Rows, TryClone};
use rs_msg::{Closed, Map, PeerMsg};
use rs_region::RegionState;
use std::mem;

/// Applies an accepted commit whose source has handed over, and tells the source's peer.
pub fn merge<'p>(
    next: Next<'p>,
    state: &mut RegionState,
    map: &mut Map<'p>,
    merge: (u64, u64),
    carried: &Rows<Carried>,
    closed: &mut Vec<Closed<'p>>,
    peers: &mut Rows<(u32, PeerMsg<'p>)>,
) -> Result<Reply, NoMemory>
    requires laws { PlanLaws next.plan.now }
    requires held { IsHeld next.plan.now next.address next.index state.old map.old }
    requires accept { verdict state.old (line_entry next.line) ≡ verdicts.Accept }
    requires body { (line_entry next.line).body ≡ body.Commit merge.0 merge.1 carried.now }
    requires plans { All (λ x. x.plan.now ≡ next.plan.now) closed.old.items }
    requires ready { unheld next.plan.now next.address closed.old.items (Some merge) ≡ None }
    ensures next { IfOk result (λ r. IsNext next.entry.plan.now next.entry.address next.entry.index state.new map.new (r ∷ [])) }
    ensures plans { OnOk result (All (λ x. x.plan.now ≡ next.entry.plan.now) closed.new.items) }
    ensures closed { OnOk result (IsWithout next.entry.plan.now next.entry.address (Some merge) closed.old.items closed.new.items) }
    ensures peers { OnOk result (peers.new ≡ peers.old ++ merge_results next.entry.plan next.entry.address (Some merge)) }
{
    let (store, target) = next.plan.address(next.address);
    let Some(place) = next.plan.find(store, merge.0) else {
        unreachable!()
    };
    let Some(source) = take_closed(closed, place, merge.1) else {
        unreachable!()
    };
    let plan = next.plan;
    peers.push((place, PeerMsg::MergeResult { plan, target }))?;
    commit(next, state, map, source, carried)
}

/// Joins what the source has handed over.
fn commit<'p>(
    next: Next<'p>,
    state: &mut RegionState,
    map: &mut Map<'p>,
    source: Closed<'p>,
    carried: &Rows<Carried>,
) -> Result<Reply, NoMemory>
    requires laws { PlanLaws next.plan.now }
    requires held { IsHeld next.plan.now next.address next.index state.old map.old }
    requires accept { verdict state.old (line_entry next.line) ≡ verdicts.Accept }
    requires plan { source.plan.now ≡ next.plan.now }
    requires store { (address_of next.plan.now source.address).0 ≡ (address_of next.plan.now next.address).0 }
    requires body { (line_entry next.line).body ≡ body.Commit (region_of next.plan.now source.address) source.commit carried.now }
    ensures { IfOk result (λ r. IsNext next.entry.plan.now next.entry.address next.entry.index state.new map.new (r ∷ [])) }
{
    let (mut state_there, items) = source.take();
    let whole = mem::replace(map, Map::new(carried.allocator()));
    let both = join(&state.range, whole, &state_there.range, items)?;
    let _empty = mem::replace(map, both);
    state.exec_commit(&mut state_there)?;
    Ok(Reply::Done(state.epoch.version))
}

/// Returns the map of both ranges, which lie side by side.
fn join<'p>(range: &Range, map: Map<'p>, other: &Range, items: Map<'p>) -> Result<Map<'p>, NoMemory>
    requires next { is_next_to range.now other.now ≡ true }
    requires map { LiesIn range.now map }
    requires items { LiesIn other.now items }
    ensures { IfOk result (λ both. HasItems both (items_of_both (items_at map.entry) (items_at items.entry))) }
{
    if let Some(at) = border(range, other) {
        return Map::join(map, at.try_clone()?, items);
    }
    if let Some(at) = border(other, range) {
        return Map::join(items, at.try_clone()?, map);
    }
    unreachable!()
}

/// Returns the key at which the left range ends and the right one begins; `None` exactly where the ranges don't touch.
fn border<'r>(left: &'r Range, right: &Range) -> Option<&'r Key>
    ensures { MatchOption result (meets left.now.end right.now.start ≡ false) (λ at. (left.now.end ≡ Some at.now) × (right.now.start ≡ Some at.now)) }
{
    match (left.end(), right.start()) {
        (Some(end), Some(start)) if end == start => Some(end),
        _ => None,
    }
}
