ghost use Rattle.std.specs.Prelude.{◌≡◌, ◌≤◌, ◌∷◌, [], length, OnOk, IfOk, MatchOption};
ghost use Rattle.rs_entry.specs.declared.entry.Body.TheVariants as body;
ghost use Rattle.rs_region.specs.Reshapings.{split_new};
ghost use Rattle.rs_region.specs.Verdicts.{verdict};
ghost use Rattle.rs_region.specs.declared.verdict.Verdict.TheVariants as verdicts;
ghost use Rattle.rs_store.specs.Runs.{line_entry};
ghost use Rattle.rs_check.specs.Lawfulness.{PlanLaws};
ghost use Rattle.rs_msg.specs.Held.{IsHeld};
ghost use Rattle.rs_apply.specs.Births.{AddsBirths, AreBorn, IsBorn, IsKeeping};
ghost use Rattle.rs_apply.specs.Steps.{IsNext};

use crate::next::Next;
use rs_entry::{Reply, Side};
use rs_key::{Key, NoMemory, Rows};
use rs_msg::{ApplyMsg, Map, Piece};
use rs_region::RegionState;
use std::mem;

/// Applies an accepted split, and sends the new regions to their machines.
pub fn split<'p>(
    next: Next<'p>,
    state: &mut RegionState,
    map: &mut Map<'p>,
    side: Side,
    ids: &Rows<u64>,
    keys: &Rows<Key>,
    applies: &mut Rows<(u32, ApplyMsg<'p>)>,
) -> Result<Reply, NoMemory>
    requires laws { PlanLaws next.plan.now }
    requires held { IsHeld next.plan.now next.address next.index state.old map.old }
    requires accept { verdict state.old (line_entry next.line) ≡ verdicts.Accept }
    requires body { (line_entry next.line).body ≡ body.Split side ids.now keys.now }
    requires few { length keys.now ≤ 64 }
    ensures next { IfOk result (λ r. IsNext next.entry.plan.now next.entry.address next.entry.index state.new map.new (r ∷ [])) }
    ensures births { OnOk result (AddsBirths next.entry.plan.now next.entry.address (split_new state.old side ids.now keys.now) applies.old applies.new) }
{
    let whole = mem::replace(map, Map::new(keys.allocator()));
    let parts = whole.cut(keys.allocator(), keys)?;
    let states = state.exec_split(side, ids, keys)?;
    let Some((kept, rest)) = keep(side, parts) else {
        unreachable!()
    };
    let _empty = mem::replace(map, kept);
    send_all(next, states, rest, applies)?;
    Ok(Reply::Done(state.epoch.version))
}

/// Returns the map that the split region keeps, and the others.
fn keep<'p>(side: Side, parts: Vec<Map<'p>>) -> Option<(Map<'p>, Vec<Map<'p>>)>
    ensures { MatchOption result (parts.entry.items ≡ []) (λ r. IsKeeping side parts.entry.items r.0 r.1.items) }
{
    let mut rest = parts;
    match side {
        Side::Right => match rest.pop() {
            None => None,
            Some(kept) => Some((kept, rest)),
        },
        Side::Left => {
            if rest.is_empty() {
                None
            } else {
                let kept = rest.remove(0);
                Some((kept, rest))
            }
        }
    }
}

/// Sends each new region to its machine.
fn send_all<'p>(
    next: Next<'p>,
    states: Rows<RegionState>,
    maps: Vec<Map<'p>>,
    applies: &mut Rows<(u32, ApplyMsg<'p>)>,
) -> Result<(), NoMemory>
    requires born { AreBorn next.plan.now next.address states maps.items }
    ensures { OnOk result (AddsBirths next.entry.plan.now next.entry.address states applies.old applies.new) }
{
    let mut maps = maps.into_iter();
    for state in states.into_vec() {
        send(next, state, maps.next(), applies)?;
    }
    Ok(())
}

fn send<'p>(
    next: Next<'p>,
    state: RegionState,
    map: Option<Map<'p>>,
    applies: &mut Rows<(u32, ApplyMsg<'p>)>,
) -> Result<(), NoMemory>
    requires born { IsBorn next.plan.now next.address state map }
    ensures { OnOk result (AddsBirths next.entry.plan.now next.entry.address (state ∷ []) applies.old applies.new) }
{
    let Some(map) = map else { unreachable!() };
    let (store, _) = next.plan.address(next.address);
    let Some(place) = next.plan.find(store, state.region) else {
        unreachable!()
    };
    let piece = Box::new(
        applies.allocator(),
        Piece::new(next.plan, place, state, map),
    )?;
    applies.push((place, ApplyMsg::Birth { piece }))
}
