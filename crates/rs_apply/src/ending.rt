//! What a region leaves at its stop.

ghost use Rattle.std.specs.Prelude.{◌≡◌, ◌-◌, ◌<◌, List, Some, OnOk, IfOk};
ghost use Rattle.std.specs.Option.{is_some};
ghost use Rattle.rs_entry.specs.declared.outcome.Mode.TheVariants as modes;
ghost use Rattle.rs_msg.specs.Maps.{Writes};
ghost use Rattle.rs_check.specs.Lawfulness.{PlanLaws};
ghost use Rattle.rs_check.specs.Plans.{stop_of, ends_of};
ghost use Rattle.rs_check.specs.Values.{count_of, replies_to};
ghost use Rattle.rs_msg.specs.Held.{IsEnding, IsHeld, leaves_map};
ghost use Rattle.rs_apply.specs.Machines.{AddsEnding, AddsHandover, HandsOver};
ghost use Rattle.rs_apply.specs.Merges.{merges_from};

use crate::region::Region;
use rs_check::Plan;
use rs_entry::{Mode, ReplyLine};
use rs_key::{NoMemory, Rows, TryClone};
use rs_msg::{ApplyMsg, Closed, Ending, Map, Outbox, StoreMsg};
use rs_region::RegionState;

/// Sends what the region leaves, and gives the merges that it has committed.
pub fn finish<'p>(region: Region<'p>, out: &mut Outbox<'p>) -> Result<Rows<(u64, u64)>, NoMemory>
    requires laws { PlanLaws region.plan.now }
    requires stop { region.index ≡ stop_of region.plan.now region.address }
    ensures merged { IfOk result (λ merged. merged ≡ merges_from region.entry.plan.now region.entry.address 5 (stop_of region.entry.plan.now region.entry.address - 5)) }
    ensures peers { OnOk result (out.new.peers ≡ out.old.peers) }
    ensures applies { OnOk result (HandsOver region.entry.plan.now region.entry.address (ends_of region.entry.plan.now region.entry.address) out.old.applies out.new.applies) }
    ensures stores { OnOk result (AddsEnding region.entry.plan.now region.entry.address out.old.stores out.new.stores) }
{
    let Region {
        plan,
        address,
        state,
        map,
        replies,
        merged,
        ..
    } = region;
    let left = leave(plan, address, &state, map, &mut out.applies)?;
    let ending = Ending::new(plan, address, state, replies, left);
    let ending = Box::new(out.stores.allocator(), ending)?;
    out.stores
        .push((plan.place(address), StoreMsg::Ended { ending }))?;
    Ok(merged)
}

/// Returns the map that is left to the region at its stop. That of a region that is merged goes to its target.
fn leave<'p>(
    plan: &'p Plan,
    address: u32,
    state: &RegionState,
    map: Map<'p>,
    applies: &mut Rows<(u32, ApplyMsg<'p>)>,
) -> Result<Option<Map<'p>>, NoMemory>
    requires laws { PlanLaws plan.now }
    requires below { address < count_of plan.now }
    requires held { IsHeld plan.now address (stop_of plan.now address) state.now map }
    ensures there { IfOk result (λ left. is_some left ≡ leaves_map (ends_of plan.now address)) }
    ensures same { IfOk result (λ left. (m : Writes) → left ≡ Some m → m ≡ map.entry) }
    ensures applies { OnOk result (HandsOver plan.now address (ends_of plan.now address) applies.old applies.new) }
{
    match plan.ends(address) {
        Mode::Merged { target } => {
            hand_over(plan, address, target, state.try_clone()?, map, applies)?;
            Ok(None)
        }
        Mode::Removed => Ok(None),
        Mode::Normal | Mode::Merging { .. } => Ok(Some(map)),
    }
}

fn hand_over<'p>(
    plan: &'p Plan,
    address: u32,
    target: u64,
    state: RegionState,
    map: Map<'p>,
    applies: &mut Rows<(u32, ApplyMsg<'p>)>,
) -> Result<(), NoMemory>
    requires laws { PlanLaws plan.now }
    requires below { address < count_of plan.now }
    requires ends { ends_of plan.now address ≡ modes.Merged target }
    requires held { IsHeld plan.now address (stop_of plan.now address) state map }
    ensures { OnOk result (AddsHandover plan.now address target applies.old applies.new) }
{
    let (store, _) = plan.address(address);
    let Some(place) = plan.find(store, target) else {
        unreachable!()
    };
    let closed = Closed::new(plan, address, target, plan.stop(address), state, map);
    let closed = Box::new(applies.allocator(), closed)?;
    applies.push((place, ApplyMsg::SourceDone { closed }))
}
