//! A store's outcome, read off the table of all its reshapings and the endings of its addresses.

ghost use Rattle.std.specs.Prelude.{◌≡◌, ◌<◌, ◌++◌, [], All, map, length, slice_get, unwrap_or, IfOk, OnOk, Some};
ghost use Rattle.std.specs.List.{flat_map};
ghost use Rattle.std.specs.Option.{option_map};
ghost use Rattle.rs_history.specs.Outcomes.{store_outcome};
ghost use Rattle.rs_check.specs.Plans.{ends_of};
ghost use Rattle.rs_table.specs.Cuts.{IsFull};
ghost use Rattle.rs_table.specs.Rows.{with_mode};
ghost use Rattle.rs_table.specs.Views.{cut_of, input_of, place_of};
ghost use Rattle.rs_meta.specs.Readings.{AreEndings, IsEndingOn, line_of, writes_left};

use crate::store_addresses::id_of;
use rs_check::Plan;
use rs_entry::{RegionLine, ReplyLine, StoreOutcome};
use rs_history::{Writes, pairs_of};
use rs_key::{NoMemory, Rows, TryClone};
use rs_msg::{Ending, Map};
use rs_region::RegionState;
use rs_table::StoreTable;
use std::alloc::Global;

/// The replies of all endings, and the writes of their maps.
#[derive(Drop)]
struct Reading<'p> {
    replies: Rows<ReplyLine>,
    writes: Writes<'p>,
}

/// Returns the outcome of the store whose table has all its reshapings.
pub fn read_off<'p>(
    alloc: Global,
    plan: &'p Plan,
    table: &StoreTable<'p>,
    endings: Vec<Ending<'p>>,
) -> Result<StoreOutcome, NoMemory>
    requires plan { input_of table.now ≡ plan.now }
    requires place { place_of table.now < length plan.now.stores }
    requires full { IsFull plan.now (place_of table.now) (cut_of table.now) }
    requires endings { AreEndings plan.now (place_of table.now) endings.items }
    ensures { IfOk result (λ outcome. option_map store_outcome (slice_get plan.now.stores (place_of table.now)) ≡ Some outcome) }
{
    let _input = plan.input();
    let id = id_of(plan, table.place());
    let regions = lines_of(alloc, plan, table, endings.as_slice())?;
    let reading = read_all(alloc, endings)?;
    let histories = reading.writes.into_histories(alloc)?;
    Ok(StoreOutcome {
        id,
        regions,
        replies: reading.replies,
        pairs: pairs_of(alloc, &histories)?,
        histories,
    })
}

fn read_all<'p>(alloc: Global, endings: Vec<Ending<'p>>) -> Result<Reading<'p>, NoMemory>
    ensures replies { IfOk result (λ reading. reading.replies ≡ flat_map (λ e. e.replies) endings.entry.items) }
    ensures writes { IfOk result (λ reading. reading.writes ≡ flat_map writes_left endings.entry.items) }
{
    let mut replies = Rows::new(alloc);
    let mut writes = Writes::new(alloc);
    for ending in endings {
        let (_, more, left) = ending.take();
        append(&mut replies, more)?;
        take_over(&mut writes, left)?;
    }
    Ok(Reading { replies, writes })
}

/// Returns the lines of the regions that have left the endings.
fn lines_of(
    alloc: Global,
    plan: &Plan,
    table: &StoreTable<'_>,
    endings: &[Ending<'_>],
) -> Result<Rows<RegionLine>, NoMemory>
    requires plan { input_of table.now ≡ plan.now }
    requires full { IsFull plan.now (place_of table.now) (cut_of table.now) }
    requires of { All (IsEndingOn plan.now (place_of table.now)) endings.now }
    ensures { IfOk result (λ lines. lines ≡ map (line_of plan.now) endings.now) }
{
    let mut lines = Rows::with_room(alloc, endings.len());
    for ending in endings {
        lines.push(line_of(plan, table, ending)?)?;
    }
    Ok(lines)
}

/// Returns the line of the region that has left the ending: epoch, range, mode and peers are those of the table.
fn line_of(plan: &Plan, table: &StoreTable<'_>, ending: &Ending<'_>) -> Result<RegionLine, NoMemory>
    requires plan { input_of table.now ≡ plan.now }
    requires full { IsFull plan.now (place_of table.now) (cut_of table.now) }
    requires of { IsEndingOn plan.now (place_of table.now) ending.now }
    ensures { IfOk result (λ line. line ≡ line_of plan.now ending.now) }
{
    let address = ending.address();
    plan.laws();
    let state = final_state(table, ending);
    let applied = plan.stop(address);
    Ok(RegionLine {
        region: state.region,
        epoch: state.epoch,
        range: state.range.try_clone()?,
        mode: state.mode,
        applied,
        left: plan.own(address).saturating_sub(applied - 5),
        peers: state.peers.try_clone()?,
    })
}

/// Returns what the table says of the region that has left the ending.
#[tactic(auto, using(crate::proofs::FinalStates::final_is))]
fn final_state<'a>(table: &'a StoreTable<'_>, ending: &Ending<'_>) -> &'a RegionState
    requires full { IsFull (input_of table.now) (place_of table.now) (cut_of table.now) }
    requires of { IsEndingOn (input_of table.now) (place_of table.now) ending.now }
    ensures { result.now ≡ with_mode (ends_of (input_of table.now) ending.now.address) ending.now.state }
{
    let Some(state) = table.state(ending.address()) else {
        unreachable!()
    };
    state
}

/// Takes over the writes of the map, if there is one.
fn take_over<'p>(writes: &mut Writes<'p>, left: Option<Map<'p>>) -> Result<(), NoMemory>
    ensures { OnOk result (writes.new ≡ writes.old ++ unwrap_or left.entry []) }
{
    match left {
        None => Ok(()),
        Some(map) => writes.append(map.into_writes()?),
    }
}

fn append(replies: &mut Rows<ReplyLine>, more: Rows<ReplyLine>) -> Result<(), NoMemory>
    ensures { OnOk result (replies.new ≡ replies.old ++ more) }
{
    for reply in more.into_vec() {
        replies.push(reply)?;
    }
    Ok(())
}
