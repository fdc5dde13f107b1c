//! What an accepted entry makes of regions.

ghost use Rattle.std.specs.Prelude.{◌≡◌, ◌<◌, ◌≤◌, ◌^◌, ◌∷◌, [], true, None, length, IfOk};
ghost use Rattle.rs_key.specs.Ranges.{first_bad_cut};
ghost use Rattle.rs_region.specs.Actions.{body_for, line_entry, turn_body};
ghost use Rattle.rs_region.specs.Reshapings.{split_kept, split_new};
ghost use Rattle.rs_entry.specs.declared.entry.Body.TheVariants as body;
ghost use Rattle.rs_table.specs.Changes.{changes, joined};
ghost use Rattle.rs_table.specs.Moves.{IsReady, IsSmall, MayChange};
ghost use Rattle.rs_table.specs.Rows.{state_of};

use crate::place::find;
use rs_check::Line;
use rs_entry::Side;
use rs_key::{Key, NoMemory, Rows, TryClone};
use rs_region::{Action, RegionState, Turn};

/// Returns the states that the entry leaves of the region and of those that it makes or merges.
pub fn changed(
    store: u64,
    index: u64,
    rows: &[RegionState],
    state: &RegionState,
    line: Line<'_>,
) -> Result<Rows<RegionState>, NoMemory>
    requires small { IsSmall state.now }
    requires may { MayChange rows.now state.now (line_entry line).body }
    ensures { IfOk result (λ states. states ≡ changes store index rows.now state.now (line_entry line.entry).body) }
{
    changed_by(store, index, rows, state, line.action())
}

fn changed_by(
    store: u64,
    index: u64,
    rows: &[RegionState],
    state: &RegionState,
    action: Action<'_>,
) -> Result<Rows<RegionState>, NoMemory>
    requires small { IsSmall state.now }
    requires may { MayChange rows.now state.now (body_for action) }
    ensures { IfOk result (λ states. states ≡ changes store index rows.now state.now (body_for action.entry)) }
{
    match action {
        Action::Nothing | Action::Writes(_) => Ok(Rows::new(state.peers.allocator())),
        Action::Splits { side, ids, keys } => split(state, side, ids, keys),
        Action::Merges { source, .. } => joined(rows, state, source),
        Action::Turns(turn) => turned(store, index, rows, state, turn),
    }
}

fn one(state: RegionState) -> Result<Rows<RegionState>, NoMemory>
    ensures { IfOk result (λ states. states ≡ state ∷ []) }
{
    let mut states = Rows::new(state.peers.allocator());
    states.push(state)?;
    Ok(states)
}

fn split(
    state: &RegionState,
    side: Side,
    ids: &Rows<u64>,
    keys: &Rows<Key>,
) -> Result<Rows<RegionState>, NoMemory>
    requires small { IsSmall state.now }
    requires lengths { length ids.now ≡ length keys.now }
    requires few { length keys.now ≤ 64 }
    requires good { first_bad_cut state.now.range keys.now ≡ None }
    ensures { IfOk result (λ states. states ≡ split_kept state.now side keys.now ∷ split_new state.now side ids.now keys.now) }
{
    let mut kept = state.try_clone()?;
    let mut states = kept.exec_split(side, ids, keys)?.into_vec();
    states.insert(0, kept)?;
    Ok(Rows::from_vec(states))
}

/// Returns the target, and the source that it takes over.
fn joined(
    rows: &[RegionState],
    state: &RegionState,
    source: u64,
) -> Result<Rows<RegionState>, NoMemory>
    requires small { IsSmall state.now }
    requires may { MayChange rows.now state.now (body.Commit source 0 []) }
    ensures { IfOk result (λ states. states ≡ joined state.now (state_of rows.now source)) }
{
    let Some(source) = find(rows, source) else {
        return Ok(Rows::new(state.peers.allocator()));
    };
    let mut target = state.try_clone()?;
    let mut source = source.try_clone()?;
    target.exec_commit(&mut source)?;
    let mut states = one(target)?;
    states.push(source)?;
    Ok(states)
}

#[tactic(auto, using(crate::proofs::Turning::turn_changes))]
fn turned(
    store: u64,
    index: u64,
    rows: &[RegionState],
    state: &RegionState,
    turn: Turn,
) -> Result<Rows<RegionState>, NoMemory>
    requires { IsSmall state.now }
    ensures { IfOk result (λ states. states ≡ changes store index rows.now state.now (turn_body turn)) }
{
    let mut state = state.try_clone()?;
    state.turn_on(store, turn, index)?;
    one(state)
}
