//! The entries that change one region alone.

ghost use Rattle.std.specs.Prelude.{◌≡◌, ◌+◌, ◌∷◌, [], false, option_to_list, IfOk};
ghost use Rattle.rs_entry.specs.declared.entry.Body.TheVariants as body;
ghost use Rattle.rs_region.specs.Actions.{turn_body};
ghost use Rattle.rs_region.specs.Verdicts.{verdict};
ghost use Rattle.rs_region.specs.declared.verdict.Verdict.TheVariants as verdicts;
ghost use Rattle.rs_store.specs.Runs.{line_entry};
ghost use Rattle.rs_store.specs.Stores.{is_accept};
ghost use Rattle.rs_check.specs.Lawfulness.{PlanLaws};
ghost use Rattle.rs_msg.specs.Held.{IsHeld};
ghost use Rattle.rs_apply.specs.Steps.{IsNext};

use crate::next::Next;
use rs_entry::{Op, Reply};
use rs_key::{NoMemory, Rows};
use rs_msg::Map;
use rs_region::{RegionState, Turn, Verdict};
use rs_store::reply_to;

/// Answers an entry that isn't accepted, which changes nothing.
pub fn refuse(
    next: Next<'_>,
    state: &RegionState,
    map: &Map<'_>,
    why: Verdict,
) -> Result<Option<Reply>, NoMemory>
    requires laws { PlanLaws next.plan.now }
    requires held { IsHeld next.plan.now next.address next.index state.now map.now }
    requires why { why ≡ verdict state.now (line_entry next.line) }
    requires refused { is_accept why ≡ false }
    ensures { IfOk result (λ r. IsNext next.entry.plan.now next.entry.address next.entry.index state.now map.now (option_to_list r)) }
{
    reply_to(why, next.line.action(), state)
}

/// Applies an accepted write.
pub fn write<'p>(
    next: Next<'p>,
    state: &RegionState,
    map: &mut Map<'p>,
    ops: &'p Rows<Op>,
) -> Result<Reply, NoMemory>
    requires laws { PlanLaws next.plan.now }
    requires held { IsHeld next.plan.now next.address next.index state.now map.old }
    requires accept { verdict state.now (line_entry next.line) ≡ verdicts.Accept }
    requires body { (line_entry next.line).body ≡ body.Write ops.now }
    ensures { IfOk result (λ r. IsNext next.entry.plan.now next.entry.address next.entry.index state.now map.new (r ∷ [])) }
{
    map.note(state.region, next.index + 1, ops.as_slice())?;
    Ok(Reply::Done(state.epoch.version))
}

/// Applies an accepted entry that turns the region. That a store's own peer is removed isn't marked in the state.
pub fn turn(
    next: Next<'_>,
    state: &mut RegionState,
    map: &Map<'_>,
    turn: Turn,
) -> Result<Reply, NoMemory>
    requires laws { PlanLaws next.plan.now }
    requires held { IsHeld next.plan.now next.address next.index state.old map.now }
    requires accept { verdict state.old (line_entry next.line) ≡ verdicts.Accept }
    requires body { (line_entry next.line).body ≡ turn_body turn }
    ensures { IfOk result (λ r. IsNext next.entry.plan.now next.entry.address next.entry.index state.new map.now (r ∷ [])) }
{
    state.turn(turn, next.index + 1)?;
    Ok(Reply::Done(state.epoch.version))
}
