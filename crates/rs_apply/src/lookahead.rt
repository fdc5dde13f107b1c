//! What a region's next entry is to do, read off it before it is applied.

ghost use Rattle.std.specs.Prelude.{◌≡◌, ◌<◌};
ghost use Rattle.rs_region.specs.Actions.{body_for};
ghost use Rattle.rs_store.specs.Stores.{is_reshaping};
ghost use Rattle.rs_check.specs.Values.{count_of};
ghost use Rattle.rs_apply.specs.Merges.{merge_in, unheld};
ghost use Rattle.rs_apply.specs.Reshapings.{reshapes_by};

use crate::sources::has_closed;
use rs_check::Plan;
use rs_msg::Closed;
use rs_region::{Action, Verdict};
use rs_store::is_accept;

/// Returns the source of the merge that the entry commits, and the index of its prepare.
pub fn merge_in(verdict: Verdict, action: Action<'_>) -> Option<(u64, u64)>
    ensures { result ≡ merge_in verdict (body_for action.entry) }
{
    match (verdict, action) {
        (Verdict::Accept, Action::Merges { source, commit, .. }) => Some((source, commit)),
        _ => None,
    }
}

/// Returns the merge, where its source hasn't handed over.
pub fn unheld(
    plan: &Plan,
    address: u32,
    closed: &[Closed<'_>],
    merge: Option<(u64, u64)>,
) -> Option<(u64, u64)>
    requires { address < count_of plan.now }
    ensures { result ≡ unheld plan.now address closed.now merge }
{
    let (source, commit) = merge?;
    let (store, _) = plan.address(address);
    match plan.find(store, source) {
        Some(place) if has_closed(closed, place, commit) => None,
        _ => merge,
    }
}

/// Returns whether the entry changes the region's state.
pub fn is_reshaping(verdict: Verdict, action: Action<'_>) -> bool
    ensures { result ≡ reshapes_by verdict (body_for action.entry) }
{
    is_accept(verdict) && reshapes(action)
}

fn reshapes(action: Action<'_>) -> bool
    ensures { result ≡ is_reshaping (body_for action.entry) }
{
    match action {
        Action::Nothing | Action::Writes(_) => false,
        Action::Splits { .. } | Action::Merges { .. } | Action::Turns(_) => true,
    }
}
