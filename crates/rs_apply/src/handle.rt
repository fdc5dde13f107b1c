//! What a machine makes of a message.

ghost use Rattle.std.specs.Prelude.{◌≡◌, ◌<◌, ◌-◌, ◌==◌};
ghost use Rattle.rs_check.specs.Plans.{address_of, stop_of};
ghost use Rattle.rs_check.specs.Values.{count_of, region_of};
ghost use Rattle.rs_apply.specs.Handling.{ends_by, is_for, is_merged_into, is_new, merges_so_far};
ghost use Rattle.rs_apply.specs.Machines.{IsTied};

use crate::catch_up::has_merge;
use crate::progress::Life;
use crate::sources::has_closed;
use rs_check::Plan;
use rs_entry::Mode;
use rs_msg::Closed;

/// Returns whether the merge is the one by which the plan ends the region.
pub fn ends_by(plan: &Plan, address: u32, target: u64, commit: u64) -> bool
    requires { address < count_of plan.now }
    ensures { result ≡ ends_by plan.now address target commit }
{
    is_merged_into(target, plan.ends(address)) && plan.stop(address) == commit
}

fn is_merged_into(target: u64, mode: Mode) -> bool
    ensures { result ≡ is_merged_into target mode }
{
    match mode {
        Mode::Merged { target: into } => into == target,
        Mode::Normal | Mode::Merging { .. } | Mode::Removed => false,
    }
}

/// Returns the merges that the machine's region has committed.
pub fn merges_so_far<'a>(plan: &Plan, address: u32, life: &'a Life<'_>) -> &'a [(u64, u64)]
    requires { IsTied plan address life.now }
    ensures { result.now ≡ merges_so_far plan.now address life.now }
{
    match life {
        Life::Unborn => &[],
        Life::Born(region) => region.merged.as_slice(),
        Life::Over(merged) => merged.as_slice(),
    }
}

/// Returns whether a source hands over to the address for a merge that isn't committed yet, and for the first time.
pub fn is_new(
    plan: &Plan,
    address: u32,
    held: &[Closed<'_>],
    merged: &[(u64, u64)],
    closed: &Closed<'_>,
) -> bool
    requires address { address < count_of plan.now }
    requires closed { closed.now.plan.now ≡ plan.now }
    ensures { result ≡ is_new plan.now address held.now merged.now closed.now }
{
    let source = closed.address();
    let commit = closed.commit();
    let (_, region) = plan.address(source);
    is_for(plan, address, closed)
        && !has_closed(held, source, commit)
        && !has_merge(merged, (region, commit))
}

fn is_for(plan: &Plan, address: u32, closed: &Closed<'_>) -> bool
    requires address { address < count_of plan.now }
    requires closed { closed.now.plan.now ≡ plan.now }
    ensures { result ≡ is_for plan.now address closed.now }
{
    let (store, region) = plan.address(address);
    let (store_there, _) = plan.address(closed.address());
    closed.target() == region && store_there == store
}
