//! One call of `advance` on a region that was made.

ghost use Rattle.std.specs.Prelude.{◌≡◌, ◌+◌, ◌-◌, ◌<◌, ◌≤◌, ◌⊎◌, ◌++◌, ℕ, Some, None, OnOk, IfOk, IsSome};
ghost use Rattle.std.specs.List.{All};
ghost use Rattle.rs_check.specs.Lawfulness.{PlanLaws};
ghost use Rattle.rs_check.specs.Plans.{stop_of};
ghost use Rattle.rs_check.specs.Values.{count_of};
ghost use Rattle.rs_apply.specs.Machines.{applied_if, can_end, Comes, HasConcluded, IsCause, IsLife, IsTied};

use crate::catch_up::ask;
use crate::ending::finish;
use crate::progress::{Life, Progress};
use crate::region::Region;
use rs_check::Plan;
use rs_entry::Mode;
use rs_key::{NoMemory, Rows};
use rs_msg::{Closed, Outbox, PeerMsg};

/// Applies what is named, up to the budget, and tells how far that was.
pub fn advance<'p>(
    region: Region<'p>,
    budget: u32,
    named: u64,
    caught: bool,
    closed: &mut Vec<Closed<'p>>,
    asked: &mut Rows<(u64, u64)>,
    out: &mut Outbox<'p>,
) -> Result<(Life<'p>, Progress), NoMemory>
    requires laws { PlanLaws region.plan.now }
    requires plans { All (λ x. x.plan.now ≡ region.plan.now) closed.old.items }
    ensures comes { IfOk result (λ r. Comes region.entry.plan region.entry.address named caught budget region.entry.index closed.old.items asked.old out.old r.1 r.0 closed.new.items asked.new out.new) }
    ensures tied { IfOk result (λ r. IsTied region.entry.plan region.entry.address r.0) }
    ensures plans { OnOk result (All (λ x. x.plan.now ≡ region.entry.plan.now) closed.new.items) }
{
    let plan = region.plan;
    let address = region.address;
    let start = region.index;
    let last = named.min(plan.stop(address));
    let region = region.run(last, budget, closed, out)?;
    tell_applied(plan, address, start, region.index, &mut out.peers)?;
    conclude(region, last, caught, closed, asked, out)
}

/// Tells the peer machine how far the region's entries are applied, where there were any.
fn tell_applied<'p>(
    plan: &'p Plan,
    address: u32,
    start: u64,
    upto: u64,
    peers: &mut Rows<(u32, PeerMsg<'p>)>,
) -> Result<(), NoMemory>
    ensures { OnOk result (peers.new ≡ peers.old ++ applied_if plan.entry address start upto) }
{
    if start < upto {
        peers.push((address, PeerMsg::Applied { plan, upto }))
    } else {
        Ok(())
    }
}

/// Returns what the region does now, where entries up to the last may be applied.
fn conclude<'p>(
    region: Region<'p>,
    last: u64,
    caught: bool,
    closed: &[Closed<'p>],
    asked: &mut Rows<(u64, u64)>,
    out: &mut Outbox<'p>,
) -> Result<(Life<'p>, Progress), NoMemory>
    requires laws { PlanLaws region.plan.now }
    requires last { last ≤ stop_of region.plan.now region.address }
    ensures cause { IfOk result (λ r. IsCause region.entry.plan.now region.entry.address last caught closed.now region.entry.index r.1) }
    ensures life { IfOk result (λ r. IsLife region.entry.index r.1 r.0) }
    ensures tied { IfOk result (λ r. IsTied region.entry.plan region.entry.address r.0) }
    ensures sent { IfOk result (λ r. HasConcluded region.entry.plan region.entry.address r.1 asked.old out.old asked.new out.new) }
{
    let plan = region.plan;
    let address = region.address;
    if region.index < last {
        match region.waits(region.next_entry(), closed) {
            None => Ok((Life::Born(region), Progress::More)),
            Some((source, commit)) => {
                ask(plan, address, (source, commit), asked, &mut out.peers)?;
                Ok((Life::Born(region), Progress::WaitsFor { source, commit }))
            }
        }
    } else if region.index < plan.stop(address) {
        Ok((Life::Born(region), Progress::Rests))
    } else if !can_end(plan, address, caught) {
        Ok((Life::Born(region), Progress::Rests))
    } else {
        let merged = finish(region, out)?;
        Ok((Life::Over(merged), Progress::Ended))
    }
}

/// Returns whether the region may end at its stop.
fn can_end(plan: &Plan, address: u32, caught: bool) -> bool
    requires below { address < count_of plan.now }
    ensures { result ≡ can_end plan.now address caught }
{
    match plan.ends(address) {
        Mode::Merged { .. } => caught,
        Mode::Normal | Mode::Merging { .. } | Mode::Removed => true,
    }
}
