ghost use Rattle.std.specs.Prelude.{◌≡◌, ◌<◌, ◌++◌, OnOk};
ghost use Rattle.rs_check.specs.Values.{count_of};
ghost use Rattle.rs_apply.specs.Findings.{find_on};
ghost use Rattle.rs_apply.specs.Machines.{asks_for, catch_up, has_merge, is_merge, with_asked};

use rs_check::Plan;
use rs_key::{NoMemory, Rows};
use rs_msg::PeerMsg;

/// Asks the source of a merge to catch up, the first time that the merge is waited for.
pub fn ask<'p>(
    plan: &'p Plan,
    address: u32,
    merge: (u64, u64),
    asked: &mut Rows<(u64, u64)>,
    peers: &mut Rows<(u32, PeerMsg<'p>)>,
) -> Result<(), NoMemory>
    requires below { address < count_of plan.now }
    ensures asked { OnOk result (asked.new ≡ with_asked asked.old merge) }
    ensures peers { OnOk result (peers.new ≡ peers.old ++ asks_for plan.entry address asked.old merge) }
{
    if has_merge(asked.as_slice(), merge) {
        return Ok(());
    }
    asked.push(merge)?;
    send_catch_up(plan, address, merge, peers)
}

fn send_catch_up<'p>(
    plan: &'p Plan,
    address: u32,
    merge: (u64, u64),
    peers: &mut Rows<(u32, PeerMsg<'p>)>,
) -> Result<(), NoMemory>
    requires below { address < count_of plan.now }
    ensures { OnOk result (peers.new ≡ peers.old ++ catch_up plan.entry address merge.1 (find_on plan.now address merge.0)) }
{
    let (store, target) = plan.address(address);
    match plan.find(store, merge.0) {
        None => Ok(()),
        Some(place) => peers.push((
            place,
            PeerMsg::CatchUp {
                plan,
                target,
                commit: merge.1,
            },
        )),
    }
}

/// Returns whether the merge is listed.
pub fn has_merge(merges: &[(u64, u64)], merge: (u64, u64)) -> bool
    ensures { result ≡ has_merge merges.now merge }
{
    for one in merges {
        if is_merge(merge, *one) {
            return true;
        }
    }
    false
}

fn is_merge(one: (u64, u64), other: (u64, u64)) -> bool
    ensures { result ≡ is_merge one other }
{
    one.0 == other.0 && one.1 == other.1
}
