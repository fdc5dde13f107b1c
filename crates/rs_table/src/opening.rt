//! What a store's table begins with.

ghost use Rattle.std.specs.Prelude.{◌≡◌, ◌+◌, ◌<◌, ℕ, [], true, None, Some, length, get_or, IfOk, OnOk, slice_get};
ghost use Rattle.rs_check.specs.Values.{count_of};
ghost use Rattle.rs_table.specs.Moves.{nothing_covered, opening_rows};
ghost use Rattle.rs_table.specs.Tellings.{AllWait, Keeps, Waits, is_among, needs_below, numbers, open_below, waiters};

use crate::needs::{Needs, is_on};
use crate::waiters::Waiters;
use rs_check::{Plan, RegionTable};
use rs_key::{NoMemory, Rows, TryClone};
use rs_region::RegionState;
use std::alloc::Global;

/// Returns the regions that the store at the place has from the start.
pub fn opening_table(alloc: Global, plan: &Plan, place: u32) -> Result<RegionTable, NoMemory>
    ensures { IfOk result (λ table. table ≡ opening_rows plan.now place) }
{
    let mut rows = Rows::new(alloc);
    let Some(store) = plan.input().stores.get(place as usize) else {
        return Ok(RegionTable::from_rows(rows));
    };
    for boot in store.regions.as_slice() {
        let range = boot.range.try_clone()?;
        let peers = boot.peers.try_clone()?;
        rows.push(RegionState::boot(boot.region, range, peers))?;
    }
    Ok(RegionTable::from_rows(rows))
}

/// Returns how many of the store's addresses have a reshaping.
pub fn unfinished(plan: &Plan, place: u32) -> u32
    ensures { result ≡ open_below plan.now place nothing_covered (count_of plan.now) }
{
    let mut number = 0;
    for a in 0..plan.count() {
        if is_on(plan, place, a) && plan.reshapings(a) > 0 {
            number += 1;
        }
    }
    number
}

/// Returns for each address that nothing of it is covered.
pub fn none_taken(alloc: Global, plan: &Plan) -> Result<Vec<u64>, NoMemory>
    ensures len { IfOk result (λ taken. length taken.items ≡ count_of plan.now) }
    ensures none { IfOk result (λ taken. numbers taken.items ≡ nothing_covered) }
{
    Ok(vec![in alloc; 0; plan.count() as usize]?)
}

/// Records that the address `x` waits for all that it needs.
fn wait(alloc: Global, waits: &mut Waiters, needs: &Needs, x: u32) -> Result<(), NoMemory>
    ensures keeps { OnOk result (Keeps (waiters waits.old) (waiters waits.new)) }
    ensures waits { OnOk result (Waits (waiters waits.new) needs.now x) }
{
    if let Some(need) = needs.birth {
        waits.add(alloc, need, x)?;
    }
    wait_for_prepares(alloc, waits, needs.prepares.as_slice(), x)
}

fn wait_for_prepares(
    alloc: Global,
    waits: &mut Waiters,
    prepares: &[Option<(u32, u64)>],
    x: u32,
) -> Result<(), NoMemory>
    ensures keeps { OnOk result (Keeps (waiters waits.old) (waiters waits.new)) }
    ensures waits { OnOk result ((k : ℕ) (need : ℕ × ℕ) → get_or prepares.now k None ≡ Some need → is_among x (waiters waits.new need.0 need.1) ≡ true) }
{
    for prepare in prepares {
        if let Some(need) = prepare {
            waits.add(alloc, *need, x)?;
        }
    }
    Ok(())
}

/// Returns the waiters of the store: each of its addresses waits for what it needs.
pub fn all_waits(
    alloc: Global,
    plan: &Plan,
    place: u32,
    needs: &[Needs],
) -> Result<Waiters, NoMemory>
    requires { needs.now ≡ needs_below plan.now place (count_of plan.now) }
    ensures { IfOk result (λ waits. AllWait plan.now place (waiters waits)) }
{
    let mut waits = Waiters::new(alloc);
    for a in 0..plan.count() {
        wait(alloc, &mut waits, &needs[a as usize], a)?;
    }
    Ok(waits)
}
