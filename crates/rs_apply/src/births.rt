//! How machines come to their regions.

ghost use Rattle.std.specs.Prelude.{◌≡◌, ◌<◌, ◌==◌, IfOk};
ghost use Rattle.std.specs.List.{find};
ghost use Rattle.std.specs.Option.{option_copied};
ghost use Rattle.rs_check.specs.Lawfulness.{PlanLaws};
ghost use Rattle.rs_check.specs.Values.{count_of};
ghost use Rattle.rs_apply.specs.Findings.{boot_in, boot_of};
ghost use Rattle.rs_apply.specs.Handling.{IsBornIf, IsOpened};
ghost use Rattle.rs_apply.specs.Machines.{IsTied};

use crate::progress::Life;
use crate::region::Region;
use rs_check::Plan;
use rs_entry::{Boot, Store};
use rs_key::{NoMemory, TryClone};
use rs_msg::{Map, Piece};
use rs_region::RegionState;
use std::alloc::Global;

/// Returns what a new machine has: a region from the start, or none before its Birth.
pub fn opened<'p>(plan: &'p Plan, address: u32) -> Result<Life<'p>, NoMemory>
    requires laws { PlanLaws plan.now }
    requires below { address < count_of plan.now }
    ensures opened { IfOk result (IsOpened (boot_of plan.now address)) }
    ensures tied { IfOk result (λ life. IsTied plan.entry address life) }
{
    let Some(boot) = boot_of(plan, address) else {
        return Ok(Life::Unborn);
    };
    let alloc = boot.peers.allocator();
    let state = RegionState::boot(
        boot.region,
        boot.range.try_clone()?,
        boot.peers.try_clone()?,
    );
    Ok(Life::Born(Region::new(plan, address, state, Map::new(alloc), alloc)))
}

fn boot_of(plan: &Plan, address: u32) -> Option<&Boot>
    requires { address < count_of plan.now }
    ensures { option_copied result ≡ boot_of plan.now address }
{
    let (store, region) = plan.address(address);
    boot_in(store_at(plan.input().stores.as_slice(), store), region)
}

fn store_at(stores: &[Store], store: u64) -> Option<&Store>
    ensures { option_copied result ≡ find (λ s. s.id == store) stores.now }
{
    stores.iter().find(|s| s.id == store)
}

fn boot_in(store: Option<&Store>, region: u64) -> Option<&Boot>
    ensures { option_copied result ≡ boot_in (option_copied store.entry) region }
{
    match store {
        None => None,
        Some(store) => first_boot(store.regions.as_slice(), region),
    }
}

fn first_boot(boots: &[Boot], region: u64) -> Option<&Boot>
    ensures { option_copied result ≡ find (λ b. b.region == region) boots.now }
{
    boots.iter().find(|b| b.region == region)
}

/// Returns what a machine has after a Birth. A piece of another address changes nothing.
pub fn born<'p>(
    plan: &'p Plan,
    address: u32,
    life: Life<'p>,
    piece: Piece<'p>,
    alloc: Global,
) -> Life<'p>
    requires laws { PlanLaws plan.now }
    requires below { address < count_of plan.now }
    requires plan { piece.plan.now ≡ plan.now }
    requires tied { IsTied plan address life }
    ensures tied { IsTied plan.entry address result }
    ensures born { IsBornIf (piece.entry.address == address) life.entry result }
{
    if piece.address() != address {
        return life;
    }
    match life {
        Life::Unborn => {
            let (state, map) = piece.take();
            Life::Born(Region::new(plan, address, state, map, alloc))
        }
        Life::Born(region) => Life::Born(region),
        Life::Over(merged) => Life::Over(merged),
    }
}
