ghost use Rattle.std.specs.Prelude.{◌≡◌, ℕ, ◌+◌, ◌<◌, ◌≤◌, ◌^◌, Option, Some, None, IfOk, OnOk, map};
ghost use Rattle.rs_region.specs.Reshapings.{boot};
ghost use Rattle.rs_store.specs.declared.regions.Origin.TheVariants as origins;
ghost use Rattle.rs_store.specs.Stores.{ids_of, with_regions, opening, after};
ghost use Rattle.rs_store.specs.Runs.{seen, forget, told, IsAllLow, IsFormedStore};

use crate::fault::StepFault;
use crate::indexed_store::IndexedStore;
use crate::regions::{Origin, Regions};
use crate::step::born;
use rs_entry::Boot;
use rs_key::{NoMemory, TryClone};
use rs_region::RegionState;
use std::alloc::Global;

fn put_boots(alloc: Global, regions: &mut Regions, boots: &[Boot]) -> Result<(), NoMemory>
    ensures { OnOk result (seen regions.new ≡ with_regions (seen regions.old) (map (λ b. boot b.region b.range b.peers) boots.now) origins.Boot) }
{
    match boots {
        [] => Ok(()),
        [first, rest @ ..] => {
            put_boots(alloc, regions, rest)?;
            let state = RegionState::boot(
                first.region,
                first.range.try_clone()?,
                first.peers.try_clone()?,
            );
            regions.put(first.region, born(alloc, state, Origin::Boot))
        }
    }
}

/// Returns the regions that are there from the start.
pub fn opening(alloc: Global, indexed: &IndexedStore<'_>) -> Result<Regions, NoMemory>
    ensures { IfOk result (λ regions. seen regions ≡ (opening indexed.now).region) }
{
    let store = indexed.store();
    let mut regions = Regions::new(alloc);
    put_boots(alloc, &mut regions, store.regions.as_slice())?;
    Ok(regions)
}
