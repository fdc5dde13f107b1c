ghost use Rattle.std.specs.Prelude.{◌≡◌, ◌<◌, ◌^◌, Some, OnOk};
ghost use Rattle.std.specs.Option.{option_copied};
ghost use Rattle.rs_store.specs.Runs.{seen};
ghost use Rattle.rs_store.specs.declared.regions.Made.{Made};
ghost use Rattle.rs_store.specs.Stores.{passed, with_region, without, no_regions};

use rs_key::{NoMemory, Rows};
use rs_region::RegionState;
use std::alloc::Global;
use std::collections::BTreeMap;

/// The origin of a region.
#[derive(Clone, Copy, Debug, PartialEq, Eq)]
pub enum Origin {
    /// The region is a boot region.
    Boot,
    /// The entry of the parent at the index split it off.
    Split { parent: u64, index: u64 },
}

/// A region that has been made on a store.
#[derive(Debug, Drop)]
pub struct Made {
    pub state: RegionState,
    /// The index of the last entry applied; `INIT_INDEX` where there was none.
    pub applied: u64,
    pub origin: Origin,
    /// The indexes of its accepted splits, prepares, commits, rollbacks and changes of peers.
    pub reshapings: Rows<u64>,
}

/// The regions of a store that have been made, by id.
#[derive(Drop)]
pub struct Regions {
    made: BTreeMap<u64, Made>,
}

impl Regions {
    /// Returns the map without a region. It takes no memory.
    pub fn new(alloc: Global) -> Regions
        ensures { seen result ≡ no_regions }
    {
        Regions {
            made: BTreeMap::new(alloc),
        }
    }

    /// Returns the region with this id; `None` if it wasn't made.
    pub fn get(&self, id: u64) -> Option<&Made>
        ensures { option_copied result ≡ seen self.now id }
    {
        self.made.get(&id)
    }

    /// Records the state of the region. Where memory runs out it may be gone, and the others are as they were.
    pub fn put(&mut self, id: u64, made: Made) -> Result<(), NoMemory>
        ensures { OnOk result (seen self.new ≡ with_region (seen self.old) id made) }
    {
        let old = self.made.insert(id, made)?;
        drop(old);
        Ok(())
    }

    /// Records that the region has applied one more entry. Where it isn't there nothing changes.
    pub fn pass(&mut self, id: u64)
        requires { (made : Made) → seen self.old id ≡ Some made → made.applied < 2 ^ 62 }
        ensures { (made : Made) → seen self.old id ≡ Some made → seen self.new ≡ with_region (seen self.old) id (passed made) }
    {
        if let Some(made) = self.made.get_mut(&id) {
            made.applied += 1;
        }
    }

    /// Takes the region out.
    pub fn take(&mut self, id: u64) -> Option<Made>
        ensures value { result ≡ seen self.old id }
        ensures gone { seen self.new ≡ without (seen self.old) id }
    {
        self.made.remove(&id)
    }
}
