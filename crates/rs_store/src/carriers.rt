ghost use Rattle.std.specs.Prelude.{◌≡◌, OnOk, IfOk};
ghost use Rattle.rs_store.specs.Stores.{ids_of};
ghost use Rattle.rs_store.specs.Runs.{seen, bare};
ghost use Rattle.rs_store.specs.Carriers.{carriers, no_carriers, with_carrier, standing_for, or_nil};

use crate::indexed_store::IndexedStore;
use crate::readiness::stands;
use crate::regions::Regions;
use rs_key::{NoMemory, Rows};
use std::alloc::Global;
use std::collections::BTreeMap;

/// The regions that stand before a merge of a source, by source.
#[derive(Drop)]
pub struct Carriers {
    by_source: BTreeMap<u64, Rows<u64>>,
}

impl Carriers {
    /// Returns the carriers among all regions of the store.
    pub fn of(
        alloc: Global,
        indexed: &IndexedStore<'_>,
        regions: &Regions,
    ) -> Result<Carriers, NoMemory>
        ensures { IfOk result (λ c. carriers c ≡ standing_for indexed.now (bare (seen regions.now)) (ids_of indexed.now)) }
    {
        Ok(all_of(alloc, indexed, regions, indexed.joiners())?)
    }

    fn new(alloc: Global) -> Carriers
        ensures { carriers result ≡ no_carriers }
    {
        Carriers {
            by_source: BTreeMap::new(alloc),
        }
    }

    /// Returns the regions that stand before a merge of this source.
    pub fn get(&self, source: u64) -> &[u64]
        ensures { result.now ≡ carriers self.now source }
    {
        match self.by_source.get(&source) {
            None => &[],
            Some(ids) => ids.as_slice(),
        }
    }

    fn add(&mut self, alloc: Global, source: u64, id: u64) -> Result<(), NoMemory>
        ensures { OnOk result (carriers self.new ≡ with_carrier (carriers self.old) source id) }
    {
        let mut ids = taken(alloc, self.by_source.remove(&source));
        ids.push(id)?;
        let old = self.by_source.insert(source, ids)?;
        drop(old);
        Ok(())
    }
}

fn taken(alloc: Global, ids: Option<Rows<u64>>) -> Rows<u64>
    ensures { result ≡ or_nil ids }
{
    match ids {
        None => Rows::new(alloc),
        Some(ids) => ids,
    }
}

fn all_of(
    alloc: Global,
    indexed: &IndexedStore<'_>,
    regions: &Regions,
    ids: &[u64],
) -> Result<Carriers, NoMemory>
    ensures { IfOk result (λ c. carriers c ≡ standing_for indexed.now (bare (seen regions.now)) ids.now) }
{
    let mut all = Carriers::new(alloc);
    for id in ids {
        let Some(merge) = stands(indexed, regions, *id) else {
            continue;
        };
        all.add(alloc, merge.source, *id)?;
    }
    Ok(all)
}
