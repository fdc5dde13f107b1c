ghost use Rattle.std.specs.Prelude.{◌≡◌, OnOk};
ghost use Rattle.rs_store.specs.Places.{kept_in, known, no_places, place_in, with_place};

use crate::region_places::RegionPlaces;
use rs_key::NoMemory;
use std::alloc::Global;
use std::collections::BTreeMap;
use std::mem;

/// Places that are known by a region and an index.
///
/// The places of one region stand outside of the map: to look up or to put one of them takes constant time.
#[derive(Drop)]
pub struct PlaceMap {
    /// The region whose places stand outside of the map.
    region: u64,
    at_hand: RegionPlaces,
    kept: BTreeMap<u64, RegionPlaces>,
}

impl PlaceMap {
    /// Returns the map that knows no place. It takes no memory.
    pub fn new(alloc: Global) -> PlaceMap
        ensures { known result ≡ no_places }
    {
        PlaceMap {
            region: 0,
            at_hand: RegionPlaces::new(alloc),
            kept: BTreeMap::new(alloc),
        }
    }

    /// Returns the place of the region's index; `None` if it isn't known.
    pub fn get(&self, region: u64, index: u64) -> Option<usize>
        ensures { result ≡ known self.now region index }
    {
        if self.region == region {
            return self.at_hand.get(index);
        }
        match self.kept.get(&region) {
            None => None,
            Some(places) => places.get(index),
        }
    }

    /// Records the place of the index of the region, instead of any other.
    pub fn put(&mut self, region: u64, index: u64, place: usize) -> Result<(), NoMemory>
        ensures { OnOk result (known self.new ≡ with_place (known self.old) region index place) }
    {
        self.turn_to(region)?;
        self.put_here(index, place)
    }

    /// Makes the region the one whose places are found fastest. The same places are known.
    pub fn turn_to(&mut self, region: u64) -> Result<(), NoMemory>
        ensures known { OnOk result (known self.new ≡ known self.old) }
        ensures region { OnOk result (self.new.region ≡ region) }
    {
        if self.region == region {
            return Ok(());
        }
        self.exchange(region)
    }

    fn put_here(&mut self, index: u64, place: usize) -> Result<(), NoMemory>
        ensures { OnOk result (known self.new ≡ with_place (known self.old) self.old.region index place) }
    {
        self.at_hand.put(index, place)
    }

    /// Puts the current region's places into the map, and takes out those of another region.
    fn exchange(&mut self, region: u64) -> Result<(), NoMemory>
        requires { self.old.region ≡ region → ⊥ }
        ensures known { OnOk result (known self.new ≡ known self.old) }
        ensures region { OnOk result (self.new.region ≡ region) }
    {
        let next = taken(self.at_hand.allocator(), self.kept.remove(&region));
        let last = mem::replace(&mut self.at_hand, next);
        let none = self.kept.insert(self.region, last)?;
        drop(none);
        self.region = region;
        Ok(())
    }
}

fn taken(alloc: Global, places: Option<RegionPlaces>) -> RegionPlaces
    ensures { place_in result ≡ kept_in places }
{
    match places {
        None => RegionPlaces::new(alloc),
        Some(places) => places,
    }
}
