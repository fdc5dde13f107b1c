ghost use Rattle.std.specs.Prelude.{◌≡◌, ◌+◌, ◌-◌, ◌<◌, ◌≤◌, [], length, None, OnOk};
ghost use Rattle.rs_store.specs.Places.{in_run, nowhere, place_in, with_index};

use rs_key::NoMemory;
use std::alloc::Global;
use std::collections::BTreeMap;

/// The places that are known in one region, by index.
///
/// Those of a run of indexes, each one more than the last, lie side by side; the others are kept apart.
#[derive(Drop)]
pub struct RegionPlaces {
    /// The index of the run's first place.
    first: u64,
    run: Vec<usize>,
    others: BTreeMap<u64, usize>,
}

impl RegionPlaces {
    /// Returns the map that knows no place. It takes no memory.
    pub fn new(alloc: Global) -> RegionPlaces
        ensures { place_in result ≡ nowhere }
    {
        RegionPlaces {
            first: 0,
            run: Vec::new(alloc),
            others: BTreeMap::new(alloc),
        }
    }

    /// Returns the allocator that memory is taken from.
    pub fn allocator(&self) -> Global {
        *self.run.allocator()
    }

    /// Returns the place of the index; `None` if it isn't known.
    pub fn get(&self, index: u64) -> Option<usize>
        ensures { result ≡ place_in self.now index }
    {
        match self.in_run(index) {
            Some(place) => Some(place),
            None => self.others.get(&index).copied(),
        }
    }

    fn in_run(&self, index: u64) -> Option<usize>
        ensures { result ≡ in_run self.now.first self.now.run.items index }
    {
        if index < self.first {
            return None;
        }
        self.run.get((index - self.first) as usize).copied()
    }

    /// Records the place of the index. The other places stay as they were.
    pub fn put(&mut self, index: u64, place: usize) -> Result<(), NoMemory>
        ensures { OnOk result (place_in self.new ≡ with_index (place_in self.old) index place) }
    {
        if self.run.is_empty() {
            return self.put_first(index, place);
        }
        if index < self.first {
            return self.put_apart(index, place);
        }
        let at = index - self.first;
        let length = self.run.len() as u64;
        if at == length {
            return self.go_on(index, place);
        }
        if at < length {
            self.put_over(at as usize, place);
            return Ok(());
        }
        self.put_apart(index, place)
    }

    /// Records the first place. It begins the run, but at index 0, where no entry is.
    fn put_first(&mut self, index: u64, place: usize) -> Result<(), NoMemory>
        requires { self.old.run.items ≡ [] }
        ensures { OnOk result (place_in self.new ≡ with_index (place_in self.old) index place) }
    {
        if index == 0 {
            return self.put_apart(index, place);
        }
        self.begin(index, place)
    }

    /// Begins the run with this place.
    fn begin(&mut self, index: u64, place: usize) -> Result<(), NoMemory>
        requires { self.old.run.items ≡ [] }
        ensures { OnOk result (place_in self.new ≡ with_index (place_in self.old) index place) }
    {
        self.first = index;
        self.run.push(place)?;
        Ok(())
    }

    /// Extends the run by this place.
    fn go_on(&mut self, index: u64, place: usize) -> Result<(), NoMemory>
        requires { index ≡ self.old.first + length self.old.run.items }
        ensures { OnOk result (place_in self.new ≡ with_index (place_in self.old) index place) }
    {
        self.run.push(place)?;
        Ok(())
    }

    /// Replaces a place of the run.
    fn put_over(&mut self, at: usize, place: usize)
        requires { at < length self.old.run.items }
        ensures { place_in self.new ≡ with_index (place_in self.old) (self.old.first + at) place }
    {
        self.run[at] = place;
    }

    /// Records a place outside of the run.
    fn put_apart(&mut self, index: u64, place: usize) -> Result<(), NoMemory>
        requires { in_run self.old.first self.old.run.items index ≡ None }
        ensures { OnOk result (place_in self.new ≡ with_index (place_in self.old) index place) }
    {
        self.others.insert(index, place)?;
        Ok(())
    }
}
