ghost use Rattle.std.specs.Prelude.{◌≡◌, ◌||◌, ℕ, OnOk, OnErr};
ghost use Rattle.rs_table.specs.Tellings.{has, is_this, nothing};

use rs_key::NoMemory;
use std::alloc::Global;
use std::collections::BTreeSet;

/// The reshapings that were told, by address and number.
#[derive(Drop)]
pub struct Told {
    by: BTreeSet<(u32, u64)>,
}

impl Told {
    /// Returns the set in which nothing was told. It takes no memory.
    pub fn new(alloc: Global) -> Told
        ensures { has result ≡ nothing }
    {
        Told {
            by: BTreeSet::new(alloc),
        }
    }

    /// Returns whether the reshaping of the address with this number was told.
    pub fn has(&self, address: u32, nth: u64) -> bool
        ensures { result ≡ has self.now address nth }
    {
        self.by.contains(&(address, nth))
    }

    /// Records that this was told.
    pub fn put(&mut self, address: u32, nth: u64) -> Result<(), NoMemory>
        ensures ok { OnOk result ((a n : ℕ) → has self.new a n ≡ has self.old a n || is_this address nth a n) }
        ensures err { OnErr result ((a n : ℕ) → has self.new a n ≡ has self.old a n) }
    {
        self.by.insert((address, nth))?;
        Ok(())
    }
}
