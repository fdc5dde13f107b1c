ghost use Rattle.std.specs.Prelude.{◌≡◌, ℕ, OnOk};
ghost use Rattle.rs_table.specs.Tellings.{no_waiters, or_nil, waiters, with_waiter};

use rs_key::{NoMemory, Rows};
use std::alloc::Global;
use std::collections::BTreeMap;

/// The addresses that need a reshaping, by its address and number.
#[derive(Drop)]
pub struct Waiters {
    by: BTreeMap<(u32, u64), Rows<u32>>,
}

impl Waiters {
    /// Returns the list without a waiter. It takes no memory.
    pub fn new(alloc: Global) -> Waiters
        ensures { waiters result ≡ no_waiters }
    {
        Waiters {
            by: BTreeMap::new(alloc),
        }
    }

    /// Returns the addresses that need the address's nth reshaping.
    pub fn get(&self, address: u32, nth: u64) -> &[u32]
        ensures { result.now ≡ waiters self.now address nth }
    {
        match self.by.get(&(address, nth)) {
            None => &[],
            Some(addresses) => addresses.as_slice(),
        }
    }

    /// Records that the address `x` needs it too.
    pub fn add(&mut self, alloc: Global, need: (u32, u64), x: u32) -> Result<(), NoMemory>
        ensures { OnOk result ((a n : ℕ) → waiters self.new a n ≡ with_waiter (waiters self.old) need x a n) }
    {
        let mut addresses = or_empty(alloc, self.by.remove(&need));
        addresses.push(x)?;
        let old = self.by.insert(need, addresses)?;
        drop(old);
        Ok(())
    }
}

fn or_empty(alloc: Global, addresses: Option<Rows<u32>>) -> Rows<u32>
    ensures { result ≡ or_nil addresses }
{
    match addresses {
        None => Rows::new(alloc),
        Some(addresses) => addresses,
    }
}
