ghost use Rattle.std.specs.Prelude.{◌≡◌, ◌<◌, ◌↔◌, ℕ, None, length, slice_get, IfOk, IsTrue};
ghost use Rattle.std.specs.List.{count_by, filter_map};
ghost use Rattle.std.specs.Option.{is_some};
ghost use Rattle.rs_meta.specs.Addresses.{count_on, first_of};
ghost use Rattle.rs_meta.specs.Held.{ending_in, is_free, is_free_at, with_ending, held_with, AreAllHeld, AreOwn};

use crate::store_addresses::{count_on, first_of};
use rs_check::Plan;
use rs_key::NoMemory;
use rs_msg::Ending;
use std::alloc::Global;

/// The endings of a store's addresses, as far as they have come.
#[derive(Drop)]
pub struct Endings<'p> {
    plan: &'p Plan,
    place: u32,
    /// The store's first address, whose ending stands in the first slot.
    first: u32,
    slots: Vec<Option<Ending<'p>>>,
    /// The number of endings that haven't come yet.
    missing: usize,
    ghost within: { place < length plan.now.stores },
    ghost begins: { first ≡ first_of plan.now place },
    ghost counted: { length slots.items ≡ count_on plan.now place },
    ghost free: { missing ≡ count_by is_free slots.items },
    ghost own: { AreOwn plan.now first slots.items },
}

impl<'p> Endings<'p> {
    ghost use Rattle.rs_meta.specs.Machines.{held_by};

    /// Returns the endings of the store at the place, of which none has come.
    pub fn new(alloc: Global, plan: &'p Plan, place: u32) -> Result<Endings<'p>, NoMemory>
        requires { place < length plan.now.stores }
        ensures plan { IfOk result (λ endings. endings.plan ≡ plan.entry) }
        ensures place { IfOk result (λ endings. endings.place ≡ place) }
        ensures none { IfOk result (λ endings. (a : ℕ) → held_by endings a ≡ None) }
    {
        let first = first_of(plan, place);
        let count = count_on(plan, place) as usize;
        let slots = free_slots(alloc, count)?;
        Ok(Endings {
            plan,
            place,
            first,
            slots,
            missing: count,
        })
    }

    /// Keeps the ending, where its address is the store's and has none yet.
    pub fn put(&mut self, ending: Ending<'p>)
        requires plan { ending.plan.now ≡ self.old.plan.now }
        ensures plan { self.new.plan ≡ self.old.plan }
        ensures place { self.new.place ≡ self.old.place }
        ensures held { (a : ℕ) → held_by self.new a ≡ held_with self.old.plan.now self.old.place ending.entry (held_by self.old) a }
    {
        let _input = self.plan.input();
        let address = ending.address();
        if address < self.first {
            return;
        }
        let slot = (address - self.first) as usize;
        keep(&mut self.slots, &mut self.missing, slot, ending);
    }

    /// Returns whether each address of the store has its ending.
    pub fn complete(&self) -> bool
        ensures { IsTrue result ↔ AreAllHeld self.now.plan.now self.now.place (held_by self.now) }
    {
        let _input = self.plan.input();
        self.missing == 0
    }

    /// Whether the address's ending has come.
    pub fn has(&self, address: u32) -> bool
        ensures { result ≡ is_some (held_by self.now address) }
    {
        if address < self.first {
            return false;
        }
        is_held(&self.slots, (address - self.first) as usize)
    }

    /// Returns the endings that have come, by address.
    pub fn into_held(self, alloc: Global) -> Result<Vec<Ending<'p>>, NoMemory>
        ensures { IfOk result (λ held. held.items ≡ filter_map (λ slot. slot) self.entry.slots.items) }
    {
        let mut held = Vec::new(alloc);
        for slot in self.slots {
            let Some(ending) = slot else {
                continue;
            };
            held.push(ending)?;
        }
        Ok(held)
    }
}

/// Makes `count` slots without an ending.
fn free_slots<'p>(alloc: Global, count: usize) -> Result<Vec<Option<Ending<'p>>>, NoMemory>
    ensures counted { IfOk result (λ slots. length slots.items ≡ count) }
    ensures free { IfOk result (λ slots. count_by is_free slots.items ≡ count) }
{
    let mut slots = Vec::new(alloc);
    'free: while slots.len() < count {
        slots.push(None)?;
    }
    Ok(slots)
}

/// Puts the ending into the slot, if the slot exists and is free.
fn keep<'p>(
    slots: &mut Vec<Option<Ending<'p>>>,
    missing: &mut usize,
    slot: usize,
    ending: Ending<'p>,
)
    requires free { missing.old ≡ count_by is_free slots.old.items }
    ensures free { missing.new ≡ count_by is_free slots.new.items }
    ensures slots { slots.new.items ≡ with_ending slots.old.items slot ending.entry }
{
    if !is_free_at(slots, slot) {
        return;
    }
    *missing -= 1;
    slots[slot] = Some(ending);
}

fn is_held(slots: &[Option<Ending<'_>>], slot: usize) -> bool
    ensures { result ≡ is_some (ending_in (slice_get slots.now slot)) }
{
    matches!(slots.get(slot), Some(Some(_)))
}

fn is_free_at(slots: &[Option<Ending<'_>>], slot: usize) -> bool
    ensures { result ≡ is_free_at slots.now slot }
{
    matches!(slots.get(slot), Some(None))
}
