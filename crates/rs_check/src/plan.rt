ghost use Rattle.std.specs.Prelude.{◌≡◌, ◌==◌, ℕ, ◌+◌, ◌-◌, ◌<◌, ◌≤◌, ◌^◌, Option, Some, None, length, slice_get, IfOk, IfSome, position};
ghost use Rattle.std.specs.Option.{option_copied, option_map};
ghost use Rattle.rs_entry.specs.WellFormed.{WellFormed};
ghost use Rattle.rs_store.specs.Runs.{IsFormed, line_entry};
ghost use Rattle.rs_check.specs.Laws.{check};
ghost use Rattle.rs_check.specs.Lawfulness.{PlanLaws, StoresAgree};
ghost use Rattle.rs_check.specs.Lines.{line_at};
ghost use Rattle.rs_check.specs.Plans.{rows_of, is_at, stop_of, own_of, ends_of, maker_of, address_of, reshapings_of, made_by};
ghost use Rattle.rs_check.specs.Values.{store_place};

use crate::entry_index::{Home, homes_of, line_near};
use crate::entry_scan::line_of;
use crate::rows::{Row, place_of};
use rs_entry::{Input, Mode, Store};
use rs_key::NoMemory;
use rs_store::{Line, Origin};
use std::marker::Model;

/// The origin of a region of a plan.
#[derive(Clone, Copy, Debug, PartialEq, Eq)]
pub enum Maker {
    /// The region is a boot region.
    Boot,
    /// The entry of the region at the parent's address, at the index, split it off.
    Split { parent: u32, index: u64 },
}

/// A lawful input, with what its check found. Contracts see the input.
///
/// The addresses of a plan are the regions that its stores make, by store and region, counted from 0.
#[derive(Drop)]
pub struct Plan {
    input: Input,
    rows: Vec<Row>,
    /// By address.
    homes: Vec<Home>,
}

impl Model for Plan {
    ghost use Rattle.std.specs.Prelude.{◌≡◌, ◌<◌, ◌^◌, None, length};
    ghost use Rattle.rs_entry.specs.declared.input.Input.{Input};
    ghost use Rattle.rs_entry.specs.WellFormed.{WellFormed};
    ghost use Rattle.rs_check.specs.Plans.{rows_of};
    ghost use Rattle.rs_check.specs.Laws.{check};

    ghost Value = { Input };

    ghost view = { λ p. p.input };

    ghost invariant = { λ p. (p.rows.items ≡ rows_of p.input) × (check p.input ≡ None) × (length p.rows.items < 2 ^ 32) × WellFormed p.input };
}

impl Plan {
    /// Returns the plan of a lawful input with these rows. More rows than a `u32` can count are want of memory.
    pub(crate) fn new(input: Input, rows: Vec<Row>) -> Result<Plan, NoMemory>
        requires rows { rows.items ≡ rows_of input }
        requires lawful { check input ≡ None }
        requires formed { WellFormed input }
        ensures { IfOk result (λ plan. plan ≡ input) }
    {
        if rows.len() > u32::MAX as usize {
            return Err(NoMemory);
        }
        let homes = homes_of(input.stores.allocator(), &input, rows.as_slice())?;
        Ok(Plan { input, rows, homes })
    }

    /// Returns the lawful input that the plan was made of.
    pub fn input(&self) -> &Input
        ensures value { result.now ≡ self.now }
        ensures lawful { check self.now ≡ None }
        ensures formed { WellFormed self.now }
    {
        &self.input
    }

    /// States what holds of the regions of every lawful plan. It does nothing: its contract tells it.
    #[tactic(auto, using(crate::proofs::LawfulPlans::plan_laws))]
    pub fn laws(&self)
        ensures { PlanLaws self.now }
    {
        let _ = &self.input;
    }

    /// States that a region's part at an index is the same on each store that it has come to the index on. It does
    /// nothing: its contract tells it.
    #[tactic(auto, using(crate::proofs::LawfulPlans::stores_agree))]
    pub fn agree(&self)
        ensures { StoresAgree self.now }
    {
        let _ = &self.input;
    }

    /// How many stores there are: at most 64.
    pub fn stores(&self) -> u32
        ensures count { result ≡ length self.now.stores }
        ensures few { result ≤ 64 }
    {
        self.input().stores.len() as u32
    }

    /// Returns how many addresses there are.
    pub fn count(&self) -> u32
        ensures { result ≡ length (rows_of self.now) }
    {
        self.rows.len() as u32
    }

    /// Returns the address of the region on the store, found by search. `None` exactly where the region is never made
    /// there.
    pub fn find(&self, store: u64, region: u64) -> Option<u32>
        ensures { result ≡ position (is_at store region) (rows_of self.now) }
    {
        match place_of(self.rows.as_slice(), store, region) {
            None => None,
            Some(place) => Some(place as u32),
        }
    }

    fn row(&self, a: u32) -> &Row
        requires { a < length (rows_of self.now) }
        ensures { slice_get (rows_of self.now) a ≡ Some result.now }
    {
        &self.rows[a as usize]
    }

    /// Returns the ids of the store and of the region.
    pub fn address(&self, a: u32) -> (u64, u64)
        requires { a < length (rows_of self.now) }
        ensures { result ≡ address_of self.now a }
    {
        let row = self.row(a);
        (row.store, row.region)
    }

    /// The place of the address's store among the plan's stores, counted from 0.
    pub fn place(&self, a: u32) -> u32
        requires { a < length (rows_of self.now) }
        ensures place { result ≡ store_place self.now a }
        ensures within { result < length self.now.stores }
    {
        let (store, _) = self.address(a);
        match place_of_store(self.input(), store) {
            None => 0,
            Some(place) => place as u32,
        }
    }

    /// Returns how the region came to be.
    pub fn maker(&self, a: u32) -> Maker
        requires { a < length (rows_of self.now) }
        ensures { result ≡ maker_of self.now a }
    {
        let row = self.row(a);
        match row.origin {
            Origin::Boot => Maker::Boot,
            Origin::Split { parent, index } => match self.find(row.store, parent) {
                None => Maker::Boot,
                Some(parent) => Maker::Split { parent, index },
            },
        }
    }

    /// Returns the index of the last entry that the region applies; `INIT_INDEX` if it applies none.
    pub fn stop(&self, a: u32) -> u64
        requires { a < length (rows_of self.now) }
        ensures { result ≡ stop_of self.now a }
    {
        self.row(a).stop
    }

    /// How many entries the store's own log of the region has: at most 1,048,576.
    pub fn own(&self, a: u32) -> u64
        requires { a < length (rows_of self.now) }
        ensures value { result ≡ own_of self.now a }
        ensures few { result ≤ 1048576 }
    {
        let _ = self.input();
        self.row(a).own
    }

    /// Returns the region's mode after its last entry.
    pub fn ends(&self, a: u32) -> Mode
        requires { a < length (rows_of self.now) }
        ensures { result ≡ ends_of self.now a }
    {
        self.row(a).ends
    }

    /// Returns the region's entry at the index: that of the store's own log, else the first that one of its commits
    /// carries.
    pub fn entry(&self, a: u32, index: u64) -> Option<Line<'_>>
        requires address { a < length (rows_of self.now) }
        requires index { 6 ≤ index }
        ensures entry { option_map line_entry result ≡ line_at self.now (address_of self.now a) index }
        ensures formed { IfSome result (λ line. IsFormed (line_entry line).body) }
    {
        let _ = &self.input;
        match self.entry_near(a, index) {
            Some(line) => Some(line),
            None => self.entry_anywhere(a, index),
        }
    }

    /// Returns the entry, where it stands at the region's home.
    fn entry_near(&self, a: u32, index: u64) -> Option<Line<'_>>
        requires address { a < length (rows_of self.now) }
        requires index { 6 ≤ index }
        ensures { IfSome result (λ line. line_at self.now (address_of self.now a) index ≡ Some (line_entry line)) }
    {
        let (id, region) = self.address(a);
        let home = self.homes.get(a as usize)?;
        let Some(store) = store_at(&self.input, home.store) else {
            return None;
        };
        if store.id != id {
            return None;
        }
        line_near(store, home, region, index)
    }

    /// Returns the entry, looked for in all logs of the region's store.
    #[tactic(auto, using(crate::proofs::Wellness::rising_logs))]
    fn entry_anywhere(&self, a: u32, index: u64) -> Option<Line<'_>>
        requires address { a < length (rows_of self.now) }
        requires index { 6 ≤ index }
        ensures { option_map line_entry result ≡ line_at self.now (address_of self.now a) index }
    {
        let (store, region) = self.address(a);
        line_of(self.input.stores.as_slice(), store, region, index)
    }

    /// Returns how many splits, prepares, commits, rollbacks and changes of peers the region accepts.
    pub fn reshapings(&self, a: u32) -> u64
        requires { a < length (rows_of self.now) }
        ensures { result ≡ length (reshapings_of self.now a) }
    {
        self.row(a).reshapings.len() as u64
    }

    /// Returns the index of the nth of these entries, counted from 1.
    pub fn reshaping(&self, a: u32, nth: u64) -> u64
        requires address { a < length (rows_of self.now) }
        requires from { 1 ≤ nth }
        requires to { nth ≤ length (reshapings_of self.now a) }
        ensures { slice_get (reshapings_of self.now a) (nth - 1) ≡ Some result }
    {
        self.row(a).reshapings.as_slice()[(nth - 1) as usize]
    }
}

fn store_at(input: &Input, place: usize) -> Option<&Store>
    ensures { option_copied result ≡ slice_get input.now.stores place }
{
    input.stores.as_slice().get(place)
}

fn place_of_store(input: &Input, store: u64) -> Option<usize>
    requires { length input.now.stores ≤ 64 }
    ensures place { result ≡ position (λ s. s.id == store) input.now.stores }
    ensures within { IfSome result (λ place. place < length input.now.stores) }
{
    input.stores.as_slice().iter().position(|s| s.id == store)
}
