ghost use Rattle.std.specs.Prelude.{◌≡◌, ◌<◌, ◌||◌, ◌&&◌, ◌↔◌, ℕ, true, false, IsTrue, OnOk, OnErr, IfOk, MatchOption};
ghost use Rattle.std.specs.Option.{option_copied};
ghost use Rattle.rs_region.specs.declared.state.RegionState.{RegionState};
ghost use Rattle.rs_key.specs.Ranges.{holds};
ghost use Rattle.rs_store.specs.Stores.{is_live};
ghost use Rattle.rs_part.specs.Counting.{IsAmong};
ghost use Rattle.rs_check.specs.Tables.{owner};
ghost use Rattle.rs_check.specs.Values.{count_of, region_of};
ghost use Rattle.rs_table.specs.Covers.{IsOwner, NoneOwns};
ghost use Rattle.rs_table.specs.Cuts.{AllTold, AreKnown, IsCut, IsFull, IsGreatest, IsIn, is_known, is_on};
ghost use Rattle.rs_table.specs.Moves.{nothing_covered};
ghost use Rattle.rs_table.specs.Rows.{IsTable, final_state, state_of};
ghost use Rattle.rs_table.specs.Tellings.{has, is_this, nothing, numbers};

use crate::cut::Growing;
use crate::laws::table_laws;
use crate::needs::is_on;
use crate::place::find;
use rs_check::{Plan, RegionTable};
use rs_key::{Key, NoMemory};
use rs_region::RegionState;
use std::alloc::Global;

/// The reshapings told of a store, and the table of a cut of it: of the greatest, unless memory ran out.
#[derive(Drop)]
pub struct StoreTable<'p> {
    growing: Growing<'p>,
    /// Whether a call has met want of memory.
    spent: bool,
    ghost greatest: { spent ≡ false → IsGreatest growing.cut.plan.now growing.cut.place (has growing.told) (numbers growing.cut.taken.items) },
}

impl<'p> StoreTable<'p> {
    ghost use Rattle.rs_table.specs.Views.{cut_of, input_of, is_spent, place_of, rows_of, told_of};

    /// Returns the table of the store at the place, counted from 0, of which nothing was told.
    pub fn new(alloc: Global, plan: &'p Plan, place: u32) -> Result<StoreTable<'p>, NoMemory>
        ensures plan { IfOk result (λ t. input_of t ≡ plan.now) }
        ensures place { IfOk result (λ t. place_of t ≡ place) }
        ensures fresh { IfOk result (λ t. is_spent t ≡ false) }
        ensures told { IfOk result (λ t. told_of t ≡ nothing) }
        ensures none { IfOk result (λ t. cut_of t ≡ nothing_covered) }
    {
        Ok(StoreTable {
            growing: Growing::new(alloc, plan, place)?,
            spent: false,
        })
    }

    /// Records that the address's nth reshaping, counted from 1, was made. Calls may come in any order and may repeat.
    ///
    /// What the plan doesn't have, what is of another store, and what was told already, changes nothing. What can't follow yet is held back.
    /// After NoMemory the table is that of a cut of what was told, this reshaping too, which contains the cut before;
    /// every later call answers NoMemory and changes nothing.
    pub fn tell(&mut self, address: u32, nth: u64) -> Result<(), NoMemory>
        ensures plan { input_of self.new ≡ input_of self.old }
        ensures place { place_of self.new ≡ place_of self.old }
        ensures was { OnOk result (is_spent self.old ≡ false) }
        ensures fresh { OnOk result (is_spent self.new ≡ false) }
        ensures spent { OnErr result (is_spent self.new ≡ true) }
        ensures later { is_spent self.old ≡ true → self.new ≡ self.old }
        ensures unknown { is_known (input_of self.old) (place_of self.old) address nth ≡ false → self.new ≡ self.old }
        ensures again { told_of self.old address nth ≡ true → self.new ≡ self.old }
        ensures ok { OnOk result ((a n : ℕ) → told_of self.new a n ≡ told_of self.old a n || (is_this address nth a n && is_known (input_of self.old) (place_of self.old) a n)) }
        ensures told { (a n : ℕ) → told_of self.new a n ≡ true → (told_of self.old a n || (is_this address nth a n && is_known (input_of self.old) (place_of self.old) a n)) ≡ true }
        ensures more { IsIn (cut_of self.old) (cut_of self.new) }
    {
        if self.spent {
            return Err(NoMemory);
        }
        if !is_known(self.growing.cut.plan, self.growing.cut.place, address, nth) {
            return Ok(());
        }
        if self.growing.told.has(address, nth) {
            return Ok(());
        }
        self.spent = true;
        self.growing.tell(address, nth)?;
        self.spent = false;
        Ok(())
    }

    /// Returns the store's place among the plan's stores, counted from 0.
    pub fn place(&self) -> u32
        ensures { result ≡ place_of self.now }
    {
        self.growing.cut.place
    }

    /// Returns whether a call has met want of memory.
    pub fn is_spent(&self) -> bool
        ensures { result ≡ is_spent self.now }
    {
        self.spent
    }

    /// Returns the states of the regions that the cut has, by id. It takes no memory.
    pub fn table(&self) -> &RegionTable
        ensures value { result.now ≡ rows_of self.now }
        ensures table { IsTable (input_of self.now) (place_of self.now) (cut_of self.now) (rows_of self.now) }
        ensures cut { IsCut (input_of self.now) (place_of self.now) (cut_of self.now) }
        ensures known { AreKnown (input_of self.now) (place_of self.now) (told_of self.now) }
        ensures told { AllTold (told_of self.now) (cut_of self.now) }
        ensures greatest { is_spent self.now ≡ false → IsGreatest (input_of self.now) (place_of self.now) (told_of self.now) (cut_of self.now) }
    {
        &self.growing.cut.table
    }

    /// Returns the state of the address's region in the table. Once the table has every reshaping it is the one that
    /// the plan ends the region with. It takes no memory.
    pub fn state(&self, a: u32) -> Option<&RegionState>
        requires { a < count_of (input_of self.now) }
        ensures value { option_copied result ≡ state_of (rows_of self.now) (region_of (input_of self.now) a) }
        ensures ended { IsFull (input_of self.now) (place_of self.now) (cut_of self.now) → is_on (input_of self.now) (place_of self.now) a ≡ true → option_copied result ≡ final_state (input_of self.now) a }
    {
        table_laws(self.growing.cut.plan, self.growing.cut.place);
        let (_, region) = self.growing.cut.plan.address(a);
        find(self.table().rows(), region)
    }

    /// How many of the address's reshapings the cut has. It takes no memory.
    pub fn covered(&self, address: u32) -> u64
        requires { address < count_of (input_of self.now) }
        ensures { result ≡ cut_of self.now address }
    {
        self.growing.cut.covered(address)
    }

    /// Returns the live region of the table that holds the key; `None` exactly where none does. It takes no memory.
    pub fn find(&self, key: &Key) -> Option<u64>
        ensures value { result ≡ owner (rows_of self.now) key.now }
        ensures owner { MatchOption result (NoneOwns (rows_of self.now) key.now) (IsOwner (rows_of self.now) key.now) }
        ensures alone { (id : ℕ) → IsOwner (rows_of self.now) key.now id → result ≡ Some id }
    {
        table_laws(self.growing.cut.plan, self.growing.cut.place);
        self.growing.cut.table.find(key)
    }

    /// Returns whether every reshaping of the store's addresses is in the table. It takes no memory.
    pub fn is_full(&self) -> bool
        ensures { IsTrue result ↔ IsFull (input_of self.now) (place_of self.now) (cut_of self.now) }
    {
        self.growing.unfinished == 0
    }
}

/// Returns whether the plan has the reshaping, and it is of the store at the place.
fn is_known(plan: &Plan, place: u32, a: u32, nth: u64) -> bool
    ensures { result ≡ is_known plan.now place a nth }
{
    is_on(plan, place, a) && nth >= 1 && nth <= plan.reshapings(a)
}
