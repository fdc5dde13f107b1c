ghost use Rattle.std.specs.Prelude.{◌≡◌, ◌<◌, ◌↔◌, ℕ, None, Some, false, true, length, slice_get, IfOk, IsTrue, MatchOption, OnErr, OnOk};
ghost use Rattle.std.specs.Option.{option_map};
ghost use Rattle.rs_check.specs.Tables.{owner};
ghost use Rattle.rs_check.specs.Values.{count_of};
ghost use Rattle.rs_table.specs.Covers.{IsOwner, NoneOwns};
ghost use Rattle.rs_table.specs.Cuts.{AllTold, AreKnown, IsCut, IsGreatest, IsIn};
ghost use Rattle.rs_table.specs.Moves.{nothing_covered};
ghost use Rattle.rs_table.specs.Rows.{IsTable};
ghost use Rattle.rs_table.specs.Tellings.{nothing};
ghost use Rattle.rs_table.specs.Views.{cut_of, input_of, is_spent, place_of, rows_of, told_of};
ghost use Rattle.rs_msg.specs.Names.{name_of_store};
ghost use Rattle.rs_history.specs.Outcomes.{store_outcome};
ghost use Rattle.rs_meta.specs.Machines.{IsComplete, IsFinal, held_after, held_by, is_news, told_after};

use crate::endings::Endings;
use crate::reading::read_off;
use rs_check::{Plan, RegionTable};
use rs_entry::{Input, StoreOutcome};
use rs_key::{Key, NoMemory};
use rs_mailcore::{Fsm, Named};
use rs_msg::StoreMsg;
use rs_table::StoreTable;
use std::alloc::Global;

/// The control machine of a store.
#[derive(Drop)]
pub struct StoreFsm<'p> {
    plan: &'p Plan,
    place: u32,
    endings: Endings<'p>,
    table: StoreTable<'p>,
    ghost endings_plan: { endings.plan ≡ plan },
    ghost endings_place: { endings.place ≡ place },
    ghost table_plan: { input_of table ≡ plan.now },
    ghost table_place: { place_of table ≡ place },
}

impl<'p> StoreFsm<'p> {
    /// Returns the machine of the store at the place, counted from 0. It was told nothing, and holds no ending yet.
    pub fn new(alloc: Global, plan: &'p Plan, place: u32) -> Result<StoreFsm<'p>, NoMemory>
        requires { place < length plan.now.stores }
        ensures plan { IfOk result (λ m. m.plan ≡ plan.entry) }
        ensures place { IfOk result (λ m. m.place ≡ place) }
        ensures fresh { IfOk result (λ m. is_spent m.table ≡ false) }
        ensures none { IfOk result (λ m. (a : ℕ) → held_by m.endings a ≡ None) }
        ensures told { IfOk result (λ m. told_of m.table ≡ nothing) }
        ensures cut { IfOk result (λ m. cut_of m.table ≡ nothing_covered) }
    {
        let endings = Endings::new(alloc, plan, place)?;
        let table = StoreTable::new(alloc, plan, place)?;
        Ok(StoreFsm {
            plan,
            place,
            endings,
            table,
        })
    }

    /// Returns the store's place in the plan, counted from 0.
    pub fn place(&self) -> u32
        ensures place { result ≡ self.now.place }
        ensures there { result < length self.now.plan.now.stores }
    {
        self.place
    }

    /// Tells the machine a message of its plan. Of an address of its store it holds the first ending that comes, and it
    /// records each reshaping of its store that the plan has. Calls may come in any order and may repeat.
    ///
    /// After NoMemory the table is that of a cut of what was told, this message's reshaping too, which contains the cut
    /// before; every later call answers NoMemory and changes nothing.
    pub fn handle(&mut self, msg: StoreMsg<'p>) -> Result<(), NoMemory>
        requires plan { name_of_store msg ≡ self.old.plan.now }
        ensures plan { self.new.plan ≡ self.old.plan }
        ensures place { self.new.place ≡ self.old.place }
        ensures spent { OnErr result (is_spent self.new.table ≡ true) }
        ensures fresh { OnOk result ((is_spent self.old.table ≡ false) × (is_spent self.new.table ≡ false)) }
        ensures later { is_spent self.old.table ≡ true → self.new ≡ self.old }
        ensures held { OnOk result ((a : ℕ) → held_by self.new.endings a ≡ held_after self.old.plan.now self.old.place msg.entry (held_by self.old.endings) a) }
        ensures kept { OnErr result (self.new.endings ≡ self.old.endings) }
        ensures told { OnOk result ((a n : ℕ) → told_of self.new.table a n ≡ told_after self.old.plan.now self.old.place msg.entry (told_of self.old.table) a n) }
        ensures only { (a n : ℕ) → told_of self.new.table a n ≡ true → told_after self.old.plan.now self.old.place msg.entry (told_of self.old.table) a n ≡ true }
        ensures more { IsIn (cut_of self.old.table) (cut_of self.new.table) }
        ensures same { is_news self.old.plan.now self.old.place msg.entry (told_of self.old.table) ≡ false → self.new.table ≡ self.old.table }
    {
        if self.table.is_spent() {
            return Err(NoMemory);
        }
        match msg {
            StoreMsg::Reshaped { address, nth, .. } => self.table.tell(address, nth),
            StoreMsg::Ended { ending } => {
                self.endings.put(Box::into_inner(ending));
                Ok(())
            }
        }
    }

    /// Returns the states of the regions that the cut has, by id. It takes no memory.
    pub fn table(&self) -> &RegionTable
        ensures value { result.now ≡ rows_of self.now.table }
        ensures table { IsTable self.now.plan.now self.now.place (cut_of self.now.table) (rows_of self.now.table) }
        ensures cut { IsCut self.now.plan.now self.now.place (cut_of self.now.table) }
        ensures known { AreKnown self.now.plan.now self.now.place (told_of self.now.table) }
        ensures told { AllTold (told_of self.now.table) (cut_of self.now.table) }
        ensures greatest { is_spent self.now.table ≡ false → IsGreatest self.now.plan.now self.now.place (told_of self.now.table) (cut_of self.now.table) }
    {
        self.table.table()
    }

    /// Returns the live region of the table that holds the key; `None` exactly where none does. It takes no memory.
    pub fn find(&self, key: &Key) -> Option<u64>
        ensures value { result ≡ owner (rows_of self.now.table) key.now }
        ensures owner { MatchOption result (NoneOwns (rows_of self.now.table) key.now) (IsOwner (rows_of self.now.table) key.now) }
        ensures alone { (id : ℕ) → IsOwner (rows_of self.now.table) key.now id → result ≡ Some id }
    {
        self.table.find(key)
    }

    /// Returns whether each address of the store has its ending, and the table each of its reshapings. It takes no
    /// memory.
    pub fn complete(&self) -> bool
        ensures { IsTrue result ↔ IsComplete self.now.plan.now self.now.place (held_by self.now.endings) (cut_of self.now.table) }
    {
        self.endings.complete() && self.table.is_full()
    }

    /// Whether the machine holds the address's ending, and has all of its reshapings in the table. It takes no memory.
    pub fn is_final(&self, address: u32) -> bool
        requires { address < count_of self.now.plan.now }
        ensures { IsTrue result ↔ IsFinal self.now.plan.now address (held_by self.now.endings) (cut_of self.now.table) }
    {
        self.endings.has(address) && self.table.covered(address) == self.plan.reshapings(address)
    }

    /// Returns the store's outcome: its region lines are made of the table, its replies, pairs and histories of the
    /// endings.
    pub fn into_outcome(self) -> Result<StoreOutcome, NoMemory>
        requires complete { IsComplete self.plan.now self.place (held_by self.endings) (cut_of self.table) }
        ensures { IfOk result (λ outcome. option_map store_outcome (slice_get self.entry.plan.now.stores self.entry.place) ≡ Some outcome) }
    {
        let alloc = self.plan.input().stores.allocator();
        let endings = self.endings.into_held(alloc)?;
        read_off(alloc, self.plan, &self.table, endings)
    }
}

impl<'p> Named for StoreFsm<'p> {
    type Name = Input;

    ghost name = { λ machine. machine.plan.now };
}

impl<'p> Fsm for StoreFsm<'p> {
    ghost use Rattle.std.specs.Coded.{Coded-set};
    ghost use Rattle.rs_entry.specs.contracts.input.Input.{the_row};

    type Message = StoreMsg<'p>;

    ghost one_name = { Coded-set the_row.coded };
}
