//! A cut that takes one reshaping at a time, with its table.

ghost use Rattle.std.specs.Prelude.{◌≡◌, ◌+◌, ◌<◌, ◌≤◌, ◌↔◌, ℕ, Some, true, false, length, IfOk, IsTrue, MatchOption, OnErr, OnOk};
ghost use Rattle.rs_store.specs.Runs.{line_entry};
ghost use Rattle.rs_check.specs.Plans.{reshapings_of};
ghost use Rattle.rs_check.specs.Tables.{owner};
ghost use Rattle.rs_check.specs.Values.{count_of, region_of};
ghost use Rattle.rs_table.specs.Changes.{with_states};
ghost use Rattle.rs_table.specs.Covers.{IsOwner, NoneOwns};
ghost use Rattle.rs_table.specs.Cuts.{IsCut, IsFull, covers, entry_of_nth, is_on, prepare_of, size_of};
ghost use Rattle.rs_table.specs.Moves.{IsLeastNext, IsNext, IsReady, nothing_covered, raised};
ghost use Rattle.rs_table.specs.Rows.{IsTable, state_of, table_of};
ghost use Rattle.rs_table.specs.Tellings.{can_follow, has_needs, needs_below, needs_of, numbers};

use crate::changes::changed;
use crate::laws::{moves, sizes, table_laws};
use crate::needs::{Needs, all_needs, entry_of_nth, is_on};
use crate::opening::{none_taken, opening_table};
use crate::place::{find, put_all};
use rs_check::{Line, Plan, RegionTable};
use rs_key::{Key, NoMemory, Rows};
use rs_region::RegionState;
use std::alloc::Global;

/// A cut of a store's reshapings: of each address the first ones, of a child's only after the split that made it, and a
/// commit only after its source's prepare. With it goes the table of the regions as the cut leaves them.
#[derive(Drop)]
pub struct CutTable<'p> {
    pub(crate) plan: &'p Plan,
    pub(crate) place: u32,
    /// How many reshapings of each address the cut covers.
    pub(crate) taken: Vec<u64>,
    pub(crate) table: RegionTable,
    /// How many reshapings it covers.
    size: u64,
    pub(crate) needs: Vec<Needs>,
    ghost sized: { length taken.items ≡ count_of plan.now },
    ghost needed: { needs.items ≡ needs_below plan.now place (count_of plan.now) },
    ghost cut: { IsCut plan.now place (numbers taken.items) },
    ghost tied: { IsTable plan.now place (numbers taken.items) table },
    ghost summed: { size ≡ size_of plan.now (numbers taken.items) },
}

/// Whether the cut covers the reshaping, where there is one.
fn covers(taken: &[u64], need: Option<(u32, u64)>) -> bool
    ensures { result ≡ covers (numbers taken.now) need }
{
    match need {
        None => true,
        Some((a, nth)) => match taken.get(a as usize) {
            None => nth == 0,
            Some(n) => nth <= *n,
        },
    }
}

/// The address's state in the table, and the entry of its next reshaping.
fn next_of<'a>(
    plan: &'a Plan,
    place: u32,
    taken: &[u64],
    a: u32,
    nth: u64,
    table: &'a RegionTable,
) -> (&'a RegionState, Line<'a>)
    requires here { a < count_of plan.now }
    requires nth { nth ≡ numbers taken.now a + 1 }
    requires next { IsNext plan.now place (numbers taken.now) a }
    requires table { IsTable plan.now place (numbers taken.now) table.now }
    ensures state { state_of table.now (region_of plan.now a) ≡ Some result.0.now }
    ensures entry { entry_of_nth plan.now a (numbers taken.now a + 1) ≡ Some (line_entry result.1) }
    ensures ready { IsReady table.now result.0.now (line_entry result.1).body }
{
    moves(plan, place);
    let Some(line) = entry_of_nth(plan, a, nth) else {
        unreachable!()
    };
    let Some(state) = find(table.rows(), plan.address(a).1) else {
        unreachable!()
    };
    (state, line)
}

/// Makes the address's next reshaping in the table.
fn execute(
    plan: &Plan,
    place: u32,
    taken: &[u64],
    a: u32,
    nth: u64,
    table: &mut RegionTable,
) -> Result<(), NoMemory>
    requires here { a < count_of plan.now }
    requires nth { nth ≡ numbers taken.now a + 1 }
    requires next { IsNext plan.now place (numbers taken.now) a }
    requires table { IsTable plan.now place (numbers taken.now) table.old }
    ensures ok { OnOk result (IsTable plan.now place (raised (numbers taken.now) a) table.new) }
    ensures err { OnErr result (table.new ≡ table.old) }
{
    let states = changes_of(plan, place, taken, a, nth, table)?;
    put_all(table, states)
}

/// The states that the address's next reshaping leaves.
fn changes_of(
    plan: &Plan,
    place: u32,
    taken: &[u64],
    a: u32,
    nth: u64,
    table: &RegionTable,
) -> Result<Rows<RegionState>, NoMemory>
    requires here { a < count_of plan.now }
    requires nth { nth ≡ numbers taken.now a + 1 }
    requires next { IsNext plan.now place (numbers taken.now) a }
    requires table { IsTable plan.now place (numbers taken.now) table.now }
    ensures { IfOk result (λ states. IsTable plan.now place (raised (numbers taken.now) a) (with_states states table.now)) }
{
    moves(plan, place);
    let (state, line) = next_of(plan, place, taken, a, nth, table);
    let (store, _) = plan.address(a);
    changed(store, plan.reshaping(a, nth), table.rows(), state, line)
}

/// Returns what the address's reshaping after `taken` others needs beside its birth.
#[tactic(auto, using(crate::proofs::NeedLists::prepare_read, crate::proofs::NeedLists::prepares_length))]
fn prepare_after(plan: &Plan, a: u32, taken: u64, needs: &Needs) -> Option<(u32, u64)>
    requires needs { needs.now ≡ needs_of plan.now a }
    requires more { taken < length (reshapings_of plan.now a) }
    ensures { result ≡ prepare_of plan.now a (taken + 1) }
{
    let _ = plan;
    needs.prepares.as_slice()[taken as usize]
}

impl<'p> CutTable<'p> {
    ghost use Rattle.rs_table.specs.CutViews.{counts_of, cut_of, input_of, place_of};

    /// The cut of the store at the place, counted from 0, that covers nothing.
    pub fn new(alloc: Global, plan: &'p Plan, place: u32) -> Result<CutTable<'p>, NoMemory>
        ensures plan { IfOk result (λ t. input_of t ≡ plan.now) }
        ensures place { IfOk result (λ t. place_of t ≡ place) }
        ensures none { IfOk result (λ t. cut_of t ≡ nothing_covered) }
    {
        moves(plan, place);
        let needs = all_needs(alloc, plan, place)?;
        let taken = none_taken(alloc, plan)?;
        let table = opening_table(alloc, plan, place)?;
        Ok(CutTable {
            plan,
            place,
            taken,
            table,
            size: 0,
            needs,
        })
    }

    /// How many reshapings the cut covers. It takes no memory.
    pub fn size(&self) -> u64
        ensures { result ≡ size_of (input_of self.now) (cut_of self.now) }
    {
        self.size
    }

    /// How many reshapings of the address the cut covers. It takes no memory.
    pub fn covered(&self, address: u32) -> u64
        requires { address < count_of (input_of self.now) }
        ensures { result ≡ cut_of self.now address }
    {
        self.taken[address as usize]
    }

    /// How many reshapings of each address the cut covers, by address. It takes no memory.
    pub fn counts(&self) -> &[u64]
        ensures value { result.now ≡ counts_of self.now }
        ensures len { length result.now ≡ count_of (input_of self.now) }
    {
        self.taken.as_slice()
    }

    /// The states of the regions that the cut has, by id. It takes no memory.
    pub fn table(&self) -> &RegionTable
        ensures cut { IsCut (input_of self.now) (place_of self.now) (cut_of self.now) }
        ensures table { result.now ≡ table_of (input_of self.now) (place_of self.now) (cut_of self.now) }
    {
        table_laws(self.plan, self.place);
        &self.table
    }

    /// The live region of the cut's table that holds the key; None exactly where none does. It takes no memory.
    pub fn find(&self, key: &Key) -> Option<u64>
        ensures value { result ≡ owner (table_of (input_of self.now) (place_of self.now) (cut_of self.now)) key.now }
        ensures owner { MatchOption result (NoneOwns (table_of (input_of self.now) (place_of self.now) (cut_of self.now)) key.now) (IsOwner (table_of (input_of self.now) (place_of self.now) (cut_of self.now)) key.now) }
        ensures alone { (id : ℕ) → IsOwner (table_of (input_of self.now) (place_of self.now) (cut_of self.now)) key.now id → result ≡ Some id }
    {
        table_laws(self.plan, self.place);
        self.table().find(key)
    }

    /// Whether the address is one of the store, has a reshaping that the cut doesn't cover, and the cut covers what that needs.
    pub(crate) fn follows(&self, a: u32) -> bool
        ensures follows { result ≡ can_follow (input_of self.now) (place_of self.now) (cut_of self.now) a }
        ensures below { IsTrue result → a < count_of (input_of self.now) }
        ensures more { IsTrue result → cut_of self.now a < length (reshapings_of (input_of self.now) a) }
    {
        if !is_on(self.plan, self.place, a) {
            return false;
        }
        let taken = self.taken[a as usize];
        taken < self.plan.reshapings(a) && self.has_needs(a, taken)
    }

    /// Whether the cut covers what the address's reshaping after `taken` others needs.
    fn has_needs(&self, a: u32, taken: u64) -> bool
        requires on { is_on (input_of self.now) (place_of self.now) a ≡ true }
        requires below { a < count_of (input_of self.now) }
        requires more { taken < length (reshapings_of (input_of self.now) a) }
        ensures { result ≡ has_needs (input_of self.now) (cut_of self.now) a (taken + 1) }
    {
        let needs = self.needs_of(a);
        let prepare = prepare_after(self.plan, a, taken, needs);
        covers(&self.taken, needs.birth) && covers(&self.taken, prepare)
    }

    #[tactic(auto, using(crate::proofs::NeedLists::needs_read, crate::proofs::NeedLists::needs_length))]
    fn needs_of(&self, a: u32) -> &Needs
        requires on { is_on self.now.plan.now self.now.place a ≡ true }
        requires below { a < count_of self.now.plan.now }
        ensures { result.now ≡ needs_of self.now.plan.now a }
    {
        &self.needs[a as usize]
    }

    /// Whether the cut with the address's nth reshaping, counted from 1, is a cut whose size is greater by one. It takes no memory.
    pub fn is_next(&self, address: u32, nth: u64) -> bool
        ensures grows { IsTrue result ↔ (IsCut (input_of self.now) (place_of self.now) (raised (cut_of self.now) address) × (nth ≡ cut_of self.now address + 1)) }
    {
        moves(self.plan, self.place);
        self.follows(address) && nth > 0 && self.taken[address as usize] == nth - 1
    }

    /// The least address whose next reshaping makes a greater cut, and that reshaping's number, counted from 1. None exactly
    /// where the cut covers every reshaping of the store. It takes no memory.
    pub fn next(&self) -> Option<(u32, u64)>
        ensures { MatchOption result (IsFull (input_of self.now) (place_of self.now) (cut_of self.now)) (λ r. IsLeastNext (input_of self.now) (place_of self.now) (cut_of self.now) r.0 × (r.1 ≡ cut_of self.now r.0 + 1)) }
    {
        moves(self.plan, self.place);
        for a in 0..self.plan.count() {
            if self.follows(a) {
                return Some((a, self.taken[a as usize] + 1));
            }
        }
        None
    }

    /// Takes the address's next reshaping, which makes a greater cut. After NoMemory nothing changed.
    pub fn step(&mut self, address: u32) -> Result<(), NoMemory>
        requires grows { IsCut (input_of self.old) (place_of self.old) (raised (cut_of self.old) address) }
        ensures plan { self.new.plan ≡ self.old.plan }
        ensures place { place_of self.new ≡ place_of self.old }
        ensures ok { OnOk result (cut_of self.new ≡ raised (cut_of self.old) address) }
        ensures err { OnErr result (cut_of self.new ≡ cut_of self.old) }
    {
        moves(self.plan, self.place);
        sizes(self.plan, self.place);
        let nth = self.taken[address as usize] + 1;
        execute(
            self.plan,
            self.place,
            &self.taken,
            address,
            nth,
            &mut self.table,
        )?;
        self.size += 1;
        self.taken[address as usize] = nth;
        Ok(())
    }
}
