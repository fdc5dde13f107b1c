//! A cut that grows by what is told.

ghost use Rattle.std.specs.Prelude.{◌≡◌, ◌+◌, ◌<◌, ◌≤◌, ◌⊎◌, ◌||◌, ℕ, Some, true, IsSome, IsTrue, length, OnOk, OnErr, IfOk};
ghost use Rattle.rs_check.specs.Plans.{reshapings_of};
ghost use Rattle.rs_check.specs.Values.{count_of};
ghost use Rattle.rs_table.specs.CutViews.{cut_of, input_of, place_of};
ghost use Rattle.rs_table.specs.Cuts.{AllTold, AreKnown, IsGreatest, IsIn, is_known, is_on};
ghost use Rattle.rs_table.specs.Moves.{IsNext, nothing_covered, raised};
ghost use Rattle.rs_table.specs.Tellings.{AllWait, has, is_among, is_this, left_below, may_grow, nothing, open_below, waiters};

use crate::cut_table::CutTable;
use crate::laws::moves;
use crate::opening::{all_waits, unfinished};
use crate::told::Told;
use crate::waiters::Waiters;
use rs_check::Plan;
use rs_key::NoMemory;
use std::alloc::Global;

/// What was told of a store, and the cut of it that is taken.
#[derive(Drop)]
pub struct Growing<'p> {
    pub cut: CutTable<'p>,
    pub told: Told,
    /// The number of addresses that have a reshaping that the cut doesn't cover.
    pub unfinished: u32,
    waits: Waiters,
    ghost known: { AreKnown (input_of cut) (place_of cut) (has told) },
    ghost waiting: { AllWait (input_of cut) (place_of cut) (waiters waits) },
    ghost counted: { unfinished ≡ open_below (input_of cut) (place_of cut) (cut_of cut) (count_of (input_of cut)) },
    ghost told_all: { AllTold (has told) (cut_of cut) },
}

/// Takes the address's next reshaping into the cut, and counts the addresses that have more.
fn take_in(cut: &mut CutTable<'_>, unfinished: &mut u32, a: u32) -> Result<(), NoMemory>
    requires next { IsNext (input_of cut.old) (place_of cut.old) (cut_of cut.old) a }
    requires below { a < count_of (input_of cut.old) }
    requires counted { unfinished.old ≡ open_below (input_of cut.old) (place_of cut.old) (cut_of cut.old) (count_of (input_of cut.old)) }
    ensures plan { cut.new.plan ≡ cut.old.plan }
    ensures place { place_of cut.new ≡ place_of cut.old }
    ensures ok { OnOk result (cut_of cut.new ≡ raised (cut_of cut.old) a) }
    ensures err { OnErr result (cut_of cut.new ≡ cut_of cut.old) }
    ensures counted { unfinished.new ≡ open_below (input_of cut.new) (place_of cut.new) (cut_of cut.new) (count_of (input_of cut.new)) }
{
    cut.step(a)?;
    if cut.covered(a) == cut.plan.reshapings(a) {
        *unfinished -= 1;
    }
    Ok(())
}

impl<'p> Growing<'p> {
    /// Returns the store at the place, of which nothing was told.
    pub fn new(alloc: Global, plan: &'p Plan, place: u32) -> Result<Growing<'p>, NoMemory>
        ensures plan { IfOk result (λ m. input_of m.cut ≡ plan.now) }
        ensures place { IfOk result (λ m. place_of m.cut ≡ place) }
        ensures told { IfOk result (λ m. has m.told ≡ nothing) }
        ensures none { IfOk result (λ m. cut_of m.cut ≡ nothing_covered) }
        ensures greatest { IfOk result (λ m. IsGreatest (input_of m.cut) (place_of m.cut) (has m.told) (cut_of m.cut)) }
    {
        moves(plan, place);
        let cut = CutTable::new(alloc, plan, place)?;
        let waits = all_waits(alloc, plan, place, &cut.needs)?;
        Ok(Growing {
            cut,
            told: Told::new(alloc),
            unfinished: unfinished(plan, place),
            waits,
        })
    }

    /// Whether the address's next reshaping was told, and can follow.
    fn may(&self, a: u32) -> bool
        ensures may { result ≡ may_grow (input_of self.now.cut) (has self.now.told) (cut_of self.now.cut) a }
        ensures below { IsTrue result → a < count_of (input_of self.now.cut) }
    {
        moves(self.cut.plan, self.cut.place);
        self.cut.follows(a) && self.told.has(a, self.cut.covered(a) + 1)
    }

    /// Returns the last of these addresses whose next reshaping can follow; those behind it are taken out.
    fn next(&self, work: &mut Vec<u32>) -> Option<u32>
        ensures found { (a : ℕ) → result ≡ Some a → may_grow (input_of self.now.cut) (has self.now.told) (cut_of self.now.cut) a ≡ true }
        ensures below { (a : ℕ) → result ≡ Some a → a < count_of (input_of self.now.cut) }
        ensures kept { (x : ℕ) → is_among x work.old.items ≡ true → may_grow (input_of self.now.cut) (has self.now.told) (cut_of self.now.cut) x ≡ true → (result ≡ Some x) ⊎ (IsSome result × (is_among x work.new.items ≡ true)) }
    {
        while let Some(a) = work.pop() {
            if self.may(a) {
                return Some(a);
            }
        }
        None
    }

    /// Takes the address's next reshaping into the cut.
    fn take(&mut self, a: u32) -> Result<(), NoMemory>
        requires grows { may_grow (input_of self.old.cut) (has self.old.told) (cut_of self.old.cut) a ≡ true }
        requires below { a < count_of (input_of self.old.cut) }
        ensures plan { self.new.cut.plan ≡ self.old.cut.plan }
        ensures place { place_of self.new.cut ≡ place_of self.old.cut }
        ensures told { self.new.told ≡ self.old.told }
        ensures ok { OnOk result (cut_of self.new.cut ≡ raised (cut_of self.old.cut) a) }
        ensures err { OnErr result (cut_of self.new.cut ≡ cut_of self.old.cut) }
    {
        take_in(&mut self.cut, &mut self.unfinished, a)
    }

    /// Takes the address's next reshaping into the cut, and adds the addresses whose next one can follow by that.
    fn step(&mut self, a: u32, work: &mut Vec<u32>) -> Result<(), NoMemory>
        requires grows { may_grow (input_of self.old.cut) (has self.old.told) (cut_of self.old.cut) a ≡ true }
        requires below { a < count_of (input_of self.old.cut) }
        requires all { (x : ℕ) → may_grow (input_of self.old.cut) (has self.old.told) (cut_of self.old.cut) x ≡ true → (x ≡ a) ⊎ (is_among x work.old.items ≡ true) }
        ensures plan { self.new.cut.plan ≡ self.old.cut.plan }
        ensures place { place_of self.new.cut ≡ place_of self.old.cut }
        ensures told { self.new.told ≡ self.old.told }
        ensures more { IsIn (cut_of self.old.cut) (cut_of self.new.cut) }
        ensures falls { OnOk result (left_below (input_of self.new.cut) (place_of self.new.cut) (cut_of self.new.cut) (count_of (input_of self.new.cut)) < left_below (input_of self.old.cut) (place_of self.old.cut) (cut_of self.old.cut) (count_of (input_of self.old.cut))) }
        ensures all { OnOk result ((x : ℕ) → may_grow (input_of self.new.cut) (has self.new.told) (cut_of self.new.cut) x ≡ true → is_among x work.new.items ≡ true) }
    {
        self.take(a)?;
        work.push(a)?;
        let nth = self.cut.covered(a);
        work.extend_from_slice(self.waits.get(a, nth))?;
        Ok(())
    }

    /// Takes all that can follow, where at most these addresses have a next reshaping that can.
    fn grow(&mut self, work: &mut Vec<u32>) -> Result<(), NoMemory>
        requires all { (x : ℕ) → may_grow (input_of self.old.cut) (has self.old.told) (cut_of self.old.cut) x ≡ true → is_among x work.old.items ≡ true }
        ensures plan { self.new.cut.plan ≡ self.old.cut.plan }
        ensures place { place_of self.new.cut ≡ place_of self.old.cut }
        ensures told { self.new.told ≡ self.old.told }
        ensures more { IsIn (cut_of self.old.cut) (cut_of self.new.cut) }
        ensures greatest { OnOk result (IsGreatest (input_of self.new.cut) (place_of self.new.cut) (has self.new.told) (cut_of self.new.cut)) }
    {
        moves(self.cut.plan, self.cut.place);
        while let Some(a) = self.next(work) {
            self.step(a, work)?;
        }
        Ok(())
    }

    /// Notes a reshaping of the store's as told, and takes all that can follow.
    pub fn tell(&mut self, a: u32, nth: u64) -> Result<(), NoMemory>
        requires known { is_known (input_of self.old.cut) (place_of self.old.cut) a nth ≡ true }
        requires greatest { IsGreatest (input_of self.old.cut) (place_of self.old.cut) (has self.old.told) (cut_of self.old.cut) }
        ensures plan { self.new.cut.plan ≡ self.old.cut.plan }
        ensures place { place_of self.new.cut ≡ place_of self.old.cut }
        ensures ok { OnOk result ((b n : ℕ) → has self.new.told b n ≡ has self.old.told b n || is_this a nth b n) }
        ensures told { (b n : ℕ) → has self.new.told b n ≡ true → (has self.old.told b n || is_this a nth b n) ≡ true }
        ensures more { IsIn (cut_of self.old.cut) (cut_of self.new.cut) }
        ensures greatest { OnOk result (IsGreatest (input_of self.new.cut) (place_of self.new.cut) (has self.new.told) (cut_of self.new.cut)) }
    {
        let mut work = vec![in *self.cut.taken.allocator(); a]?;
        self.told.put(a, nth)?;
        self.grow(&mut work)
    }
}
