ghost use Rattle.std.specs.Prelude.{◌≡◌, ◌+◌, ◌<◌, ◌^◌, None, true, false, IfOk, IfSome, IfNone};
ghost use Rattle.std.specs.Option.{option_map};
ghost use Rattle.rs_store.specs.Stores.{opening, ids_of, entries_in, is_ready, least_ready, step};
ghost use Rattle.rs_store.specs.Runs.{seen, bare, next_in, line_entry};
ghost use Rattle.rs_store.specs.Formed.{IsFormedOne};
ghost use Rattle.rs_store.specs.Places.{known};
ghost use Rattle.rs_store.specs.Cursor.{MayPass};
ghost use Rattle.rs_store.specs.Walks.{IsNextEntry, IsWalk, Goes, Keeps, Leads, store_of, made_by, taken};

use crate::carriers::Carriers;
use crate::counts::entries_in;
use crate::cursor::{is_calm, may_pass, may_stay, ready_from};
use crate::effect::Effect;
use crate::fault::StepFault;
use crate::indexed_store::IndexedStore;
use crate::next_entry::{NextEntry, next_entry_of};
use crate::opening::opening;
use crate::place_map::PlaceMap;
use crate::readiness::{is_ready, look, next, stands};
use crate::regions::Regions;
use crate::step::step;
use crate::survey::Survey;
use rs_entry::Store;
use rs_key::NoMemory;
use rs_region::Line;
use std::alloc::Global;

/// A walk through an order of a store, step by step.
///
/// No region before the cursor is ready, and who stands before a merge is known. A step that changes nothing for
/// other regions leaves both as they are; after any other both are made anew.
#[derive(Drop)]
pub struct Walk<'a> {
    pub indexed: IndexedStore<'a>,
    awaited: PlaceMap,
    pub regions: Regions,
    standing: Carriers,
    cursor: usize,
    steps: usize,
}

/// The result of an advance of a walk.
#[derive(Drop)]
pub enum Advance<'a> {
    /// The least region that was ready took its next entry.
    Took(Effect<'a>),
    /// No region is ready.
    Rests,
    /// The entry can't be applied. The walk ends there.
    Broke(StepFault),
}

/// The regions where a walk ended.
#[derive(Drop)]
pub struct Arrived {
    /// The regions that the store may have, by id.
    pub ids: Vec<u64>,
    pub regions: Regions,
}

impl<'a> Walk<'a> {
    /// Returns the walk's beginning, with the regions that are there from the start.
    pub fn new(alloc: Global, store: &'a Store) -> Result<Walk<'a>, NoMemory>
        requires { IsFormedOne store.now }
        ensures walk { IfOk result (λ w. IsWalk w) }
        ensures store { IfOk result (λ w. store_of w ≡ store.now) }
        ensures made { IfOk result (λ w. made_by w ≡ (opening store.now).region) }
        ensures steps { IfOk result (λ w. w.steps ≡ 0) }
    {
        let Survey {
            ids,
            awaited,
            merges,
        } = Survey::of(alloc, store)?;
        let indexed = IndexedStore::new(alloc, store, ids, merges)?;
        let regions = opening(alloc, &indexed)?;
        let standing = Carriers::of(alloc, &indexed, &regions)?;
        Ok(Walk {
            indexed,
            awaited,
            regions,
            standing,
            cursor: 0,
            steps: 0,
        })
    }

    /// Returns the least region that is ready; `None` if none is.
    pub fn least_ready(&mut self) -> Option<u64>
        requires walk { IsWalk self.old }
        requires few { self.old.steps < 2 ^ 50 }
        ensures ready { result ≡ least_ready (store_of self.old) (bare (made_by self.old)) }
        ensures first { IfSome result (λ id. is_ready (store_of self.new) (bare (made_by self.new)) id ≡ true) }
        ensures walk { IsWalk self.new }
        ensures store { store_of self.new ≡ store_of self.old }
        ensures made { made_by self.new ≡ made_by self.old }
        ensures steps { self.new.steps ≡ self.old.steps }
        ensures rests { IfNone result (self.new ≡ self.old) }
    {
        let ids = self.indexed.ids();
        let Some(at) = ready_from(
            &self.indexed,
            &self.standing,
            ids,
            &self.regions,
            self.cursor,
        ) else {
            return None;
        };
        let id = ids[at];
        self.cursor = at;
        Some(id)
    }

    /// Returns the region's next entry, if the region's own log or a commit has it.
    pub fn line(&self, id: u64) -> Option<Line<'a>>
        requires walk { IsWalk self.now }
        requires few { self.now.steps < 2 ^ 50 }
        ensures { option_map line_entry result ≡ next_in (store_of self.now) (bare (made_by self.now)) id (made_by self.now id) }
    {
        let Some(made) = self.regions.get(id) else {
            return None;
        };
        next(&self.indexed, &self.standing, &self.regions, id, made)
    }

    /// Passes the region's next entry, which changes nothing for others.
    fn pass_next(&mut self, id: u64, next_entry: NextEntry<'a>) -> Result<Advance<'a>, NoMemory>
        requires walk { IsWalk self.old }
        requires few { self.old.steps < 2 ^ 50 }
        requires ready { is_ready (store_of self.old) (bare (made_by self.old)) id ≡ true }
        requires next_entry { IsNextEntry (store_of self.old) (made_by self.old) id next_entry }
        requires may { MayPass (store_of self.old) (known self.old.awaited) (made_by self.old) id }
        ensures walk { IfOk result (λ a. Keeps self.old self.new a) }
        ensures goes { IfOk result (λ a. Goes (step (store_of self.old) (bare (made_by self.old)) id) (made_by self.new) a) }
    {
        self.steps += 1;
        match step(&self.indexed, &mut self.regions, id, next_entry)? {
            Ok(effect) => Ok(Advance::Took(effect)),
            Err(fault) => Ok(Advance::Broke(fault)),
        }
    }

    /// Applies the region's next entry, whatever it changes. After NoMemory the walk can't go on.
    fn apply_next(
        &mut self,
        alloc: Global,
        id: u64,
        next_entry: NextEntry<'a>,
    ) -> Result<Advance<'a>, NoMemory>
        requires walk { IsWalk self.old }
        requires few { self.old.steps < 2 ^ 50 }
        requires ready { is_ready (store_of self.old) (bare (made_by self.old)) id ≡ true }
        requires next_entry { IsNextEntry (store_of self.old) (made_by self.old) id next_entry }
        ensures walk { IfOk result (λ a. Keeps self.old self.new a) }
        ensures goes { IfOk result (λ a. Goes (step (store_of self.old) (bare (made_by self.old)) id) (made_by self.new) a) }
    {
        let calm = is_calm(&self.indexed, &self.awaited, &self.regions, id, next_entry);
        self.steps += 1;
        let effect = match step(&self.indexed, &mut self.regions, id, next_entry)? {
            Ok(effect) => effect,
            Err(fault) => return Ok(Advance::Broke(fault)),
        };
        look(&mut self.indexed, &self.regions, id)?;
        let lone = stands(&self.indexed, &self.regions, id).is_none();
        if may_stay(calm, lone) {
            return Ok(Advance::Took(effect));
        }
        self.cursor = 0;
        self.standing = Carriers::of(alloc, &self.indexed, &self.regions)?;
        Ok(Advance::Took(effect))
    }

    /// Returns the most steps that the canonical order has.
    pub fn most(&self) -> usize
        requires { IsWalk self.now }
        ensures { result ≡ entries_in (store_of self.now) }
    {
        entries_in(self.indexed.store())
    }

    /// Takes the next step of the canonical order. Where memory runs out the walk is of no more use.
    pub fn advance(&mut self, alloc: Global) -> Result<Advance<'a>, NoMemory>
        requires walk { IsWalk self.old }
        requires few { taken self.old < entries_in (store_of self.old) }
        ensures walk { IfOk result (λ a. Keeps self.old self.new a) }
        ensures leads { IfOk result (λ a. Leads (store_of self.old) (made_by self.old) (made_by self.new) a) }
    {
        let Some(id) = self.least_ready() else {
            return Ok(Advance::Rests);
        };
        self.take(alloc, id)
    }

    /// Returns whether the region is ready.
    pub fn is_ready(&self, id: u64) -> bool
        requires walk { IsWalk self.now }
        requires few { self.now.steps < 2 ^ 50 }
        ensures { result ≡ is_ready (store_of self.now) (bare (made_by self.now)) id }
    {
        is_ready(&self.indexed, &self.standing, &self.regions, id)
    }

    /// Takes the next entry of a region that is ready. Where memory runs out the walk is of no more use.
    pub fn take(&mut self, alloc: Global, id: u64) -> Result<Advance<'a>, NoMemory>
        requires walk { IsWalk self.old }
        requires few { taken self.old < entries_in (store_of self.old) }
        requires ready { is_ready (store_of self.old) (bare (made_by self.old)) id ≡ true }
        ensures walk { IfOk result (λ a. Keeps self.old self.new a) }
        ensures goes { IfOk result (λ a. Goes (step (store_of self.old) (bare (made_by self.old)) id) (made_by self.new) a) }
    {
        let Some(next_entry) = next_entry_of(&self.indexed, &self.standing, &self.regions, id)
        else {
            unreachable!()
        };
        if may_pass(&self.indexed, &self.awaited, &self.regions, id, next_entry) {
            return self.pass_next(id, next_entry);
        }
        self.apply_next(alloc, id, next_entry)
    }

    /// Returns the regions where the walk stands.
    pub fn finish(self) -> Arrived
        requires { IsWalk self }
        ensures ids { result.ids.items ≡ ids_of (store_of self.entry) }
        ensures regions { seen result.regions ≡ made_by self.entry }
    {
        let Walk {
            indexed,
            regions,
            ..
        } = self;
        Arrived {
            ids: indexed.into_ids(),
            regions,
        }
    }
}
