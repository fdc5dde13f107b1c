ghost use Rattle.std.specs.Prelude.{◌≡◌, ℕ, ◌+◌, ◌<◌, ◌≤◌, length, slice_get, slice_index, ◌==◌, IfOk};
ghost use Rattle.std.specs.List.{find};
ghost use Rattle.std.specs.Option.{option_copied};
ghost use Rattle.rs_store.specs.Stores.{own, ids_of};
ghost use Rattle.rs_store.specs.Indexes.{AreRising, regions_of, log_ids};
ghost use Rattle.rs_store.specs.Joiners.{any_commit, joiners_of};
ghost use Rattle.rs_store.specs.Rollbacks.{has_rollback};

use crate::joiners::joiners_of;
use crate::rollbacks::{Answer, Rollbacks, has_rollback, is_to};
use rs_entry::{Entry, Log, Store};
use rs_key::{Epoch, NoMemory};
use std::alloc::Global;
use std::marker::Model;

/// A store that is run, with the regions that it may make, with its logs by region, and with the rollbacks
/// that were looked for in them.
///
/// Contracts see the store.
#[derive(Drop)]
pub struct IndexedStore<'a> {
    store: &'a Store,
    ids: Vec<u64>,
    joiners: Vec<u64>,
    rollbacks: Rollbacks,
}

impl<'a> Model for IndexedStore<'a> {
    ghost use Rattle.rs_entry.specs.declared.input.Store.{Store};
    ghost use Rattle.rs_store.specs.Indexes.{IsIndexed};
    ghost use Rattle.rs_store.specs.Rollbacks.{answers};

    ghost Value = { Store };

    ghost view = { λ s. s.store.now };

    ghost invariant = { λ s. IsIndexed s.store.now s.ids.items s.joiners.items (answers s.rollbacks) };
}

impl<'a> IndexedStore<'a> {
    /// Returns the store, with the regions that it may make, and whether its logs have a commit.
    pub(crate) fn new(
        alloc: Global,
        store: &'a Store,
        ids: Vec<u64>,
        merges: bool,
    ) -> Result<IndexedStore<'a>, NoMemory>
        requires rising { AreRising (log_ids store.now) }
        requires ids { ids.items ≡ ids_of store.now }
        requires merges { merges ≡ any_commit store.now }
        ensures { IfOk result (λ indexed. indexed ≡ store.now) }
    {
        let joiners = joiners_of(alloc, store, ids.as_slice(), merges)?;
        Ok(IndexedStore {
            store,
            ids,
            joiners,
            rollbacks: Rollbacks::new(alloc),
        })
    }

    /// Returns the store.
    pub fn store(&self) -> &'a Store
        ensures { result.now ≡ self.now }
    {
        self.store
    }

    /// Returns the regions that the store may make, by id.
    pub fn ids(&self) -> &[u64]
        ensures { result.now ≡ ids_of self.now }
    {
        self.ids.as_slice()
    }

    /// Returns the regions whose own log has a commit, by id: no other can stand before a merge.
    pub(crate) fn joiners(&self) -> &[u64]
        ensures { result.now ≡ joiners_of self.now }
    {
        self.joiners.as_slice()
    }

    /// Returns the regions that the store may make, by id, when nothing else is needed any more.
    pub fn into_ids(self) -> Vec<u64>
        ensures { result.items ≡ ids_of self.entry }
    {
        self.ids
    }

    /// Returns the store's own log of the region; empty where it has none.
    pub fn own(&self, region: u64) -> &'a [Entry]
        ensures { result.now ≡ own self.now region }
    {
        own(self.store, region)
    }

    /// Returns whether the region's own log has a rollback past the commit that fits the epoch.
    pub(crate) fn has_rollback(&self, region: u64, commit: u64, epoch: &Epoch) -> bool
        ensures { result ≡ has_rollback (own self.now region) commit epoch.now }
    {
        let Some(answer) = self.rollbacks.get(region) else {
            return has_rollback(self.own(region), commit, epoch);
        };
        if !is_to(answer, commit, epoch) {
            return has_rollback(self.own(region), commit, epoch);
        }
        answer.found
    }

    /// Looks for such a rollback, and keeps what was found.
    pub(crate) fn look(&mut self, region: u64, commit: u64, epoch: &Epoch) -> Result<(), NoMemory>
        ensures { self.new ≡ self.old }
    {
        let found = self.has_rollback(region, commit, epoch);
        self.rollbacks.put(
            region,
            Answer {
                commit,
                epoch: *epoch,
                found,
            },
        )
    }
}

/// Returns the store's own log of the region; empty where it has none.
pub fn own(store: &Store, region: u64) -> &[Entry]
    requires { AreRising (log_ids store.now) }
    ensures { result.now ≡ own store.now region }
{
    match log_of(store.logs.as_slice(), region) {
        None => &[],
        Some(log) => log.entries.as_slice(),
    }
}

fn log_of(logs: &[Log], region: u64) -> Option<&Log>
    requires { AreRising (regions_of logs.now) }
    ensures { option_copied result ≡ find (λ log. log.region == region) logs.now }
{
    let place = place_of(logs, region);
    if place == logs.len() {
        return None;
    }
    if region_at(logs, place) != region {
        return None;
    }
    log_at(logs, place)
}

fn log_at(logs: &[Log], place: usize) -> Option<&Log>
    ensures { option_copied result ≡ slice_get logs.now place }
{
    logs.get(place)
}

fn region_at(logs: &[Log], place: usize) -> u64
    requires { place < length logs.now }
    ensures { result ≡ slice_index (regions_of logs.now) place }
{
    logs[place].region
}

/// Returns the place of the first log whose region isn't below this one.
fn place_of(logs: &[Log], region: u64) -> usize
    requires { AreRising (regions_of logs.now) }
    ensures within { result ≤ length logs.now }
    ensures below { (k : ℕ) → k < result → slice_index (regions_of logs.now) k < region }
    ensures from { (k : ℕ) → result ≤ k → k < length logs.now → region ≤ slice_index (regions_of logs.now) k }
{
    let mut low = 0;
    let mut high = logs.len();
    while low < high {
        let middle = low + (high - low) / 2;
        if region_at(logs, middle) < region {
            low = middle + 1;
            continue;
        }
        high = middle;
    }
    low
}
