ghost use Rattle.std.specs.Prelude.{◌≡◌, ℕ, ◌+◌, ◌<◌, ◌≤◌, ◌^◌, Option, Some, None, IfOk, OnOk};
ghost use Rattle.std.specs.Option.{option_copied};
ghost use Rattle.rs_store.specs.Stores.{after, entries_in, last, opening};
ghost use Rattle.rs_store.specs.Walks.{IsWalk, store_of, made_by};
ghost use Rattle.rs_store.specs.Formed.{IsFormedOne};
ghost use Rattle.rs_store.specs.Runs.{seen, bare, forget, told, Moved, IsAllLow};
ghost use Rattle.rs_store.specs.Ends.{first_of, waits, is_unborn, first_unborn, fault_of, fault_at_end};

use crate::counts::entries_in;
use crate::fault::{StepFault, StoreFault};
use crate::indexed_store::IndexedStore;
use crate::readiness::stands;
use crate::regions::{Made, Regions};
use crate::walk::{Advance, Walk};
use rs_entry::{Entry, Log, Store};
use rs_key::NoMemory;
use std::alloc::Global;

fn waits(indexed: &IndexedStore<'_>, regions: &Regions, id: u64) -> Option<StoreFault>
    requires { IsAllLow (seen regions.now) }
    ensures { result ≡ waits indexed.now (bare (seen regions.now)) id }
{
    let Some(made) = regions.get(id) else {
        return None;
    };
    let Some(merge) = stands(indexed, regions, id) else {
        return None;
    };
    Some(StoreFault::Waits {
        region: id,
        index: made.applied + 1,
        source: merge.source,
        commit: merge.commit,
    })
}

fn first_waits(indexed: &IndexedStore<'_>, ids: &[u64], regions: &Regions) -> Option<StoreFault>
    requires { IsAllLow (seen regions.now) }
    ensures { result ≡ first_of (waits indexed.now (bare (seen regions.now))) ids.now }
{
    for id in ids {
        if let Some(fault) = waits(indexed, regions, *id) {
            return Some(fault);
        }
    }
    None
}

fn is_unborn(log: &[Entry], made: Option<&Made>) -> bool
    ensures { result ≡ is_unborn log.now (option_copied made.entry) }
{
    match made {
        None => !log.is_empty(),
        Some(_) => false,
    }
}

fn first_unborn(regions: &Regions, logs: &[Log]) -> Option<StoreFault>
    ensures { result ≡ first_unborn (bare (seen regions.now)) logs.now }
{
    for log in logs {
        if is_unborn(log.entries.as_slice(), regions.get(log.region)) {
            return Some(StoreFault::Unborn { region: log.region });
        }
    }
    None
}

/// Returns what a store's run comes to that ended with this fault, or none, and these regions.
fn fault_of(
    indexed: &IndexedStore<'_>,
    regions: &Regions,
    fault: Option<StepFault>,
) -> Option<StoreFault>
    requires { fault ≡ None → IsAllLow (seen regions.now) }
    ensures { result ≡ fault_of indexed.now (told fault (seen regions.now)) }
{
    if let Some(fault) = fault {
        return Some(StoreFault::Step(fault));
    }
    if let Some(fault) = first_waits(indexed, indexed.ids(), regions) {
        return Some(fault);
    }
    first_unborn(regions, indexed.store().logs.as_slice())
}

/// The result of a store's canonical order.
#[derive(Drop)]
pub struct StoreRun<'a> {
    pub indexed: IndexedStore<'a>,
    /// The regions that it made, at the end of the order.
    pub regions: Regions,
    /// The first fault of the order, or of its end.
    pub fault: Option<StoreFault>,
}

/// Takes the canonical order's first steps, at most `count` of them.
fn walk_on(alloc: Global, walk: &mut Walk<'_>, count: usize) -> Result<Option<StepFault>, NoMemory>
    requires walk { IsWalk walk.old }
    requires first { walk.old.steps ≡ 0 }
    requires opening { made_by walk.old ≡ (opening (store_of walk.old)).region }
    requires few { count ≤ entries_in (store_of walk.old) }
    ensures value { IfOk result (λ fault. forget (after (store_of walk.old) count) ≡ told fault (made_by walk.new)) }
    ensures walk { IfOk result (λ fault. fault ≡ None → IsAllLow (made_by walk.new)) }
    ensures store { IfOk result (λ _. store_of walk.new ≡ store_of walk.old) }
{
    for place in 0..count {
        match walk.advance(alloc)? {
            Advance::Took(_) => {}
            Advance::Rests => return Ok(None),
            Advance::Broke(fault) => return Ok(Some(fault)),
        }
    }
    Ok(None)
}

/// Runs the store's canonical order.
#[tactic(auto, using(crate::proofs::FormLaws::formed_store, crate::proofs::EndLaws::end_same, crate::proofs::EndLaws::end_moved))]
pub fn run_store<'a>(alloc: Global, store: &'a Store) -> Result<StoreRun<'a>, NoMemory>
    requires { IsFormedOne store.now }
    ensures store { IfOk result (λ run. run.indexed ≡ store.now) }
    ensures fault { IfOk result (λ run. run.fault ≡ fault_at_end store.now (last store.now)) }
    ensures regions { IfOk result (λ run. run.fault ≡ None → forget (last store.now) ≡ Moved (seen run.regions)) }
{
    let mut walk = Walk::new(alloc, store)?;
    let count = entries_in(store);
    let fault = walk_on(alloc, &mut walk, count)?;
    let Walk {
        indexed,
        regions,
        ..
    } = walk;
    let fault = fault_of(&indexed, &regions, fault);
    Ok(StoreRun {
        indexed,
        regions,
        fault,
    })
}
