ghost use Rattle.std.specs.Prelude.{◌≡◌, ◌==◌, Some, IfOk, IsSome};
ghost use Rattle.std.specs.List.{find};
ghost use Rattle.std.specs.Option.{option_copied};
ghost use Rattle.rs_entry.specs.declared.input.Store.{Store};
ghost use Rattle.rs_store.specs.Stores.{ids_of};
ghost use Rattle.rs_store.specs.Runs.{seen};
ghost use Rattle.rs_store.specs.Formed.{IsFormedOne};
ghost use Rattle.rs_fold.specs.Ends.{IsLawful};
ghost use Rattle.rs_fold.specs.Ordered.{IsScripted, IsFoldOf, EndsAs};

use crate::fold_error::FoldError;
use crate::folding::outcome_of_end;
use crate::run::{End, record_reply};
use rs_check::Plan;
use rs_entry::{Store, StoreOutcome};
use rs_history::Writes;
use rs_store::{Advance, Walk};
use std::alloc::Global;

/// Returns what comes of one store, the one with this id, when its regions take their entries in the order of these
/// ids.
///
/// Every order that ends with no region ready gives the outcome of the canonical order, which `fold` has.
pub fn fold_in(
    alloc: Global,
    plan: &Plan,
    store: u64,
    order: &[u64],
) -> Result<StoreOutcome, FoldError>
    requires { IsSome (find (λ s. s.id == store) plan.now.stores) }
    ensures { (s : Store) → find (λ s. s.id == store) plan.now.stores ≡ Some s → IsFoldOf s order.now result }
{
    let Some(one) = store_named(plan.input().stores.as_slice(), store) else {
        unreachable!()
    };
    outcome_in_order(alloc, one, order)
}

fn store_named(stores: &[Store], id: u64) -> Option<&Store>
    ensures { option_copied result ≡ find (λ s. s.id == id) stores.now }
{
    stores.iter().find(|store| store.id == id)
}

/// Returns what comes of a store by the order.
fn outcome_in_order(alloc: Global, store: &Store, order: &[u64]) -> Result<StoreOutcome, FoldError>
    requires formed { IsFormedOne store.now }
    requires scripted { IsScripted store.now }
    requires lawful { IsLawful store.now }
    ensures { IsFoldOf store.now order.now result }
{
    let end = run_in_order(alloc, store, order)?;
    Ok(outcome_of_end(alloc, store, end)?)
}

/// Takes the store's entries in the order.
fn run_in_order<'a>(alloc: Global, store: &'a Store, order: &[u64]) -> Result<End<'a>, FoldError>
    requires formed { IsFormedOne store.now }
    requires scripted { IsScripted store.now }
    requires lawful { IsLawful store.now }
    ensures ids { IfOk result (λ end. end.arrived.ids.items ≡ ids_of store.now) }
    ensures value { EndsAs store.now order.now result }
{
    let mut walk = Walk::new(alloc, store)?;
    let mut writes = Writes::new(alloc);
    let mut replies = Vec::new(alloc);
    for place in 0..order.len() {
        let region = order[place];
        if !walk.is_ready(region) {
            return Err(FoldError::NotReady(place as u64 + 1));
        }
        match walk.take(alloc, region)? {
            Advance::Took(effect) => {
                writes.record(effect.region, effect.index, effect.ops)?;
                record_reply(&mut replies, effect.region, effect.index, effect.reply)?;
            }
            Advance::Rests => unreachable!(),
            Advance::Broke(_) => unreachable!(),
        }
    }
    if let Some(region) = walk.least_ready() {
        return Err(FoldError::Unfinished(region));
    }
    Ok(End {
        arrived: walk.finish(),
        writes,
        replies,
    })
}
