ghost use Rattle.std.specs.Prelude.{◌≡◌, IfOk, map};
ghost use Rattle.rs_store.specs.Formed.{IsFormedOne, IsFormedStores};
ghost use Rattle.rs_store.specs.Runs.{seen};
ghost use Rattle.rs_store.specs.Stores.{ids_of};
ghost use Rattle.rs_fold.specs.Ends.{IsLawful, AreLawful, outcome_left};
ghost use Rattle.rs_history.specs.Outcomes.{store_outcome, outcome_of};

use crate::region_lines::{lines_in, removed_in};
use crate::replies::by_region;
use crate::run::{End, run_to_end};
use rs_check::Plan;
use rs_entry::{Outcome, Store, StoreOutcome};
use rs_history::pairs_of;
use rs_key::{NoMemory, Rows};
use std::alloc::Global;

/// Returns what comes of a plan: on each store the end of its canonical order.
#[tactic(auto, using(crate::proofs::Lawful::lawful_stores), unfolding(rs_history::specs::Outcomes::outcome_of))]
pub fn fold(alloc: Global, plan: &Plan) -> Result<Outcome, NoMemory>
    ensures { IfOk result (λ outcome. outcome ≡ outcome_of plan.now) }
{
    let input = plan.input();
    let stores = outcomes_of(alloc, input.stores.as_slice())?;
    Ok(Outcome { stores })
}

fn outcomes_of(alloc: Global, stores: &[Store]) -> Result<Rows<StoreOutcome>, NoMemory>
    requires formed { IsFormedStores stores.now }
    requires lawful { AreLawful stores.now }
    ensures { IfOk result (λ outcomes. outcomes ≡ map store_outcome stores.now) }
{
    let mut outcomes = Rows::with_room(alloc, stores.len());
    for store in stores {
        outcomes.push(store_outcome(alloc, store)?)?;
    }
    Ok(outcomes)
}

/// Returns what comes of a store whose order meets no fault.
fn store_outcome(alloc: Global, store: &Store) -> Result<StoreOutcome, NoMemory>
    requires formed { IsFormedOne store.now }
    requires lawful { IsLawful store.now }
    ensures { IfOk result (λ outcome. outcome ≡ store_outcome store.now) }
{
    let end = run_to_end(alloc, store)?;
    outcome_of_end(alloc, store, end)
}

/// Returns what comes of a store that was run to this end.
pub fn outcome_of_end(alloc: Global, store: &Store, end: End<'_>) -> Result<StoreOutcome, NoMemory>
    requires formed { IsFormedOne store.now }
    requires ids { end.arrived.ids.items ≡ ids_of store.now }
    ensures { IfOk result (λ outcome. outcome ≡ outcome_left store.now (seen end.entry.arrived.regions) end.entry.writes end.entry.replies.items) }
{
    let regions = &end.arrived.regions;
    let ids = end.arrived.ids.as_slice();
    let lines = lines_in(alloc, store, regions, ids)?;
    let removed = removed_in(alloc, regions, ids)?;
    let writes = end.writes.outside(alloc, removed.as_slice())?;
    let histories = writes.into_histories(alloc)?;
    Ok(StoreOutcome {
        id: store.id,
        regions: lines,
        replies: by_region(end.replies)?,
        pairs: pairs_of(alloc, &histories)?,
        histories,
    })
}
