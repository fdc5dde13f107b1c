ghost use Rattle.std.specs.Prelude.{◌≡◌, ℕ, ◌+◌, ◌++◌, ◌<◌, ◌≤◌, ◌^◌, Option, Some, None, IfOk, IfErr, [], length};
ghost use Rattle.std.specs.List.{flat_map};
ghost use Rattle.std.specs.Option.{option_map};
ghost use Rattle.rs_entry.specs.WellFormed.{WellFormed};
ghost use Rattle.rs_store.specs.Formed.{IsFormedInput, IsFormedStores, IsFormedOne};
ghost use Rattle.rs_check.specs.Laws.{law_of_step, law_of, store_law, first_in_stores, check};
ghost use Rattle.rs_check.specs.Plans.{IsAnswer, store_rows, rows_of};

use crate::differ::differ_law;
use crate::overlap::{boots, overlap_law};
use crate::plan::Plan;
use crate::reused_ids::first_reused;
use crate::rows::{Row, add_rows};
use crate::statements::stated;
use rs_entry::{Input, LawFault, Store};
use rs_key::NoMemory;
use rs_store::{StepFault, StoreFault, StoreRun, run_store};
use std::alloc::Global;
use thiserror::Error;

/// The error of an input that has no plan.
#[derive(Debug, Drop, Error)]
pub enum CheckError {
    /// The first thing that no lawful group could have committed.
    #[error("{0}")]
    Law(LawFault),
    /// Memory ran out.
    #[error("out of memory")]
    NoMemory,
}

/// Returns the plan of a lawful input.
///
/// Law comes exactly where the input has a fault, with its first. The input is spent on a refusal.
pub fn check(input: Input) -> Result<Plan, CheckError>
    requires { WellFormed input }
    ensures ok { IfOk result (λ plan. (plan ≡ input) × (check input ≡ None)) }
    ensures err { IfErr result (λ e. IsAnswer input e) }
{
    let alloc = input.stores.allocator();
    let mut rows = Vec::new(alloc);
    match law_fault(alloc, &input, &mut rows) {
        Err(_) => Err(CheckError::NoMemory),
        Ok(Some(fault)) => Err(CheckError::Law(fault)),
        Ok(None) => match Plan::new(input, rows) {
            Err(_) => Err(CheckError::NoMemory),
            Ok(plan) => Ok(plan),
        },
    }
}

/// Returns the first fault of the input. If there is none, adds the rows of its regions.
#[tactic(auto, unfolding(crate::specs::Laws::check, crate::specs::Plans::rows_of))]
fn law_fault(
    alloc: Global,
    input: &Input,
    rows: &mut Vec<Row>,
) -> Result<Option<LawFault>, NoMemory>
    requires formed { IsFormedInput input.now }
    requires empty { rows.old.items ≡ [] }
    ensures fault { IfOk result (λ fault. fault ≡ check input.now) }
    ensures rows { IfOk result (λ fault. fault ≡ None → rows.new.items ≡ rows_of input.now) }
{
    let all = stated(alloc, input)?;
    if let Some(fault) = differ_law(alloc, all.as_slice())? {
        return Ok(Some(fault));
    }
    let roots = boots(alloc, input)?;
    if let Some(fault) = overlap_law(alloc, roots.as_slice())? {
        return Ok(Some(fault));
    }
    if let Some(fault) = first_reused(alloc, roots.as_slice(), all.as_slice())? {
        return Ok(Some(fault));
    }
    Ok(run_stores(alloc, rows, input.stores.as_slice())?)
}

/// Returns the first fault of the stores' orders. If there is none, adds the rows of their regions.
fn run_stores(
    alloc: Global,
    rows: &mut Vec<Row>,
    stores: &[Store],
) -> Result<Option<LawFault>, NoMemory>
    requires { IsFormedStores stores.now }
    ensures fault { IfOk result (λ fault. fault ≡ first_in_stores stores.now) }
    ensures rows { IfOk result (λ fault. fault ≡ None → rows.new.items ≡ rows.old.items ++ flat_map store_rows stores.now) }
{
    for store in stores {
        if let Some(fault) = run_one(alloc, rows, store)? {
            return Ok(Some(fault));
        }
    }
    Ok(None)
}

/// Returns the fault of the store's order. If there is none, adds the rows of its regions.
#[tactic(auto, using(crate::proofs::PlanLaws::store_rows_moved), unfolding(crate::specs::Laws::store_law))]
fn run_one(alloc: Global, rows: &mut Vec<Row>, store: &Store) -> Result<Option<LawFault>, NoMemory>
    requires { IsFormedOne store.now }
    ensures fault { IfOk result (λ fault. fault ≡ store_law store.now) }
    ensures rows { IfOk result (λ fault. fault ≡ None → rows.new.items ≡ rows.old.items ++ store_rows store.now) }
{
    let StoreRun {
        indexed,
        regions,
        fault,
    } = run_store(alloc, store)?;
    if let Some(fault) = fault {
        return Ok(Some(law_of(store.id, fault)));
    }
    add_rows(rows, &indexed, indexed.ids(), &regions)?;
    Ok(None)
}

fn law_of_step(store: u64, fault: StepFault) -> LawFault
    ensures { result ≡ law_of_step store fault }
{
    match fault {
        StepFault::BadRollback {
            region,
            index,
            commit,
            mode,
        } => LawFault::BadRollback {
            store,
            region,
            index,
            commit,
            mode,
        },
        StepFault::NotPrepared {
            region,
            index,
            source,
            commit,
        } => LawFault::NotPrepared {
            store,
            region,
            index,
            source,
            commit,
        },
        StepFault::NotNext {
            region,
            index,
            source,
            commit,
            target_range,
            source_range,
        } => LawFault::NotNext {
            store,
            region,
            index,
            source,
            commit,
            target_range,
            source_range,
        },
    }
}

fn law_of(store: u64, fault: StoreFault) -> LawFault
    ensures { result ≡ law_of store fault }
{
    match fault {
        StoreFault::Step(fault) => law_of_step(store, fault),
        StoreFault::Waits {
            region,
            index,
            source,
            commit,
        } => LawFault::Waits {
            store,
            region,
            index,
            source,
            commit,
        },
        StoreFault::Unborn { region } => LawFault::Unborn { store, region },
    }
}
