//! What one pass over the logs of a store finds.

ghost use Rattle.std.specs.Prelude.{◌≡◌, ◌||◌, OnOk, IfOk};
ghost use Rattle.std.specs.List.{flat_map, list_any};
ghost use Rattle.rs_store.specs.Awaits.{await_body, await_entries, await_logs};
ghost use Rattle.rs_store.specs.Cursor.{HasMerges};
ghost use Rattle.rs_store.specs.Joiners.{commits, log_commits, any_commit};
ghost use Rattle.rs_store.specs.Places.{known};
ghost use Rattle.rs_store.specs.Stores.{add_all, ids_in, ids_in_log, ids_of};

use crate::ids::{add_all, add_boots};
use crate::place_map::PlaceMap;
use rs_entry::{Entry, Log, Store};
use rs_key::NoMemory;
use rs_region::{Action, action_of};
use std::alloc::Global;

/// The survey of a store's logs, over all its regions.
#[derive(Drop)]
pub struct Survey {
    /// The regions that the store may have, by id.
    pub ids: Vec<u64>,
    /// The places that commits await.
    pub awaited: PlaceMap,
    /// Whether there is a commit at all.
    pub merges: bool,
}

fn add_entry(survey: &mut Survey, entry: &Entry) -> Result<(), NoMemory>
    ensures ids { OnOk result (survey.new.ids.items ≡ add_all survey.old.ids.items (ids_in entry.now.body)) }
    ensures awaited { OnOk result (known survey.new.awaited ≡ await_body (known survey.old.awaited) entry.now.body) }
    ensures merges { OnOk result (survey.new.merges ≡ (survey.old.merges || commits entry.now)) }
{
    match action_of(&entry.body) {
        Action::Splits { ids, .. } => add_all(&mut survey.ids, ids.as_slice()),
        Action::Merges { source, commit, .. } => {
            survey.merges = true;
            survey.awaited.put(source, commit, 0)
        }
        _ => Ok(()),
    }
}

fn add_entries(survey: &mut Survey, entries: &[Entry]) -> Result<(), NoMemory>
    ensures ids { OnOk result (survey.new.ids.items ≡ add_all survey.old.ids.items (flat_map (λ e. ids_in e.body) entries.now)) }
    ensures awaited { OnOk result (known survey.new.awaited ≡ await_entries (known survey.old.awaited) entries.now) }
    ensures merges { OnOk result (survey.new.merges ≡ (survey.old.merges || list_any commits entries.now)) }
{
    for entry in entries {
        add_entry(survey, entry)?;
    }
    Ok(())
}

fn add_log(survey: &mut Survey, log: &Log) -> Result<(), NoMemory>
    ensures ids { OnOk result (survey.new.ids.items ≡ add_all survey.old.ids.items (ids_in_log log.now)) }
    ensures awaited { OnOk result (known survey.new.awaited ≡ await_entries (known survey.old.awaited) log.now.entries) }
    ensures merges { OnOk result (survey.new.merges ≡ (survey.old.merges || log_commits log.now)) }
{
    add_entries(survey, log.entries.as_slice())
}

fn add_logs(survey: &mut Survey, logs: &[Log]) -> Result<(), NoMemory>
    ensures ids { OnOk result (survey.new.ids.items ≡ add_all survey.old.ids.items (flat_map ids_in_log logs.now)) }
    ensures awaited { OnOk result (known survey.new.awaited ≡ await_logs (known survey.old.awaited) logs.now) }
    ensures merges { OnOk result (survey.new.merges ≡ (survey.old.merges || list_any log_commits logs.now)) }
{
    for log in logs {
        add_log(survey, log)?;
    }
    Ok(())
}

impl Survey {
    /// Goes over the store's logs, once.
    #[tactic(auto, using(crate::proofs::AwaitLaws::has_merges))]
    pub fn of(alloc: Global, store: &Store) -> Result<Survey, NoMemory>
        ensures ids { IfOk result (λ s. s.ids.items ≡ ids_of store.now) }
        ensures awaited { IfOk result (λ s. HasMerges store.now (known s.awaited)) }
        ensures merges { IfOk result (λ s. s.merges ≡ any_commit store.now) }
    {
        let mut ids = Vec::new(alloc);
        add_boots(&mut ids, store.regions.as_slice())?;
        let mut survey = Survey {
            ids,
            awaited: PlaceMap::new(alloc),
            merges: false,
        };
        add_logs(&mut survey, store.logs.as_slice())?;
        Ok(survey)
    }
}
