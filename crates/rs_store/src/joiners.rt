ghost use Rattle.std.specs.Prelude.{◌≡◌, filter, IfOk};
ghost use Rattle.std.specs.List.{list_any};
ghost use Rattle.rs_store.specs.Indexes.{AreRising, log_ids};
ghost use Rattle.rs_store.specs.Joiners.{any_commit, commits, has_commit};

use crate::indexed_store::own;
use rs_entry::{Entry, Store};
use rs_key::NoMemory;
use rs_region::{Action, action_of};
use std::alloc::Global;

/// Returns those of these regions whose own log has a commit: no other can stand before a merge. Where the store has
/// no commit at all its logs aren't looked at.
#[tactic(auto, using(crate::proofs::JoinerLaws::none_join))]
pub fn joiners_of(
    alloc: Global,
    store: &Store,
    ids: &[u64],
    merges: bool,
) -> Result<Vec<u64>, NoMemory>
    requires rising { AreRising (log_ids store.now) }
    requires merges { merges ≡ any_commit store.now }
    ensures { IfOk result (λ joiners. joiners.items ≡ filter (has_commit store.now) ids.now) }
{
    let mut joiners = Vec::new(alloc);
    if !merges {
        return Ok(joiners);
    }
    for id in ids {
        if has_commit(own(store, *id)) {
            joiners.push(*id)?;
        }
    }
    Ok(joiners)
}

fn has_commit(log: &[Entry]) -> bool
    ensures { result ≡ list_any commits log.now }
{
    log.iter().any(commits)
}

fn commits(entry: &Entry) -> bool
    ensures { result ≡ commits entry.now }
{
    matches!(action_of(&entry.body), Action::Merges { .. })
}
