ghost use Rattle.std.specs.Prelude.{◌≡◌, ◌-◌, ◌&&◌, ◌==◌, drop, OnOk, OnErr};
ghost use Rattle.std.specs.List.{list_any};
ghost use Rattle.std.specs.Option.{option_copied};
ghost use Rattle.rs_key.specs.Epochs.{same_epochs};
ghost use Rattle.rs_store.specs.Stores.{is_fitting};
ghost use Rattle.rs_store.specs.Rollbacks.{answers, no_answers, with_answer, is_to, has_rollback};

use rs_entry::{Entry, INIT_INDEX};
use rs_key::{Epoch, Kind, NoMemory};
use rs_region::{Action, Turn, action_of};
use std::alloc::Global;
use std::collections::BTreeMap;

/// Whether a rollback past the commit that fits the epoch was found in a region's own log.
#[derive(Clone, Copy)]
pub struct Answer {
    pub commit: u64,
    pub epoch: Epoch,
    pub found: bool,
}

/// The last answer found for each region, so that no log is searched at each step.
#[derive(Drop)]
pub struct Rollbacks {
    answers: BTreeMap<u64, Answer>,
}

impl Rollbacks {
    /// Returns the map without an answer. It takes no memory.
    pub fn new(alloc: Global) -> Rollbacks
        ensures { answers result ≡ no_answers }
    {
        Rollbacks {
            answers: BTreeMap::new(alloc),
        }
    }

    /// Returns the region's answer; `None` if it has none.
    pub fn get(&self, region: u64) -> Option<&Answer>
        ensures { option_copied result ≡ answers self.now region }
    {
        self.answers.get(&region)
    }

    /// Records the region's answer.
    pub fn put(&mut self, region: u64, answer: Answer) -> Result<(), NoMemory>
        ensures put { OnOk result (answers self.new ≡ with_answer (answers self.old) region answer) }
        ensures kept { OnErr result (answers self.new ≡ answers self.old) }
    {
        self.answers.insert(region, answer)?;
        Ok(())
    }
}

/// Returns whether it answers for this commit and this epoch.
pub fn is_to(answer: &Answer, commit: u64, epoch: &Epoch) -> bool
    ensures { result ≡ is_to answer.now commit epoch.now }
{
    answer.commit == commit
        && (answer.epoch.version == epoch.version && answer.epoch.conf_ver == epoch.conf_ver)
}

fn is_fitting(commit: u64, epoch: &Epoch, entry: &Entry) -> bool
    ensures { result ≡ is_fitting commit epoch.now entry.now }
{
    match action_of(&entry.body) {
        Action::Turns(Turn::Rollback { commit: own }) => {
            commit < entry.index && (own == commit && epoch.matches(Kind::Rollback, &entry.epoch))
        }
        _ => false,
    }
}

/// Returns the entries of the log past the commit.
fn past(log: &[Entry], commit: u64) -> &[Entry]
    ensures { result.now ≡ drop (commit - 5) log.now }
{
    let start = commit.saturating_sub(INIT_INDEX) as usize;
    if start < log.len() {
        let (_, rest) = log.split_at(start);
        return rest;
    }
    &[]
}

fn has_fitting(entries: &[Entry], commit: u64, epoch: &Epoch) -> bool
    ensures { result ≡ list_any (is_fitting commit epoch.now) entries.now }
{
    for entry in entries {
        if is_fitting(commit, epoch, entry) {
            return true;
        }
    }
    false
}

/// Returns whether the log has a rollback past the commit that fits the epoch.
pub fn has_rollback(log: &[Entry], commit: u64, epoch: &Epoch) -> bool
    ensures { result ≡ has_rollback log.now commit epoch.now }
{
    has_fitting(past(log, commit), commit, epoch)
}
