ghost use Rattle.std.specs.Prelude.{◌≡◌, ◌<◌, ◌≤◌, ◌^◌, true, None, length, IfOk, OnOk, OnErr};
ghost use Rattle.rs_key.specs.Ranges.{first_bad_cut, cut, is_next_to};
ghost use Rattle.rs_region.specs.Actions.{turned, turned_on};
ghost use Rattle.rs_region.specs.Reshapings.{split_kept, split_new, prepared, rolled_back, committed, merged_into, reconfigured, removed};

use crate::action::Turn;
use crate::peers::changed_peers;
use crate::split::{kept_range, new_ranges, new_regions};
use crate::state::RegionState;
use rs_entry::{Change, Mode, Side};
use rs_key::{Key, NoMemory, Range, Rows, TryClone};

impl RegionState {
    /// Splits the range at the keys, and gives the new regions in the order of the ids.
    ///
    /// On the side `Right` the region keeps the last range, on the side `Left` the first. Each new region is
    /// Normal, with the region's new epoch and its peers. After NoMemory nothing has changed.
    pub fn exec_split(
        &mut self,
        side: Side,
        ids: &Rows<u64>,
        keys: &Rows<Key>,
    ) -> Result<Rows<RegionState>, NoMemory>
        requires lengths { length ids.now ≡ length keys.now }
        requires few { length keys.now ≤ 64 }
        requires good { first_bad_cut self.old.range keys.now ≡ None }
        requires version { self.old.epoch.version < 2 ^ 62 }
        ensures kept { OnOk result (self.new ≡ split_kept self.old side keys.now) }
        ensures made { IfOk result (λ new. new ≡ split_new self.old side ids.now keys.now) }
        ensures err { OnErr result (self.new ≡ self.old) }
    {
        let parts = parts_of(&self.range, keys)?;
        let epoch = self.epoch.after_split(keys.len() as u64);
        let kept = kept_range(side, &self.range, parts.as_slice()).try_clone()?;
        let ranges = new_ranges(side, parts.as_slice());
        let new = new_regions(ids.allocator(), epoch, &self.peers, ids.as_slice(), ranges)?;
        self.epoch = epoch;
        self.range = kept;
        self.mode = Mode::Normal;
        Ok(new)
    }

    /// Prepares the merge of the region, as the source, into the target. The entry has this index.
    pub fn exec_prepare(&mut self, target: u64, index: u64)
        requires conf_ver { self.old.epoch.conf_ver < 2 ^ 62 }
        requires version { self.old.epoch.version < 2 ^ 62 }
        ensures { self.new ≡ prepared self.old target index }
    {
        self.epoch = self.epoch.after_prepare();
        self.mode = Mode::Merging {
            target,
            commit: index,
        };
    }

    /// Lets the region, as the target of a merge, take over the source, which becomes a tombstone with its last
    /// epoch and range. After NoMemory neither has changed.
    pub fn exec_commit(&mut self, source: &mut RegionState) -> Result<(), NoMemory>
        requires next { is_next_to self.old.range source.old.range ≡ true }
        requires version { self.old.epoch.version < 2 ^ 62 }
        requires source_version { source.old.epoch.version < 2 ^ 62 }
        ensures target { OnOk result (self.new ≡ committed self.old source.old) }
        ensures source { OnOk result (source.new ≡ merged_into source.old self.old.region) }
        ensures err { OnErr result ((self.new ≡ self.old) × (source.new ≡ source.old)) }
    {
        let range = self.range.try_clone()?.join(source.range.try_clone()?);
        self.epoch = self.epoch.after_commit(source.epoch);
        self.range = range;
        self.mode = Mode::Normal;
        source.mode = Mode::Merged {
            target: self.region,
        };
        Ok(())
    }

    /// Rolls back the merge that the region prepared.
    pub fn exec_rollback(&mut self)
        requires { self.old.epoch.version < 2 ^ 62 }
        ensures { self.new ≡ rolled_back self.old }
    {
        self.epoch = self.epoch.after_rollback();
        self.mode = Mode::Normal;
    }

    /// Changes the list of peers, whose order stays. After NoMemory nothing has changed.
    pub fn exec_conf(&mut self, change: &Change) -> Result<(), NoMemory>
        requires { self.old.epoch.conf_ver < 2 ^ 62 }
        ensures ok { OnOk result (self.new ≡ reconfigured self.old change.now) }
        ensures err { OnErr result (self.new ≡ self.old) }
    {
        let peers = changed_peers(&self.peers, change)?;
        self.epoch = self.epoch.after_conf();
        self.peers = peers;
        self.mode = Mode::Normal;
        Ok(())
    }

    /// The entry with this index turns the region. After NoMemory nothing has changed.
    pub fn turn(&mut self, turn: Turn, index: u64) -> Result<(), NoMemory>
        requires conf_ver { self.old.epoch.conf_ver < 2 ^ 62 }
        requires version { self.old.epoch.version < 2 ^ 62 }
        ensures ok { OnOk result (self.new ≡ turned index turn self.old) }
        ensures err { OnErr result (self.new ≡ self.old) }
    {
        match turn {
            Turn::Prepare { target } => {
                self.exec_prepare(target, index);
                Ok(())
            }
            Turn::Rollback { .. } => {
                self.exec_rollback();
                Ok(())
            }
            Turn::Conf { change } => self.exec_conf(&change),
        }
    }

    /// The entry with this index turns the region on the store, where it becomes a tombstone if its peer is removed.
    pub fn turn_on(&mut self, store: u64, turn: Turn, index: u64) -> Result<(), NoMemory>
        requires conf_ver { self.old.epoch.conf_ver < 2 ^ 62 }
        requires version { self.old.epoch.version < 2 ^ 62 }
        ensures ok { OnOk result (self.new ≡ turned_on store index turn self.old) }
        ensures err { OnErr result (self.new ≡ self.old) }
    {
        self.turn(turn, index)?;
        if turn.removes(store) {
            self.exec_removed();
        }
        Ok(())
    }

    /// Makes the region a tombstone, since its peer on this store was removed.
    pub fn exec_removed(&mut self)
        ensures { self.new ≡ removed self.old }
    {
        self.mode = Mode::Removed;
    }
}

fn parts_of(range: &Range, keys: &Rows<Key>) -> Result<Rows<Range>, NoMemory>
    requires { first_bad_cut range.now keys.now ≡ None }
    ensures { IfOk result (λ ranges. ranges ≡ cut range.now keys.now) }
{
    match range.cut(keys.allocator(), keys.as_slice()) {
        Ok(ranges) => Ok(ranges),
        Err(_) => Err(NoMemory),
    }
}
