ghost use Rattle.std.specs.Prelude.{◌≡◌};
ghost use Rattle.rs_store.specs.Stores.{is_live};
ghost use Rattle.rs_check.specs.Tables.{owns, owner};

use rs_entry::Mode;
use rs_key::{Key, Rows};
use rs_region::RegionState;
use std::marker::Model;

/// Regions with their states, by id. Contracts see the list of the states.
#[derive(Debug, Drop)]
pub struct RegionTable {
    rows: Rows<RegionState>,
}

impl Model for RegionTable {
    ghost use Rattle.std.specs.Prelude.{List};
    ghost use Rattle.rs_region.specs.declared.state.RegionState.{RegionState};

    ghost Value = { List RegionState };

    ghost view = { λ t. t.rows };
}

impl RegionTable {
    /// Returns the table of these states. It takes no memory.
    pub fn from_rows(rows: Rows<RegionState>) -> RegionTable
        ensures { result ≡ rows }
    {
        RegionTable { rows }
    }

    /// Returns the states without a copy.
    pub fn into_rows(self) -> Rows<RegionState>
        ensures { result ≡ self }
    {
        self.rows
    }

    /// Returns the states of the regions.
    pub fn rows(&self) -> &[RegionState]
        ensures { result.now ≡ self.now }
    {
        self.rows.as_slice()
    }

    /// Returns the live region that holds the key: the first, where there could be several. `None` exactly where none
    /// does.
    pub fn find(&self, key: &Key) -> Option<u64>
        ensures { result ≡ owner self.now key.now }
    {
        owner(self.rows.as_slice(), key)
    }
}

fn owner(rows: &[RegionState], key: &Key) -> Option<u64>
    ensures { result ≡ owner rows.now key.now }
{
    for state in rows {
        if owns(key, state) {
            return Some(state.region);
        }
    }
    None
}

fn owns(key: &Key, state: &RegionState) -> bool
    ensures { result ≡ owns key.now state.now }
{
    is_live(state.mode) && state.range.holds(key)
}

fn is_live(mode: Mode) -> bool
    ensures { result ≡ is_live mode }
{
    match mode {
        Mode::Normal | Mode::Merging { .. } => true,
        Mode::Merged { .. } | Mode::Removed => false,
    }
}
