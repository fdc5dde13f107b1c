//! Tables: lists of states by id.

ghost use Rattle.std.specs.Prelude.{◌≡◌, ◌+◌, ◌<◌, ◌≤◌, length, vec_len, vec_capacity, OnOk, OnErr};
ghost use Rattle.std.specs.Option.{option_copied};
ghost use Rattle.rs_table.specs.Changes.{is_there, place_of, with_state, with_states};
ghost use Rattle.rs_table.specs.Rows.{state_of};

use rs_check::RegionTable;
use rs_key::{NoMemory, Rows};
use rs_region::RegionState;
use std::mem;

/// Returns the state of the region.
pub fn find(rows: &[RegionState], region: u64) -> Option<&RegionState>
    ensures { option_copied result ≡ state_of rows.now region }
{
    rows.iter().find(|state| state.region == region)
}

/// Returns where the region's state is put, and whether one stands there.
fn seek(rows: &[RegionState], id: u64) -> (usize, bool)
    ensures place { result.0 ≡ place_of id rows.now }
    ensures there { result.1 ≡ is_there id rows.now }
{
    for (place, row) in rows.iter().enumerate() {
        if row.region >= id {
            return (place, row.region == id);
        }
    }
    (rows.len(), false)
}

/// Puts the state at its region's place.
#[tactic(auto, using(crate::proofs::Places::put_over, crate::proofs::Places::put_in, crate::proofs::Places::place_within, crate::proofs::Places::there_within))]
fn put(rows: &mut Vec<RegionState>, state: RegionState)
    requires room { vec_len rows.old < vec_capacity rows.old }
    ensures rows { rows.new.items ≡ with_state state rows.old.items }
    ensures len { vec_len rows.new ≤ vec_len rows.old + 1 }
    ensures room { vec_capacity rows.old ≤ vec_capacity rows.new }
{
    let (place, there) = seek(rows, state.region);
    if there {
        rows[place] = state;
        return;
    }
    let Ok(()) = rows.insert(place, state) else {
        unreachable!()
    };
}

/// Puts each of the states at its region's place. After NoMemory the table is as it was.
pub fn put_all(table: &mut RegionTable, states: Rows<RegionState>) -> Result<(), NoMemory>
    ensures ok { OnOk result (table.new ≡ with_states states table.old) }
    ensures err { OnErr result (table.new ≡ table.old) }
{
    let none = RegionTable::from_rows(Rows::new(states.allocator()));
    let mut rows = mem::replace(table, none).into_rows().into_vec();
    let reserved = rows.reserve(states.len());
    if reserved.is_ok() {
        put_each(&mut rows, states);
    }
    *table = RegionTable::from_rows(Rows::from_vec(rows));
    reserved?;
    Ok(())
}

fn put_each(rows: &mut Vec<RegionState>, states: Rows<RegionState>)
    requires room { vec_len rows.old + length states ≤ vec_capacity rows.old }
    ensures { rows.new.items ≡ with_states states rows.old.items }
{
    for state in states.into_vec() {
        put(rows, state);
    }
}
