//! Numbers in rising order, each once.

ghost use Rattle.std.specs.Prelude.{◌≡◌, ℕ, ◌+◌, ◌<◌, ◌≤◌, length, slice_index, [], map, OnOk};
ghost use Rattle.rs_store.specs.Stores.{insert_id, add_all};

use rs_entry::Boot;
use rs_key::NoMemory;

/// Returns the first place whose number isn't below this one.
fn place_of(ids: &[u64], id: u64) -> usize
    ensures within { result ≤ length ids.now }
    ensures below { (k : ℕ) → k < result → slice_index ids.now k < id }
    ensures from { result < length ids.now → id ≤ slice_index ids.now result }
{
    for place in 0..ids.len() {
        if id <= ids[place] {
            return place;
        }
    }
    ids.len()
}

/// Puts a number among those that are there.
fn insert_id(ids: &mut Vec<u64>, id: u64) -> Result<(), NoMemory>
    ensures { OnOk result (ids.new.items ≡ insert_id id ids.old.items) }
{
    let place = place_of(ids.as_slice(), id);
    if place == ids.len() {
        ids.push(id)?;
        return Ok(());
    }
    if ids[place] == id {
        return Ok(());
    }
    ids.insert(place, id)?;
    Ok(())
}

/// Puts each of the numbers among those that are there.
pub fn add_all(ids: &mut Vec<u64>, more: &[u64]) -> Result<(), NoMemory>
    ensures { OnOk result (ids.new.items ≡ add_all ids.old.items more.now) }
{
    for id in more {
        insert_id(ids, *id)?;
    }
    Ok(())
}

/// Puts the regions that are there from the start among the others.
pub fn add_boots(ids: &mut Vec<u64>, boots: &[Boot]) -> Result<(), NoMemory>
    ensures { OnOk result (ids.new.items ≡ add_all ids.old.items (map (λ b. b.region) boots.now)) }
{
    for boot in boots {
        insert_id(ids, boot.region)?;
    }
    Ok(())
}
