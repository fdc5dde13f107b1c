ghost use Rattle.std.specs.Prelude.{◌≡◌, ◌<◌, ◌≤◌, ◌∷◌, length, map, take, drop, IfOk, slice_get, Some};
ghost use Rattle.rs_part.specs.Items.{item_of};
ghost use Rattle.rs_history.specs.Runs.{groups};

use crate::accepted_write::AcceptedWrite;
use rs_entry::{Item, KeyHistory};
use rs_key::{NoMemory, Rows, TryClone};
use std::alloc::Global;

/// Returns one history for each run of writes of one key.
pub fn grouped(alloc: Global, writes: &[AcceptedWrite<'_>]) -> Result<Rows<KeyHistory>, NoMemory>
    ensures { IfOk result (λ histories. histories ≡ groups writes.now) }
{
    let mut histories = Rows::new(alloc);
    let mut at = 0;
    while at < writes.len() {
        let (_, rest) = writes.split_at(at);
        let run = first_run(alloc, rest)?;
        at += run.items.len();
        histories.push(run)?;
    }
    Ok(histories)
}

/// Returns the history that the writes at the front make, as far as they are of one key.
fn first_run(alloc: Global, writes: &[AcceptedWrite<'_>]) -> Result<KeyHistory, NoMemory>
    requires { 0 < length writes.now }
    ensures some { IfOk result (λ h. 0 < length h.items) }
    ensures within { IfOk result (λ h. length h.items ≤ length writes.now) }
    ensures value { IfOk result (λ h. groups writes.now ≡ h ∷ groups (drop (length h.items) writes.now)) }
{
    let first = &writes[0];
    let (run, _) = writes.split_at(run_length(first, writes));
    Ok(KeyHistory {
        key: first.key().try_clone()?,
        items: items_of(alloc, run)?,
    })
}

/// Returns how many writes at the front are of the first one's key.
fn run_length(first: &AcceptedWrite<'_>, writes: &[AcceptedWrite<'_>]) -> usize
    requires { slice_get writes.now 0 ≡ Some first.now }
    ensures some { 0 < result }
    ensures within { result ≤ length writes.now }
    ensures value { groups writes.now ≡ record { key = first.now.key; items = map item_of (take result writes.now) } ∷ groups (drop result writes.now) }
{
    for place in 1..writes.len() {
        if !first.has_key_of(&writes[place]) {
            return place;
        }
    }
    writes.len()
}

/// Returns what the histories have of the writes.
fn items_of(alloc: Global, writes: &[AcceptedWrite<'_>]) -> Result<Rows<Item>, NoMemory>
    ensures { IfOk result (λ items. items ≡ map item_of writes.now) }
{
    let mut items = Rows::with_room(alloc, writes.len());
    for write in writes {
        items.push(write.item()?)?;
    }
    Ok(items)
}
