//! The line of a self-test: how much its outcome tells of.

ghost use Rattle.std.specs.Prelude.{◌≡◌, ◌∷◌, [], ◌≤◌, ◌<◌, ◌*◌, ◌^◌, ◌-◌, length, sum_by, IfOk};
ghost use Rattle.rs_field.specs.Forms.{Appends, more_text, number};
ghost use Rattle.raftreplay.specs.Expected.{store_entries, store_writes, region_count, entry_count, write_count, counts_text};

use crate::check_text::put_count;
use rs_entry::{Outcome, StoreOutcome};
use rs_field::{Text, put_word};
use rs_key::NoMemory;
use std::alloc::Global;

/// The sizes of an outcome, over all stores.
#[derive(Clone, Copy)]
struct Counts {
    /// Regions.
    regions: u128,
    /// Entries applied.
    entries: u128,
    /// Single writes accepted.
    writes: u128,
}

/// Returns `selftest N equal STORES ADDRESSES ENTRIES WRITES`.
pub fn write_counts(alloc: Global, n: u64, outcome: &Outcome) -> Result<Vec<u8>, NoMemory>
    requires { length outcome.now.stores ≤ 2 }
    ensures { IfOk result (λ text. text.items ≡ counts_text n outcome.now) }
{
    let counts = counts_of(outcome);
    let mut text = Vec::new(alloc);
    put_word(&mut text, "selftest")?;
    n.put(&mut text)?;
    put_word(&mut text, " equal")?;
    (outcome.stores.len() as u64).put(&mut text)?;
    put_counts(&mut text, counts)?;
    put_word(&mut text, "\n")?;
    Ok(text)
}

/// Appends the counts.
fn put_counts(text: &mut Vec<u8>, counts: Counts) -> Result<(), NoMemory>
    ensures { Appends result text.old text.new (more_text (number counts.regions ∷ number counts.entries ∷ number counts.writes ∷ [])) }
{
    put_count(text, counts.regions)?;
    put_count(text, counts.entries)?;
    put_count(text, counts.writes)
}

/// Returns the counts of two stores at most.
fn counts_of(outcome: &Outcome) -> Counts
    requires { length outcome.now.stores ≤ 2 }
    ensures regions { result.regions ≡ region_count outcome.now }
    ensures entries { result.entries ≡ entry_count outcome.now }
    ensures writes { result.writes ≡ write_count outcome.now }
{
    let mut counts = Counts {
        regions: 0,
        entries: 0,
        writes: 0,
    };
    for store in outcome.stores.as_slice() {
        counts.regions += store.regions.len() as u128;
        counts.entries += store_entries(store);
        counts.writes += store_writes(store);
    }
    counts
}

/// Returns how many entries the regions of a store applied.
fn store_entries(store: &StoreOutcome) -> u128
    ensures value { result ≡ store_entries store.now }
    ensures most { result < 2 ^ 127 }
{
    let mut total: u128 = 0;
    for line in store.regions.as_slice() {
        total += u128::from(line.applied.saturating_sub(5));
    }
    total
}

/// Returns how many single writes a store accepted.
fn store_writes(store: &StoreOutcome) -> u128
    ensures value { result ≡ store_writes store.now }
    ensures most { result < 2 ^ 127 }
{
    let mut total: u128 = 0;
    for history in store.histories.as_slice() {
        total += history.items.len() as u128;
    }
    total
}
