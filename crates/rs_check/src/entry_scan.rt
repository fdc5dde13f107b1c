ghost use Rattle.std.specs.Prelude.{◌≡◌, ℕ, ◌<◌, ◌≤◌, Option, Some, None};
ghost use Rattle.std.specs.Option.{option_copied, option_map};
ghost use Rattle.std.specs.List.{All};
ghost use Rattle.rs_store.specs.Indexes.{AreRising, log_ids};
ghost use Rattle.rs_store.specs.Runs.{line_entry};
ghost use Rattle.rs_check.specs.Lines.{carried_by, carried_in, carried_at, entry_in, line_in};

use rs_entry::{Body, Carried, Entry, Log, Store};
use rs_store::{Line, find_carried, own, own_next};

fn carried_by(region: u64, index: u64, body: &Body) -> Option<&Carried>
    ensures { option_copied result ≡ carried_by region index body.now }
{
    match body {
        Body::Commit {
            source,
            carried,
            ..
        } => {
            if *source == region {
                find_carried(carried.as_slice(), index)
            } else {
                None
            }
        }
        _ => None,
    }
}

fn carried_in(region: u64, index: u64, entries: &[Entry]) -> Option<&Carried>
    ensures { option_copied result ≡ carried_in region index entries.now }
{
    for entry in entries {
        if let Some(carried) = carried_by(region, index, &entry.body) {
            return Some(carried);
        }
    }
    None
}

fn carried_at(region: u64, index: u64, logs: &[Log]) -> Option<&Carried>
    ensures { option_copied result ≡ carried_at region index logs.now }
{
    for log in logs {
        if let Some(carried) = carried_in(region, index, log.entries.as_slice()) {
            return Some(carried);
        }
    }
    None
}

/// Returns the region's entry at the index, on the store.
pub fn entry_in(store: &Store, region: u64, index: u64) -> Option<Line<'_>>
    requires rising { AreRising (log_ids store.now) }
    requires from { 0 < index }
    ensures { option_map line_entry result ≡ entry_in store.now region index }
{
    if let Some(entry) = own_next(own(store, region), index - 1) {
        return Some(Line::Own(entry));
    }
    match carried_at(region, index, store.logs.as_slice()) {
        None => None,
        Some(carried) => Some(Line::Carried(carried)),
    }
}

/// Returns the region's entry at the index, on the store with this id.
pub fn line_of(stores: &[Store], store: u64, region: u64, index: u64) -> Option<Line<'_>>
    requires rising { All (λ s. AreRising (log_ids s)) stores.now }
    requires from { 0 < index }
    ensures { option_map line_entry result ≡ line_in store region index stores.now }
{
    for one in stores {
        if one.id == store {
            return entry_in(one, region, index);
        }
    }
    None
}
