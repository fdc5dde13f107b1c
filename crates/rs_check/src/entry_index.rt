ghost use Rattle.std.specs.Prelude.{◌≡◌, ◌<◌, slice_get, IfSome};
ghost use Rattle.std.specs.Option.{option_copied};
ghost use Rattle.rs_part.specs.Counting.{IsAmong};
ghost use Rattle.rs_store.specs.Runs.{line_entry};
ghost use Rattle.rs_check.specs.Lines.{Carries, CarriesIn, HasEntry, Owns};
ghost use Rattle.rs_check.specs.Plans.{AreOrdered};

use crate::rows::{Row, place_of};
use rs_entry::{Body, Carried, Entry, FIRST_INDEX, Input, Log, Store};
use rs_key::NoMemory;
use rs_store::{Line, own_next};
use std::alloc::Global;

/// The place of an entry in the logs of a store.
#[derive(Clone, Copy, Debug)]
pub struct EntryPlace {
    pub log: usize,
    pub entry: usize,
}

/// Where a region's entries are looked for first.
///
/// A home is a hint: what stands there is tested before it is used, and what isn't there is looked for elsewhere.
#[derive(Clone, Copy, Debug)]
pub struct Home {
    /// The place of the region's store in the input.
    pub store: usize,
    /// The place of its own log on the store.
    pub log: usize,
    /// The place of the commit that merges it into another region.
    pub merger: Option<EntryPlace>,
}

/// Returns the homes of the regions with these rows.
pub fn homes_of(alloc: Global, input: &Input, rows: &[Row]) -> Result<Vec<Home>, NoMemory>
    requires { AreOrdered rows.now }
{
    let stores = input.stores.as_slice();
    let mut homes = Vec::new(alloc);
    for row in rows {
        homes.push(own_home(stores, row))?;
    }
    for place in 0..rows.len() {
        find_merged(stores, rows, place, homes.as_mut_slice());
    }
    Ok(homes)
}

/// Returns the places of the region's store and of its log.
fn own_home(stores: &[Store], row: &Row) -> Home {
    let store = stores.partition_point(|store| store.id < row.store);
    Home {
        store,
        log: log_place(stores.get(store), row.region),
        merger: None,
    }
}

fn log_place(store: Option<&Store>, region: u64) -> usize {
    match store {
        None => 0,
        Some(store) => store
            .logs
            .as_slice()
            .partition_point(|log| log.region < region),
    }
}

/// Notes the accepted commits of the region as the mergers of their sources.
fn find_merged(stores: &[Store], rows: &[Row], target: usize, homes: &mut [Home])
    requires { AreOrdered rows.now }
{
    let Some(row) = rows.get(target) else {
        return;
    };
    let Some(home) = homes.get(target).copied() else {
        return;
    };
    let Some(store) = stores.get(home.store) else {
        return;
    };
    let Some(log) = store.logs.as_slice().get(home.log) else {
        return;
    };
    for index in row.reshapings.as_slice() {
        let entry = index.saturating_sub(FIRST_INDEX) as usize;
        let Some(source) = source_at(log, entry) else {
            continue;
        };
        let Some(place) = place_of(rows, row.store, source) else {
            continue;
        };
        let merger = Some(EntryPlace {
            log: home.log,
            entry,
        });
        if place < homes.len() {
            homes[place].merger = merger;
        }
    }
}

/// Returns the source of the commit that stands there.
fn source_at(log: &Log, entry: usize) -> Option<u64> {
    match &log.entries.as_slice().get(entry)?.body {
        Body::Commit { source, .. } => Some(*source),
        _ => None,
    }
}

/// Returns the region's entry at the index, where it stands at this home.
pub fn line_near<'a>(store: &'a Store, home: &Home, region: u64, index: u64) -> Option<Line<'a>>
    requires { 0 < index }
    ensures { IfSome result (λ line. HasEntry store.now region index (line_entry line)) }
{
    if let Some(entry) = own_near(store, home.log, region, index) {
        return Some(Line::Own(entry));
    }
    let place = home.merger?;
    match carried_near(store, place, region, index) {
        None => None,
        Some(carried) => Some(Line::Carried(carried)),
    }
}

fn own_near(store: &Store, place: usize, region: u64, index: u64) -> Option<&Entry>
    requires { 0 < index }
    ensures { IfSome result (λ entry. Owns store.now region index entry.now) }
{
    let Some(log) = log_at(store, place) else {
        return None;
    };
    if log.region != region {
        return None;
    }
    own_next(log.entries.as_slice(), index - 1)
}

fn carried_near(store: &Store, place: EntryPlace, region: u64, index: u64) -> Option<&Carried>
    ensures { IfSome result (λ carried. Carries store.now region index carried.now) }
{
    let Some(log) = log_at(store, place.log) else {
        return None;
    };
    let Some(entry) = entry_at(log, place.entry) else {
        return None;
    };
    carried_by(&entry.body, region, index)
}

fn log_at(store: &Store, place: usize) -> Option<&Log>
    ensures { option_copied result ≡ slice_get store.now.logs place }
{
    store.logs.as_slice().get(place)
}

fn entry_at(log: &Log, place: usize) -> Option<&Entry>
    ensures { option_copied result ≡ slice_get log.now.entries place }
{
    log.entries.as_slice().get(place)
}

fn carried_by(body: &Body, region: u64, index: u64) -> Option<&Carried>
    ensures { IfSome result (λ carried. CarriesIn body.now region index carried.now) }
{
    match body {
        Body::Commit {
            source,
            carried,
            ..
        } => {
            if *source != region {
                return None;
            }
            numbered(carried.as_slice(), index)
        }
        _ => None,
    }
}

/// Returns the carried entry of the index, by the distance from the first.
fn numbered(carried: &[Carried], index: u64) -> Option<&Carried>
    ensures { IfSome result (λ one. IsAmong one.now carried.now × (one.now.index ≡ index)) }
{
    let first = carried.first()?;
    let Some(one) = carried_at(carried, index.saturating_sub(first.index) as usize) else {
        return None;
    };
    if one.index != index {
        return None;
    }
    Some(one)
}

fn carried_at(carried: &[Carried], place: usize) -> Option<&Carried>
    ensures { option_copied result ≡ slice_get carried.now place }
{
    carried.get(place)
}
