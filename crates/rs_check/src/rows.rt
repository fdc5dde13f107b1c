ghost use Rattle.std.specs.Prelude.{◌≡◌, ◌<◌, [], ◌∷◌, ◌++◌, Some, true, false, length, position, slice_get, IfOk, IfSome, OnOk};
ghost use Rattle.std.specs.List.Sorted.{IsPartitionPoint};
ghost use Rattle.std.specs.Option.{option_copied};
ghost use Rattle.rs_store.specs.Runs.{seen};
ghost use Rattle.rs_check.specs.Plans.{AreOrdered, is_at, is_before, row_of, rows_in};

use rs_entry::Mode;
use rs_key::{NoMemory, Rows, TryClone};
use rs_store::{IndexedStore, Made, Origin, Regions};

/// The row of a plan for a region on a store.
#[derive(Debug, Drop)]
pub struct Row {
    pub store: u64,
    pub region: u64,
    pub origin: Origin,
    /// The index of the last entry applied.
    pub stop: u64,
    /// The number of entries that the store's own log of the region has.
    pub own: u64,
    pub ends: Mode,
    /// The indexes of its accepted reshapings.
    pub reshapings: Rows<u64>,
}

/// Adds the row of the region, where the store made it.
#[tactic(auto, using(crate::proofs::PlanLaws::row_none, crate::proofs::PlanLaws::row_some))]
fn add_row(
    rows: &mut Vec<Row>,
    indexed: &IndexedStore<'_>,
    id: u64,
    regions: &Regions,
) -> Result<(), NoMemory>
    ensures { OnOk result (rows.new.items ≡ rows.old.items ++ rows_in indexed.now (seen regions.now) (id ∷ [])) }
{
    let Some(made) = regions.get(id) else {
        return Ok(());
    };
    rows.push(row_of(indexed, id, made)?)?;
    Ok(())
}

fn row_of(indexed: &IndexedStore<'_>, id: u64, made: &Made) -> Result<Row, NoMemory>
    ensures { IfOk result (λ row. Some row ≡ row_of indexed.now id (Some made.now)) }
{
    let log = indexed.own(id);
    Ok(Row {
        store: indexed.store().id,
        region: id,
        origin: made.origin,
        stop: made.applied,
        own: log.len() as u64,
        ends: made.state.mode,
        reshapings: made.reshapings.try_clone()?,
    })
}

/// Adds the rows of the regions that the store made.
pub fn add_rows(
    rows: &mut Vec<Row>,
    indexed: &IndexedStore<'_>,
    ids: &[u64],
    regions: &Regions,
) -> Result<(), NoMemory>
    ensures { OnOk result (rows.new.items ≡ rows.old.items ++ rows_in indexed.now (seen regions.now) ids.now) }
{
    for id in ids {
        add_row(rows, indexed, *id, regions)?;
    }
    Ok(())
}

/// Returns the place of the region's row, in rows by store and region.
pub fn place_of(rows: &[Row], store: u64, region: u64) -> Option<usize>
    requires { AreOrdered rows.now }
    ensures place { result ≡ position (is_at store region) rows.now }
    ensures within { IfSome result (λ place. place < length rows.now) }
{
    let place = first_from(rows, store, region);
    let Some(row) = row_at(rows, place) else {
        return None;
    };
    if !is_at(row, store, region) {
        return None;
    }
    Some(place)
}

fn row_at(rows: &[Row], place: usize) -> Option<&Row>
    ensures { option_copied result ≡ slice_get rows.now place }
{
    rows.get(place)
}

fn is_at(row: &Row, store: u64, region: u64) -> bool
    ensures { result ≡ is_at store region row.now }
{
    row.store == store && row.region == region
}

/// Returns the place of the first row that isn't before the region's.
fn first_from(rows: &[Row], store: u64, region: u64) -> usize
    requires { AreOrdered rows.now }
    ensures { IsPartitionPoint (λ r. is_before store region r ≡ true) (λ r. is_before store region r ≡ false) rows.now result }
{
    rows.partition_point(|row| is_before(row, store, region))
}

fn is_before(row: &Row, store: u64, region: u64) -> bool
    ensures { result ≡ is_before store region row.now }
{
    row.store < store || (row.store == store && row.region < region)
}
