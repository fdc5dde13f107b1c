ghost use Rattle.std.specs.Prelude.{◌≡◌, ◌<◌, ◌^◌, IfOk};
ghost use Rattle.std.specs.Option.{option_copied};
ghost use Rattle.rs_store.specs.Indexes.{AreRising, log_ids};
ghost use Rattle.rs_store.specs.Runs.{seen};
ghost use Rattle.rs_history.specs.Outcomes.{left_of, region_line, lines_in, is_removed, removed_range, removed_in};

use rs_entry::{Entry, INIT_INDEX, Mode, RegionLine, Store};
use rs_key::{NoMemory, Range, Rows, TryClone};
use rs_store::{Made, Regions, own};
use std::alloc::Global;

/// Returns the lines of the regions with these ids that were made.
pub fn lines_in(
    alloc: Global,
    store: &Store,
    regions: &Regions,
    ids: &[u64],
) -> Result<Rows<RegionLine>, NoMemory>
    requires { AreRising (log_ids store.now) }
    ensures { IfOk result (λ lines. lines ≡ lines_in store.now (seen regions.now) ids.now) }
{
    let mut lines = Rows::new(alloc);
    for id in ids {
        let Some(line) = line_of(store, regions, *id)? else {
            continue;
        };
        lines.push(line)?;
    }
    Ok(lines)
}

fn line_of(store: &Store, regions: &Regions, id: u64) -> Result<Option<RegionLine>, NoMemory>
    requires { AreRising (log_ids store.now) }
    ensures { IfOk result (λ line. line ≡ region_line store.now id (seen regions.now id)) }
{
    match regions.get(id) {
        None => Ok(None),
        Some(made) => Ok(Some(line(store, id, made)?)),
    }
}

fn line(store: &Store, id: u64, made: &Made) -> Result<RegionLine, NoMemory>
    requires { AreRising (log_ids store.now) }
    ensures { IfOk result (λ line. Some line ≡ region_line store.now id (Some made.now)) }
{
    Ok(RegionLine {
        region: id,
        epoch: made.state.epoch,
        range: made.state.range.try_clone()?,
        mode: made.state.mode,
        applied: made.applied,
        left: left_of(own(store, id), made.applied),
        peers: made.state.peers.try_clone()?,
    })
}

/// Returns how many of the entries lie past the applied index.
fn left_of(log: &[Entry], applied: u64) -> u64
    ensures { result ≡ left_of log.now applied }
{
    let done = applied.saturating_sub(INIT_INDEX);
    (log.len() as u64).saturating_sub(done)
}

/// Returns the last ranges of the regions with these ids that were removed.
pub fn removed_in(alloc: Global, regions: &Regions, ids: &[u64]) -> Result<Vec<Range>, NoMemory>
    ensures { IfOk result (λ ranges. ranges.items ≡ removed_in (seen regions.now) ids.now) }
{
    let mut ranges = Vec::new(alloc);
    for id in ids {
        let Some(range) = removed_range(regions.get(*id))? else {
            continue;
        };
        ranges.push(range)?;
    }
    Ok(ranges)
}

fn removed_range(made: Option<&Made>) -> Result<Option<Range>, NoMemory>
    ensures { IfOk result (λ range. range ≡ removed_range (option_copied made.entry)) }
{
    let Some(made) = made else {
        return Ok(None);
    };
    if !is_removed(made.state.mode) {
        return Ok(None);
    }
    Ok(Some(made.state.range.try_clone()?))
}

fn is_removed(mode: Mode) -> bool
    ensures { result ≡ is_removed mode }
{
    match mode {
        Mode::Removed => true,
        _ => false,
    }
}
