//! Which ranges of a cut range the split region keeps, and which the new regions take.

ghost use Rattle.std.specs.Prelude.{◌≡◌, ◌++◌, map, IfOk, OnOk};
ghost use Rattle.std.specs.List.{zip};
ghost use Rattle.rs_region.specs.Reshapings.{last_of, kept_range, new_ranges, new_region};

use crate::state::RegionState;
use rs_entry::{Mode, Side};
use rs_key::{Epoch, NoMemory, Range, Rows, TryClone};
use std::alloc::Global;

/// Returns the part that the old region keeps: the last one, or by `Side::Left` the first.
pub fn kept_range<'a>(side: Side, whole: &'a Range, parts: &'a [Range]) -> &'a Range
    ensures { result.now ≡ kept_range side whole.now parts.now }
{
    match side {
        Side::Right => last_of(whole, parts),
        Side::Left => match parts {
            [] => whole,
            [part, ..] => part,
        },
    }
}

fn last_of<'a>(whole: &'a Range, parts: &'a [Range]) -> &'a Range
    ensures { result.now ≡ last_of whole.now parts.now }
{
    match parts {
        [] => whole,
        [part, rest @ ..] => last_of(part, rest),
    }
}

/// Returns the parts that go to the new regions, from left to right.
pub fn new_ranges(side: Side, parts: &[Range]) -> &[Range]
    ensures { result.now ≡ new_ranges side parts.now }
{
    match side {
        Side::Right => parts,
        Side::Left => match parts {
            [] => parts,
            [_, rest @ ..] => rest,
        },
    }
}

/// Returns a new region for each id, with the range at the same place.
pub fn new_regions(
    alloc: Global,
    epoch: Epoch,
    peers: &Rows<u64>,
    ids: &[u64],
    ranges: &[Range],
) -> Result<Rows<RegionState>, NoMemory>
    ensures { IfOk result (λ new. new ≡ map (new_region epoch peers.now) (zip ids.now ranges.now)) }
{
    let mut new = Rows::with_room(alloc, ids.len());
    push_regions(&mut new, epoch, peers, ids, ranges)?;
    Ok(new)
}

fn push_regions(
    new: &mut Rows<RegionState>,
    epoch: Epoch,
    peers: &Rows<u64>,
    ids: &[u64],
    ranges: &[Range],
) -> Result<(), NoMemory>
    ensures { OnOk result (new.new ≡ new.old ++ map (new_region epoch peers.now) (zip ids.now ranges.now)) }
{
    match ids {
        [] => Ok(()),
        [id, more_ids @ ..] => match ranges {
            [] => Ok(()),
            [range, more_ranges @ ..] => {
                new.push(new_region(epoch, peers, *id, range)?)?;
                push_regions(new, epoch, peers, more_ids, more_ranges)
            }
        },
    }
}

fn new_region(
    epoch: Epoch,
    peers: &Rows<u64>,
    region: u64,
    range: &Range,
) -> Result<RegionState, NoMemory>
    ensures { IfOk result (λ new. new ≡ new_region epoch peers.now (region, range.now)) }
{
    Ok(RegionState {
        region,
        epoch,
        range: range.try_clone()?,
        peers: peers.try_clone()?,
        mode: Mode::Normal,
    })
}
