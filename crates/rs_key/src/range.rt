ghost use Rattle.std.specs.Prelude.{◌≡◌, ◌+◌, ◌<◌, ◌^◌, true, length, IfOk, IfErr, is_ok, Some, None};
ghost use Rattle.rs_key.specs.Ranges.{is_range, holds, is_next_to, join, bad_cut_from, first_bad_cut, cut};
ghost use Rattle.rs_key.specs.Cutting.{IsCauseOfCut};

use crate::bounds::{is_below, is_from, is_past, is_range, is_to, meets};
use crate::key::Key;
use rs_rows::{NoMemory, Rows, TryClone};
use std::alloc::Global;
use std::marker::Model;
use thiserror::Error;

/// The keys from the start on and below the end; a bound that is missing bounds nothing.
///
/// Where both bounds are there, the start is below the end. Contracts see the record of the two bounds.
#[derive(Debug, Drop)]
pub struct Range {
    start: Option<Key>,
    end: Option<Key>,
}

impl Model for Range {
    ghost use Rattle.std.specs.Prelude.{◌≡◌, true};
    ghost use Rattle.rs_key.specs.Ranges.{Bounds, is_range};

    ghost Value = { Bounds };

    ghost view = { λ r. record { start = r.start; end = r.end } };

    ghost invariant = { λ r. is_range r.start r.end ≡ true };
}

/// Two bounds with no key between them, handed back.
#[derive(Debug, Drop, Error)]
#[error("the bounds have no key between them")]
pub struct Empty {
    pub start: Option<Key>,
    pub end: Option<Key>,
}

/// The error of a range that wasn't cut.
#[derive(Clone, Copy, Debug, PartialEq, Eq, Error)]
pub enum CutError {
    /// The key at this place, counted from 1, isn't above the one before it or isn't below the end.
    #[error("key {0} isn't above the key before it, or isn't below the end")]
    BadCut(usize),
    /// Memory ran out.
    #[error("out of memory")]
    NoMemory,
}

impl Range {
    /// Returns the range between these bounds. Empty comes exactly where both are there and the start isn't below the
    /// end.
    pub fn new(start: Option<Key>, end: Option<Key>) -> Result<Range, Empty>
        ensures ok { IfOk result (λ r. r ≡ record { start = start; end = end }) }
        ensures err { IfErr result (λ e. (e.start ≡ start) × (e.end ≡ end)) }
        ensures empty { is_ok result ≡ is_range start end }
    {
        if is_range(&start, &end) {
            Ok(Range { start, end })
        } else {
            Err(Empty { start, end })
        }
    }

    /// Returns the least key of the range; `None` if nothing bounds it below.
    pub fn start(&self) -> &Option<Key>
        ensures { result.now ≡ self.now.start }
    {
        &self.start
    }

    /// Returns the key that ends the range, which isn't in it; `None` if nothing bounds it above.
    pub fn end(&self) -> &Option<Key>
        ensures { result.now ≡ self.now.end }
    {
        &self.end
    }

    /// Returns whether the key is in the range.
    #[tactic(auto, using(crate::proofs::RangeLaws::key_is_key))]
    pub fn holds(&self, key: &Key) -> bool
        ensures { result ≡ holds self.now key.now }
    {
        !key.as_bytes().is_empty() && (is_from(&self.start, key) && is_to(&self.end, key))
    }

    /// Returns whether one of the two ranges ends where the other begins.
    pub fn is_next_to(&self, other: &Range) -> bool
        ensures { result ≡ is_next_to self.now other.now }
    {
        meets(&self.end, &other.start) || meets(&other.end, &self.start)
    }

    /// Returns the range from the start of the left one to the end of the right one.
    pub fn join(self, other: Range) -> Range
        requires { is_next_to self other ≡ true }
        ensures { result ≡ join self other }
    {
        if meets(&self.end, &other.start) {
            Range {
                start: self.start,
                end: other.end,
            }
        } else {
            Range {
                start: other.start,
                end: self.end,
            }
        }
    }

    /// Returns the first place, counted from 1, whose key isn't above the one before it (the start, for the first)
    /// or isn't below the end. It takes no memory.
    pub fn first_bad_cut(&self, keys: &[Key]) -> Option<usize>
        ensures { result ≡ first_bad_cut self.now keys.now }
    {
        match keys {
            [] => None,
            [key, rest @ ..] => {
                if is_past(&self.start, key) && is_to(&self.end, key) {
                    bad_cut_from(2, key, &self.end, rest)
                } else {
                    Some(1)
                }
            }
        }
    }

    /// Returns the ranges from left to right, one more than there are keys.
    ///
    /// BadCut comes exactly where `first_bad_cut` finds a place, with that place.
    pub fn cut(&self, alloc: Global, keys: &[Key]) -> Result<Rows<Range>, CutError>
        ensures ok { IfOk result (λ ranges. ranges ≡ cut self.now keys.now) }
        ensures good { IfOk result (λ _. first_bad_cut self.now keys.now ≡ None) }
        ensures err { IfErr result (λ e. IsCauseOfCut e (first_bad_cut self.now keys.now)) }
    {
        if let Some(place) = self.first_bad_cut(keys) {
            return Err(CutError::BadCut(place));
        }
        match cut_at(alloc, self, keys) {
            Ok(ranges) => Ok(ranges),
            Err(NoMemory) => Err(CutError::NoMemory),
        }
    }
}

impl TryClone for Range {
    fn try_clone(&self) -> Result<Range, NoMemory> {
        let start = self.start.try_clone()?;
        let end = self.end.try_clone()?;
        Ok(Range { start, end })
    }
}

fn bad_cut_from(place: usize, before: &Key, end: &Option<Key>, keys: &[Key]) -> Option<usize>
    requires { place + length keys.now < 2 ^ 64 }
    ensures { result ≡ bad_cut_from place (Some before.now) end.now keys.now }
{
    match keys {
        [] => None,
        [key, rest @ ..] => {
            if is_below(before, key) && is_to(end, key) {
                bad_cut_from(place + 1, key, end, rest)
            } else {
                Some(place)
            }
        }
    }
}

/// Returns the ranges between the start, the keys and the end.
fn cut_at(alloc: Global, range: &Range, keys: &[Key]) -> Result<Rows<Range>, NoMemory>
    requires { first_bad_cut range.now keys.now ≡ None }
    ensures { IfOk result (λ ranges. ranges ≡ cut range.now keys.now) }
{
    let mut ranges = Rows::new(alloc);
    let mut start = range.start.try_clone()?;
    for key in keys {
        let end = Some(key.try_clone()?);
        ranges.push(Range { start, end })?;
        start = Some(key.try_clone()?);
    }
    let end = range.end.try_clone()?;
    ranges.push(Range { start, end })?;
    Ok(ranges)
}
