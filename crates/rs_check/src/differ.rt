ghost use Rattle.std.specs.Prelude.{◌≡◌, ℕ, ◌+◌, ◌<◌, ◌≤◌, Option, Some, None, IfOk, [], length};
ghost use Rattle.std.specs.Option.{option_map};
ghost use Rattle.rs_store.specs.Places.{known};
ghost use Rattle.rs_check.specs.Statements.{same_statements, first_differ, told_pair};
ghost use Rattle.rs_check.specs.Laws.{differ_fault};

use crate::statements::{Said, is_same, statement_of};
use rs_entry::LawFault;
use rs_key::NoMemory;
use rs_store::PlaceMap;
use std::alloc::Global;

/// The places of two statements that differ.
#[derive(Clone, Copy, Debug)]
pub struct Differing {
    pub first: usize,
    pub second: usize,
}

/// Returns the fault of the first statement that differs from an earlier one about the same.
pub fn differ_law(alloc: Global, all: &[Said<'_>]) -> Result<Option<LawFault>, NoMemory>
    ensures { IfOk result (λ fault. fault ≡ option_map differ_fault (first_differ [] all.now)) }
{
    match first_differ(alloc, all)? {
        None => Ok(None),
        Some(d) => Ok(told(all, d)?),
    }
}

/// Returns the fault of the two statements at these places.
fn told(all: &[Said<'_>], d: Differing) -> Result<Option<LawFault>, NoMemory>
    ensures { IfOk result (λ fault. fault ≡ option_map differ_fault (told_pair all.now (Some d))) }
{
    let Some(was) = all.get(d.first) else {
        return Ok(None);
    };
    let Some(is) = all.get(d.second) else {
        return Ok(None);
    };
    Ok(Some(differ_fault(was, is)?))
}

fn differ_fault(was: &Said<'_>, is: &Said<'_>) -> Result<LawFault, NoMemory>
    ensures { IfOk result (λ fault. fault ≡ differ_fault (was.now, is.now)) }
{
    Ok(LawFault::Differ {
        first: was.store,
        second: is.store,
        region: is.region,
        index: is.index,
        was: statement_of(was.what)?,
        is: statement_of(is.what)?,
    })
}

fn same(a: &Said<'_>, b: &Said<'_>) -> bool
    ensures { result ≡ same_statements a.now.what b.now.what }
{
    is_same(a.what, b.what)
}

/// Returns the places of the first statement that differs from an earlier one about the same, and of that one.
fn first_differ(alloc: Global, all: &[Said<'_>]) -> Result<Option<Differing>, NoMemory>
    ensures { IfOk result (λ d. told_pair all.now d ≡ first_differ [] all.now) }
{
    let mut firsts = PlaceMap::new(alloc);
    for place in 0..all.len() {
        let said = &all[place];
        firsts.turn_to(said.region)?;
        match firsts.get(said.region, said.index) {
            None => {
                firsts.put(said.region, said.index, place)?;
                continue;
            }
            Some(first) => {
                if !same(&all[first], said) {
                    return Ok(Some(Differing {
                        first,
                        second: place,
                    }));
                }
            }
        }
    }
    Ok(None)
}
