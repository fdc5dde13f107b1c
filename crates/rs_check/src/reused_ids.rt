ghost use Rattle.std.specs.Prelude.{◌≡◌, ℕ, ◌+◌, ◌++◌, [], Option, Some, None, IfOk, OnOk, map, length, ◌≤◌, true, false};
ghost use Rattle.std.specs.List.{list_any};
ghost use Rattle.rs_check.specs.Laws.{is_id, ids_said, first_reused, Named};
ghost use Rattle.rs_check.specs.Namings.{namings, no_namings, with_naming, with_namings, is_other, is_there, is_reused_at, reused_by};
ghost use Rattle.rs_check.specs.Statements.{said_of};

use crate::overlap::Root;
use crate::statements::{Said, What};
use rs_entry::{Body, LawFault};
use rs_key::NoMemory;
use std::alloc::Global;
use std::collections::BTreeMap;

/// The split that named each id first.
#[derive(Drop)]
pub struct Namers {
    by_id: BTreeMap<u64, (u64, u64)>,
}

impl Namers {
    fn new(alloc: Global) -> Namers
        ensures { namings result ≡ no_namings }
    {
        Namers {
            by_id: BTreeMap::new(alloc),
        }
    }

    fn get(&self, id: u64) -> Option<(u64, u64)>
        ensures { result ≡ namings self.now id }
    {
        self.by_id.get(&id).copied()
    }

    fn put(&mut self, id: u64, region: u64, index: u64) -> Result<(), NoMemory>
        ensures { OnOk result (namings self.new ≡ with_naming (namings self.old) id region index) }
    {
        self.by_id.insert(id, (region, index))?;
        Ok(())
    }
}

fn is_other(region: u64, index: u64, namer: Option<(u64, u64)>) -> bool
    ensures { result ≡ is_other region index namer }
{
    match namer {
        None => false,
        Some((r, i)) => !(r == region && i == index),
    }
}

fn has(ids: &[u64], id: u64) -> bool
    ensures { result ≡ list_any (is_id id) ids.now }
{
    for one in ids {
        if *one == id {
            return true;
        }
    }
    false
}

fn is_reused(
    boots: &Namers,
    names: &Namers,
    region: u64,
    index: u64,
    before: &[u64],
    id: u64,
) -> bool
    ensures { result ≡ is_reused_at (namings boots.now) (namings names.now) region index before.now id }
{
    boots.get(id).is_some() || (has(before, id) || is_other(region, index, names.get(id)))
}

/// Returns the first id that is reused, of these from a place on.
fn reused_id(boots: &Namers, names: &Namers, region: u64, index: u64, ids: &[u64]) -> Option<u64>
    ensures { result ≡ reused_by (namings boots.now) (namings names.now) region index [] ids.now }
{
    for place in 0..ids.len() {
        let id = ids[place];
        if is_reused(boots, names, region, index, &ids[..place], id) {
            return Some(id);
        }
    }
    None
}

fn put_all(names: &mut Namers, region: u64, index: u64, ids: &[u64]) -> Result<(), NoMemory>
    ensures { OnOk result (namings names.new ≡ with_namings (namings names.old) region index ids.now) }
{
    for id in ids {
        names.put(*id, region, index)?;
    }
    Ok(())
}

fn ids_said<'a>(what: What<'a>) -> &'a [u64]
    ensures { result.now ≡ ids_said (said_of what.entry) }
{
    match what {
        What::Own(entry) => match &entry.body {
            Body::Split { ids, .. } => ids.as_slice(),
            _ => &[],
        },
        _ => &[],
    }
}

fn boot_ids(alloc: Global, roots: &[Root<'_>]) -> Result<Namers, NoMemory>
    ensures { IfOk result (λ boots. (id : ℕ) → is_there (namings boots id) ≡ list_any (is_id id) (map (λ b. b.region) roots.now)) }
{
    let mut boots = Namers::new(alloc);
    for root in roots {
        boots.put(root.boot.region, 0, 0)?;
    }
    Ok(boots)
}

/// Returns the first split that names an id which is a bootstrap id or was named before.
pub fn first_reused(
    alloc: Global,
    roots: &[Root<'_>],
    all: &[Said<'_>],
) -> Result<Option<LawFault>, NoMemory>
    ensures { IfOk result (λ fault. fault ≡ first_reused (map (λ b. b.region) roots.now) [] all.now) }
{
    let boots = boot_ids(alloc, roots)?;
    let mut names = Namers::new(alloc);
    for said in all {
        let ids = ids_said(said.what);
        if let Some(id) = reused_id(&boots, &names, said.region, said.index, ids) {
            return Ok(Some(LawFault::Reused {
                store: said.store,
                region: said.region,
                index: said.index,
                id,
            }));
        }
        put_all(&mut names, said.region, said.index, ids)?;
    }
    Ok(None)
}
