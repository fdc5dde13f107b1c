ghost use Rattle.std.specs.Prelude.{◌≡◌, ℕ, ◌+◌, ◌++◌, [], ltb, ◌&&◌, Option, Some, None, IfOk, OnOk, slice_get, length, ◌<◌, map};
ghost use Rattle.std.specs.List.{flat_map};
ghost use Rattle.rs_check.specs.Laws.{share_a_key, or_least, boots, overlap, overlaps_of, overlaps, is_lesser, lesser, least, first_overlap, overlap_fault};
ghost use Rattle.std.specs.Option.{option_map};
ghost use Rattle.rs_key.specs.Ranges.{holds};

use rs_entry::{Boot, Input, LawFault, Store};
use rs_key::{Key, NoMemory, Range, TryClone};
use std::alloc::Global;
use std::marker::Model;

/// A boot of the input.
#[derive(Drop)]
pub struct Root<'a> {
    pub boot: &'a Boot,
}

impl<'a> Model for Root<'a> {
    ghost use Rattle.rs_entry.specs.declared.input.Boot.{Boot};

    ghost Value = { Boot };

    ghost view = { λ r. r.boot.now };
}

/// Two boots of the input.
#[derive(Drop)]
pub struct Both<'a> {
    pub one: &'a Boot,
    pub other: &'a Boot,
}

impl<'a> Model for Both<'a> {
    ghost use Rattle.rs_entry.specs.declared.input.Boot.{Boot};

    ghost Value = { Boot × Boot };

    ghost view = { λ p. (p.one.now, p.other.now) };
}

fn holds_start(range: &Range, start: &Option<Key>, least: &Key) -> bool
    requires { least.now ≡ or_least None }
    ensures { result ≡ holds range.now (or_least start.now) }
{
    match start {
        None => range.holds(least),
        Some(start) => range.holds(start),
    }
}

fn shares(a: &Range, b: &Range, least: &Key) -> bool
    requires { least.now ≡ or_least None }
    ensures { result ≡ share_a_key a.now b.now }
{
    (holds_start(a, b.start(), least) && holds_start(b, b.start(), least))
        || (holds_start(a, a.start(), least) && holds_start(b, a.start(), least))
}

fn overlaps(a: &Boot, b: &Boot, least: &Key) -> bool
    requires { least.now ≡ or_least None }
    ensures { result ≡ overlap a.now b.now }
{
    a.region < b.region && shares(&a.range, &b.range, least)
}

fn is_lesser(p: &Both<'_>, q: &Both<'_>) -> bool
    ensures { result ≡ is_lesser p.now q.now }
{
    p.one.region < q.one.region || (p.one.region == q.one.region && p.other.region < q.other.region)
}

fn lesser<'a>(best: Option<Both<'a>>, pair: Both<'a>) -> Both<'a>
    ensures { result ≡ lesser best.entry pair.entry }
{
    match best {
        None => pair,
        Some(best) => { if is_lesser(&pair, &best) { pair } else { best } }
    }
}

fn least_with<'a>(
    mut best: Option<Both<'a>>,
    a: &'a Boot,
    all: &[Root<'a>],
    first: &Key,
) -> Option<Both<'a>>
    requires { first.now ≡ or_least None }
    ensures { result ≡ least best.entry (overlaps_of a.now all.now) }
{
    for root in all {
        if overlaps(a, root.boot, first) {
            best = Some(lesser(
                best,
                Both {
                    one: a,
                    other: root.boot,
                },
            ));
        }
    }
    best
}

/// Returns the fault of the pair of the least ids whose ranges share a key.
pub fn overlap_law(alloc: Global, roots: &[Root<'_>]) -> Result<Option<LawFault>, NoMemory>
    ensures { IfOk result (λ fault. fault ≡ option_map overlap_fault (first_overlap roots.now)) }
{
    let least = least_key(alloc)?;
    match first_overlap(roots, &least) {
        None => Ok(None),
        Some(Both { one, other }) => Ok(Some(LawFault::Overlap {
            one: one.try_clone()?,
            other: other.try_clone()?,
        })),
    }
}

/// Returns the least key.
fn least_key(alloc: Global) -> Result<Key, NoMemory>
    ensures { IfOk result (λ key. key ≡ or_least None) }
{
    match Key::new(alloc, &[0]) {
        Ok(key) => Ok(key),
        Err(_) => Err(NoMemory),
    }
}

/// Returns the pair of the least ids whose ranges share a key.
fn first_overlap<'a>(all: &[Root<'a>], first: &Key) -> Option<Both<'a>>
    requires { first.now ≡ or_least None }
    ensures { result ≡ first_overlap all.now }
{
    let mut best = None;
    for root in all {
        best = least_with(best, root.boot, all, first);
    }
    best
}

fn add_boots<'a>(roots: &mut Vec<Root<'a>>, boots: &'a [Boot]) -> Result<(), NoMemory>
    ensures { OnOk result (roots.new.items ≡ roots.old.items ++ boots.now) }
{
    for boot in boots {
        roots.push(Root { boot })?;
    }
    Ok(())
}

fn add_stores<'a>(roots: &mut Vec<Root<'a>>, stores: &'a [Store]) -> Result<(), NoMemory>
    ensures { OnOk result (roots.new.items ≡ roots.old.items ++ flat_map (λ s. s.regions) stores.now) }
{
    for store in stores {
        add_boots(roots, store.regions.as_slice())?;
    }
    Ok(())
}

/// Returns the boots of all stores.
pub fn boots<'a>(alloc: Global, input: &'a Input) -> Result<Vec<Root<'a>>, NoMemory>
    ensures { IfOk result (λ roots. roots.items ≡ boots input.now) }
{
    let mut roots = Vec::new(alloc);
    add_stores(&mut roots, input.stores.as_slice())?;
    Ok(roots)
}
