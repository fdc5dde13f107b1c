ghost use Rattle.std.specs.Prelude.{◌≡◌, ◌≤◌, ◌↔◌, ◌∷◌, ◌++◌, [], true, false, length, map, IsTrue, OnOk, OnErr, IfOk, None};
ghost use Rattle.std.specs.List.Sorted.{IsPartitionPoint};
ghost use Rattle.rs_key.specs.Ranges.{Bounds, cut, first_bad_cut};
ghost use Rattle.rs_store.specs.Stores.{wrote};
ghost use Rattle.rs_part.specs.Items.{Items};
ghost use Rattle.rs_msg.specs.Cuts.{AddsCuts, AreKept, IsKept};
ghost use Rattle.rs_msg.specs.Maps.{AreApart, HasFront, HasItems, LiesBelow, LiesFrom, StartsRise, begins_by, items_at, items_below, items_from, items_of_both, some_part, with_writes, written};

use crate::part::Part;
use rs_entry::Op;
use rs_history::{AcceptedWrite, Writes};
use rs_key::{Key, NoMemory, Rows};
use std::alloc::Global;
use std::marker::Model;

/// The writes of each key, in their order. Contracts see the writes, and read them by `items_at`.
#[derive(Drop)]
pub struct Map<'p> {
    /// The writes of the keys below the first part's start.
    first: Writes<'p>,
    /// The other parts, from left to right.
    parts: Vec<Part<'p>>,
}

impl<'p> Model for Map<'p> {
    ghost use Rattle.rs_msg.specs.Maps.{AreParts, Writes, written};

    ghost Value = { Writes };

    ghost view = { λ m. written m.first m.parts.items };

    ghost invariant = { λ m. AreParts m.first m.parts.items };
}

impl<'p> Map<'p> {
    /// Returns the map without a write. It takes no memory.
    pub fn new(alloc: Global) -> Map<'p>
        ensures { result ≡ [] }
    {
        Map {
            first: Writes::new(alloc),
            parts: Vec::new(alloc),
        }
    }

    /// Returns whether nothing was written.
    pub fn is_empty(&self) -> bool
        ensures { IsTrue result ↔ (self.now ≡ []) }
    {
        self.first.is_empty()
    }

    /// Notes the operations of an accepted write, in their order. Where memory runs out the first of them are noted.
    pub fn note(&mut self, region: u64, index: u64, ops: &'p [Op]) -> Result<(), NoMemory>
        ensures ok { OnOk result (HasItems self.new (with_writes (items_at self.old) (map (wrote region index) ops.now))) }
        ensures err { OnErr result (HasFront (items_at self.old) (map (wrote region index) ops.now) self.new) }
    {
        for op in ops {
            self.note_one(region, index, op)?;
        }
        Ok(())
    }

    /// Returns the map of what both have, of which the one has keys below this one alone, and the other has none.
    pub fn join(below: Map<'p>, at: Key, others: Map<'p>) -> Result<Map<'p>, NoMemory>
        requires below { LiesBelow at below }
        requires others { LiesFrom at others }
        ensures { IfOk result (λ both. HasItems both (items_of_both (items_at below.entry) (items_at others.entry))) }
    {
        if below.is_empty() {
            return Ok(others);
        }
        if others.is_empty() {
            return Ok(below);
        }
        let Map { first, mut parts } = below;
        let Map {
            first: writes,
            parts: mut more,
        } = others;
        parts.push(Part { start: at, writes })?;
        parts.append(&mut more)?;
        Ok(Map { first, parts })
    }

    /// Returns the maps of the ranges into which the keys cut a range, from left to right.
    #[tactic(auto, using(crate::proofs::Cutting::all_cuts))]
    pub fn cut(self, alloc: Global, keys: &Rows<Key>) -> Result<Vec<Map<'p>>, NoMemory>
        ensures { IfOk result (λ maps. (items : Items) (range : Bounds) → first_bad_cut range keys.now ≡ None → IsKept items range self.entry → AreKept items (cut range keys.now) maps.items) }
    {
        let mut maps = Vec::new(alloc);
        let last = keys.as_slice().len().saturating_sub(1);
        cut_into(alloc, self, keys.as_slice(), last, &mut maps)?;
        Ok(maps)
    }

    /// Returns all writes: by key ranges, and those of a key in their order.
    pub fn into_writes(self) -> Result<Writes<'p>, NoMemory>
        ensures { IfOk result (λ writes. writes ≡ self.entry) }
    {
        let mut writes = self.first;
        for part in self.parts {
            writes.append(part.writes)?;
        }
        Ok(writes)
    }

    /// Notes a write.
    fn note_one(&mut self, region: u64, index: u64, op: &'p Op) -> Result<(), NoMemory>
        ensures ok { OnOk result (HasItems self.new (with_writes (items_at self.old) (wrote region index op.now ∷ []))) }
        ensures err { OnErr result (self.new ≡ self.old) }
    {
        let write = AcceptedWrite::new(region, index, op);
        let place = parts_to(self.parts.as_slice(), write.key());
        if place == 0 {
            self.first.push(write)
        } else {
            self.parts[place - 1].writes.push(write)
        }
    }

    /// Returns the maps of the keys below this one, and of the others.
    fn split_at(self, alloc: Global, key: &Key) -> Result<(Map<'p>, Map<'p>), NoMemory>
        ensures below { IfOk result (λ maps. HasItems maps.0 (items_below key.now (items_at self.entry))) }
        ensures others { IfOk result (λ maps. HasItems maps.1 (items_from key.now (items_at self.entry))) }
    {
        let Map { first, mut parts } = self;
        let place = parts_to(parts.as_slice(), key);
        let behind = parts.split_off(place)?;
        match parts.pop() {
            None => {
                let (below, others) = first.split_at(alloc, key)?;
                Ok((Map::led_by(below, parts), Map::led_by(others, behind)))
            }
            Some(part) => {
                let (below, others) = part.writes.split_at(alloc, key)?;
                let parts = with_part(parts, part.start, below)?;
                Ok((Map { first, parts }, Map::led_by(others, behind)))
            }
        }
    }

    /// Returns the map of these parts, of which the first may have no write.
    fn led_by(first: Writes<'p>, parts: Vec<Part<'p>>) -> Map<'p>
        requires { AreApart first parts.items }
        ensures { result ≡ written first.entry parts.entry.items }
    {
        let mut parts = parts;
        if first.is_empty() && !parts.is_empty() {
            let part = parts.remove(0);
            return Map {
                first: part.writes,
                parts,
            };
        }
        Map { first, parts }
    }
}

/// Adds the maps of the ranges into which the keys cut the map's range, from left to right. It cuts at the key at this
/// place first, and then each side at its middle key, so that no write is moved once for each key.
#[tactic(auto, using(crate::proofs::Cutting::no_cut))]
fn cut_into<'p>(
    alloc: Global,
    map: Map<'p>,
    keys: &[Key],
    at: usize,
    maps: &mut Vec<Map<'p>>,
) -> Result<(), NoMemory>
    requires within { at ≤ length keys.now }
    requires there { at ≡ length keys.now → at ≡ 0 }
    ensures { OnOk result (AddsCuts keys.now map.entry maps.old.items maps.new.items) }
{
    let (before, others) = keys.split_at(at);
    let Some((key, behind)) = others.split_first() else {
        maps.push(map)?;
        return Ok(());
    };
    let (left, right) = map.split_at(alloc, key)?;
    cut_into(alloc, left, before, before.len() / 2, maps)?;
    cut_into(alloc, right, behind, behind.len() / 2, maps)
}

/// Returns the parts with one more at the end, unless it has no write.
fn with_part<'p>(
    parts: Vec<Part<'p>>,
    start: Key,
    writes: Writes<'p>,
) -> Result<Vec<Part<'p>>, NoMemory>
    ensures { IfOk result (λ more. more.items ≡ parts.entry.items ++ some_part start writes.entry) }
{
    let mut parts = parts;
    if !writes.is_empty() {
        parts.push(Part { start, writes })?;
    }
    Ok(parts)
}

/// Returns how many of the parts begin at the key or below it.
fn parts_to(parts: &[Part<'_>], key: &Key) -> usize
    requires { StartsRise parts.now }
    ensures bound { result ≤ length parts.now }
    ensures point { IsPartitionPoint (λ p. begins_by key.now p ≡ true) (λ p. begins_by key.now p ≡ false) parts.now result }
{
    parts.partition_point(|part| begins_by(part, key))
}

/// Returns whether the part begins at the key or below it.
fn begins_by(part: &Part<'_>, key: &Key) -> bool
    ensures { result ≡ begins_by key.now part.now }
{
    !(key < &part.start)
}
