ghost use Rattle.std.specs.Prelude.{◌≡◌, ◌↔◌, ◌++◌, ◌∷◌, [], ℕ, List, length, map, IsTrue, OnOk, OnErr, IfOk};
ghost use Rattle.std.specs.List.{filter};
ghost use Rattle.std.specs.List.Sorted.{IsPermutation, IsSortedBy};
ghost use Rattle.rs_store.specs.Stores.{wrote};
ghost use Rattle.rs_part.specs.Items.{of_key};
ghost use Rattle.rs_history.specs.Writes.{is_below, isnt_below, key_below};
ghost use Rattle.rs_history.specs.Histories.{histories_of};
ghost use Rattle.rs_history.specs.Outcomes.{is_shown, shown};

use crate::accepted_write::AcceptedWrite;
use crate::grouping::grouped;
use crate::key_code::code_of;
use rs_entry::{KeyHistory, Op};
use rs_key::{Key, NoMemory, Range, Rows};
use std::alloc::{AllocError, Global};
use std::marker::Model;

/// The accepted writes of a store, in their order. Contracts see the list of writes.
#[derive(Drop)]
pub struct Writes<'a> {
    items: Vec<AcceptedWrite<'a>>,
}

impl<'a> Model for Writes<'a> {
    ghost use Rattle.std.specs.Prelude.{List};
    ghost use Rattle.rs_store.specs.Stores.{Wrote};

    ghost Value = { List Wrote };

    ghost view = { λ w. w.items.items };
}

impl<'a> Writes<'a> {
    /// Returns the empty list. It takes no memory.
    pub fn new(alloc: Global) -> Writes<'a>
        ensures { result ≡ [] }
    {
        Writes {
            items: Vec::new(alloc),
        }
    }

    /// Adds the operations of an accepted write, in their order.
    pub fn record(&mut self, region: u64, index: u64, ops: &'a [Op]) -> Result<(), NoMemory>
        ensures { OnOk result (self.new ≡ self.old ++ map (wrote region index) ops.now) }
    {
        for op in ops {
            self.push(AcceptedWrite::new(region, index, op))?;
        }
        Ok(())
    }

    /// Returns how many writes there are.
    pub fn len(&self) -> usize
        ensures { result ≡ length self.now }
    {
        self.items.len()
    }

    /// Returns whether there are no writes.
    pub fn is_empty(&self) -> bool
        ensures { IsTrue result ↔ (length self.now ≡ 0) }
    {
        self.items.is_empty()
    }

    /// Adds a write at the end. Where memory runs out nothing has changed.
    pub fn push(&mut self, write: AcceptedWrite<'a>) -> Result<(), NoMemory>
        ensures ok { OnOk result (self.new ≡ self.old ++ write.entry ∷ []) }
        ensures err { OnErr result (self.new ≡ self.old) }
    {
        self.items.push(write)?;
        Ok(())
    }

    /// Takes over the writes of the other, behind its own. Where memory runs out nothing has changed.
    pub fn append(&mut self, other: Writes<'a>) -> Result<(), NoMemory>
        ensures ok { OnOk result (self.new ≡ self.old ++ other.entry) }
        ensures err { OnErr result (self.new ≡ self.old) }
    {
        let mut items = other.items;
        self.items.append(&mut items)?;
        Ok(())
    }

    /// Returns the writes of the keys below this one, and those of the others, both in their order.
    pub fn split_at(self, alloc: Global, key: &Key) -> Result<(Writes<'a>, Writes<'a>), NoMemory>
        ensures below { IfOk result (λ parts. parts.0 ≡ filter (is_below key.now) self.entry) }
        ensures others { IfOk result (λ parts. parts.1 ≡ filter (isnt_below key.now) self.entry) }
    {
        let at = code_of(key.as_bytes());
        let mut below = Vec::new(alloc);
        let mut others = Vec::new(alloc);
        for write in self.items {
            if write.is_below(key, at) {
                below.push(write)?;
            } else {
                others.push(write)?;
            }
        }
        Ok((Writes { items: below }, Writes { items: others }))
    }

    /// Returns the writes whose keys lie in none of these ranges, in their order.
    #[tactic(auto, using(crate::proofs::ShownLaws::all_shown))]
    pub fn outside(self, alloc: Global, ranges: &[Range]) -> Result<Writes<'a>, NoMemory>
        ensures { IfOk result (λ writes. writes ≡ shown ranges.now self.entry) }
    {
        if ranges.is_empty() {
            return Ok(self);
        }
        let items = kept(alloc, ranges, self.items.as_slice())?;
        Ok(Writes { items })
    }

    /// Returns the history of each key that is written, by key.
    ///
    /// The writes are sorted by their keys, and those of one key keep their order.
    pub fn into_histories(self, alloc: Global) -> Result<Rows<KeyHistory>, NoMemory>
        ensures { IfOk result (λ histories. histories ≡ histories_of self.entry) }
    {
        let mut items = self.items;
        sort_by_key(&mut items)?;
        Ok(grouped(alloc, items.as_slice())?)
    }
}

fn kept<'a>(
    alloc: Global,
    ranges: &[Range],
    writes: &[AcceptedWrite<'a>],
) -> Result<Vec<AcceptedWrite<'a>>, NoMemory>
    ensures { IfOk result (λ items. items.items ≡ shown ranges.now writes.now) }
{
    let mut items = Vec::new(alloc);
    for write in writes {
        if !is_shown(ranges, write.key()) {
            continue;
        }
        items.push(write.again())?;
    }
    Ok(items)
}

/// Returns whether the key lies in none of the ranges.
fn is_shown(ranges: &[Range], key: &Key) -> bool
    ensures { result ≡ is_shown ranges.now key.now }
{
    for range in ranges {
        if range.holds(key) {
            return false;
        }
    }
    true
}

/// Sorts by key; writes of one key keep their order.
fn sort_by_key(writes: &mut Vec<AcceptedWrite<'_>>) -> Result<(), AllocError>
    ensures sorted { OnOk result (IsSortedBy key_below writes.new.items) }
    ensures of_each_key { (k : List ℕ) → filter (of_key k) writes.new.items ≡ filter (of_key k) writes.old.items }
{
    writes.sort_by(|a, b| a.compare(b))?;
    Ok(())
}
