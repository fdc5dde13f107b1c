ghost use Rattle.std.specs.Prelude.{◌≡◌, IfOk};
ghost use Rattle.std.specs.Cmp.Lexicographic.{slice_cmp};
ghost use Rattle.std.specs.Ordering.{nat_cmp};
ghost use Rattle.rs_key.specs.Keys.{same_bytes};
ghost use Rattle.rs_entry.specs.Entries.{key_of};
ghost use Rattle.rs_store.specs.Stores.{wrote};
ghost use Rattle.rs_part.specs.Items.{item_of};
ghost use Rattle.rs_history.specs.KeyCodes.{AreBytes, code};
ghost use Rattle.rs_history.specs.Writes.{is_below};

use crate::key_code::{code_of, order_told};
use rs_entry::{Item, Op};
use rs_key::{Key, NoMemory, TryClone};
use std::cmp::Ordering;
use std::marker::Model;

/// The number of values of the lower half of a code.
const HALF: u128 = 1 << 64;

/// One accepted operation of an entry, with the code of its key in two halves, so that it has 40 bytes. Contracts see
/// the write.
#[derive(Drop)]
pub struct AcceptedWrite<'a> {
    high: u64,
    low: u64,
    region: u64,
    index: u64,
    op: &'a Op,
}

impl<'a> Model for AcceptedWrite<'a> {
    ghost use Rattle.std.specs.Prelude.{◌≡◌, ◌+◌, ◌*◌, ◌^◌};
    ghost use Rattle.rs_entry.specs.Entries.{key_of};
    ghost use Rattle.rs_history.specs.KeyCodes.{AreBytes, code};
    ghost use Rattle.rs_store.specs.Stores.{Wrote, wrote};

    ghost Value = { Wrote };

    ghost view = { λ a. wrote a.region a.index a.op.now };

    ghost invariant = { λ a. (a.high * 2 ^ 64 + a.low ≡ code (key_of a.op.now)) × AreBytes (key_of a.op.now) };
}

impl<'a> AcceptedWrite<'a> {
    /// Returns the write of this operation, by the region's entry at the index.
    pub fn new(region: u64, index: u64, op: &'a Op) -> AcceptedWrite<'a>
        ensures { result ≡ wrote region index op.now }
    {
        let code = code_of(op_key(op).as_bytes());
        AcceptedWrite {
            high: (code / HALF) as u64,
            low: (code % HALF) as u64,
            region,
            index,
            op,
        }
    }

    /// Returns the key that was written.
    pub fn key(&self) -> &'a Key
        ensures { result.now ≡ self.now.key }
    {
        op_key(self.op)
    }

    /// Returns what the history of its key has of it, as a copy.
    pub fn item(&self) -> Result<Item, NoMemory>
        ensures { IfOk result (λ item. item ≡ item_of self.now) }
    {
        let value = match self.op {
            Op::Put(_, value) => Some(value.try_clone()?),
            Op::Delete(_) => None,
        };
        Ok(Item {
            region: self.region,
            index: self.index,
            value,
        })
    }

    /// Returns the same write, of the same operation.
    pub fn again(&self) -> AcceptedWrite<'a>
        ensures { result ≡ self.now }
    {
        AcceptedWrite {
            high: self.high,
            low: self.low,
            region: self.region,
            index: self.index,
            op: self.op,
        }
    }

    /// Returns whether the two writes are of one key.
    #[tactic(auto, using(crate::proofs::HistoryLaws::same_as))]
    pub fn has_key_of(&self, other: &AcceptedWrite<'_>) -> bool
        ensures { result ≡ same_bytes self.now.key other.now.key }
    {
        self.compare(other).is_eq()
    }

    /// Returns whether the write's key is below this one, whose code this is.
    pub(crate) fn is_below(&self, key: &Key, at: u128) -> bool
        requires code { at ≡ code key.now }
        requires bytes { AreBytes key.now }
        ensures { result ≡ is_below key.now self.now }
    {
        match order_told(self.code(), at) {
            Some(order) => order.is_lt(),
            None => op_key(self.op) < key,
        }
    }

    /// Returns the code of the key.
    fn code(&self) -> u128
        ensures code { result ≡ code self.now.key }
        ensures bytes { AreBytes self.now.key }
    {
        u128::from(self.high) * HALF + u128::from(self.low)
    }

    /// Returns the order of the keys.
    pub fn compare(&self, other: &AcceptedWrite<'_>) -> Ordering
        ensures { result ≡ slice_cmp nat_cmp self.now.key other.now.key }
    {
        match order_told(self.code(), other.code()) {
            Some(order) => order,
            None => op_key(self.op).cmp(op_key(other.op)),
        }
    }
}

fn op_key(op: &Op) -> &Key
    ensures { result.now ≡ key_of op.now }
{
    match op {
        Op::Put(key, _) => key,
        Op::Delete(key) => key,
    }
}
