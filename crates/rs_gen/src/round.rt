ghost use Rattle.std.specs.Prelude.{◌≡◌, ◌<◌, ◌≤◌, ◌++◌, ◌∷◌, [], IfOk, OnOk};
ghost use Rattle.rs_gen.specs.Rounds.{byte_in, child, cut, version, low, high, put, delete, carried_at, entry_at, first_write, second_write, main_write, last_write, child_entries, main_entries};

use rs_entry::{Body, Carried, CarriedBody, Entry, FIRST_INDEX, Op, Side};
use rs_key::{Bytes, Epoch, Key, NoMemory, Rows, Value};
use std::alloc::Global;

/// One round of a number's input, counted from 0.
#[derive(Clone, Copy)]
pub struct Round {
    pub number: u64,
    pub nth: u64,
    ghost within: { nth < 2000 },
}

impl Round {
    /// Returns the round's byte at a place.
    #[tactic(auto, unfolding(crate::specs::Rounds::byte))]
    pub fn byte(self, place: u64) -> u8
        requires { place < 17 }
        ensures { result ≡ byte_in self.number self.nth place }
    {
        ((self.number % 256 + 91 * (17 * self.nth + place)) % 256) as u8
    }

    /// Returns the one byte of the key at which region 1 is split.
    #[tactic(auto, unfolding(crate::specs::Rounds::cut))]
    fn cut(self) -> u8
        ensures value { result ≡ cut self.number self.nth }
        ensures some { 0 < result }
    {
        1 + self.byte(0) % 255
    }

    /// Returns a key below the cut, by the byte at the place.
    fn low(self, place: u64) -> u8
        requires { place < 17 }
        ensures { result ≡ low self.number self.nth place }
    {
        let cut = self.cut();
        self.byte(place) % cut
    }

    /// Returns a key from the cut on, by the byte at the place.
    fn high(self, place: u64) -> u8
        requires { place < 17 }
        ensures { result ≡ high self.number self.nth place }
    {
        let cut = u64::from(self.cut());
        let above = u64::from(self.byte(place)) % (256 - cut);
        (cut + above) as u8
    }

    /// Returns the id of the region that is split off.
    pub fn child(self) -> u64
        ensures { result ≡ child self.nth }
    {
        2 + self.nth
    }

    /// Returns the version of region 1 before the split.
    fn version(self) -> u64
        ensures { result ≡ version self.nth }
    {
        1 + 3 * self.nth
    }

    /// Returns what the commit of the round carries: the log of the region that was split off.
    pub fn carried(self, alloc: Global) -> Result<Rows<Carried>, NoMemory>
        ensures { IfOk result (λ entries. entries ≡ child_entries self.number self.nth) }
    {
        let version = self.version() + 1;
        let first = CarriedBody::Write(self.first_write(alloc)?);
        let second = CarriedBody::Write(self.second_write(alloc)?);
        let mut entries = Rows::with_room(alloc, 3);
        entries.push(carried_at(FIRST_INDEX, version, first))?;
        entries.push(carried_at(7, version, second))?;
        entries.push(carried_at(8, version, CarriedBody::Prepare { target: 1 }))?;
        Ok(entries)
    }

    /// Adds the round's entries to those of region 1.
    pub fn add_to(self, alloc: Global, entries: &mut Rows<Entry>) -> Result<(), NoMemory>
        ensures { OnOk result (entries.new ≡ entries.old ++ main_entries self.number self.nth) }
    {
        let version = self.version();
        let write = Body::Write(self.main_write(alloc)?);
        let split = self.split(alloc)?;
        let last = Body::Write(self.last_write(alloc)?);
        let commit = self.commit(alloc)?;
        let index = FIRST_INDEX + 4 * self.nth;
        entries.push(entry_at(index, version, write))?;
        entries.push(entry_at(index + 1, version, split))?;
        entries.push(entry_at(index + 2, version + 1, last))?;
        entries.push(entry_at(index + 3, version + 1, commit))?;
        Ok(())
    }

    fn first_write(self, alloc: Global) -> Result<Rows<Op>, NoMemory>
        ensures { IfOk result (λ ops. ops ≡ first_write self.number self.nth) }
    {
        let mut ops = Rows::with_room(alloc, 2);
        ops.push(put(alloc, self.low(5), self.byte(6))?)?;
        ops.push(delete(alloc, self.low(7))?)?;
        Ok(ops)
    }

    fn second_write(self, alloc: Global) -> Result<Rows<Op>, NoMemory>
        ensures { IfOk result (λ ops. ops ≡ second_write self.number self.nth) }
    {
        let mut ops = Rows::with_room(alloc, 1);
        ops.push(put(alloc, self.low(8), self.byte(9))?)?;
        Ok(ops)
    }

    fn main_write(self, alloc: Global) -> Result<Rows<Op>, NoMemory>
        ensures { IfOk result (λ ops. ops ≡ main_write self.number self.nth) }
    {
        let mut ops = Rows::with_room(alloc, 2);
        ops.push(put(alloc, self.byte(1), self.byte(2))?)?;
        ops.push(put(alloc, self.byte(3), self.byte(4))?)?;
        Ok(ops)
    }

    fn last_write(self, alloc: Global) -> Result<Rows<Op>, NoMemory>
        ensures { IfOk result (λ ops. ops ≡ last_write self.number self.nth) }
    {
        let mut ops = Rows::with_room(alloc, 1);
        ops.push(put(alloc, self.high(10), self.byte(11))?)?;
        Ok(ops)
    }

    fn split(self, alloc: Global) -> Result<Body, NoMemory>
        ensures { IfOk result (λ b. b ≡ Body.Split Side.Right (child self.nth ∷ []) ((cut self.number self.nth ∷ []) ∷ [])) }
    {
        let mut ids = Rows::with_room(alloc, 1);
        ids.push(self.child())?;
        let mut keys = Rows::with_room(alloc, 1);
        keys.push(key(alloc, self.cut())?)?;
        Ok(Body::Split {
            side: Side::Right,
            ids,
            keys,
        })
    }

    fn commit(self, alloc: Global) -> Result<Body, NoMemory>
        ensures { IfOk result (λ b. b ≡ Body.Commit (child self.nth) 8 (child_entries self.number self.nth)) }
    {
        Ok(Body::Commit {
            source: self.child(),
            commit: 8,
            carried: self.carried(alloc)?,
        })
    }
}

/// Returns the key of one byte.
fn key(alloc: Global, byte: u8) -> Result<Key, NoMemory>
    ensures { IfOk result (λ key. key ≡ byte ∷ []) }
{
    let bytes = Bytes::new(alloc, &[byte])?;
    Ok(Key::from_bytes(bytes))
}

fn put(alloc: Global, byte: u8, value: u8) -> Result<Op, NoMemory>
    ensures { IfOk result (λ o. o ≡ put byte value) }
{
    let key = key(alloc, byte)?;
    let bytes = Bytes::new(alloc, &[value])?;
    Ok(Op::Put(key, Value::from_bytes(bytes)))
}

fn delete(alloc: Global, byte: u8) -> Result<Op, NoMemory>
    ensures { IfOk result (λ o. o ≡ delete byte) }
{
    Ok(Op::Delete(key(alloc, byte)?))
}

fn carried_at(index: u64, version: u64, body: CarriedBody) -> Carried
    ensures { result ≡ carried_at index version body }
{
    let epoch = Epoch {
        conf_ver: 1,
        version,
    };
    Carried { index, epoch, body }
}

fn entry_at(index: u64, version: u64, body: Body) -> Entry
    ensures { result ≡ entry_at index version body }
{
    let epoch = Epoch {
        conf_ver: 1,
        version,
    };
    Entry { index, epoch, body }
}
