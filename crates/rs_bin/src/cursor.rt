//! What is left of a file, and the fields at its front.

ghost use Rattle.std.specs.Prelude.{◌≡◌, ◌≤◌, ◌+◌, true, Some, IfOk, length};
ghost use Rattle.rs_key.specs.Ranges.{is_range};
ghost use Rattle.rs_bin.specs.Reading.{Takes, start, number_at, most, bytes_at, string_at, bound_at, range_at, boot_room, line_room, operation_room, with_version};

use crate::error::PartError;
use byteorder::{BigEndian, ByteOrder};
use rs_key::{Bytes, Key, Range, Value};
use std::alloc::Global;
use std::marker::Model;

/// The most regions and pairs of splits of a file, together.
const BOOTS: u64 = 4_096;

/// The most entries of a file, carried ones too.
const LINES: u64 = 1_048_576;

/// The most operations of a file, those of carried entries too.
const OPERATIONS: u64 = 1_048_576;

/// The greatest number that a file may have.
pub const MOST: u64 = 0x7fff_ffff_ffff_ffff;

/// The most bytes of a key.
const KEY_BYTES: u16 = 256;

/// The most bytes of a value.
const VALUE_BYTES: u16 = 4_096;

/// Returns whether the key is above the start, if there is one.
fn is_range(start: &Option<Key>, key: &Key) -> bool
    ensures { result ≡ is_range start.now (Some key.now) }
{
    match start {
        None => true,
        Some(start) => start < key,
    }
}

/// The bytes left of a file, its version, and the counts of what was read of it.
///
/// A call that takes something from the front answers Bad with the number of bytes that are left at the first field
/// that is cut short or bad, so that no offset is kept. What the cursor is after an error is not said: reading ends
/// there.
#[derive(Drop)]
pub struct Cursor<'a> {
    rest: &'a [u8],
    version: u64,
    boots: u64,
    lines: u64,
    operations: u64,
}

impl<'a> Model for Cursor<'a> {
    ghost use Rattle.rs_bin.specs.Reading.{Rest};

    ghost Value = { Rest };

    ghost view = { λ c. record { bytes = c.rest.now; version = c.version; boots = c.boots; lines = c.lines; operations = c.operations } };
}

impl<'a> Cursor<'a> {
    /// Returns the cursor at the first byte of a file.
    pub fn new(bytes: &'a [u8]) -> Cursor<'a>
        ensures { result ≡ start bytes.now }
    {
        Cursor {
            rest: bytes,
            version: 0,
            boots: 0,
            lines: 0,
            operations: 0,
        }
    }

    /// Returns how many bytes are left.
    pub fn left(&self) -> usize
        ensures { result ≡ length self.now.bytes }
    {
        self.rest.len()
    }

    /// Returns the version of the file.
    pub fn version(&self) -> u64
        ensures { result ≡ self.now.version }
    {
        self.version
    }

    /// Sets the version of the file.
    pub fn set_version(&mut self, version: u64)
        ensures { self.new ≡ with_version version self.old }
    {
        self.version = version;
    }

    /// Returns the answer where the next field is cut short or bad.
    fn bad(&self) -> PartError
        ensures { result ≡ PartError.Bad (length self.now.bytes) }
    {
        PartError::Bad(self.rest.len())
    }

    /// Takes a number of eight bytes, high byte first, of at least `low` and at most `high`.
    #[tactic(auto, unfolding(crate::specs::Reading::number_at))]
    pub fn u64(&mut self, low: u64, high: u64) -> Result<u64, PartError>
        ensures { Takes result self.new (number_at 8 low high self.old) }
    {
        if self.rest.len() < 8 {
            return Err(self.bad());
        }
        let number = BigEndian::read_u64(self.rest);
        if number < low || high < number {
            return Err(self.bad());
        }
        self.rest = &self.rest[8..];
        Ok(number)
    }

    /// Takes a number of eight bytes that is above this one.
    #[tactic(auto, using(crate::proofs::Above::none_above))]
    pub fn u64_above(&mut self, number: u64) -> Result<u64, PartError>
        ensures { Takes result self.new (number_at 8 (number + 1) most self.old) }
    {
        if number >= MOST {
            return Err(self.bad());
        }
        self.u64(number + 1, MOST)
    }

    /// Takes a number of four bytes, high byte first, of at least `low` and at most `high`.
    #[tactic(auto, unfolding(crate::specs::Reading::number_at))]
    pub fn u32(&mut self, low: u32, high: u32) -> Result<u32, PartError>
        ensures { Takes result self.new (number_at 4 low high self.old) }
    {
        if self.rest.len() < 4 {
            return Err(self.bad());
        }
        let number = BigEndian::read_u32(self.rest);
        if number < low || high < number {
            return Err(self.bad());
        }
        self.rest = &self.rest[4..];
        Ok(number)
    }

    /// Takes a number of two bytes, high byte first, of at least `low` and at most `high`.
    #[tactic(auto, unfolding(crate::specs::Reading::number_at))]
    pub fn u16(&mut self, low: u16, high: u16) -> Result<u16, PartError>
        ensures value { Takes result self.new (number_at 2 low high self.old) }
        ensures low { IfOk result (λ n. low ≤ n) }
        ensures high { IfOk result (λ n. n ≤ high) }
    {
        if self.rest.len() < 2 {
            return Err(self.bad());
        }
        let number = BigEndian::read_u16(self.rest);
        if number < low || high < number {
            return Err(self.bad());
        }
        self.rest = &self.rest[2..];
        Ok(number)
    }

    /// Takes a number of one byte, of at least `low` and at most `high`.
    #[tactic(auto, unfolding(crate::specs::Reading::number_at))]
    pub fn u8(&mut self, low: u8, high: u8) -> Result<u8, PartError>
        ensures { Takes result self.new (number_at 1 low high self.old) }
    {
        match self.rest {
            [number, rest @ ..] if low <= *number && *number <= high => {
                let number = *number;
                self.rest = rest;
                Ok(number)
            }
            _ => Err(self.bad()),
        }
    }

    /// Takes `len` bytes.
    #[tactic(auto, unfolding(crate::specs::Reading::bytes_at))]
    fn bytes(&mut self, alloc: Global, len: u16) -> Result<Bytes, PartError>
        ensures value { Takes result self.new (bytes_at len self.old) }
        ensures length { IfOk result (λ bytes. length bytes ≡ len) }
    {
        let len = usize::from(len);
        if self.rest.len() < len {
            return Err(self.bad());
        }
        let (front, rest) = self.rest.split_at(len);
        let bytes = Bytes::new(alloc, front)?;
        self.rest = rest;
        Ok(bytes)
    }

    /// Takes `low` to `high` bytes, behind their length.
    #[tactic(auto, unfolding(crate::specs::Reading::string_at))]
    fn string(&mut self, alloc: Global, low: u16, high: u16) -> Result<Bytes, PartError>
        ensures value { Takes result self.new (string_at low high self.old) }
        ensures low { IfOk result (λ bytes. low ≤ length bytes) }
        ensures high { IfOk result (λ bytes. length bytes ≤ high) }
    {
        let len = self.u16(low, high)?;
        self.bytes(alloc, len)
    }

    /// Takes a key of 1 to 256 bytes, behind its length.
    pub fn key(&mut self, alloc: Global) -> Result<Key, PartError>
        ensures { Takes result self.new (string_at 1 256 self.old) }
    {
        let bytes = self.string(alloc, 1, KEY_BYTES)?;
        Ok(Key::from_bytes(bytes))
    }

    /// Takes a value of up to 4,096 bytes, behind its length.
    pub fn value(&mut self, alloc: Global) -> Result<Value, PartError>
        ensures { Takes result self.new (string_at 0 4096 self.old) }
    {
        let bytes = self.string(alloc, 0, VALUE_BYTES)?;
        Ok(Value::from_bytes(bytes))
    }

    /// Takes a bound: a key, which is above the start if there is one, or none if its length is 0.
    #[tactic(auto, unfolding(crate::specs::Reading::bound_at))]
    pub fn bound(&mut self, alloc: Global, start: &Option<Key>) -> Result<Option<Key>, PartError>
        ensures value { Takes result self.new (bound_at start.now self.old) }
        ensures range { IfOk result (λ end. is_range start.now end ≡ true) }
    {
        let len = self.u16(0, KEY_BYTES)?;
        if len == 0 {
            return Ok(None);
        }
        let fault = self.bad();
        let key = Key::from_bytes(self.bytes(alloc, len)?);
        if !is_range(start, &key) {
            return Err(fault);
        }
        Ok(Some(key))
    }

    /// Takes two bounds, the end above the start if both are there.
    #[tactic(auto, unfolding(crate::specs::Reading::range_at))]
    pub fn range(&mut self, alloc: Global) -> Result<Range, PartError>
        ensures { Takes result self.new (range_at self.old) }
    {
        let start = self.bound(alloc, &None)?;
        let end = self.bound(alloc, &start)?;
        match Range::new(start, end) {
            Ok(range) => Ok(range),
            Err(_) => unreachable!(),
        }
    }

    /// Counts one more region, or pair of a split, if it has room.
    #[tactic(auto, unfolding(crate::specs::Reading::boot_room))]
    pub fn boot_room(&mut self) -> Result<(), PartError>
        ensures { Takes result self.new (boot_room self.old) }
    {
        if self.boots >= BOOTS {
            return Err(self.bad());
        }
        self.boots += 1;
        Ok(())
    }

    /// Counts one more entry, if it has room.
    #[tactic(auto, unfolding(crate::specs::Reading::line_room))]
    pub fn line_room(&mut self) -> Result<(), PartError>
        ensures { Takes result self.new (line_room self.old) }
    {
        if self.lines >= LINES {
            return Err(self.bad());
        }
        self.lines += 1;
        Ok(())
    }

    /// Counts one more operation, if it has room.
    #[tactic(auto, unfolding(crate::specs::Reading::operation_room))]
    pub fn operation_room(&mut self) -> Result<(), PartError>
        ensures { Takes result self.new (operation_room self.old) }
    {
        if self.operations >= OPERATIONS {
            return Err(self.bad());
        }
        self.operations += 1;
        Ok(())
    }
}
