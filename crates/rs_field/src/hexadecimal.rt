//! Fields in hexadecimal digits.
//!
//! They mean what the crate `hex` says they do. Digits of short fields are read by a table, since a branch on each, as
//! that crate has it, is often guessed wrongly. Those of long fields are read, and all are written, by loops that only
//! compare and add, which can be compiled to work on many bytes at once.

ghost use Rattle.std.specs.Prelude.{◌≡◌, ◌≤◌, ◌<◌, ◌*◌, ◌+◌, ◌%◌, ℕ, IfOk, IsErrOf, IsErr, Ok, MatchBool, MatchOption, length, slice_index, take, unwrap_or};
ghost use Rattle.hex.specs.Hex.{decode_of, encode_lower, hex_digit_value, lower_digits};
ghost use Rattle.rs_field.specs.Digits.{Reads};
ghost use Rattle.rs_field.specs.Fields.{hex_of};
ghost use Rattle.rs_field.specs.Gives.{Decodes, Gives};

use crate::fault::{LineError, TextKind};
use rs_key::Bytes;
use std::alloc::Global;

/// Returns the digit of lower case that has this value.
fn lower_digit(value: u8) -> u8
    requires { value < 16 }
    ensures { result ≡ slice_index lower_digits value }
{
    if value < 10 {
        b'0' + value
    } else {
        value - 10 + b'a'
    }
}

/// Puts two digits of lower case for each byte into the room, which has twice as many places.
pub fn encode_into(bytes: &[u8], room: &mut [u8])
    requires { length room.old ≡ 2 * length bytes.now }
    ensures { room.new ≡ encode_lower bytes.now }
{
    for i in 0..bytes.len() {
        room[2 * i] = lower_digit(bytes[i] / 16);
        room[2 * i + 1] = lower_digit(bytes[i] % 16);
    }
}

/// The value of each byte as a digit of either case, and 255 where it is none.
const VALUES: &[u8; 256] = &[
    255, 255, 255, 255, 255, 255, 255, 255, 255, 255, 255, 255, 255, 255, 255, 255, // 00
    255, 255, 255, 255, 255, 255, 255, 255, 255, 255, 255, 255, 255, 255, 255, 255, // 10
    255, 255, 255, 255, 255, 255, 255, 255, 255, 255, 255, 255, 255, 255, 255, 255, // 20
    0, 1, 2, 3, 4, 5, 6, 7, 8, 9, 255, 255, 255, 255, 255, 255, // 30: 0 to 9
    255, 10, 11, 12, 13, 14, 15, 255, 255, 255, 255, 255, 255, 255, 255, 255, // 40: A to F
    255, 255, 255, 255, 255, 255, 255, 255, 255, 255, 255, 255, 255, 255, 255, 255, // 50
    255, 10, 11, 12, 13, 14, 15, 255, 255, 255, 255, 255, 255, 255, 255, 255, // 60: a to f
    255, 255, 255, 255, 255, 255, 255, 255, 255, 255, 255, 255, 255, 255, 255, 255, // 70
    255, 255, 255, 255, 255, 255, 255, 255, 255, 255, 255, 255, 255, 255, 255, 255, // 80
    255, 255, 255, 255, 255, 255, 255, 255, 255, 255, 255, 255, 255, 255, 255, 255, // 90
    255, 255, 255, 255, 255, 255, 255, 255, 255, 255, 255, 255, 255, 255, 255, 255, // a0
    255, 255, 255, 255, 255, 255, 255, 255, 255, 255, 255, 255, 255, 255, 255, 255, // b0
    255, 255, 255, 255, 255, 255, 255, 255, 255, 255, 255, 255, 255, 255, 255, 255, // c0
    255, 255, 255, 255, 255, 255, 255, 255, 255, 255, 255, 255, 255, 255, 255, 255, // d0
    255, 255, 255, 255, 255, 255, 255, 255, 255, 255, 255, 255, 255, 255, 255, 255, // e0
    255, 255, 255, 255, 255, 255, 255, 255, 255, 255, 255, 255, 255, 255, 255, 255, // f0
];

fn at(table: &[u8; 256], byte: u8) -> u8
    ensures { result ≡ slice_index table.now byte }
{
    table[byte as usize]
}

/// Returns the value of a digit, or 255.
fn digit(byte: u8) -> u8
    ensures { result ≡ unwrap_or (hex_digit_value byte) 255 }
{
    at(VALUES, byte)
}

/// Puts what the digits from a place on spell into the room, which has half as many places; false where a byte is no
/// digit. Those before the place are read.
fn decode_from(field: &[u8], start: usize, room: &mut [u8]) -> bool
    requires twice { length field.now ≡ 2 * length room.old }
    requires within { start ≤ length room.old }
    requires so_far { Reads field.now (take start room.old) start }
    ensures { MatchBool result (decode_of field.now ≡ Ok room.new) (IsErr (decode_of field.now)) }
{
    for i in start..room.len() {
        let high = digit(field[2 * i]);
        let low = digit(field[2 * i + 1]);
        if high > 15 {
            return false;
        }
        if low > 15 {
            return false;
        }
        room[i] = high * 16 + low;
    }
    true
}

/// The number of bytes that are read at once from a long field.
const BLOCK: usize = 16;

/// Returns the value of a digit, or 255, by comparisons alone.
fn compared(byte: u8) -> u8
    ensures { result ≡ unwrap_or (hex_digit_value byte) 255 }
{
    let decimal = if b'0' <= byte && byte <= b'9' {
        byte - b'0'
    } else {
        255
    };
    let upper = if b'A' <= byte && byte <= b'F' {
        byte - b'A' + 10
    } else {
        decimal
    };
    if b'a' <= byte && byte <= b'f' {
        byte - b'a' + 10
    } else {
        upper
    }
}

/// Returns the greatest of three values.
fn greatest_of(a: u8, b: u8, c: u8) -> u8
    ensures above { (a ≤ result) × (b ≤ result) × (c ≤ result) }
    ensures least { (n : ℕ) → a ≤ n → b ≤ n → c ≤ n → result ≤ n }
{
    let greater = if a < b { b } else { a };
    if greater < c { c } else { greater }
}

/// Puts what the digits of a block spell into the room, from a place on; false where a byte is no digit. Those before
/// the place are read.
fn decode_block(field: &[u8], start: usize, room: &mut [u8]) -> bool
    requires twice { length field.now ≡ 2 * length room.old }
    requires within { start + 16 ≤ length room.old }
    requires so_far { Reads field.now (take start room.old) start }
    ensures sized { length room.new ≡ length room.old }
    ensures read { MatchBool result (Reads field.now (take (start + 16) room.new) (start + 16)) (IsErr (decode_of field.now)) }
{
    let mut greatest = 0;
    for offset in 0..BLOCK {
        let i = start + offset;
        let high = compared(field[2 * i]);
        let low = compared(field[2 * i + 1]);
        room[i] = high % 16 * 16 + low % 16;
        greatest = greatest_of(greatest, high, low);
    }
    greatest <= 15
}

/// Puts what an even number of digits spells into the room, which has half as many places; false where a byte is no
/// digit. Whole blocks are read at once.
fn decode_into(field: &[u8], room: &mut [u8]) -> bool
    requires { length field.now ≡ 2 * length room.old }
    ensures { MatchBool result (decode_of field.now ≡ Ok room.new) (IsErr (decode_of field.now)) }
{
    let mut done = 0;
    while room.len() - done >= BLOCK {
        if !decode_block(field, done, room) {
            return false;
        }
        done += BLOCK;
    }
    decode_from(field, done, room)
}

/// Returns the bytes that up to 44 digits spell, an even number of them; `None` if a byte is no digit. They take no
/// memory.
fn decode_short(field: &[u8]) -> Option<Bytes>
    requires even { length field.now % 2 ≡ 0 }
    requires short { length field.now ≤ 44 }
    ensures { MatchOption result (IsErr (decode_of field.now)) (λ bytes. decode_of field.now ≡ Ok bytes) }
{
    let count = field.len() / 2;
    let mut array = [0; Bytes::SHORT];
    if decode_from(field, 0, &mut array[..count]) {
        Some(Bytes::from_array(array, count))
    } else {
        None
    }
}

/// Returns the bytes that an even number of digits spells, on the heap.
fn decode_long(alloc: Global, field: &[u8]) -> Result<Bytes, LineError>
    requires { length field.now % 2 ≡ 0 }
    ensures { Decodes result (decode_of field.now) }
{
    let mut bytes = vec![in alloc; 0u8; field.len() / 2]?;
    if decode_into(field, bytes.as_mut_slice()) {
        Ok(Bytes::from_vec(alloc, bytes)?)
    } else {
        Err(LineError::Bad(TextKind::BadKey))
    }
}

/// Returns the bytes that an even number of hexadecimal digits spells. Only more than 44 digits want memory.
fn decode(alloc: Global, field: &[u8]) -> Result<Bytes, LineError>
    ensures value { Decodes result (decode_of field.now) }
    ensures memory { IsErrOf result LineError.NoMemory → 44 < length field.now }
{
    if field.len() % 2 != 0 {
        return Err(LineError::Bad(TextKind::BadKey));
    }
    if field.len() <= 2 * Bytes::SHORT {
        decode_short(field).ok_or(LineError::Bad(TextKind::BadKey))
    } else {
        decode_long(alloc, field)
    }
}

/// Returns the bytes that hexadecimal digits of either case spell, at least one of them and at most `most`. Only more
/// than 44 digits want memory.
#[tactic(auto, unfolding(crate::specs::Fields::hex_of))]
pub fn hex_of(alloc: Global, most: usize, field: &[u8]) -> Result<Bytes, LineError>
    ensures value { Gives (λ v. v) result (hex_of most field.now) }
    ensures some { IfOk result (λ v. 1 ≤ length v) }
    ensures most { IfOk result (λ v. length v ≤ most) }
    ensures memory { IsErrOf result LineError.NoMemory → 44 < length field.now }
{
    let bytes = match decode(alloc, field) {
        Ok(bytes) => bytes,
        Err(error) => return Err(error),
    };
    let count = bytes.as_slice().len();
    if count == 0 {
        return Err(LineError::Bad(TextKind::BadKey));
    }
    if count > most {
        return Err(LineError::Bad(TextKind::Limit));
    }
    Ok(bytes)
}
