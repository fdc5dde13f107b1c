//! The first bytes of a key as a number, so that most comparisons of keys look at no memory.

ghost use Rattle.std.specs.Prelude.{◌≡◌, ◌<◌, ◌≤◌, ℕ, List, IfSome};
ghost use Rattle.std.specs.Cmp.Lexicographic.{slice_cmp};
ghost use Rattle.std.specs.Ordering.{nat_cmp};
ghost use Rattle.rs_history.specs.KeyCodes.{AreBytes, byte_at, code, digits, places, told_length};

use std::cmp::Ordering;

/// The number of bytes of a key that its code tells. With one byte for the length they fit 128 bits.
const TOLD: usize = 15;

/// The code's length of a key that has more bytes than its code tells.
const LONG: u128 = 16;

fn byte_at(key: &[u8], place: usize) -> u128
    ensures value { result ≡ byte_at key.now place }
    ensures bound { result ≤ 255 }
{
    match key.get(place) {
        Some(byte) => *byte as u128,
        None => 0,
    }
}

/// Returns the first 15 bytes of a key as a number, 0 for each that is missing.
fn digits_of(key: &[u8]) -> u128
    ensures value { result ≡ digits 15 key.now }
    ensures bound { result < places 15 }
{
    let mut number: u128 = 0;
    for place in 0..TOLD {
        number = number * 256 + byte_at(key, place);
    }
    number
}

/// Returns the length of a key, 16 where it is more.
fn told_length(key: &[u8]) -> u128
    ensures value { result ≡ told_length key.now }
    ensures bound { result ≤ 16 }
{
    if key.len() > TOLD {
        LONG
    } else {
        key.len() as u128
    }
}

/// Returns the code of a key: its first 15 bytes as a number, and then its length.
pub fn code_of(key: &[u8]) -> u128
    ensures value { result ≡ code key.now }
    ensures bytes { AreBytes key.now }
{
    256 * digits_of(key) + told_length(key)
}

/// Returns what the codes of two keys tell of the order of the keys: all, unless both are long and begin alike.
pub fn order_told(a: u128, b: u128) -> Option<Ordering>
    ensures { (x y : List ℕ) → AreBytes x → AreBytes y → a ≡ code x → b ≡ code y → IfSome result (λ order. order ≡ slice_cmp nat_cmp x y) }
{
    if a < b {
        return Some(Ordering::Less);
    }
    if b < a {
        return Some(Ordering::Greater);
    }
    if a % 256 == LONG {
        return None;
    }
    Some(Ordering::Equal)
}
