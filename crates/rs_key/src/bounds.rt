//! The two bounds of a range, each of which may be missing.

ghost use Rattle.std.specs.Prelude.{◌≡◌};
ghost use Rattle.rs_key.specs.Keys.{is_below};
ghost use Rattle.rs_key.specs.Ranges.{is_range, is_from, is_to, is_past, meets};

use crate::key::Key;

/// Returns whether the first key is below the second.
pub fn is_below(a: &Key, b: &Key) -> bool
    ensures { result ≡ is_below a.now b.now }
{
    a.as_bytes().cmp(b.as_bytes()).is_lt()
}

/// Returns whether the start is below the end, where both are there.
pub fn is_range(start: &Option<Key>, end: &Option<Key>) -> bool
    ensures { result ≡ is_range start.now end.now }
{
    match (start, end) {
        (Some(start), Some(end)) => is_below(start, end),
        _ => true,
    }
}

/// Returns whether the key isn't below the start.
pub fn is_from(start: &Option<Key>, key: &Key) -> bool
    ensures { result ≡ is_from start.now key.now }
{
    match start {
        None => true,
        Some(start) => start.as_bytes().cmp(key.as_bytes()).is_le(),
    }
}

/// Returns whether the key is above the start.
pub fn is_past(start: &Option<Key>, key: &Key) -> bool
    ensures { result ≡ is_past start.now key.now }
{
    match start {
        None => true,
        Some(start) => is_below(start, key),
    }
}

/// Returns whether the key is below the end.
pub fn is_to(end: &Option<Key>, key: &Key) -> bool
    ensures { result ≡ is_to end.now key.now }
{
    match end {
        None => true,
        Some(end) => is_below(key, end),
    }
}

/// Returns whether a range with this end is followed by one with this start.
pub fn meets(end: &Option<Key>, start: &Option<Key>) -> bool
    ensures { result ≡ meets end.now start.now }
{
    match (end, start) {
        (Some(end), Some(start)) => end == start,
        _ => false,
    }
}
