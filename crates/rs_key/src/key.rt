ghost use Rattle.std.specs.Prelude.{◌≡◌, ◌<◌, ◌≤◌, ◌↔◌, ◌⊎◌, length, IfOk, IsErrOf, nat_eq, refl, Some};
ghost use Rattle.std.specs.Ordering.{nat_cmp};
ghost use Rattle.std.specs.Cmp.Lexicographic.{slice_cmp, nat_list_eq_equiv, nat_list_cmp_total, texts_ties, texts_po};
ghost use Rattle.std.specs.Cmp.{partial_equiv_from_equiv};
ghost use Rattle.rs_key.specs.Keys.{same_bytes};

use crate::bytes::Bytes;
use rs_rows::TryClone;
use std::alloc::Global;
use std::cmp::Ordering;
use std::marker::Model;
use thiserror::Error;

/// The error of bytes that are no key, or no value.
#[derive(Clone, Copy, Debug, PartialEq, Eq, Error)]
pub enum KeyError {
    /// The number of bytes is outside the limits.
    #[error("too few or too many bytes")]
    BadLength,
    /// Memory ran out.
    #[error("out of memory")]
    NoMemory,
}

impl From<rs_rows::NoMemory> for KeyError {
    ghost use Rattle.std.specs.Prelude.{◌≡◌};
    ghost use Rattle.rs_key.specs.declared.key.KeyError.TheVariants as why;

    ghost from_gives = { λ _ e. e ≡ why.NoMemory };

    fn from(_e: rs_rows::NoMemory) -> KeyError {
        KeyError::NoMemory
    }
}

/// A key: 1 to 256 bytes, ordered byte by byte, a proper prefix first. Contracts see the list of its bytes.
///
/// Its bytes are held as `Bytes` holds them.
#[derive(Debug, Drop)]
pub struct Key {
    bytes: Bytes,
}

impl Model for Key {
    ghost use Rattle.std.specs.Prelude.{List, ℕ};
    ghost use Rattle.rs_key.specs.Keys.{IsKeyLength};

    ghost Value = { List ℕ };

    ghost view = { λ k. k.bytes };

    ghost invariant = { λ k. IsKeyLength k.bytes };
}

impl Key {
    /// The most bytes of a key.
    pub const MOST: usize = 256;

    /// Returns a copy of these bytes as a key. BadLength comes exactly where there are none, or more than 256.
    pub fn new(alloc: Global, bytes: &[u8]) -> Result<Key, KeyError>
        ensures ok { IfOk result (λ k. k ≡ bytes.now) }
        ensures bad { IsErrOf result KeyError.BadLength ↔ ((length bytes.now ≡ 0) ⊎ (256 < length bytes.now)) }
    {
        if bytes.is_empty() || bytes.len() > Key::MOST {
            return Err(KeyError::BadLength);
        }
        let bytes = Bytes::new(alloc, bytes)?;
        Ok(Key { bytes })
    }

    /// Returns the key of these bytes, without a copy.
    pub fn from_bytes(bytes: Bytes) -> Key
        requires some { 1 ≤ length bytes }
        requires most { length bytes ≤ 256 }
        ensures { result ≡ bytes }
    {
        Key { bytes }
    }

    /// Returns the bytes: 1 to 256 of them.
    pub fn as_bytes(&self) -> &[u8]
        ensures value { result.now ≡ self.now }
        ensures some { 0 < length self.now }
        ensures most { length self.now ≤ 256 }
    {
        self.bytes.as_slice()
    }
}

impl TryClone for Key {
    fn try_clone(&self) -> Result<Key, rs_rows::NoMemory> {
        Ok(Key {
            bytes: self.bytes.try_clone()?,
        })
    }
}

impl PartialEq for Key {
    ghost eq = { same_bytes };

    ghost laws = { partial_equiv_from_equiv nat_list_eq_equiv };

    fn eq(&self, other: &Key) -> bool {
        self.as_bytes() == other.as_bytes()
    }
}

impl Eq for Key {
    ghost laws = { nat_list_eq_equiv };
}

impl PartialOrd for Key {
    ghost partial_cmp = { λ x y. Some (slice_cmp nat_cmp x y) };

    ghost laws = { texts_po };

    fn partial_cmp(&self, other: &Key) -> Option<Ordering> {
        Some(self.cmp(other))
    }
}

impl Ord for Key {
    ghost cmp = { slice_cmp nat_cmp };

    ghost total = { nat_list_cmp_total };

    ghost matches_partial_cmp = { λ x y. refl };

    ghost matches_eq = { texts_ties };

    fn cmp(&self, other: &Key) -> Ordering {
        self.as_bytes().cmp(other.as_bytes())
    }
}
