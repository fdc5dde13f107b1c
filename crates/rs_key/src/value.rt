ghost use Rattle.std.specs.Prelude.{◌≡◌, ◌<◌, ◌≤◌, ◌↔◌, length, IfOk, IsErrOf};
ghost use Rattle.std.specs.Cmp.Lexicographic.{nat_list_eq_equiv};
ghost use Rattle.std.specs.Cmp.{partial_equiv_from_equiv};
ghost use Rattle.rs_key.specs.Keys.{same_bytes};

use crate::bytes::Bytes;
use crate::key::KeyError;
use rs_rows::{NoMemory, TryClone};
use std::alloc::Global;
use std::marker::Model;

/// The value of a key: 0 to 4,096 bytes. Contracts see the list of its bytes.
///
/// Its bytes are held as `Bytes` holds them.
#[derive(Debug, Drop)]
pub struct Value {
    bytes: Bytes,
}

impl Model for Value {
    ghost use Rattle.std.specs.Prelude.{List, ℕ, ◌≤◌, length};

    ghost Value = { List ℕ };

    ghost view = { λ v. v.bytes };

    ghost invariant = { λ v. length v.bytes ≤ 4096 };
}

impl Value {
    /// The most bytes of a value.
    pub const MOST: usize = 4096;

    /// Returns a copy of these bytes as a value. BadLength comes exactly where there are more than 4,096.
    pub fn new(alloc: Global, bytes: &[u8]) -> Result<Value, KeyError>
        ensures ok { IfOk result (λ v. v ≡ bytes.now) }
        ensures bad { IsErrOf result KeyError.BadLength ↔ (4096 < length bytes.now) }
    {
        if bytes.len() > Value::MOST {
            return Err(KeyError::BadLength);
        }
        let bytes = Bytes::new(alloc, bytes)?;
        Ok(Value { bytes })
    }

    /// Returns the value of these bytes, without a copy.
    pub fn from_bytes(bytes: Bytes) -> Value
        requires { length bytes ≤ 4096 }
        ensures { result ≡ bytes }
    {
        Value { bytes }
    }

    /// Returns the bytes: 0 to 4,096 of them.
    pub fn as_bytes(&self) -> &[u8]
        ensures value { result.now ≡ self.now }
        ensures most { length self.now ≤ 4096 }
    {
        self.bytes.as_slice()
    }
}

impl TryClone for Value {
    fn try_clone(&self) -> Result<Value, NoMemory> {
        Ok(Value {
            bytes: self.bytes.try_clone()?,
        })
    }
}

impl PartialEq for Value {
    ghost eq = { same_bytes };

    ghost laws = { partial_equiv_from_equiv nat_list_eq_equiv };

    fn eq(&self, other: &Value) -> bool {
        self.as_bytes() == other.as_bytes()
    }
}

impl Eq for Value {
    ghost laws = { nat_list_eq_equiv };
}
