ghost use Rattle.std.specs.Prelude.{◌≡◌, ◌<◌, ◌≤◌, [], length, take, IfOk, OnErr};

use crate::short::Short;
use rs_rows::{NoMemory, TryClone};
use std::alloc::Global;
use std::marker::Model;

/// Bytes that aren't changed. Those that came in a `Vec` stay in it; of others up to 22 are held in place, without
/// memory from the heap. Contracts see the list of the bytes.
#[derive(Debug)]
pub struct Bytes {
    form: Form,
}

/// Where the bytes are. The `Vec` stands in a box of its own, so that `Bytes` has 24 bytes.
#[derive(Debug, Drop)]
enum Form {
    Short(Short),
    Long(Box<Vec<u8>>),
}

impl Model for Bytes {
    ghost use Rattle.std.specs.Prelude.{List, ℕ};
    ghost use Rattle.rs_key.specs.Held.{bytes_of};

    ghost Value = { List ℕ };

    ghost view = { λ b. bytes_of b.form };
}

impl Drop for Bytes {
    fn drop(self) {
        let Bytes { form } = self;
        drop(form);
    }
}

impl Bytes {
    /// The most bytes that are held in place.
    pub const SHORT: usize = Short::MOST;

    /// Returns the empty list. It takes no memory.
    pub fn empty() -> Bytes
        ensures { result ≡ [] }
    {
        Bytes::from_array([0; Bytes::SHORT], 0)
    }

    /// Returns the first `len` bytes of the array. It takes no memory.
    pub fn from_array(array: [u8; Bytes::SHORT], len: usize) -> Bytes
        requires { len ≤ 22 }
        ensures { result ≡ take len array }
    {
        Bytes {
            form: Form::Short(Short::new(array, len)),
        }
    }

    /// Returns a copy of these bytes. Memory is wanted only for more than 22 of them.
    pub fn new(alloc: Global, bytes: &[u8]) -> Result<Bytes, NoMemory>
        ensures ok { IfOk result (λ b. b ≡ bytes.now) }
        ensures err { OnErr result (22 < length bytes.now) }
    {
        if bytes.len() > Bytes::SHORT {
            return Bytes::from_vec(alloc, Vec::from_slice(alloc, bytes)?);
        }
        let mut array = [0; Bytes::SHORT];
        array[..bytes.len()].copy_from_slice(bytes);
        Ok(Bytes::from_array(array, bytes.len()))
    }

    /// Returns these bytes, without a copy, on the heap however few they are. Memory is wanted for the box that they
    /// are put in.
    pub fn from_vec(alloc: Global, bytes: Vec<u8>) -> Result<Bytes, NoMemory>
        ensures { IfOk result (λ b. b ≡ bytes.items) }
    {
        Ok(Bytes {
            form: Form::Long(Box::new(alloc, bytes)?),
        })
    }

    /// Returns the bytes.
    pub fn as_slice(&self) -> &[u8]
        ensures { result.now ≡ self.now }
    {
        match &self.form {
            Form::Short(short) => short.as_slice(),
            Form::Long(heap) => heap.as_slice(),
        }
    }
}

impl TryClone for Bytes {
    fn try_clone(&self) -> Result<Bytes, NoMemory> {
        let form = match &self.form {
            Form::Short(short) => Form::Short(short.copy()),
            Form::Long(heap) => Form::Long(heap.clone()?),
        };
        Ok(Bytes { form })
    }
}
