ghost use Rattle.std.specs.Prelude.{◌≡◌, ◌≤◌, take};

use std::marker::Model;

/// Up to 22 bytes, held in place. Contracts see the list of the bytes.
#[derive(Debug, Drop)]
pub struct Short {
    len: u8,
    array: [u8; Short::MOST],
}

impl Model for Short {
    ghost use Rattle.std.specs.Prelude.{List, ℕ, ◌≤◌, take};

    ghost Value = { List ℕ };

    ghost view = { λ s. take s.len s.array };

    ghost invariant = { λ s. s.len ≤ 22 };
}

impl Short {
    /// The most bytes that fit.
    pub const MOST: usize = 22;

    /// Returns the first `len` bytes of the array.
    pub fn new(array: [u8; Short::MOST], len: usize) -> Short
        requires { len ≤ 22 }
        ensures { result ≡ take len array }
    {
        Short {
            len: len as u8,
            array,
        }
    }

    /// Returns the bytes.
    pub fn as_slice(&self) -> &[u8]
        ensures { result.now ≡ self.now }
    {
        &self.array[..self.len as usize]
    }

    /// Returns an equal value.
    pub fn copy(&self) -> Short
        ensures { result ≡ self.now }
    {
        Short {
            len: self.len,
            array: self.array,
        }
    }
}
