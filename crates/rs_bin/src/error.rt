//! Why bytes were not read.

ghost use Rattle.std.specs.Prelude.{◌≡◌};
ghost use Rattle.rs_bin.specs.declared.error.PartError.TheVariants as why;

use rs_key::NoMemory;

/// The error of bytes that weren't read.
#[derive(Clone, Copy, Debug, PartialEq, Eq)]
pub enum BinError {
    /// The bytes are no binary file. The offset, from 0, of the first field that is cut short or bad, or of the first
    /// byte behind a whole file.
    Bad(u64),
    /// Memory ran out.
    NoMemory,
}

/// The error of a part of a file that wasn't read.
#[derive(Clone, Copy, Debug, PartialEq, Eq)]
pub enum PartError {
    /// The number of bytes left at the first field that is cut short or bad.
    Bad(usize),
    /// Memory ran out.
    NoMemory,
}

impl From<NoMemory> for PartError {
    ghost from_gives = { λ _ e. e ≡ why.NoMemory };

    fn from(_e: NoMemory) -> PartError {
        PartError::NoMemory
    }
}
