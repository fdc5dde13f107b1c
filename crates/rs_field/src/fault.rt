use rs_key::NoMemory;
use std::alloc::AllocError;
use thiserror::Error;

/// The fault of a text at its first bad line.
#[derive(Clone, Copy, Debug, PartialEq, Eq, Error)]
pub enum TextKind {
    /// Line 1 doesn't name the format and a version.
    #[error("line 1 doesn't name the format and a version")]
    BadHeader,
    /// The line may not stand here, has a field too many or too few, or isn't ended by LF.
    #[error("the line may not stand here, has a wrong number of fields, or isn't ended by LF")]
    BadLine,
    /// A field is no number, or 0 where an id has to stand.
    #[error("a field is no number, or is 0 where an id has to stand")]
    BadNumber,
    /// A field is no hexadecimal text of a key or a value, or a range ends where it begins or before.
    #[error("a field is no key or value, or a range ends where it begins or before")]
    BadKey,
    /// An entry's index isn't the one after the entry before.
    #[error("the index isn't the one after the entry before")]
    BadIndex,
    /// A carried entry that doesn't continue the list of its commit.
    #[error("the carried entry doesn't continue the list of its commit")]
    BadCarry,
    /// One more than there may be.
    #[error("there is one more than there may be")]
    Limit,
    /// The last line isn't `end`.
    #[error("the last line isn't `end`")]
    NoEnd,
}

/// The error of a line, or a part of it, that wasn't read.
#[derive(Clone, Copy, Debug, PartialEq, Eq, Error)]
pub enum LineError {
    /// The line isn't one of the format.
    #[error("{0}")]
    Bad(TextKind),
    /// Memory ran out.
    #[error("out of memory")]
    NoMemory,
}

impl From<NoMemory> for LineError {
    ghost use Rattle.std.specs.Prelude.{◌≡◌};
    ghost use Rattle.rs_field.specs.declared.fault.LineError.TheVariants as why;

    ghost from_gives = { λ _ e. e ≡ why.NoMemory };

    fn from(_e: NoMemory) -> LineError {
        LineError::NoMemory
    }
}

impl From<AllocError> for LineError {
    ghost use Rattle.std.specs.Prelude.{◌≡◌};
    ghost use Rattle.rs_field.specs.declared.fault.LineError.TheVariants as why;

    ghost from_gives = { λ _ e. e ≡ why.NoMemory };

    fn from(_e: AllocError) -> LineError {
        LineError::NoMemory
    }
}

impl From<TextKind> for LineError {
    ghost use Rattle.std.specs.Prelude.{◌≡◌};
    ghost use Rattle.rs_field.specs.declared.fault.LineError.TheVariants as why;

    ghost from_gives = { λ kind e. e ≡ why.Bad kind };

    fn from(kind: TextKind) -> LineError {
        LineError::Bad(kind)
    }
}
