use rs_field::TextKind;
use thiserror::Error;

/// The error of a text that wasn't read.
#[derive(Clone, Copy, Debug, PartialEq, Eq, Error)]
pub enum TextError {
    /// The fault of the first bad line, counted from 1.
    #[error("line {line}: {kind}")]
    Fault { line: u64, kind: TextKind },
    /// Memory ran out.
    #[error("out of memory")]
    NoMemory,
}
