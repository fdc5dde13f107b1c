ghost use Rattle.std.specs.Prelude.{◌≡◌, ℕ, ◌≤◌, ◌<◌, ◌+◌, [], Some, length, IfOk, IfSome, OnOk, OnErr, IsErrOf};
ghost use Rattle.rs_base.specs.Counts.{Rose};
ghost use Rattle.rs_base.specs.Moves.{Takes, TakesAtMost};
ghost use Rattle.rs_base.specs.declared.reading.ReadError.TheVariants as why;

use crate::traits::{Failed, Source};
use std::alloc::{AllocError, Global};
use thiserror::Error;

/// The error of a source that wasn't read to its end.
#[derive(Clone, Copy, Debug, PartialEq, Eq, Error)]
pub enum ReadError {
    /// A read failed.
    #[error("a read failed")]
    ReadFault,
    /// The source has more bytes than the limit.
    #[error("there are more bytes than the limit")]
    TooLong,
    /// Memory ran out.
    #[error("out of memory")]
    NoMemory,
}

impl From<Failed> for ReadError {
    ghost from_gives = { λ _ e. e ≡ why.ReadFault };

    fn from(_e: Failed) -> ReadError {
        ReadError::ReadFault
    }
}

impl From<AllocError> for ReadError {
    ghost from_gives = { λ _ e. e ≡ why.NoMemory };

    fn from(_e: AllocError) -> ReadError {
        ReadError::NoMemory
    }
}

/// The greatest number of bytes of one read.
const PIECE: usize = 8_192;

/// Reads all bytes that are left, if these are at most `limit`.
///
/// `ReadFault` comes only where the source's count of faults rose in this call or stands at its last
/// value, and `TooLong` exactly where `limit` bytes were read and one more came. `NoMemory` is want
/// of memory. After an error the bytes that were read are lost, and the source keeps those behind
/// them.
pub fn read_all<S: Source>(
    alloc: Global,
    source: &mut S,
    limit: usize,
) -> Result<Vec<u8>, ReadError>
    ensures all { IfOk result (λ v. IfSome (S.left source.old) (λ bytes. v.items ≡ bytes)) }
    ensures within_limit { IfOk result (λ v. length v.items ≤ limit) }
    ensures none_left { OnOk result
        (IfSome (S.left source.old) (λ _. S.left source.new ≡ Some [])) }

    // The count of faults shows a fault, and the number of bytes that there are too many.
    ensures read_fault { IsErrOf result ReadError.ReadFault
        → Rose (S.faults source.old) (S.faults source.new) }
    ensures too_long { IsErrOf result ReadError.TooLong
        → IfSome (S.left source.old) (λ bytes. limit < length bytes) }

    // After an error the first bytes are gone: after `TooLong` the limit and one more.
    ensures err { OnErr result (TakesAtMost (S.left source.old) (S.left source.new) (limit + 1)) }
    ensures one_too_many { IsErrOf result ReadError.TooLong
        → Takes (S.left source.old) (S.left source.new) (limit + 1) }

    ensures kept_faults { S.faults source.old ≤ S.faults source.new }
    ensures sure { S.never_fails source.old
        → (¬ IsErrOf result ReadError.ReadFault) × S.never_fails source.new }
{
    let mut all = Vec::new(alloc);
    let mut buffer = [0u8; PIECE];
    'pieces: loop {
        let room = limit - all.len();
        let most = room.min(PIECE - 1) + 1;
        let n = source.read(&mut buffer[..most])?;
        if n == 0 {
            return Ok(all);
        }
        if room < n {
            return Err(ReadError::TooLong);
        }
        all.extend_from_slice(&buffer[..n])?;
    }
}
