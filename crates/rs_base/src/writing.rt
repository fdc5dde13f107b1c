ghost use Rattle.std.specs.Prelude.{◌≡◌, ℕ, ◌≤◌, ◌+◌, [], length, IsOk, OnOk, OnErr};
ghost use Rattle.std.specs.Io.KnownBytes.{Appends};
ghost use Rattle.rs_base.specs.Counts.{Rose};
ghost use Rattle.rs_base.specs.Moves.{AppendsPart};

use crate::traits::{Failed, Sink};
use thiserror::Error;

/// A write failed before all bytes were taken.
#[derive(Clone, Copy, Debug, PartialEq, Eq, Error)]
#[error("a write failed")]
pub struct WriteFault;

impl From<Failed> for WriteFault {
    fn from(_e: Failed) -> WriteFault {
        WriteFault
    }
}

/// Writes all bytes, by as many writes as it takes, and takes no memory of its own. No bytes are no
/// write at all.
pub fn write_all<K: Sink>(sink: &mut K, bytes: &[u8]) -> Result<(), WriteFault>
    ensures all { OnOk result (Appends (K.taken sink.old) (K.taken sink.new) bytes.now) }

    // A fault comes only where the count rose. Then a front of the bytes was taken, and not all.
    ensures fault { OnErr result (Rose (K.faults sink.old) (K.faults sink.new)) }
    ensures err { OnErr result (AppendsPart (K.taken sink.old) (K.taken sink.new) bytes.now) }

    ensures no_bytes { bytes.now ≡ [] → IsOk result × (sink.new ≡ sink.old) }

    ensures kept_faults { K.faults sink.old ≤ K.faults sink.new }
    ensures sure { length bytes.now ≤ K.sure_room sink.old
        → IsOk result × (K.sure_room sink.old ≤ K.sure_room sink.new + length bytes.now) }
{
    let mut at = 0;
    while at < bytes.len() {
        let (_, rest) = bytes.split_at(at);
        at += sink.write(rest)?;
    }
    Ok(())
}
