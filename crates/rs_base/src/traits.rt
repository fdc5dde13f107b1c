ghost use Rattle.std.specs.Prelude.{ℕ, ◌<◌, ◌≤◌, ◌+◌, List, Option, length, IfOk, IsOk, IsOkAnd, OnErr};
ghost use Rattle.std.specs.Io.KnownBytes.{ReadConsumes, WriteAppends};
ghost use Rattle.rs_base.specs.Counts.{Rose};

use thiserror::Error;

/// A read or a write failed, and moved no byte.
#[derive(Clone, Copy, Debug, PartialEq, Eq, Error)]
#[error("a read or a write failed")]
pub struct Failed;

/// Where bytes come from, such as a file, a pipe or memory.
pub trait Source {
    /// The bytes left, where the source tells them.
    ghost left: { Self → Option (List ℕ) };

    /// The number of reads that failed. The count never falls, and saturates at 2^64 - 1.
    ghost faults: { Self → ℕ };

    /// No later read fails. A source that can't promise it leaves this out.
    ghost never_fails: { Self → Type 0 } = { λ _. ⊥ };

    /// Moves the next bytes to the front of the buffer, and returns their number. Into a buffer with room
    /// it moves none only at the end. What stands behind them in the buffer is left open.
    fn read(&mut self, buf: &mut [u8]) -> Result<usize, Failed>
        ensures within { IfOk result (λ n. n ≤ length buf.new) }

        // The bytes moved are the first of those left, where these are told. A fault moves none.
        ensures bytes { ReadConsumes (left self.old) (left self.new) result buf.new }

        ensures kept_faults { faults self.old ≤ faults self.new }
        ensures failed { OnErr result (Rose (faults self.old) (faults self.new)) }
        ensures sure { never_fails self.old → IsOk result × never_fails self.new };
}

/// Where bytes go to, such as a file, a pipe or memory.
pub trait Sink {
    /// The bytes taken, where the sink tells them.
    ghost taken: { Self → Option (List ℕ) };

    /// The number of writes that failed. The count never falls, and saturates at 2^64 - 1.
    ghost faults: { Self → ℕ };

    /// The number of bytes that are taken before a write fails. A sink that can't promise any leaves this
    /// out.
    ghost sure_room: { Self → ℕ } = { λ _. 0 };

    /// Takes bytes from the front of the piece, and returns their number. Of a piece that isn't empty it
    /// takes at least one, or fails.
    fn write(&mut self, piece: &[u8]) -> Result<usize, Failed>
        ensures within { IfOk result (λ n. n ≤ length piece.now) }
        ensures some { 0 < length piece.now → IfOk result (λ n. 0 < n) }

        // The bytes moved follow those taken before, where these are told. A fault moves none.
        ensures bytes { WriteAppends (taken self.old) (taken self.new) result piece.now }

        ensures kept_faults { faults self.old ≤ faults self.new }
        ensures failed { OnErr result (Rose (faults self.old) (faults self.new)) }
        ensures sure { 0 < sure_room self.old
            → IsOkAnd result (λ n. sure_room self.old ≤ sure_room self.new + n) };
}
