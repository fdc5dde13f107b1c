ghost use Rattle.std.specs.Prelude.{◌≡◌, ◌+◌, ◌≤◌, MatchOption};
ghost use Rattle.rs_engine.specs.Limits.{AreWithin};

use std::marker::Model;

/// The options of a run. Contracts see its four numbers: raft pollers, apply pollers, batch and chunk.
#[derive(Clone, Copy, Debug, PartialEq, Eq)]
pub struct Options {
    raft_pollers: u32,
    apply_pollers: u32,
    batch: u32,
    chunk: u32,
}

impl Model for Options {
    ghost use Rattle.std.specs.Prelude.{ℕ};
    ghost use Rattle.rs_engine.specs.Limits.{AreWithin};

    ghost Value = { ℕ × ℕ × ℕ × ℕ };

    ghost view = { λ o. (o.raft_pollers, o.apply_pollers, o.batch, o.chunk) };

    ghost inverse = { λ o. record { raft_pollers = o.0; apply_pollers = o.1; batch = o.2; chunk = o.3 } };

    ghost invariant = { λ o. AreWithin o.raft_pollers o.apply_pollers o.batch o.chunk };
}

impl Options {
    /// Returns the options; `None` exactly where a number is outside its limits: 1 to 16 pollers of each pool, a batch
    /// of 1 to 256 messages and entries, and a chunk of 1 to 65,536 entries.
    pub fn new(raft_pollers: u32, apply_pollers: u32, batch: u32, chunk: u32) -> Option<Options>
        ensures { MatchOption result (¬ AreWithin raft_pollers apply_pollers batch chunk) (λ o. AreWithin raft_pollers apply_pollers batch chunk × (o ≡ (raft_pollers, apply_pollers, batch, chunk))) }
    {
        if !(1..=16).contains(&raft_pollers)
            || !(1..=16).contains(&apply_pollers)
            || !(1..=256).contains(&batch)
            || !(1..=65_536).contains(&chunk)
        {
            return None;
        }
        Some(Options {
            raft_pollers,
            apply_pollers,
            batch,
            chunk,
        })
    }

    /// Returns the number of raft pollers: at most 16.
    pub fn raft_pollers(&self) -> u32
        ensures number { result ≡ self.now.0 }
        ensures few { result ≤ 16 }
    {
        self.raft_pollers
    }

    /// Returns the number of apply pollers: at most 16.
    pub fn apply_pollers(&self) -> u32
        ensures number { result ≡ self.now.1 }
        ensures few { result ≤ 16 }
    {
        self.apply_pollers
    }

    /// Returns the most messages, and after them the most entries, of one turn of a machine.
    pub fn batch(&self) -> u32
        ensures { result ≡ self.now.2 }
    {
        self.batch
    }

    /// Returns the most entries by which one message raises the index up to which a log is there.
    pub fn chunk(&self) -> u32
        ensures { result ≡ self.now.3 }
    {
        self.chunk
    }

    /// Returns the number of passes of each scheduler that a run needs: one a poller, and three for its main thread.
    pub fn passes(&self) -> u32
        ensures number { result ≡ self.now.0 + self.now.1 + 3 }
        ensures few { result ≤ 35 }
    {
        self.raft_pollers + self.apply_pollers + 3
    }
}
