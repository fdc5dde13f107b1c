ghost use Rattle.std.specs.Prelude.{◌≡◌, ◌<◌, ◌≤◌, ◌↔◌, [], Some, length, IfOk, IsOk, IsErr, OnErr, is_ok, if◌then◌else◌};
ghost use Rattle.std.specs.Io.KnownBytes.{ReadConsumes};
ghost use Rattle.rs_base.specs.Counts.{one_more, Rose};
ghost use Rattle.rs_base.specs.Memory.{ReadFails, given_of};

use crate::traits::{Failed, Source};
use std::marker::Model;

/// A source over memory, which tells its bytes. It gives at most a chosen number of them in a call,
/// and fails in the calls whose numbers it was given, counted from 1.
///
/// Its counts of calls and of faults saturate at 2^64 - 1, so every later call has that
/// number.
#[derive(Debug, Drop)]
pub struct MemSource {
    bytes: Vec<u8>,
    at: usize,
    most: usize,
    fails: Vec<u64>,
    calls: u64,
    faults: u64,
}

impl Model for MemSource {
    ghost use Rattle.std.specs.Prelude.{◌<◌, ◌≤◌, drop, vec_len};
    ghost use Rattle.rs_base.specs.Memory.{SourceState};

    ghost Value = { SourceState };

    ghost view = { λ s. record {
      left = drop s.at s.bytes.items;
      most = s.most;
      fails = s.fails.items;
      calls = s.calls;
      faults = s.faults;
    } };

    ghost invariant = { λ s. (0 < s.most) × (s.at ≤ vec_len s.bytes) };
}

impl MemSource {
    /// Returns a source of these bytes, which gives at most `most` of them in a call and fails in the calls
    /// whose numbers, from 1, are listed in `fails`.
    pub fn new(bytes: Vec<u8>, most: usize, fails: Vec<u64>) -> MemSource
        requires { 0 < most }
        ensures { result ≡ record {
          left = bytes.items;
          most = most;
          fails = fails.items;
          calls = 0;
          faults = 0;
        } }
    {
        MemSource {
            bytes,
            at: 0,
            most,
            fails,
            calls: 0,
            faults: 0,
        }
    }

    /// Returns how many reads failed.
    pub fn faults(&self) -> u64
        ensures { result ≡ self.now.faults }
    {
        self.faults
    }
}

impl Source for MemSource {
    ghost left = { λ s. Some s.left };

    ghost faults = { λ s. s.faults };

    ghost never_fails = { λ s. s.fails ≡ [] };

    fn read(&mut self, buf: &mut [u8]) -> Result<usize, Failed>
        ensures within { IfOk result (λ n. n ≤ length buf.new) }
        ensures bytes { ReadConsumes (Some self.old.left) (Some self.new.left) result buf.new }
        ensures kept_faults { self.old.faults ≤ self.new.faults }
        ensures failed { OnErr result (Rose self.old.faults self.new.faults) }
        ensures sure { self.old.fails ≡ [] → IsOk result × (self.new.fails ≡ []) }

        // Exactly the listed calls fail. Any other gives as many bytes as it may.
        ensures fails { IsErr result ↔ ReadFails self.old }
        ensures given { IfOk result (λ n. n ≡ given_of self.old (length buf.new)) }

        ensures calls { self.new.calls ≡ one_more self.old.calls }
        ensures faults { self.new.faults
            ≡ (if is_ok result then self.old.faults else one_more self.old.faults) }
        ensures same_most { self.new.most ≡ self.old.most }
        ensures same_fails { self.new.fails ≡ self.old.fails }
    {
        self.calls = self.calls.saturating_add(1);
        if self.fails.contains(&self.calls) {
            self.faults = self.faults.saturating_add(1);
            return Err(Failed);
        }
        let (_, rest) = self.bytes.split_at(self.at);
        let n = buf.len().min(self.most).min(rest.len());
        let (piece, _) = rest.split_at(n);
        buf[..n].copy_from_slice(piece);
        self.at += n;
        Ok(n)
    }
}
