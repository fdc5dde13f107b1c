ghost use Rattle.std.specs.Prelude.{◌≡◌, ◌<◌, ◌≤◌, ◌+◌, ◌-◌, ◌↔◌, [], Some, length, IfOk, IsOk, IsOkAnd, IsErr, OnErr, is_ok, if◌then◌else◌};
ghost use Rattle.std.specs.Io.KnownBytes.{WriteAppends};
ghost use Rattle.rs_base.specs.Counts.{one_more, Rose};
ghost use Rattle.rs_base.specs.Memory.{WriteFails, accepted_of, assured_of};

use crate::traits::{Failed, Sink};
use std::alloc::Global;
use std::marker::Model;
use thiserror::Error;

/// Memory ran out for the room of a sink.
#[derive(Clone, Copy, Debug, PartialEq, Eq, Error)]
#[error("no memory for the room of a sink")]
pub struct NoRoom;

/// A sink over memory, which tells its bytes. It takes its memory first and never grows. It takes
/// at most chosen numbers of bytes in a call and in all, and fails in the calls whose numbers it was
/// given, counted from 1.
///
/// Its counts of calls and of faults saturate at 2^64 - 1, so every later call has that
/// number.
#[derive(Debug, Drop)]
pub struct MemSink {
    bytes: Vec<u8>,
    room: usize,
    most: usize,
    fails: Vec<u64>,
    calls: u64,
    faults: u64,
}

impl Model for MemSink {
    ghost use Rattle.std.specs.Prelude.{◌<◌, ◌≤◌, vec_len, vec_capacity};
    ghost use Rattle.rs_base.specs.Memory.{SinkState};

    ghost Value = { SinkState };

    ghost view = { λ s. record {
      taken = s.bytes.items;
      room = s.room;
      most = s.most;
      fails = s.fails.items;
      calls = s.calls;
      faults = s.faults;
    } };

    ghost invariant = { λ s. record {
      some : 0 < s.most;
      within : vec_len s.bytes ≤ s.room;
      reserved : s.room ≤ vec_capacity s.bytes;
    } };
}

impl MemSink {
    /// Returns a sink with room for `room` bytes, which takes at most `most` of them in a call and fails in
    /// the calls whose numbers, from 1, are listed in `fails`. `NoRoom` is want of memory.
    pub fn reserved(
        alloc: Global,
        room: usize,
        most: usize,
        fails: Vec<u64>,
    ) -> Result<MemSink, NoRoom>
        requires { 0 < most }
        ensures { IfOk result (λ s. s ≡ record {
          taken = [];
          room = room;
          most = most;
          fails = fails.items;
          calls = 0;
          faults = 0;
        }) }
    {
        let bytes = Vec::with_capacity(alloc, room).map_err(|_| NoRoom)?;
        Ok(MemSink {
            bytes,
            room,
            most,
            fails,
            calls: 0,
            faults: 0,
        })
    }

    /// Returns the bytes that were taken.
    pub fn bytes(&self) -> &[u8]
        ensures value { result.now ≡ self.now.taken }
        ensures within { length self.now.taken ≤ self.now.room }
    {
        &self.bytes
    }

    /// Returns how many writes failed.
    pub fn faults(&self) -> u64
        ensures { result ≡ self.now.faults }
    {
        self.faults
    }
}

impl Sink for MemSink {
    ghost taken = { λ s. Some s.taken };

    ghost faults = { λ s. s.faults };

    ghost sure_room = { assured_of };

    fn write(&mut self, piece: &[u8]) -> Result<usize, Failed>
        ensures within { IfOk result (λ n. n ≤ length piece.now) }
        ensures some { 0 < length piece.now → IfOk result (λ n. 0 < n) }
        ensures bytes { WriteAppends (Some self.old.taken) (Some self.new.taken) result piece.now }
        ensures kept_faults { self.old.faults ≤ self.new.faults }
        ensures failed { OnErr result (Rose self.old.faults self.new.faults) }
        ensures sure { 0 < assured_of self.old
            → IsOkAnd result (λ n. assured_of self.old ≤ assured_of self.new + n) }

        // Exactly the listed calls fail, and those that find all room taken and have a byte to write.
        // Any other takes as many bytes as it may.
        ensures fails { IsErr result ↔ WriteFails self.old piece.now }
        ensures within_room { self.old.fails ≡ []
            → length self.old.taken + length piece.now ≤ self.old.room → IsOk result }
        ensures accepted { IfOk result (λ n. n ≡ accepted_of self.old (length piece.now)) }

        ensures calls { self.new.calls ≡ one_more self.old.calls }
        ensures faults { self.new.faults
            ≡ (if is_ok result then self.old.faults else one_more self.old.faults) }
        ensures same_room { self.new.room ≡ self.old.room }
        ensures same_most { self.new.most ≡ self.old.most }
        ensures same_fails { self.new.fails ≡ self.old.fails }
    {
        self.calls = self.calls.saturating_add(1);
        let is_full = self.bytes.len() == self.room && !piece.is_empty();
        if is_full || self.fails.contains(&self.calls) {
            self.faults = self.faults.saturating_add(1);
            return Err(Failed);
        }
        let n = piece.len().min(self.most).min(self.room - self.bytes.len());
        let (front, _) = piece.split_at(n);
        self.bytes.extend_from_slice(front).unwrap();
        Ok(n)
    }
}
