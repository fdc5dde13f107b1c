//! What a command answers, and how the answer is written.

ghost use Rattle.std.specs.Prelude.{◌≡◌, ◌⊎◌, List, ℕ, [], IfOk};
ghost use Rattle.raftreplay.specs.Statuses.{IsSilent, IsUnread};
ghost use Rattle.raftreplay.specs.Expected.{done};
ghost use Rattle.raftreplay.specs.Kept.{Wrote};

use crate::status::Status;
use rs_base::{Sink, WriteFault, write_all};
use rs_key::NoMemory;
use std::alloc::Global;
use std::marker::Model;

/// A status, and the text that is written with it.
#[derive(Debug, Drop)]
pub struct Answer {
    status: Status,
    text: Vec<u8>,
}

impl Model for Answer {
    ghost use Rattle.raftreplay.specs.Expected.{Answer};

    ghost Value = { Answer };

    ghost view = { λ a. record { status = a.status; text = a.text.items } };
}

impl Answer {
    /// Returns the answer with this status and text.
    pub fn new(status: Status, text: Vec<u8>) -> Answer
        ensures { result ≡ record { status = status; text = text.items } }
    {
        Answer { status, text }
    }

    /// Returns an answer with no text.
    pub fn silent(alloc: Global, status: Status) -> Answer
        ensures { result ≡ record { status = status; text = [] } }
    {
        Answer {
            status,
            text: Vec::new(alloc),
        }
    }

    /// Writes the text, and gives the status. No text is no write.
    pub fn write<K: Sink>(self, sink: &mut K) -> Status
        requires silent { IsSilent self.status → self.text ≡ [] }
        requires no_fault { self.status ≡ Status.WriteFault → ⊥ }
        ensures wrote { Wrote K.taken K.faults self result sink.old sink.new }
        ensures own { (result ≡ self.status) ⊎ (result ≡ Status.WriteFault) }
        ensures quiet { IsSilent self.status → result ≡ self.status }
    {
        match write_all(sink, &self.text) {
            Ok(()) => self.status,
            Err(WriteFault) => Status::WriteFault,
        }
    }
}

/// Writes the text of a command that did all else, unless there was no memory for it.
pub fn finish<K: Sink>(alloc: Global, text: Result<Vec<u8>, NoMemory>, sink: &mut K) -> Status
    ensures wrote { (expected : List ℕ) → IfOk text (λ t. t.items ≡ expected) → Wrote K.taken K.faults (done expected) result sink.old sink.new }
    ensures unread { IsUnread result }
{
    match text {
        Ok(text) => Answer::new(Status::Done, text).write(sink),
        Err(NoMemory) => Answer::silent(alloc, Status::NoMemory).write(sink),
    }
}
