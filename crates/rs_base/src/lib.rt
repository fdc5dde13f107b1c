//! Where the program's bytes come from, where they go, and what its workers pass before they work.
//!
//! A [`Source`] gives bytes and a [`Sink`] takes them, a few in each call, and a call may fail.
//! A contract sees little of them: the bytes left, or taken, where the device tells them, and how
//! many calls failed. [`read_all`] and [`write_all`] move whole texts and are proved from that
//! alone, so what they promise holds for files, pipes and memory.
//!
//! [`MemSource`] and [`MemSink`] are devices over memory that fail in chosen calls. With them a
//! test reaches each fault of the layers above.
//!
//! A worker passes a [`Gate`] before it handles a machine, so a test can hold workers up.
#![tactic(auto)]

mod gates;
mod mem_sink;
mod mem_source;
mod reading;
mod traits;
mod writing;

pub use gates::{Gate, OpenGate};
pub use mem_sink::{MemSink, NoRoom};
pub use mem_source::MemSource;
pub use reading::{ReadError, read_all};
pub use traits::{Failed, Sink, Source};
pub use writing::{WriteFault, write_all};

#[cfg(test)]
mod tests;
