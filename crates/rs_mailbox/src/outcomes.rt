use crate::turn::Turn;
use rs_mailcore::Fsm;
use thiserror::Error;

/// The error of a message that wasn't sent. Nothing was pushed, and the message is handed back.
#[derive(Debug, Drop, Error)]
pub enum SendError<M> {
    /// The mailbox is closed.
    #[error("the mailbox is closed")]
    Closed(M),
    /// Memory ran out.
    #[error("out of memory")]
    NoMemory(M),
    /// The station has announced 2^50 messages.
    #[error("the station has announced all the messages that it may")]
    Spent(M),
}

/// The result of a take by a ticket.
#[derive(Drop)]
pub enum Taken<F: Fsm> {
    /// The machine.
    Machine(Turn<F>),
    /// The state word was this one, not Notified.
    Not(u64),
}

/// The result of a release.
#[derive(Drop)]
pub enum Released<F: Fsm> {
    /// The machine is home, or another station has it by now.
    Idle,
    /// More was announced than handled, and the station has the machine again.
    Again(Turn<F>),
    /// The mailbox is closed, and the machine is the caller's.
    Dropped(F),
}

/// The machine of a mailbox that is closed.
#[derive(Debug, Drop)]
pub struct Dropped<F> {
    pub machine: F,
}

/// The result of a close.
#[derive(Debug, Drop)]
pub enum Closed<F> {
    /// The machine, which was home.
    Machine(F),
    /// Another station has the machine, and gets it for good as it gives it back.
    Elsewhere,
    /// The mailbox was closed before.
    Already,
}
