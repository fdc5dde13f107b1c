use rs_mailcore::Stance;
use std::collections::LinkedList;

/// The kinds of atomic step on a mailbox's two words.
#[derive(Clone, Copy, PartialEq, Eq, Debug)]
pub enum Kind {
    Announce,
    Notify,
    Take,
    Release,
    Recheck,
    Retake,
    Close,
    Look,
    Reschedule,
}

/// One step that a hand made: the number that it found in the word, and the handled count of the value that it took,
/// put home or handed out.
#[derive(Clone, Copy, PartialEq, Eq, Debug)]
pub struct Deed {
    pub kind: Kind,
    pub found: u64,
    pub handled: u64,
}

/// The view of one hand, for contracts alone: no value of it is made.
pub struct View<N> {
    /// The handover's name.
    pub name: N,
    /// The hand's number, and how many hands it has made, where it is the first.
    pub number: u64,
    pub made: u64,
    /// The first hand, while the handover is being made.
    pub unborn: bool,
    pub empty: bool,
    /// The hand has closed the handover.
    pub shut: bool,
    pub stance: Stance,
    /// All its steps, in order.
    pub deeds: LinkedList<Deed>,
}
