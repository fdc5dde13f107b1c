/// The result of a turn, with the address of the mailbox.
#[derive(Clone, Copy, Debug, PartialEq, Eq)]
pub enum Worked {
    /// A machine was worked on, and given back.
    Turned(u32),
    /// The ticket's mailbox was closed: there was no machine to take, or the machine had no home to go back to.
    Gone(u32),
    /// There was no ticket.
    Nothing,
}

/// The result of a visit to one mailbox.
#[derive(Clone, Copy, Debug)]
pub(crate) enum Visited {
    Turned,
    Gone,
}
