/// Where the machine is.
#[derive(Clone, Copy, PartialEq, Eq, Debug)]
pub enum Place {
    /// In the mailbox.
    Home,
    /// With this thread.
    With(u64),
    /// Handed out for good.
    Given,
}

/// A message in the queue: who sent it, and which of the sender's messages it is, counted from 1.
#[derive(Debug, PartialEq, Eq, Drop)]
pub struct Letter<M> {
    pub sender: u64,
    pub number: u64,
    pub message: M,
}
