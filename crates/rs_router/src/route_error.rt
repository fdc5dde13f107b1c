use thiserror::Error;

/// The error of a message that wasn't handed on whole.
#[derive(Debug, Drop, Error)]
pub enum RouteError<M> {
    /// The mailbox is closed. Nothing was pushed.
    #[error("the mailbox is closed")]
    Closed(M),
    /// Memory ran out. With the message, nothing was pushed. With none, the message was pushed, its ticket was refused,
    /// and the mailbox is closed for good.
    #[error("out of memory")]
    NoMemory(Option<M>),
    /// The station has announced 2^50 messages. Nothing was pushed.
    #[error("the station has announced all the messages that it may")]
    Spent(M),
}
