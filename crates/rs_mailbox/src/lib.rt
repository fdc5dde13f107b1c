//! A mailbox: one machine that threads hand to each other on two atomic words, and the queue of its messages. Each
//! message is taken at most once, in its sender's order, and the machine has one owner at a time.
#![tactic(auto)]

mod contents;
mod hand;
mod handover;
mod held;
mod mailbox;
mod naming;
mod outcomes;
mod plays;
mod queue;
mod station;
mod stored;
#[cfg(test)]
mod tests;
mod ticket;
mod trail;
mod turn;
mod view;

pub use contents::{Contents, ContentsName, Reader};
pub use hand::Hand;
pub use handover::{Back, Handover, Shut};
pub use held::Held;
pub use mailbox::Mailbox;
pub use outcomes::{Closed, Dropped, Released, SendError, Taken};
pub use station::Station;
pub use stored::{HasCount, Stored};
pub use ticket::Ticket;
pub use trail::{MessagePass, MessageQueue, Trail};
pub use turn::Turn;
pub use view::{Deed, Kind, View};
