use rs_mailbox::Ticket;

/// The result of giving a machine back.
#[derive(Drop)]
pub(crate) enum Given {
    /// The machine is home, or another station has it by now.
    Home,
    /// The machine is to run again.
    Again(Ticket),
    /// The mailbox is closed, and the machine was dropped.
    Dropped,
}
