ghost use Rattle.std.specs.Prelude.{◌≡◌};

/// A machine that has to run: it names the mailbox's address. It is spent by `take`.
#[derive(Debug, Drop)]
pub struct Ticket {
    pub(crate) address: u32,
}

impl Ticket {
    /// Returns the mailbox's address.
    pub fn address(&self) -> u32
        ensures { result ≡ self.now.address }
    {
        self.address
    }
}
