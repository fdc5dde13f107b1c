ghost use Rattle.std.specs.Prelude.{◌≡◌};
ghost use Rattle.std.specs.Borrow.{sem};

use crate::contents::Contents;
use crate::held::Held;
use rs_mailcore::Fsm;

/// A machine while a station has it, with the right to take its messages. It is spent by `release` or `reschedule`.
/// Where it is dropped, its station keeps holding for good.
#[derive(Drop)]
pub struct Turn<F: Fsm> {
    pub(crate) held: Held<Contents<F>>,
}

impl<F: Fsm> Turn<F> {
    ghost use Rattle.rs_mailbox.specs.LentMachine.{LendsMachine};

    /// Returns how many messages of the mailbox were taken.
    pub fn handled(&self) -> u64
        ensures { result ≡ self.now.held.stored.handled }
    {
        self.held.handled()
    }

    /// Lends the machine. All else of the turn stays.
    pub fn machine(&mut self) -> &mut F
        ensures* writes_back { sem 𝓛 (LendsMachine F.row F.Message.row F.Name.row F.Message.Named self.entry result) }
        ensures value { result.now ≡ self.old.held.stored.value.machine }
    {
        let held = &mut self.held;
        let stored = &mut held.stored;
        let contents = &mut stored.value;
        &mut contents.machine
    }
}
