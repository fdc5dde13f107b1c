use crate::step::Step;

/// The phase of a thread at a mailbox.
#[derive(Clone, Copy, PartialEq, Eq, Debug)]
pub enum Phase {
    /// Nothing, or a push.
    Calm,
    /// The thread has announced a message, and tries to notify next.
    Notifying,
    /// The thread has the machine.
    Holding,
    /// The thread has put the machine home, and looks next whether more was announced.
    Releasing,
}

/// One thread's part in the handover of the machine.
#[derive(Clone, Copy, PartialEq, Eq, Debug)]
pub struct Stance {
    pub phase: Phase,
    /// The number of messages that it has announced.
    pub announced: u64,
    /// While it is Holding, the handled count that it found when it took the machine. While it is Releasing, the
    /// handled count that it put home.
    pub remembered: u64,
}

/// The record of one thread.
#[derive(Clone, Copy, PartialEq, Eq, Debug)]
pub struct Thread {
    pub stance: Stance,
    /// The number of messages that it has pushed.
    pub pushed: u64,
    /// The number of its messages that were taken.
    pub taken: u64,
}

/// The greatest number of messages that a thread may announce.
const MOST: u64 = 1 << 50;

impl Thread {
    ghost use Rattle.std.specs.Prelude.{IsTrue, ◌↔◌};
    ghost use Rattle.rs_mailcore.specs.Moment.{Enabled, IsSettled};

    // It is calm, and has announced all that it pushed.
    fn is_settled(&self) -> bool
        ensures { IsTrue result ↔ IsSettled self.now }
    {
        matches!(self.stance.phase, Phase::Calm) && self.pushed == self.stance.announced
    }

    /// Returns whether it may make this step.
    pub fn may<M>(&self, step: &Step<M>) -> bool
        ensures { IsTrue result ↔ Enabled {M = M} self.now step.now }
    {
        match step {
            Step::Announce => {
                matches!(self.stance.phase, Phase::Calm)
                    && self.stance.announced < MOST
                    && self.pushed == self.stance.announced + 1
            }
            Step::Notify => matches!(self.stance.phase, Phase::Notifying),
            Step::Release | Step::Reschedule | Step::Pop => {
                matches!(self.stance.phase, Phase::Holding)
            }
            Step::Recheck | Step::Retake => matches!(self.stance.phase, Phase::Releasing),
            Step::Push(_) => self.is_settled() && self.pushed < MOST,
            Step::Take | Step::Close | Step::Look => self.is_settled(),
        }
    }
}
