/// One step of a thread: an atomic step on one of the mailbox's two words, or a push or a pop of its queue.
#[derive(Debug, PartialEq, Eq, Drop)]
pub enum Step<M> {
    /// Adds one to the count of announcements.
    Announce,
    /// Turns Idle into Notified.
    Notify,
    /// Turns Notified into Held, and takes the machine.
    Take,
    /// Turns Held into Idle, and puts the machine home. Where it finds Drop the machine is handed out.
    Release,
    /// Loads the count of announcements after a release.
    Recheck,
    /// Turns Idle into Held after a release, and takes the machine again.
    Retake,
    /// Swaps Drop in. A machine that was home is handed out.
    Close,
    /// Loads the state word.
    Look,
    /// Turns Held into Notified, and puts the machine home. Where it finds Drop the machine is handed out.
    Reschedule,
    /// Puts a message at the end of the queue.
    Push(M),
    /// Takes the message at the front of the queue.
    Pop,
}
