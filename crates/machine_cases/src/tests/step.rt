use rs_apply::Progress;

/// What is done with a store that is driven by hand, or what is seen of it then. The first number of a step is the address
/// of its machines.
#[derive(Clone, Copy)]
pub enum Step<'s> {
    /// The peer machine is told that the store's own log of its region is there up to this index.
    Deliver(u32, u64),
    /// The peer machine is told that its apply machine has applied the entries up to this index.
    Applied(u32, u64),
    /// The peer machine is told that this region has taken its region over.
    MergedInto(u32, u64),
    /// The apply machine is told that it may apply the entries up to this index.
    Task(u32, u64),
    /// The apply machine is told to hand over to this region, after the prepare at this index.
    HandOver(u32, u64, u64),
    /// The control machine is told that the address has applied its nth reshaping, this one.
    Reshaped(u32, u64),
    /// Every message that is to be sent goes to its machine: those to peer machines first, then those to apply
    /// machines and those to the control machine, each kind in its order.
    HandOn,
    /// The apply machine goes on with a budget of this many entries, and this comes of it.
    Advance(u32, u32, Progress),
    /// This and nothing else is to be sent.
    Sends(&'s str),
    /// The peer machine has this applied index, and is a tombstone or isn't.
    Peer(u32, u64, bool),
    /// The control machine finds the key of this byte in this region.
    Finds(u8, u64),
    /// The control machine has each ending and each reshaping, or not yet.
    IsComplete(bool),
}
