/// The part that a store has of the log of a region that was split off and merged again.
#[derive(Clone, Copy)]
pub enum Kept {
    /// Each entry.
    All,
    /// The first few, by the number and the round, and none in some rounds.
    Few,
}
