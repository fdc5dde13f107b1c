/// The reason for which a run ends. Workers that share a cell of it stop for one reason.
#[derive(Clone, Copy, Debug, PartialEq, Eq)]
pub enum Stop {
    /// All is done.
    Finished,
    /// Memory ran out.
    NoMemory,
}
