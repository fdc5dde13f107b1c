/// What a key is answered by the table of a published cut.
#[derive(Clone, Copy, Debug, PartialEq, Eq)]
pub struct Found {
    /// The live region that holds the key, if one does.
    pub region: Option<u64>,
    /// How many reshapings the cut covers.
    pub size: u64,
}
