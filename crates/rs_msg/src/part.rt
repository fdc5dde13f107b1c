use rs_history::Writes;
use rs_key::Key;

/// The writes of the keys from the start on that are below the next part's start.
#[derive(Drop)]
pub struct Part<'p> {
    pub start: Key,
    pub writes: Writes<'p>,
}
