use rs_entry::Input;
use std::collections::LinkedList;

/// A cut of a store's reshapings. Contracts speak of it; no value of it is made.
pub struct StoreCut {
    /// What the plan is of.
    pub input: Input,
    /// The store's place among the plan's stores, counted from 0.
    pub place: u32,
    /// How many reshapings of each address the cut covers.
    pub counts: LinkedList<u64>,
}
