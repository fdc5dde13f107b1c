//! What a region is at an index, whatever the store and the order.
//!
//! The part of a region is its state and what was written in its range. It is defined twice: as a store's canonical
//! order leaves it, and from the committed entries alone, in which there is no store, no order and no clock. The
//! theorems of this crate say that the two are one, in every lawful order on every store. It has no code of its own.
#![tactic(auto)]
