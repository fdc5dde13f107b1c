//! What committed logs come to: replies, regions, pairs and each key's history.
#![tactic(auto)]

mod fold_error;
mod folding;
mod in_order;
mod laws;
mod lookup;
mod region_lines;
mod replies;
mod run;

pub use fold_error::FoldError;
pub use folding::fold;
pub use in_order::fold_in;
pub use laws::{end_laws, history_laws, order_laws};
pub use lookup::history;
