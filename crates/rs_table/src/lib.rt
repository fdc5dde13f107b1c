//! The table of a store's regions, made from the reshapings that were told of it.
//!
//! Splits, prepares, commits, rollbacks and changes of peers reshape regions. A store hears of them region by region, in
//! any order. A cut takes a number of the first ones of each region, a child's only after the split that made it, and a commit
//! only after its source's prepare. The table has the regions as the greatest cut of what was told leaves them, so its
//! ranges are apart and hold what the store held from the start.
#![tactic(auto)]

mod changes;
mod cut;
mod cut_table;
mod laws;
mod needs;
mod opening;
mod place;
mod table;
mod told;
mod waiters;

pub use cut_table::CutTable;
pub use laws::table_laws;
pub use table::StoreTable;
