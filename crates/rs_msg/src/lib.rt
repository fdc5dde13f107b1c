//! What the machines of a plan tell one another.
//!
//! A machine's messages are of one plan. Three of them carry values whose type says that they are what the plan's
//! fold has for what they name: a region just made, a source that is handed over, and a region that has ended.
//! docs/BATCH.md tells who sends what when.
//!
//! A `Map` has what was written of each key, as a machine keeps it for its region: the writes of a range of keys, in parts
//! from left to right, and those of one key in their order. It is cut where a region is split and joined where regions
//! merge. A cut looks at the writes of the one part that it goes through, and a join moves parts; both copy no write.
#![tactic(auto)]

mod closed;
mod ending;
mod map;
mod messages;
mod outbox;
mod part;
mod piece;

pub use closed::Closed;
pub use ending::Ending;
pub use map::Map;
pub use messages::{ApplyMsg, PeerMsg, StoreMsg};
pub use outbox::Outbox;
pub use piece::Piece;
