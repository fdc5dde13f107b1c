ghost use Rattle.std.specs.Prelude.{◌≡◌, []};

use crate::messages::{ApplyMsg, PeerMsg, StoreMsg};
use rs_key::Rows;
use std::alloc::Global;

/// The messages that a machine sends, in their order. The number beside a message is the address of the
/// machine that it goes to; of a control machine, its store's place in the plan, counted from 0.
#[derive(Drop)]
pub struct Outbox<'p> {
    pub peers: Rows<(u32, PeerMsg<'p>)>,
    pub applies: Rows<(u32, ApplyMsg<'p>)>,
    pub stores: Rows<(u32, StoreMsg<'p>)>,
}

impl<'p> Outbox<'p> {
    /// Makes an outbox with nothing to send. It takes no memory.
    pub fn new(alloc: Global) -> Outbox<'p>
        ensures peers { result.peers ≡ [] }
        ensures applies { result.applies ≡ [] }
        ensures stores { result.stores ≡ [] }
    {
        Outbox {
            peers: Rows::new(alloc),
            applies: Rows::new(alloc),
            stores: Rows::new(alloc),
        }
    }
}
