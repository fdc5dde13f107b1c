ghost use Rattle.std.specs.Prelude.{◌≡◌, None};

use crate::queue_rule::{LinePass, Tickets};
use std::thread::Parker;

/// A scheduler over one queue, so tickets come out in the order in which they went in. Its number of addresses is the
/// one that it was made with. Where it is dropped, the tickets in its queue are dropped.
pub struct QueueScheduler {
    pub queue: Tickets,
    pub parkers: Vec<Parker>,
    pub addresses: u32,
}

/// A pass of a [`QueueScheduler`]. Its two lists are what its queue pass knows.
#[derive(Drop)]
pub struct SchedulerPass {
    pub pass: LinePass,
    pub place: u32,
    pub addresses: u32,
    pub empties: u64,
    ghost bare: { (pass.me.hand ≡ None) × (pass.me.spare ≡ None) },
    ghost bounded: { pass.me.view.client.bound ≡ addresses },
}

impl Drop for QueueScheduler {
    fn drop(self) {
        let QueueScheduler {
            queue,
            parkers,
            addresses: _,
        } = self;
        drop(parkers);
        queue.destroy();
    }
}
