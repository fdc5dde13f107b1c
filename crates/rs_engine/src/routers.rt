use rs_apply::ApplyFsm;
use rs_meta::StoreFsm;
use rs_peer::PeerFsm;
use rs_router::{QueueScheduler, Router, Scheduler};

/// The routers of a run's machines, one for each kind.
#[derive(Drop)]
pub struct Routers<'p> {
    pub peers: Router<PeerFsm<'p>, QueueScheduler>,
    pub applies: Router<ApplyFsm<'p>, QueueScheduler>,
    pub control: Router<StoreFsm<'p>, QueueScheduler>,
}

impl<'p> Routers<'p> {
    /// Wakes the scheduler of each router.
    pub fn wake(&self) {
        self.peers.scheduler().wake();
        self.applies.scheduler().wake();
        self.control.scheduler().wake();
    }
}
