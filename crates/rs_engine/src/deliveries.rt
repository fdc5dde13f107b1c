ghost use Rattle.std.specs.Prelude.{◌≡◌, ◌<◌, IfOk};
ghost use Rattle.rs_check.specs.Values.{count_of};
ghost use Rattle.rs_poll.specs.Handing.{all_known};
ghost use Rattle.rs_engine.specs.Telling.{TellsNext};

use rs_handlers::{Deliveries, Seat};
use rs_key::NoMemory;
use rs_peer::PeerFsm;
use std::sync::Wait;

/// The main thread's deliveries of the logs to the peer machines.
#[derive(Drop)]
pub struct Telling<'r, 'p> {
    pub deliveries: Deliveries<'p>,
    pub seat: Seat<'r, 'p, PeerFsm<'p>>,
    ghost one_plan: { deliveries.plan.now ≡ seat.plan.now },
}

impl<'r, 'p> Telling<'r, 'p> {
    /// Tells one peer machine of its log. False where all was told.
    pub fn tell_next<R: Wait>(&mut self, rt: &R) -> Result<bool, NoMemory>
        ensures plan { self.new.seat.plan ≡ self.old.seat.plan }
        ensures told { IfOk result (λ any. TellsNext self.old.deliveries.plan self.old.deliveries.chunk any self.old.deliveries.waiting.items (all_known self.old.seat.desks.stations.items) self.new.deliveries.waiting.items (all_known self.new.seat.desks.stations.items)) }
    {
        let Some((address, message)) = self.deliveries.next()? else {
            return Ok(false);
        };
        self.seat.send(rt, address, message)?;
        Ok(true)
    }

    /// Closes the mailbox of a peer machine.
    pub fn close(&mut self, address: u32)
        requires { address < count_of self.old.seat.plan.now }
        ensures { self.new.seat.plan ≡ self.old.seat.plan }
    {
        drop(self.seat.close(address));
    }
}
