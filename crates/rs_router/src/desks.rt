ghost use Rattle.std.specs.Prelude.{◌≡◌, ◌<◌, length, slice_index_or};
ghost use Rattle.std.specs.Borrow.{sem};

use rs_mailbox::Station;
use rs_mailcore::{Fsm, Named};

/// One worker's stations, one for each address from 0 on.
#[derive(Drop)]
pub struct Desks<F: Fsm> {
    pub stations: Vec<Station<F>>,
}

impl<F: Fsm> Desks<F> {
    ghost use Rattle.rs_router.specs.Lending.{LendsStation};

    /// Lends the station of this address. The desks stay the router's where the station is then still of that address's
    /// mailbox.
    pub fn station(&mut self, address: u32) -> &mut Station<F>
        requires below { address < length self.old.stations.items }
        ensures* writes_back { sem 𝓛 (LendsStation F.row F.Message.row F.Name.row (record { one_name = F.one_name }) (record { name = F.name }) (record { name = F.Message.name }) self.entry address result) }
        ensures value { result.now ≡ slice_index_or self.old.stations.items address result.now }
    {
        &mut self.stations[address as usize]
    }
}
