ghost use Rattle.std.specs.Prelude.{◌≡◌};
ghost use Rattle.rs_region.specs.Reshapings.{boot};

use rs_entry::Mode;
use rs_key::{Epoch, NoMemory, Range, Rows, TryClone};

/// A region on one store.
#[derive(Debug, Drop)]
pub struct RegionState {
    pub region: u64,
    pub epoch: Epoch,
    /// The keys that it owns; where it was merged or removed, those that it owned last.
    pub range: Range,
    /// The ids of the stores of its peers, rising; in version 1 there are none.
    pub peers: Rows<u64>,
    pub mode: Mode,
}

impl RegionState {
    /// Returns a region from the start: Normal, both numbers of its epoch at 1.
    pub fn boot(region: u64, range: Range, peers: Rows<u64>) -> RegionState
        ensures { result ≡ boot region range peers }
    {
        RegionState {
            region,
            epoch: Epoch {
                conf_ver: 1,
                version: 1,
            },
            range,
            peers,
            mode: Mode::Normal,
        }
    }
}

impl TryClone for RegionState {
    fn try_clone(&self) -> Result<RegionState, NoMemory> {
        Ok(RegionState {
            region: self.region,
            epoch: self.epoch,
            range: self.range.try_clone()?,
            peers: self.peers.try_clone()?,
            mode: self.mode,
        })
    }
}
