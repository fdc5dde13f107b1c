ghost use Rattle.std.specs.Prelude.{◌≡◌, ◌<◌};
ghost use Rattle.rs_check.specs.Values.{count_of};
ghost use Rattle.rs_msg.specs.Held.{IsHeld};

use crate::map::Map;
use rs_check::Plan;
use rs_region::RegionState;

/// A region that was just made: its state and its map before its first entry.
#[derive(Drop)]
pub struct Piece<'p> {
    plan: &'p Plan,
    address: u32,
    state: RegionState,
    map: Map<'p>,
    ghost below: { address < count_of plan.now },
    ghost held: { IsHeld plan.now address 5 state map },
}

impl<'p> Piece<'p> {
    /// Makes the value from its parts. It takes no memory.
    pub fn new(plan: &'p Plan, address: u32, state: RegionState, map: Map<'p>) -> Piece<'p>
        requires below { address < count_of plan.now }
        requires held { IsHeld plan.now address 5 state map }
        ensures plan { result.plan ≡ plan.entry }
        ensures address { result.address ≡ address }
        ensures state { result.state ≡ state }
        ensures map { result.map ≡ map.entry }
    {
        Piece {
            plan,
            address,
            state,
            map,
        }
    }

    /// Returns the address of the new region.
    pub fn address(&self) -> u32
        ensures { result ≡ self.now.address }
    {
        self.address
    }

    /// Returns the state with which the region begins.
    pub fn state(&self) -> &RegionState
        ensures { result.now ≡ self.now.state }
    {
        &self.state
    }

    /// Returns the writes with which the region begins.
    pub fn map(&self) -> &Map<'p>
        ensures { result.now ≡ self.now.map }
    {
        &self.map
    }

    /// Returns the state and the map, and consumes the value.
    pub fn take(self) -> (RegionState, Map<'p>)
        ensures state { result.0 ≡ self.entry.state }
        ensures map { result.1 ≡ self.entry.map }
        ensures held { IsHeld self.entry.plan.now self.entry.address 5 result.0 result.1 }
    {
        (self.state, self.map)
    }
}
