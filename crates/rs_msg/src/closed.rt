ghost use Rattle.std.specs.Prelude.{◌≡◌, ◌<◌};
ghost use Rattle.rs_entry.specs.declared.outcome.Mode.TheVariants as mode;
ghost use Rattle.rs_check.specs.Values.{count_of};
ghost use Rattle.rs_msg.specs.Held.{IsHeld};

use crate::map::Map;
use rs_check::Plan;
use rs_region::RegionState;

/// A source that is merged away, as it is after its prepare: what it hands over to its target.
#[derive(Drop)]
pub struct Closed<'p> {
    plan: &'p Plan,
    address: u32,
    target: u64,
    commit: u64,
    state: RegionState,
    map: Map<'p>,
    ghost below: { address < count_of plan.now },
    ghost held: { IsHeld plan.now address commit state map },
    ghost merging: { state.mode ≡ mode.Merging target commit },
}

impl<'p> Closed<'p> {
    /// Makes the value from its parts. It takes no memory.
    pub fn new(
        plan: &'p Plan,
        address: u32,
        target: u64,
        commit: u64,
        state: RegionState,
        map: Map<'p>,
    ) -> Closed<'p>
        requires below { address < count_of plan.now }
        requires held { IsHeld plan.now address commit state map }
        requires merging { state.mode ≡ mode.Merging target commit }
        ensures plan { result.plan ≡ plan.entry }
        ensures address { result.address ≡ address }
        ensures target { result.target ≡ target }
        ensures commit { result.commit ≡ commit }
        ensures state { result.state ≡ state }
        ensures map { result.map ≡ map.entry }
    {
        Closed {
            plan,
            address,
            target,
            commit,
            state,
            map,
        }
    }

    /// Returns the address of the region that ended.
    pub fn address(&self) -> u32
        ensures { result ≡ self.now.address }
    {
        self.address
    }

    /// Returns the id of the region, on the same store, that takes it over.
    pub fn target(&self) -> u64
        ensures { result ≡ self.now.target }
    {
        self.target
    }

    /// Returns the index of its prepare.
    pub fn commit(&self) -> u64
        ensures { result ≡ self.now.commit }
    {
        self.commit
    }

    /// Returns the region's state at the end.
    pub fn state(&self) -> &RegionState
        ensures { result.now ≡ self.now.state }
    {
        &self.state
    }

    /// Returns the writes that the region holds.
    pub fn map(&self) -> &Map<'p>
        ensures { result.now ≡ self.now.map }
    {
        &self.map
    }

    /// Returns the state and the map, and consumes the value.
    pub fn take(self) -> (RegionState, Map<'p>)
        ensures state { result.0 ≡ self.entry.state }
        ensures map { result.1 ≡ self.entry.map }
        ensures held { IsHeld self.entry.plan.now self.entry.address self.entry.commit result.0 result.1 }
        ensures merging { result.0.mode ≡ mode.Merging self.entry.target self.entry.commit }
    {
        (self.state, self.map)
    }
}
