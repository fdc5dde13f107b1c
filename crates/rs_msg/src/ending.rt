ghost use Rattle.std.specs.Prelude.{◌≡◌, ◌<◌};
ghost use Rattle.std.specs.Option.{option_copied};
ghost use Rattle.rs_check.specs.Values.{count_of};
ghost use Rattle.rs_msg.specs.Held.{IsEnding};

use crate::map::Map;
use rs_check::Plan;
use rs_entry::ReplyLine;
use rs_key::Rows;
use rs_region::RegionState;

/// The end of a region: its state, all its replies and, unless it ends merged or removed, its map.
#[derive(Drop)]
pub struct Ending<'p> {
    plan: &'p Plan,
    address: u32,
    state: RegionState,
    replies: Rows<ReplyLine>,
    map: Option<Map<'p>>,
    ghost below: { address < count_of plan.now },
    ghost ending: { IsEnding plan.now address state replies map },
}

impl<'p> Ending<'p> {
    /// Makes the value from its parts. It takes no memory.
    pub fn new(
        plan: &'p Plan,
        address: u32,
        state: RegionState,
        replies: Rows<ReplyLine>,
        map: Option<Map<'p>>,
    ) -> Ending<'p>
        requires below { address < count_of plan.now }
        requires ending { IsEnding plan.now address state replies map }
        ensures plan { result.plan ≡ plan.entry }
        ensures address { result.address ≡ address }
        ensures state { result.state ≡ state }
        ensures replies { result.replies ≡ replies }
        ensures map { result.map ≡ map.entry }
    {
        Ending {
            plan,
            address,
            state,
            replies,
            map,
        }
    }

    /// Returns the address of the region that ended.
    pub fn address(&self) -> u32
        ensures { result ≡ self.now.address }
    {
        self.address
    }

    /// Returns the state after the last entry; of a removed region without the mark that it was removed.
    pub fn state(&self) -> &RegionState
        ensures { result.now ≡ self.now.state }
    {
        &self.state
    }

    /// Returns the replies to the region's entries, in the entries' order.
    pub fn replies(&self) -> &Rows<ReplyLine>
        ensures { result.now ≡ self.now.replies }
    {
        &self.replies
    }

    /// Returns the writes that the region holds; `None` if it was merged into another.
    pub fn map(&self) -> Option<&Map<'p>>
        ensures { option_copied result ≡ self.now.map }
    {
        self.map.as_ref()
    }

    /// Returns the state, the replies and the map, and consumes the value.
    pub fn take(self) -> (RegionState, Rows<ReplyLine>, Option<Map<'p>>)
        ensures state { result.0 ≡ self.entry.state }
        ensures replies { result.1 ≡ self.entry.replies }
        ensures map { result.2 ≡ self.entry.map }
        ensures ending { IsEnding self.entry.plan.now self.entry.address result.0 result.1 result.2 }
    {
        (self.state, self.replies, self.map)
    }
}
