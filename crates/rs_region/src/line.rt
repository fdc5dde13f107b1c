ghost use Rattle.std.specs.Prelude.{◌≡◌};
ghost use Rattle.rs_region.specs.Actions.{body_for, line_entry};
ghost use Rattle.rs_region.specs.Verdicts.{verdict};

use crate::action::{Action, action_of, carried_action_of};
use crate::state::RegionState;
use crate::verdict::Verdict;
use rs_entry::{Carried, Entry};

/// An entry: of the region's own log, or carried by a commit.
#[derive(Clone, Copy)]
pub enum Line<'a> {
    Own(&'a Entry),
    Carried(&'a Carried),
}

impl<'a> Line<'a> {
    /// What the entry does, where it is accepted.
    pub fn action(self) -> Action<'a>
        ensures { body_for result ≡ (line_entry self.entry).body }
    {
        match self {
            Line::Own(entry) => action_of(&entry.body),
            Line::Carried(entry) => carried_action_of(&entry.body),
        }
    }

    /// What becomes of the entry in a region that is neither merged nor removed.
    pub fn verdict(self, state: &RegionState) -> Verdict
        ensures { result ≡ verdict state.now (line_entry self.entry) }
    {
        match self {
            Line::Own(entry) => state.verdict(entry),
            Line::Carried(entry) => state.verdict_carried(entry),
        }
    }
}
