ghost use Rattle.std.specs.Prelude.{◌≡◌, MatchOption};
ghost use Rattle.rs_region.specs.Actions.{body_for};
ghost use Rattle.rs_store.specs.Stores.{ids_of, next};
ghost use Rattle.rs_store.specs.Runs.{seen, bare, line_entry, next_in, is_plain, passes, IsAllLow, IsFormedStore};
ghost use Rattle.rs_store.specs.Carriers.{carriers, standing_for};
ghost use Rattle.rs_store.specs.Walks.{IsNextEntry};

use crate::carriers::Carriers;
use crate::indexed_store::IndexedStore;
use crate::readiness::next;
use crate::regions::Regions;
use rs_region::{Action, Line, Verdict};

/// The entry that a region applies next, and what becomes of it. Both are found once for an entry.
#[derive(Clone, Copy)]
pub struct NextEntry<'a> {
    pub line: Line<'a>,
    pub verdict: Verdict,
}

/// Returns the region's next entry, where it is available.
pub fn next_entry_of<'a>(
    indexed: &IndexedStore<'a>,
    standing: &Carriers,
    regions: &Regions,
    id: u64,
) -> Option<NextEntry<'a>>
    requires standing { carriers standing.now ≡ standing_for indexed.now (bare (seen regions.now)) (ids_of indexed.now) }
    requires low { IsAllLow (seen regions.now) }
    requires formed { IsFormedStore indexed.now }
    ensures { MatchOption result (next_in indexed.now (bare (seen regions.now)) id (seen regions.now id) ≡ None) (λ c. IsNextEntry indexed.now (seen regions.now) id c) }
{
    let Some(made) = regions.get(id) else {
        return None;
    };
    let Some(line) = next(indexed, standing, regions, id, made) else {
        return None;
    };
    Some(NextEntry {
        line,
        verdict: line.verdict(&made.state),
    })
}

fn is_plain(action: Action<'_>) -> bool
    ensures { result ≡ is_plain (body_for action.entry) }
{
    match action {
        Action::Nothing | Action::Writes(_) => true,
        _ => false,
    }
}

/// Whether an entry leaves its region as it is, but for the index.
pub fn passes(verdict: Verdict, action: Action<'_>) -> bool
    ensures { result ≡ passes verdict (body_for action.entry) }
{
    match verdict {
        Verdict::Accept => is_plain(action),
        Verdict::BadRollback => false,
        _ => true,
    }
}
