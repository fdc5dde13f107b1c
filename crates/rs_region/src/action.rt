ghost use Rattle.std.specs.Prelude.{◌≡◌};
ghost use Rattle.rs_entry.specs.Entries.{body_of};
ghost use Rattle.rs_region.specs.Actions.{body_for, removes};

use rs_entry::{Body, Carried, CarriedBody, Change, Op, Side};
use rs_key::{Key, Rows};

/// What an entry does, where it is accepted.
///
/// A body says what is proposed, in words of its own for own and for carried entries. An action says what class of
/// change that is. What applies entries matches on actions alone.
#[derive(Clone, Copy)]
pub enum Action<'a> {
    /// It changes nothing.
    Nothing,
    /// It writes into its region.
    Writes(&'a Rows<Op>),
    /// It makes new regions of parts of its region.
    Splits {
        side: Side,
        ids: &'a Rows<u64>,
        keys: &'a Rows<Key>,
    },
    /// Its region takes over the source, whose Prepare has the index `commit`.
    Merges {
        source: u64,
        commit: u64,
        carried: &'a Rows<Carried>,
    },
    /// It changes the state of its own region alone.
    Turns(Turn),
}

/// A change of the state of one region.
#[derive(Clone, Copy)]
pub enum Turn {
    Prepare { target: u64 },
    Rollback { commit: u64 },
    Conf { change: Change },
}

/// Returns what an entry with the body does.
pub fn action_of(body: &Body) -> Action<'_>
    ensures { body_for result ≡ body.now }
{
    match body {
        Body::Empty => Action::Nothing,
        Body::Write(ops) => Action::Writes(ops),
        Body::Split { side, ids, keys } => Action::Splits {
            side: *side,
            ids,
            keys,
        },
        Body::Prepare { target } => Action::Turns(Turn::Prepare { target: *target }),
        Body::Commit {
            source,
            commit,
            carried,
        } => Action::Merges {
            source: *source,
            commit: *commit,
            carried,
        },
        Body::Rollback { commit } => Action::Turns(Turn::Rollback { commit: *commit }),
        Body::Conf { change } => Action::Turns(Turn::Conf { change: *change }),
    }
}

/// Returns what a carried entry with the body does.
pub fn carried_action_of(body: &CarriedBody) -> Action<'_>
    ensures { body_for result ≡ body_of body.now }
{
    match body {
        CarriedBody::Empty => Action::Nothing,
        CarriedBody::Write(ops) => Action::Writes(ops),
        CarriedBody::Prepare { target } => Action::Turns(Turn::Prepare { target: *target }),
    }
}

impl Turn {
    /// Whether the turn removes the region's peer on the store.
    pub fn removes(self, store: u64) -> bool
        ensures { result ≡ removes store self }
    {
        match self {
            Turn::Conf {
                change: Change::Remove(peer),
            } => peer == store,
            _ => false,
        }
    }
}
