ghost use Rattle.std.specs.Prelude.{◌≡◌, ◌↔◌, IsTrue};
ghost use Rattle.rs_entry.specs.Entries.{entry_of, body_of};
ghost use Rattle.rs_entry.specs.Equality.{same_ops, same_sides, same_changes, same_bodies, same_carried_bodies, same_carried, same_entries, same_boots};

use crate::entry::{Body, Carried, CarriedBody, Change, Entry, Op, Side};
use crate::input::Boot;
use rs_key::Same;

impl Same for Op {
    ghost equals = { same_ops };

    fn is_same(&self, other: &Op) -> bool {
        match (self, other) {
            (Op::Put(a, v), Op::Put(b, w)) => a.is_same(b) && v.is_same(w),
            (Op::Delete(a), Op::Delete(b)) => a.is_same(b),
            _ => false,
        }
    }
}

impl Same for Side {
    ghost equals = { same_sides };

    fn is_same(&self, other: &Side) -> bool {
        match (self, other) {
            (Side::Right, Side::Right) | (Side::Left, Side::Left) => true,
            _ => false,
        }
    }
}

impl Same for Change {
    ghost equals = { same_changes };

    fn is_same(&self, other: &Change) -> bool {
        match (self, other) {
            (Change::Add(a), Change::Add(b)) => *a == *b,
            (Change::Remove(a), Change::Remove(b)) => *a == *b,
            _ => false,
        }
    }
}

impl Same for CarriedBody {
    ghost equals = { same_carried_bodies };

    fn is_same(&self, other: &CarriedBody) -> bool {
        match (self, other) {
            (CarriedBody::Empty, CarriedBody::Empty) => true,
            (CarriedBody::Write(a), CarriedBody::Write(b)) => a.is_same(b),
            (CarriedBody::Prepare { target: a }, CarriedBody::Prepare { target: b }) => *a == *b,
            _ => false,
        }
    }
}

impl Same for Carried {
    ghost equals = { same_carried };

    fn is_same(&self, other: &Carried) -> bool {
        self.index == other.index
            && (self.epoch.is_same(&other.epoch) && self.body.is_same(&other.body))
    }
}

impl Same for Body {
    ghost equals = { same_bodies };

    fn is_same(&self, other: &Body) -> bool {
        match (self, other) {
            (Body::Empty, Body::Empty) => true,
            (Body::Write(a), Body::Write(b)) => a.is_same(b),
            (
                Body::Split { side, ids, keys },
                Body::Split {
                    side: other_side,
                    ids: other_ids,
                    keys: other_keys,
                },
            ) => side.is_same(other_side) && (ids.is_same(other_ids) && keys.is_same(other_keys)),
            (Body::Prepare { target: a }, Body::Prepare { target: b }) => *a == *b,
            (
                Body::Commit {
                    source,
                    commit,
                    carried,
                },
                Body::Commit {
                    source: other_source,
                    commit: other_commit,
                    carried: other_carried,
                },
            ) => {
                *source == *other_source
                    && (*commit == *other_commit && carried.is_same(other_carried))
            }
            (Body::Rollback { commit: a }, Body::Rollback { commit: b }) => *a == *b,
            (Body::Conf { change: a }, Body::Conf { change: b }) => a.is_same(b),
            _ => false,
        }
    }
}

impl Same for Entry {
    ghost equals = { same_entries };

    fn is_same(&self, other: &Entry) -> bool {
        self.index == other.index
            && (self.epoch.is_same(&other.epoch) && self.body.is_same(&other.body))
    }
}

impl Same for Boot {
    ghost equals = { same_boots };

    fn is_same(&self, other: &Boot) -> bool {
        self.region == other.region
            && (self.range.is_same(&other.range) && self.peers.is_same(&other.peers))
    }
}

impl Carried {
    /// Returns whether the entry is the one that is carried: index, epoch and body agree.
    pub fn same(&self, entry: &Entry) -> bool
        ensures test { result ≡ same_entries (entry_of self.now) entry.now }
        ensures exact { IsTrue result ↔ (entry_of self.now ≡ entry.now) }
    {
        self.index == entry.index
            && (self.epoch.is_same(&entry.epoch) && is_body(&self.body, &entry.body))
    }
}

/// Returns whether the body is the one that is carried.
fn is_body(carried: &CarriedBody, body: &Body) -> bool
    ensures test { result ≡ same_bodies (body_of carried.now) body.now }
    ensures exact { IsTrue result ↔ (body_of carried.now ≡ body.now) }
{
    match (carried, body) {
        (CarriedBody::Empty, Body::Empty) => true,
        (CarriedBody::Write(a), Body::Write(b)) => a.is_same(b),
        (CarriedBody::Prepare { target: a }, Body::Prepare { target: b }) => *a == *b,
        _ => false,
    }
}
