ghost use Rattle.std.specs.Prelude.{◌≡◌, position};
ghost use Rattle.rs_entry.specs.Entries.{entry_of};
ghost use Rattle.rs_region.specs.Actions.{body_for, turn_body};
ghost use Rattle.rs_region.specs.Verdicts.{kind_of, is_empty, is_outside, write_verdict, is_peer, is_good_change, merging_verdict, open_verdict, fitting_verdict, verdict_on, verdict};

use crate::action::{Action, Turn, action_of, carried_action_of};
use crate::state::RegionState;
use rs_entry::{Carried, Change, Entry, Mode, Op};
use rs_key::{Epoch, Kind, Range};

/// The most peers of a region.
const MOST_PEERS: usize = 64;

/// The verdict on an entry.
#[derive(Clone, Copy, Debug, PartialEq, Eq)]
pub enum Verdict {
    /// An empty entry. It has no effect.
    Empty,
    /// Its epoch doesn't match the region's.
    Stale,
    /// The region is merging, and the entry is no rollback.
    Merging,
    /// A write with a key outside the range: the place of the first such operation, from 1.
    Outside(usize),
    /// A split at a bad key: the first such place, from 1.
    BadSplit(usize),
    /// A change of peers that can't be made.
    BadPeer,
    /// A rollback of a merge that the region isn't in. No lawful log has it.
    BadRollback,
    /// The entry is accepted.
    Accept,
}

impl RegionState {
    /// Returns what becomes of the entry: the first of the variants that applies, in their order.
    ///
    /// It is meant for a region that is neither merged nor removed.
    pub fn verdict(&self, entry: &Entry) -> Verdict
        ensures { result ≡ verdict self.now entry.now }
    {
        self.verdict_on(&entry.epoch, action_of(&entry.body))
    }

    /// Returns what becomes of the carried entry, as of the same entry in the source's own log.
    pub fn verdict_carried(&self, entry: &Carried) -> Verdict
        ensures { result ≡ verdict self.now (entry_of entry.now) }
    {
        self.verdict_on(&entry.epoch, carried_action_of(&entry.body))
    }

    fn verdict_on(&self, epoch: &Epoch, action: Action<'_>) -> Verdict
        ensures { result ≡ verdict_on self.now epoch.now (body_for action.entry) }
    {
        if is_nothing(action) {
            Verdict::Empty
        } else if self.epoch.matches(kind_of(action), epoch) {
            self.fitting_verdict(action)
        } else {
            Verdict::Stale
        }
    }

    fn fitting_verdict(&self, action: Action<'_>) -> Verdict
        ensures { result ≡ fitting_verdict self.now.mode self.now.range self.now.peers (body_for action.entry) }
    {
        match self.mode {
            Mode::Merging { commit, .. } => merging_verdict(commit, action),
            _ => self.open_verdict(action),
        }
    }

    fn open_verdict(&self, action: Action<'_>) -> Verdict
        ensures { result ≡ open_verdict self.now.range self.now.peers (body_for action.entry) }
    {
        match action {
            Action::Writes(ops) => write_verdict(&self.range, ops.as_slice()),
            Action::Splits { keys, .. } => match self.range.first_bad_cut(keys.as_slice()) {
                None => Verdict::Accept,
                Some(place) => Verdict::BadSplit(place),
            },
            Action::Turns(turn) => self.turn_verdict(turn),
            Action::Nothing | Action::Merges { .. } => Verdict::Accept,
        }
    }

    fn turn_verdict(&self, turn: Turn) -> Verdict
        ensures { result ≡ open_verdict self.now.range self.now.peers (turn_body turn) }
    {
        match turn {
            Turn::Conf { change } => {
                if is_good_change(self.peers.as_slice(), change) {
                    Verdict::Accept
                } else {
                    Verdict::BadPeer
                }
            }
            Turn::Rollback { .. } => Verdict::BadRollback,
            Turn::Prepare { .. } => Verdict::Accept,
        }
    }
}

fn is_nothing(action: Action<'_>) -> bool
    ensures { result ≡ is_empty (body_for action.entry) }
{
    match action {
        Action::Nothing => true,
        _ => false,
    }
}

fn kind_of(action: Action<'_>) -> Kind
    ensures { result ≡ kind_of (body_for action.entry) }
{
    match action {
        Action::Nothing => Kind::Empty,
        Action::Writes(_) => Kind::Write,
        Action::Splits { .. } => Kind::Split,
        Action::Merges { .. } => Kind::Commit,
        Action::Turns(Turn::Prepare { .. }) => Kind::Prepare,
        Action::Turns(Turn::Rollback { .. }) => Kind::Rollback,
        Action::Turns(Turn::Conf { .. }) => Kind::Conf,
    }
}

fn merging_verdict(commit: u64, action: Action<'_>) -> Verdict
    ensures { result ≡ merging_verdict commit (body_for action.entry) }
{
    match action {
        Action::Turns(Turn::Rollback { commit: other }) => {
            if other == commit {
                Verdict::Accept
            } else {
                Verdict::BadRollback
            }
        }
        _ => Verdict::Merging,
    }
}

fn write_verdict(range: &Range, ops: &[Op]) -> Verdict
    ensures { result ≡ write_verdict (position (is_outside range.now) ops.now) }
{
    match first_outside(range, ops) {
        None => Verdict::Accept,
        Some(place) => Verdict::Outside(place + 1),
    }
}

fn first_outside(range: &Range, ops: &[Op]) -> Option<usize>
    ensures { result ≡ position (is_outside range.now) ops.now }
{
    ops.iter().position(|op| is_outside(range, op))
}

fn is_outside(range: &Range, op: &Op) -> bool
    ensures { result ≡ is_outside range.now op.now }
{
    let (Op::Put(key, _) | Op::Delete(key)) = op;
    !range.holds(key)
}

fn is_good_change(peers: &[u64], change: Change) -> bool
    ensures { result ≡ is_good_change peers.now change }
{
    match change {
        Change::Add(peer) => !is_peer(peers, peer) && peers.len() < MOST_PEERS,
        Change::Remove(peer) => is_peer(peers, peer) && peers.len() > 1,
    }
}

fn is_peer(peers: &[u64], peer: u64) -> bool
    ensures { result ≡ is_peer peers.now peer }
{
    peers.iter().any(|p| *p == peer)
}
