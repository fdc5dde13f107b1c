ghost use Rattle.std.specs.Prelude.{◌≡◌, ◌+◌, ◌<◌, ◌≤◌, MatchOption};
ghost use Rattle.rs_mailbox.specs.Stations.{mailbox_name, IsCalm, IsStationOf, IsTurnOf};

use crate::tests::mailboxes::next_station;
use crate::tests::{Note, Tally};
use crate::{Mailbox, Released, Station, Taken, Ticket, Turn};
use rs_mailcore::Named;
use std::sync::{Mutex, Wait};
use std::test::Fail;
use std::thread;
use std::thread::Threads;

const MESSAGES: u64 = 1000;

/// How many messages of each sender came, and whether each came in its order. The numbers of the first are even.
#[derive(Drop)]
struct Seen {
    even: u64,
    odd: u64,
    in_order: bool,
}

impl Seen {
    fn note(&mut self, number: u64) {
        if number % 2 == 0 {
            if number / 2 != self.even {
                self.in_order = false;
            }
            self.even = self.even.wrapping_add(1);
        } else {
            if number / 2 != self.odd {
                self.in_order = false;
            }
            self.odd = self.odd.wrapping_add(1);
        }
    }

    fn has_all(&self) -> bool {
        self.even == MESSAGES && self.odd == MESSAGES
    }
}

/// The ticket that waits, if any.
type Ready = Mutex<Option<Ticket>>;

fn send_all<R: Wait>(
    rt: &R,
    mailbox: &Mailbox<Tally>,
    station: Station<Tally>,
    first: u64,
    ready: &Ready,
)
    requires station { IsStationOf ⟦<Tally as Named>⟧.name mailbox.now station }
    requires calm { IsCalm station }
    requires name { mailbox_name ⟦<Tally as Named>⟧.name mailbox.now ≡ 7 }
    requires first { first < 2 }
{
    let mut station = station;
    'messages: for k in 0..MESSAGES {
        let number = 2 * k + first;
        if let Ok(Some(ticket)) = mailbox.send(rt, &mut station, Note { number }) {
            *ready.lock(rt) = Some(ticket);
        }
    }
}

/// Takes messages until there are none.
fn drain<R: Wait>(
    rt: &R,
    mailbox: &Mailbox<Tally>,
    station: &mut Station<Tally>,
    turn: &mut Turn<Tally>,
    seen: &mut Seen,
)
    requires station { IsStationOf ⟦<Tally as Named>⟧.name mailbox.now station.old }
    requires turn { IsTurnOf ⟦<Tally as Named>⟧.name mailbox.now station.old turn.old }
    ensures station { station.new ≡ station.old }
    ensures turn { IsTurnOf ⟦<Tally as Named>⟧.name mailbox.now station.new turn.new }
{
    'messages: for _round in rt.forever() {
        match mailbox.next_message(rt, station, turn) {
            Some(note) => seen.note(note.number),
            None => return,
        }
    }
    unreachable!()
}

fn give_back(
    mailbox: &Mailbox<Tally>,
    station: &mut Station<Tally>,
    turn: Turn<Tally>,
) -> Option<Turn<Tally>>
    requires station { IsStationOf ⟦<Tally as Named>⟧.name mailbox.now station.old }
    requires turn { IsTurnOf ⟦<Tally as Named>⟧.name mailbox.now station.old turn }
    ensures station { IsStationOf ⟦<Tally as Named>⟧.name mailbox.now station.new }
    ensures again { MatchOption result (IsCalm station.new) (λ t. IsTurnOf ⟦<Tally as Named>⟧.name mailbox.now station.new t) }
{
    match mailbox.release(station, turn) {
        Released::Idle => None,
        Released::Again(turn) => Some(turn),
        Released::Dropped(_) => None,
    }
}

fn serve<R: Wait>(
    rt: &R,
    mailbox: &Mailbox<Tally>,
    station: &mut Station<Tally>,
    turn: Turn<Tally>,
    seen: &mut Seen,
)
    requires station { IsStationOf ⟦<Tally as Named>⟧.name mailbox.now station.old }
    requires turn { IsTurnOf ⟦<Tally as Named>⟧.name mailbox.now station.old turn }
    ensures station { IsStationOf ⟦<Tally as Named>⟧.name mailbox.now station.new }
    ensures calm { IsCalm station.new }
{
    let mut turn = turn;
    'turns: for _round in rt.forever() {
        drain(rt, mailbox, station, &mut turn, seen);
        match give_back(mailbox, station, turn) {
            Some(again) => turn = again,
            None => return,
        }
    }
    unreachable!()
}

fn take_all<R: Wait>(
    rt: &R,
    mailbox: &Mailbox<Tally>,
    station: Station<Tally>,
    ready: &Ready,
) -> Seen
    requires station { IsStationOf ⟦<Tally as Named>⟧.name mailbox.now station }
    requires calm { IsCalm station }
{
    let mut station = station;
    let mut seen = Seen {
        even: 0,
        odd: 0,
        in_order: true,
    };
    'tickets: for _round in rt.forever() {
        if seen.has_all() {
            return seen;
        }
        let Some(ticket) = ready.lock(rt).take() else {
            thread::yield_now();
            continue;
        };
        if ticket.address() != mailbox.address() {
            return seen;
        }
        if let Taken::Machine(turn) = mailbox.take(&mut station, ticket) {
            serve(rt, mailbox, &mut station, turn, &mut seen);
        }
    }
    unreachable!()
}

fn run<R: Threads + Wait + Sync>(
    rt: &R,
    mailbox: &Mailbox<Tally>,
    a: Station<Tally>,
    b: Station<Tally>,
    c: Station<Tally>,
) -> Option<Seen>
    requires name { mailbox_name ⟦<Tally as Named>⟧.name mailbox.now ≡ 7 }
    requires a { IsStationOf ⟦<Tally as Named>⟧.name mailbox.now a × IsCalm a }
    requires b { IsStationOf ⟦<Tally as Named>⟧.name mailbox.now b × IsCalm b }
    requires c { IsStationOf ⟦<Tally as Named>⟧.name mailbox.now c × IsCalm c }
{
    let ready: Ready = Mutex::new(None);
    let shared = &ready;
    thread::scope(
        thread::scope_env(),
        rt,
        |scope| -> Option<Seen>
            requires { (mailbox_name (λ _. 7) mailbox.now ≡ 7) × (IsStationOf (λ _. 7) mailbox.now a × IsCalm a) × (IsStationOf (λ _. 7) mailbox.now b × IsCalm b) × (IsStationOf (λ _. 7) mailbox.now c × IsCalm c) }
        {
            let first = scope.spawn(
                move || -> ()
                    requires { (mailbox_name (λ _. 7) mailbox.now ≡ 7) × (IsStationOf (λ _. 7) mailbox.now a × IsCalm a) }
                { send_all(rt, mailbox, a, 0, shared) },
            );
            let second = scope.spawn(
                move || -> ()
                    requires { (mailbox_name (λ _. 7) mailbox.now ≡ 7) × (IsStationOf (λ _. 7) mailbox.now b × IsCalm b) }
                { send_all(rt, mailbox, b, 1, shared) },
            );
            if first.is_err() || second.is_err() {
                return None;
            }
            Some(take_all(rt, mailbox, c, shared))
        },
    )
}

#[test]
fn two_senders_and_one_taker_keep_each_order(rt: HostRuntime) -> Result<(), Fail> {
    let Ok((mailbox, mut stations)) = Mailbox::new(rt.alloc(), 3, Tally { total: 0 }, 3) else {
        panic!(rt; "no memory")
    };
    let Some(a) = next_station(&mailbox, &mut stations) else {
        panic!(rt; "no station")
    };
    let Some(b) = next_station(&mailbox, &mut stations) else {
        panic!(rt; "no station")
    };
    let Some(c) = next_station(&mailbox, &mut stations) else {
        panic!(rt; "no station")
    };
    let Some(seen) = run(&rt, &mailbox, a, b, c) else {
        panic!(rt; "no thread")
    };
    assert!(rt; seen.has_all());
    assert!(rt; seen.in_order);
    Ok(())
}
