ghost use Rattle.std.specs.Prelude.{◌≡◌, ◌≤◌, ◌<◌, ◌+◌, ◌^◌, All, IfOk, OnOk, length};
ghost use Rattle.rs_handlers.specs.Outs.{FitsControl};

use crate::deliveries::Telling;
use crate::main_thread::MainThread;
use crate::options::Options;
use crate::outcomes::Taking;
use crate::workers::{ApplyPoller, ApplyWorker, ControlPoller, PeerPoller, PeerWorker};
use rs_apply::ApplyFsm;
use rs_check::Plan;
use rs_handlers::{
    ApplyHandler, ControlHandler, ControlOut, Deliveries, Gathered, Machine, PeerHandler, Seat,
};
use rs_key::NoMemory;
use rs_mailcore::{Fsm, Named};
use rs_meta::StoreFsm;
use rs_msg::Outbox;
use rs_peer::PeerFsm;
use rs_poll::{More, Poller, Stop};
use std::alloc::Global;

/// The seats at a run's machines that no worker has yet.
#[derive(Drop)]
pub struct Seats<'r, 'p> {
    pub plan: &'p Plan,
    pub peers: Vec<Seat<'r, 'p, PeerFsm<'p>>>,
    pub applies: Vec<Seat<'r, 'p, ApplyFsm<'p>>>,
    pub control: Vec<Seat<'r, 'p, StoreFsm<'p>>>,
    ghost peer_plans: { All (λ seat. seat.plan.now ≡ plan.now) peers.items },
    ghost apply_plans: { All (λ seat. seat.plan.now ≡ plan.now) applies.items },
    ghost control_plans: { All (λ seat. seat.plan.now ≡ plan.now) control.items },
}

/// The workers of a run: those of both pools, and the main thread.
#[derive(Drop)]
pub struct Crew<'r, 'p> {
    pub peers: Vec<PeerWorker<'r, 'p>>,
    pub applies: Vec<ApplyWorker<'r, 'p>>,
    pub own: MainThread<'r, 'p>,
}

impl<'r, 'p> Seats<'r, 'p> {
    /// Hands the seats out: one of each pool to each poller, a further one of the other machines that it sends to, and
    /// the last three of each kind to the main thread.
    pub fn crew(
        mut self,
        alloc: Global,
        options: Options,
        told: ControlOut,
    ) -> Result<Crew<'r, 'p>, NoMemory>
        requires peers { length self.peers.items ≡ options.0 + options.1 + 3 }
        requires applies { length self.applies.items ≡ options.0 + options.1 + 3 }
        requires control { length self.control.items ≡ options.1 + 3 }
        requires told { FitsControl self.plan.now told }
        ensures { IfOk result (λ crew. crew.own.plan.now ≡ self.entry.plan.now) }
    {
        let raft = options.raft_pollers();
        let batch = options.batch();
        let peers = peer_workers(alloc, &mut self, raft, batch)?;
        let applies = apply_workers(alloc, &mut self, raft, options.apply_pollers(), batch)?;
        let own = main_thread(alloc, self, options, told)?;
        Ok(Crew {
            peers,
            applies,
            own,
        })
    }
}

/// Returns the last of the seats.
fn next_seat<'r, 'p, F: Machine>(
    plan: &'p Plan,
    seats: &mut Vec<Seat<'r, 'p, F>>,
) -> Seat<'r, 'p, F>
    requires some { 1 ≤ length seats.old.items }
    requires plan { All (λ seat. seat.plan.now ≡ plan.now) seats.old.items }
    ensures plan { result.plan.now ≡ plan.now }
    ensures rest { All (λ seat. seat.plan.now ≡ plan.now) seats.new.items }
    ensures count { length seats.new.items + 1 ≡ length seats.old.items }
{
    seats.pop().unwrap()
}

/// Returns a poller at the peer machines, which sends to the apply machines.
fn peer_poller<'r, 'p>(
    alloc: Global,
    seat: Seat<'r, 'p, PeerFsm<'p>>,
    applies: Seat<'r, 'p, ApplyFsm<'p>>,
    worker: u32,
    batch: u32,
) -> PeerPoller<'r, 'p>
    requires { applies.plan.now ≡ seat.plan.now }
{
    let handler = PeerHandler {
        applies,
        handles: 0,
        advances: 0,
    };
    Poller::new(
        seat.router,
        seat.desks,
        seat.pass,
        handler,
        Outbox::new(alloc),
        worker,
        batch,
    )
}

/// Returns a poller at the apply machines, which sends to machines of all kinds.
fn apply_poller<'r, 'p>(
    alloc: Global,
    seat: Seat<'r, 'p, ApplyFsm<'p>>,
    peers: Seat<'r, 'p, PeerFsm<'p>>,
    control: Seat<'r, 'p, StoreFsm<'p>>,
    worker: u32,
    batch: u32,
) -> ApplyPoller<'r, 'p>
    requires peers { peers.plan.now ≡ seat.plan.now }
    requires control { control.plan.now ≡ seat.plan.now }
{
    let handler = ApplyHandler {
        peers,
        control,
        handles: 0,
        advances: 0,
        asked: More::No,
    };
    Poller::new(
        seat.router,
        seat.desks,
        seat.pass,
        handler,
        Outbox::new(alloc),
        worker,
        batch,
    )
}

/// Returns the poller at the control machines. It begins with what they have to tell at the start.
fn control_poller<'r, 'p>(
    seat: Seat<'r, 'p, StoreFsm<'p>>,
    out: ControlOut,
    batch: u32,
) -> ControlPoller<'r, 'p>
    requires { FitsControl seat.plan.now out }
    ensures { result.worker.handler.plan.now ≡ seat.entry.plan.now }
{
    let handler = ControlHandler {
        plan: seat.plan,
        handles: 0,
        advances: 0,
    };
    Poller::new(seat.router, seat.desks, seat.pass, handler, out, 0, batch)
}

/// Makes `count` workers of the raft pool, with the numbers from 1 on.
fn peer_workers<'r, 'p>(
    alloc: Global,
    seats: &mut Seats<'r, 'p>,
    count: u32,
    batch: u32,
) -> Result<Vec<PeerWorker<'r, 'p>>, NoMemory>
    requires peers { count ≤ length seats.old.peers.items }
    requires applies { count ≤ length seats.old.applies.items }
    ensures plan { seats.new.plan ≡ seats.old.plan }
    ensures peers { OnOk result (length seats.new.peers.items + count ≡ length seats.old.peers.items) }
    ensures applies { OnOk result (length seats.new.applies.items + count ≡ length seats.old.applies.items) }
    ensures control { seats.new.control ≡ seats.old.control }
{
    let plan = seats.plan;
    let mut workers = Vec::new(alloc);
    for place in 0..count {
        let seat = next_seat(plan, &mut seats.peers);
        let beside = next_seat(plan, &mut seats.applies);
        workers.push(PeerWorker {
            poller: peer_poller(alloc, seat, beside, place + 1, batch),
            no_memory: Box::new(alloc, Stop::NoMemory)?,
        })?;
    }
    Ok(workers)
}

/// Makes `count` workers of the apply pool, with the numbers after `before`.
fn apply_workers<'r, 'p>(
    alloc: Global,
    seats: &mut Seats<'r, 'p>,
    before: u32,
    count: u32,
    batch: u32,
) -> Result<Vec<ApplyWorker<'r, 'p>>, NoMemory>
    requires numbers { before + count < 2 ^ 32 }
    requires peers { count ≤ length seats.old.peers.items }
    requires applies { count ≤ length seats.old.applies.items }
    requires control { count ≤ length seats.old.control.items }
    ensures plan { seats.new.plan ≡ seats.old.plan }
    ensures peers { OnOk result (length seats.new.peers.items + count ≡ length seats.old.peers.items) }
    ensures applies { OnOk result (length seats.new.applies.items + count ≡ length seats.old.applies.items) }
    ensures control { OnOk result (length seats.new.control.items + count ≡ length seats.old.control.items) }
{
    let plan = seats.plan;
    let mut workers = Vec::new(alloc);
    for place in 0..count {
        let seat = next_seat(plan, &mut seats.applies);
        let peer = next_seat(plan, &mut seats.peers);
        let store = next_seat(plan, &mut seats.control);
        let number = before + place + 1;
        workers.push(ApplyWorker {
            poller: apply_poller(alloc, seat, peer, store, number, batch),
            no_memory: Box::new(alloc, Stop::NoMemory)?,
        })?;
    }
    Ok(workers)
}

/// Returns what the main thread works with: three seats of each kind, and what the control machines have to tell at
/// the start. It is worker 0.
fn main_thread<'r, 'p>(
    alloc: Global,
    seats: Seats<'r, 'p>,
    options: Options,
    told: ControlOut,
) -> Result<MainThread<'r, 'p>, NoMemory>
    requires peers { 3 ≤ length seats.peers.items }
    requires applies { 3 ≤ length seats.applies.items }
    requires control { 3 ≤ length seats.control.items }
    requires told { FitsControl seats.plan.now told }
    ensures { IfOk result (λ own. own.plan ≡ seats.entry.plan) }
{
    let Seats {
        plan,
        mut peers,
        mut applies,
        mut control,
    } = seats;
    let batch = options.batch();
    let peer = next_seat(plan, &mut peers);
    let apply = next_seat(plan, &mut applies);
    let peer_beside = next_seat(plan, &mut peers);
    let apply_beside = next_seat(plan, &mut applies);
    let store_beside = next_seat(plan, &mut control);
    let store = next_seat(plan, &mut control);
    Ok(MainThread {
        plan,
        telling: Telling {
            deliveries: Deliveries::new(alloc, plan, options.chunk())?,
            seat: next_seat(plan, &mut peers),
        },
        taking: Taking {
            seat: next_seat(plan, &mut control),
            gathered: Gathered::new(alloc, plan)?,
        },
        applies_seat: next_seat(plan, &mut applies),
        peers: peer_poller(alloc, peer, apply_beside, 0, batch),
        applies: apply_poller(alloc, apply, peer_beside, store_beside, 0, batch),
        control: control_poller(store, told, batch),
    })
}
