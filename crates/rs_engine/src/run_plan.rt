ghost use Rattle.std.specs.Prelude.{◌≡◌, ◌+◌, All, IfOk, length};
ghost use Rattle.rs_check.specs.Values.{count_of};
ghost use Rattle.rs_history.specs.Outcomes.{outcome_of};
ghost use Rattle.rs_router.specs.Passes.{IsNewPass};

use crate::crew::{Crew, Seats};
use crate::options::Options;
use crate::routers::Routers;
use crate::workers::end;
use once_cell::race::OnceBox;
use rs_base::Gate;
use rs_check::Plan;
use rs_entry::Outcome;
use rs_handlers::{apply_machines, control_machines, open, peer_machines, seats};
use rs_key::{NoMemory, Rows};
use rs_poll::Stop;
use rs_router::{QueueScheduler, Router, SchedulerPass};
use std::alloc::Global;
use std::sync::Wait;
use std::thread;
use std::thread::Threads;

/// Returns what comes of a plan's logs, by pollers in new threads and in this one: the outcome that one
/// thread gives that folds the logs in order.
///
/// It waits for its workers. A thread that can't be started is no error: its worker is dropped, and this thread has a
/// seat at the same machines.
pub fn run<R: Threads + Wait + Sync, G: Gate>(
    rt: &R,
    alloc: Global,
    plan: &Plan,
    options: Options,
    gate: &G,
) -> Result<Outcome, NoMemory>
    ensures { IfOk result (λ outcome. outcome ≡ outcome_of plan.now) }
{
    let raft = QueueScheduler::new(alloc, options.passes(), plan.count())?;
    let apply = QueueScheduler::new(alloc, options.passes(), plan.count())?;
    run_on(rt, alloc, plan, options, gate, raft, apply)
}

/// Runs the plan as [`run`] does, by given schedulers of the two pools. Each has as many new passes as the options ask
/// for.
pub fn run_on<R: Threads + Wait + Sync, G: Gate>(
    rt: &R,
    alloc: Global,
    plan: &Plan,
    options: Options,
    gate: &G,
    raft: (QueueScheduler, Rows<SchedulerPass>),
    apply: (QueueScheduler, Rows<SchedulerPass>),
) -> Result<Outcome, NoMemory>
    requires raft_addresses { raft.0.addresses ≡ count_of plan.now }
    requires raft_passes { (length raft.1 ≡ options.0 + options.1 + 3) × All (IsNewPass raft.0.queue raft.0.addresses) raft.1 }
    requires apply_addresses { apply.0.addresses ≡ count_of plan.now }
    requires apply_passes { (length apply.1 ≡ options.0 + options.1 + 3) × All (IsNewPass apply.0.queue apply.0.addresses) apply.1 }
    ensures { IfOk result (λ outcome. outcome ≡ outcome_of plan.now) }
{
    let workers = options.passes();
    let control_workers = options.apply_pollers() + 3;
    let stores = count_stores(plan)?;
    let (raft, raft_passes) = raft;
    let (apply, apply_passes) = apply;
    let (control, control_passes) = QueueScheduler::new(alloc, control_workers, stores)?;
    let (machines, told) = control_machines(alloc, plan, stores)?;
    let (peers, peer_desks) = open(alloc, plan, peer_machines(alloc, plan)?, raft, workers)?;
    let (applies, apply_desks) = open(alloc, plan, apply_machines(alloc, plan)?, apply, workers)?;
    let (control, control_desks) = open(alloc, plan, machines, control, control_workers)?;
    let routers = Routers {
        peers,
        applies,
        control,
    };
    let seats = Seats {
        plan,
        peers: seats(alloc, plan, &routers.peers, peer_desks, raft_passes)?,
        applies: seats(alloc, plan, &routers.applies, apply_desks, apply_passes)?,
        control: seats(alloc, plan, &routers.control, control_desks, control_passes)?,
    };
    let crew = seats.crew(alloc, options, told)?;
    start(rt, alloc, gate, &routers, crew)
}

/// Returns how many stores the plan has. More than fit into 32 bits count as want of memory.
fn count_stores(plan: &Plan) -> Result<u32, NoMemory>
    ensures { IfOk result (λ count. count ≡ length plan.now.stores) }
{
    match u32::try_from(plan.input().stores.len()) {
        Ok(count) => Ok(count),
        Err(_) => Err(NoMemory),
    }
}

/// Starts the workers in new threads, and works in this one until the outcome is there. All threads have ended
/// then.
fn start<'r, 'p, R: Threads + Wait + Sync, G: Gate>(
    rt: &R,
    alloc: Global,
    gate: &G,
    routers: &'r Routers<'p>,
    crew: Crew<'r, 'p>,
) -> Result<Outcome, NoMemory>
    ensures { IfOk result (λ outcome. outcome ≡ outcome_of crew.entry.own.plan.now) }
{
    let Crew {
        peers,
        applies,
        own,
    } = crew;
    let stop = OnceBox::new(alloc);
    let mut reason = Box::new(alloc, Stop::Finished)?;
    let stop = &stop;
    thread::scope(
        thread::scope_env(),
        rt,
        |scope| -> Result<Outcome, NoMemory>
            ensures { IfOk result (λ outcome. outcome ≡ outcome_of own.entry.plan.now) }
        {
            let mut peers_helped = false;
            for worker in peers {
                if let Err(refused) = scope.spawn(move || worker.serve(rt, gate, stop, routers)) {
                    drop(refused);
                } else {
                    peers_helped = true;
                }
            }
            let mut applies_helped = false;
            for worker in applies {
                if let Err(refused) = scope.spawn(move || worker.serve(rt, gate, stop, routers)) {
                    drop(refused);
                } else {
                    applies_helped = true;
                }
            }
            let is_helped = peers_helped && applies_helped;
            let outcome = own.gather(rt, alloc, gate, stop, is_helped);
            if outcome.is_err() {
                *reason = Stop::NoMemory;
            }
            end(stop, reason, routers);
            outcome
        },
    )
}
