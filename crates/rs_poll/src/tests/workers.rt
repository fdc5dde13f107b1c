ghost use Rattle.std.specs.Prelude.{◌≡◌, ◌<◌, All, length};
ghost use Rattle.rs_router.specs.Desks.{AreDesksOf, AllCalm};
ghost use Rattle.rs_router.specs.Passes.{IsNewPass};

use crate::tests::counting::Counting;
use crate::tests::{Tally, machines, next_desks, next_pass, tell};
use crate::{Poller, Stop, Worker};
use once_cell::race::OnceBox;
use rs_base::OpenGate;
use rs_mailbox::Closed;
use rs_mailcore::Named;
use rs_router::{Desks, QueueScheduler, Router, Scheduler, SchedulerPass};
use rs_rows::{NoMemory, Rows};
use std::alloc::Global;
use std::sync::Wait;
use std::sync::atomic::{AtomicU64, Ordering};
use std::test::Fail;
use std::thread;
use std::thread::Threads;

const MAILBOXES: u32 = 100;

const MESSAGES: u64 = 1000;

type CountingPoller<'r, 'a> = Poller<'r, Tally, QueueScheduler, Counting<'a>>;

fn workers<'r, 'a>(
    alloc: Global,
    router: &'r Router<Tally, QueueScheduler>,
    desks: &mut Rows<Desks<Tally>>,
    passes: &mut Rows<SchedulerPass>,
    seen: &'a AtomicU64,
    count: u32,
) -> Result<Vec<CountingPoller<'r, 'a>>, NoMemory>
    requires desks { All (λ d. AreDesksOf ⟦<Tally as Named>⟧.name router.now.mailboxes.items d.stations.items) desks.old }
    requires calm { All (λ d. AllCalm d.stations.items) desks.old }
    requires passes { All (IsNewPass router.now.scheduler.queue router.now.scheduler.addresses) passes.old }
{
    let mut list = Vec::new(alloc);
    for worker in 0..count {
        let Some(one) = next_desks(router, desks) else {
            return Err(NoMemory);
        };
        let Some(pass) = next_pass(router.scheduler(), passes) else {
            return Err(NoMemory);
        };
        let handler = Counting::new(seen, router.count(), false);
        list.push(Poller::new(router, one, pass, handler, (), worker, 3))?;
    }
    Ok(list)
}

fn work<'r, 'a, R: Wait>(rt: &R, stop: &OnceBox<Stop>, worker: CountingPoller<'r, 'a>) {
    let mut worker = worker;
    let mut note = stop.note();
    let _ended = worker.serve(rt, &OpenGate, stop, &mut note);
}

fn tell_one<'r, 'a, R: Wait>(rt: &R, sender: &mut CountingPoller<'r, 'a>, number: u64) -> bool {
    let count = sender.router.count();
    if count == 0 {
        return false;
    }
    let address = (number % u64::from(count)) as u32;
    tell_by(
        rt,
        sender.router,
        &mut sender.desks,
        &mut sender.worker,
        address,
        number,
    )
}

fn tell_by<'a, R: Wait>(
    rt: &R,
    router: &Router<Tally, QueueScheduler>,
    desks: &mut Desks<Tally>,
    worker: &mut Worker<Tally, QueueScheduler, Counting<'a>>,
    address: u32,
    number: u64,
) -> bool
    requires below { address < length router.now.mailboxes.items }
    requires desks { AreDesksOf ⟦<Tally as Named>⟧.name router.now.mailboxes.items desks.old.stations.items }
    requires calm { AllCalm desks.old.stations.items }
    requires pass { ⟦<QueueScheduler as Scheduler>⟧.id router.now.scheduler ≡ ⟦<QueueScheduler as Scheduler>⟧.pass_id worker.old.pass }
    ensures desks { AreDesksOf ⟦<Tally as Named>⟧.name router.now.mailboxes.items desks.new.stations.items }
    ensures calm { AllCalm desks.new.stations.items }
    ensures pass { ⟦<QueueScheduler as Scheduler>⟧.id router.now.scheduler ≡ ⟦<QueueScheduler as Scheduler>⟧.pass_id worker.new.pass }
    ensures handler { worker.new.handler ≡ worker.old.handler }
{
    tell(rt, router, desks, &mut worker.pass, address, number).is_ok()
}

fn wait_for_all<R: Wait>(rt: &R, seen: &AtomicU64) {
    for _ in rt.forever() {
        if seen.load(Ordering::SeqCst) == MESSAGES {
            break;
        }
        thread::yield_now();
    }
}

fn run<'r, 'a, R: Threads + Wait + Sync>(
    rt: &R,
    stop: &OnceBox<Stop>,
    reason: Box<Stop>,
    seen: &AtomicU64,
    workers: Vec<CountingPoller<'r, 'a>>,
    sender: CountingPoller<'r, 'a>,
) -> CountingPoller<'r, 'a> {
    thread::scope(thread::scope_env(), rt, |scope| -> CountingPoller {
        for worker in workers {
            if let Err(refused) = scope.spawn(move || work(rt, stop, worker)) {
                drop(refused);
            }
        }
        let mut sender = sender;
        for number in 0..MESSAGES {
            let _sent = tell_one(rt, &mut sender, number);
        }
        wait_for_all(rt, seen);
        let _set = stop.set(reason);
        sender.router.scheduler().wake();
        sender
    })
}

fn close_one<'r, 'a>(sender: &mut CountingPoller<'r, 'a>, address: u32) -> Option<Tally> {
    if address >= sender.router.count() {
        return None;
    }
    match close_at(sender.router, &mut sender.desks, address) {
        Closed::Machine(machine) => Some(machine),
        _ => None,
    }
}

fn close_at(
    router: &Router<Tally, QueueScheduler>,
    desks: &mut Desks<Tally>,
    address: u32,
) -> Closed<Tally>
    requires below { address < length router.now.mailboxes.items }
    requires desks { AreDesksOf ⟦<Tally as Named>⟧.name router.now.mailboxes.items desks.old.stations.items }
    requires calm { AllCalm desks.old.stations.items }
    ensures desks { AreDesksOf ⟦<Tally as Named>⟧.name router.now.mailboxes.items desks.new.stations.items }
    ensures calm { AllCalm desks.new.stations.items }
{
    router.close(desks, address)
}

#[test]
fn four_workers_count_each_message_once(rt: HostRuntime) -> Result<(), Fail> {
    let alloc = rt.alloc();
    let machines = machines(alloc, MAILBOXES)?;
    let (scheduler, mut passes) = QueueScheduler::new(alloc, 5, MAILBOXES)?;
    let (router, mut desks) = Router::new(alloc, machines, scheduler, 5)?;
    let seen = AtomicU64::new(0);
    let mut workers = workers(alloc, &router, &mut desks, &mut passes, &seen, 5)?;
    let Some(sender) = workers.pop() else {
        panic!(rt; "no worker")
    };
    let stop = OnceBox::new(alloc);
    let reason = Box::new(alloc, Stop::Finished)?;
    let mut sender = run(&rt, &stop, reason, &seen, workers, sender);
    for address in 0..MAILBOXES {
        let Some(machine) = close_one(&mut sender, address) else {
            panic!(rt; "not home")
        };
        assert!(rt; machine.messages == 10);
        assert!(rt; machine.total == 10 * u64::from(address) + 4500);
    }
    Ok(())
}
