ghost use Rattle.std.specs.Prelude.{◌≡◌, All};
ghost use Rattle.rs_steal.specs.Opening.{IsNew};

use crate::tests::{next_pass, ticket_of};
use crate::{StealPass, StealScheduler};
use rs_router::Scheduler;
use rs_rows::{NoMemory, Rows};
use std::alloc::Global;
use std::sync::Wait;
use std::sync::atomic::{AtomicU64, Ordering};
use std::test::Fail;
use std::thread;
use std::thread::Threads;

const THREADS: u32 = 4;

const TICKETS: u32 = 8;

const POPS: u64 = 2000;

/// How many threads have each ticket, how many pops there were, and how many of them found a ticket that another thread
/// had.
#[derive(Drop)]
struct Counts {
    holders: Vec<AtomicU64>,
    pops: AtomicU64,
    clashes: AtomicU64,
}

impl Counts {
    fn new(alloc: Global) -> Result<Counts, NoMemory> {
        let mut holders = Vec::new(alloc);
        for _address in 0..TICKETS {
            holders.push(AtomicU64::new(0))?;
        }
        Ok(Counts {
            holders,
            pops: AtomicU64::new(0),
            clashes: AtomicU64::new(0),
        })
    }

    fn take(&self, address: u32) {
        let Some(holders) = self.holders.get(address as usize) else {
            return;
        };
        if holders.fetch_add(1, Ordering::SeqCst) > 0 {
            self.clashes.fetch_add(1, Ordering::SeqCst);
        }
        self.pops.fetch_add(1, Ordering::SeqCst);
    }

    fn give_back(&self, address: u32) {
        if let Some(holders) = self.holders.get(address as usize) {
            holders.fetch_sub(1, Ordering::SeqCst);
        }
    }
}

/// A thread's pass.
#[derive(Drop)]
struct Popper<'r> {
    scheduler: &'r StealScheduler,
    pass: StealPass,
    counts: &'r Counts,
    ghost owned: { scheduler.now.addresses ≡ pass.addresses },
}

fn poppers<'r>(
    alloc: Global,
    scheduler: &'r StealScheduler,
    passes: &mut Rows<StealPass>,
    counts: &'r Counts,
) -> Result<Vec<Popper<'r>>, NoMemory>
    requires passes { All (IsNew scheduler.now.addresses) passes.old }
{
    let mut list = Vec::new(alloc);
    for _thread in 0..THREADS {
        let Some(pass) = next_pass(scheduler, passes) else {
            return Err(NoMemory);
        };
        list.push(Popper {
            scheduler,
            pass,
            counts,
        })?;
    }
    Ok(list)
}

// Pops a ticket and pushes it again.
fn turn<R: Wait>(rt: &R, scheduler: &StealScheduler, pass: &mut StealPass, counts: &Counts) -> bool
    requires pass { scheduler.now.addresses ≡ pass.old.addresses }
    ensures pass { scheduler.now.addresses ≡ pass.new.addresses }
{
    let Some(ticket) = scheduler.pop(rt, pass) else {
        thread::yield_now();
        return true;
    };
    counts.take(ticket.address());
    counts.give_back(ticket.address());
    scheduler.push(rt, pass, ticket).is_ok()
}

fn turns<R: Wait>(rt: &R, scheduler: &StealScheduler, pass: StealPass, counts: &Counts)
    requires pass { scheduler.now.addresses ≡ pass.addresses }
{
    let mut pass = pass;
    'turns: for _ in rt.forever() {
        if counts.pops.load(Ordering::SeqCst) >= POPS {
            return;
        }
        if !turn(rt, scheduler, &mut pass, counts) {
            return;
        }
    }
    unreachable!()
}

fn work<'r, R: Wait>(rt: &R, popper: Popper<'r>) {
    turns(rt, popper.scheduler, popper.pass, popper.counts)
}

fn run<'r, R: Threads + Wait + Sync>(rt: &R, poppers: Vec<Popper<'r>>) {
    thread::scope(thread::scope_env(), rt, |scope| {
        for popper in poppers {
            if let Err(refused) = scope.spawn(move || work(rt, popper)) {
                drop(refused);
            }
        }
    })
}

// Pushes a ticket of each address.
fn fill<R: Wait>(rt: &R, alloc: Global, scheduler: &StealScheduler, pass: &mut StealPass) -> bool
    requires size { scheduler.now.addresses ≡ 8 }
    requires pass { scheduler.now.addresses ≡ pass.old.addresses }
    ensures pass { scheduler.now.addresses ≡ pass.new.addresses }
{
    for address in 0..TICKETS {
        let Some(ticket) = ticket_of(rt, alloc, address) else {
            return false;
        };
        if scheduler.push(rt, pass, ticket).is_err() {
            return false;
        }
    }
    true
}

// Pops what is left, and keeps it.
fn drain<R: Wait>(rt: &R, scheduler: &StealScheduler, pass: &mut StealPass, counts: &Counts)
    requires pass { scheduler.now.addresses ≡ pass.old.addresses }
{
    for _pop in 0..2 * TICKETS {
        if let Some(ticket) = scheduler.pop(rt, pass) {
            counts.take(ticket.address());
        }
    }
}

#[test]
fn four_threads_have_each_ticket_one_at_a_time(rt: HostRuntime) -> Result<(), Fail> {
    let alloc = rt.alloc();
    let counts = Counts::new(alloc)?;
    let (scheduler, mut passes) = StealScheduler::new(alloc, THREADS + 1, TICKETS)?;
    let Some(mut own) = next_pass(&scheduler, &mut passes) else {
        panic!(rt; "no pass")
    };
    let poppers = poppers(alloc, &scheduler, &mut passes, &counts)?;
    assert!(rt; fill(&rt, alloc, &scheduler, &mut own));
    run(&rt, poppers);
    assert!(rt; counts.pops.load(Ordering::SeqCst) >= POPS);
    drain(&rt, &scheduler, &mut own, &counts);
    assert!(rt; counts.clashes.load(Ordering::SeqCst) == 0);
    for holders in counts.holders.iter() {
        assert!(rt; holders.load(Ordering::SeqCst) == 1);
    }
    Ok(())
}
