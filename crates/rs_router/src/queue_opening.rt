ghost use Rattle.std.specs.Prelude.{◌≡◌, ◌≤◌, All, length, IfOk};
ghost use Rattle.rs_router.specs.Passes.{IsMember, IsNewPass};

use crate::queue_rule::{Bound, Founds, LinePass, Tickets};
use crate::queue_scheduler::{QueueScheduler, SchedulerPass};
use rs_rows::{NoMemory, Rows};
use std::alloc::Global;
use std::marker::Brand;
use std::thread::Parker;

fn open_bounded<J: Bound>(
    alloc: Global,
    passes: u32,
    addresses: u32,
) -> Result<(Tickets, Vec<LinePass>), NoMemory>
    requires bound { J.bound ≡ addresses }
    ensures { IfOk result (λ r. (length r.1.items ≡ passes) × All (IsMember r.0 addresses) r.1.items) }
{
    let mut list = Vec::with_capacity(alloc, passes as usize)?;
    let (queue, mut first) = Tickets::with_rule(alloc)?;
    for _k in 0..passes {
        list.push_reserved(queue.another::<Founds<J>>(&mut first));
    }
    drop(first);
    Ok((queue, list))
}

// Makes a queue whose tickets have addresses below `addresses`, and `passes` passes of it.
fn open(alloc: Global, passes: u32, addresses: u32) -> Result<(Tickets, Vec<LinePass>), NoMemory>
    ensures { IfOk result (λ r. (length r.1.items ≡ passes) × All (IsMember r.0 addresses) r.1.items) }
{
    open_bounded::<Brand>(alloc, passes, addresses)
}

fn pass_of(queue: &Tickets, pass: LinePass, place: u32, addresses: u32) -> SchedulerPass
    requires { IsMember queue.now addresses pass }
    ensures { IsNewPass queue.now addresses result }
{
    SchedulerPass {
        pass,
        place,
        addresses,
        empties: 0,
    }
}

fn rows_of(
    alloc: Global,
    queue: &Tickets,
    mut list: Vec<LinePass>,
    passes: u32,
    addresses: u32,
) -> Result<Rows<SchedulerPass>, NoMemory>
    requires { (length list.items ≡ passes) × All (IsMember queue.now addresses) list.items }
    ensures { IfOk result (λ r. (length r ≡ passes) × All (IsNewPass queue.now addresses) r) }
{
    let mut rows = Rows::new(alloc);
    for place in 0..passes {
        let pass = list.pop().unwrap();
        rows.push(pass_of(queue, pass, place, addresses))?;
    }
    Ok(rows)
}

impl QueueScheduler {
    /// Makes a scheduler with this number of addresses and no ticket, and `passes` passes of it, through which nothing
    /// was pushed or popped yet.
    pub fn new(
        alloc: Global,
        passes: u32,
        addresses: u32,
    ) -> Result<(QueueScheduler, Rows<SchedulerPass>), NoMemory>
        requires passes { 1 ≤ passes }
        ensures size { IfOk result (λ r. r.0.addresses ≡ addresses) }
        ensures count { IfOk result (λ r. length r.1 ≡ passes) }
        ensures passes { IfOk result (λ r. All (IsNewPass r.0.queue r.0.addresses) r.1) }
    {
        let mut parkers = Vec::new(alloc);
        for _k in 0..passes {
            parkers.push(Parker::new())?;
        }
        let (queue, list) = open(alloc, passes, addresses)?;
        let scheduler = QueueScheduler {
            queue,
            parkers,
            addresses,
        };
        let rows = rows_of(alloc, &scheduler.queue, list, passes, addresses)?;
        Ok((scheduler, rows))
    }
}
