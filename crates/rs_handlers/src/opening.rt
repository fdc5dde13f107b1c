ghost use Rattle.std.specs.Prelude.{◌≡◌, ◌≤◌, ◌<◌, All, IfOk, OnOk, length};
ghost use Rattle.rs_check.specs.Values.{count_of};
ghost use Rattle.rs_router.specs.Desks.{AreDesksOf, AllCalm, AllNamed};
ghost use Rattle.rs_router.specs.Passes.{IsNewPass};
ghost use Rattle.rs_handlers.specs.Outs.{FitsControl};

use crate::control_handler::ControlOut;
use crate::machine::Machine;
use crate::seat::Seat;
use rs_apply::ApplyFsm;
use rs_check::Plan;
use rs_key::{NoMemory, Rows};
use rs_mailcore::{Fsm, Named};
use rs_meta::StoreFsm;
use rs_peer::PeerFsm;
use rs_router::{Desks, QueueScheduler, Router, SchedulerPass};
use std::alloc::Global;

/// Returns the peer machine of each address.
pub fn peer_machines<'p>(alloc: Global, plan: &'p Plan) -> Result<Rows<PeerFsm<'p>>, NoMemory>
    ensures count { IfOk result (λ machines. length machines ≡ count_of plan.now) }
    ensures name { IfOk result (λ machines. All (λ machine. machine.plan.now ≡ plan.now) machines) }
{
    let mut machines = Rows::with_room(alloc, plan.count() as usize);
    for address in 0..plan.count() {
        machines.push(PeerFsm::new(plan, address))?;
    }
    Ok(machines)
}

/// Returns the apply machine of each address.
pub fn apply_machines<'p>(alloc: Global, plan: &'p Plan) -> Result<Rows<ApplyFsm<'p>>, NoMemory>
    ensures count { IfOk result (λ machines. length machines ≡ count_of plan.now) }
    ensures name { IfOk result (λ machines. All (λ machine. machine.plan.now ≡ plan.now) machines) }
{
    let mut machines = Rows::with_room(alloc, plan.count() as usize);
    for address in 0..plan.count() {
        machines.push(ApplyFsm::new(plan, address)?)?;
    }
    Ok(machines)
}

/// Returns the control machine of each store, and the places of those that are complete from the start.
pub fn control_machines<'p>(
    alloc: Global,
    plan: &'p Plan,
    count: u32,
) -> Result<(Rows<StoreFsm<'p>>, ControlOut), NoMemory>
    requires count { count ≡ length plan.now.stores }
    ensures count { IfOk result (λ r. length r.0 ≡ count) }
    ensures name { IfOk result (λ r. All (λ machine. machine.plan.now ≡ plan.now) r.0) }
    ensures out { IfOk result (λ r. FitsControl plan.now r.1) }
{
    let mut machines = Rows::with_room(alloc, count as usize);
    let mut out = ControlOut::new(alloc);
    for place in 0..count {
        machines.push(control_machine(alloc, plan, place, &mut out)?)?;
    }
    Ok((machines, out))
}

/// Returns the control machine of the store at the place. It is named where it is complete from the start.
fn control_machine<'p>(
    alloc: Global,
    plan: &'p Plan,
    place: u32,
    out: &mut ControlOut,
) -> Result<StoreFsm<'p>, NoMemory>
    requires place { place < length plan.now.stores }
    requires out { FitsControl plan.now out.old }
    ensures name { IfOk result (λ machine. machine.plan.now ≡ plan.now) }
    ensures out { OnOk result (FitsControl plan.now out.new) }
{
    let machine = StoreFsm::new(alloc, plan, place)?;
    out.name_if_complete(&machine)?;
    Ok(machine)
}

/// Makes a router of the machines, with `workers` desks.
pub fn open<F: Machine>(
    alloc: Global,
    plan: &Plan,
    machines: Rows<F>,
    scheduler: QueueScheduler,
    workers: u32,
) -> Result<(Router<F, QueueScheduler>, Rows<Desks<F>>), NoMemory>
    requires workers { (1 ≤ workers) × (workers ≤ 4096) }
    requires size { scheduler.addresses ≡ F.count plan.now }
    requires count { length machines ≡ F.count plan.now }
    requires name { All (λ machine. F.name machine ≡ plan.now) machines }
    ensures scheduler { IfOk result (λ r. r.0.scheduler ≡ scheduler) }
    ensures count { IfOk result (λ r. length r.0.mailboxes.items ≡ F.count plan.now) }
    ensures name { IfOk result (λ r. AllNamed F.name plan.now r.0.mailboxes.items) }
    ensures workers { IfOk result (λ r. length r.1 ≡ workers) }
    ensures desks { IfOk result (λ r. All (λ d. AreDesksOf F.name r.0.mailboxes.items d.stations.items) r.1) }
    ensures calm { IfOk result (λ r. All (λ d. AllCalm d.stations.items) r.1) }
{
    let (router, desks) = Router::new(alloc, machines, scheduler, workers)?;
    Ok((router, desks))
}

fn seat<'r, 'p, F: Machine>(
    plan: &'p Plan,
    router: &'r Router<F, QueueScheduler>,
    desks: Desks<F>,
    pass: SchedulerPass,
) -> Seat<'r, 'p, F>
    requires tied { AreDesksOf F.name router.now.mailboxes.items desks.stations.items }
    requires calm { AllCalm desks.stations.items }
    requires pass { IsNewPass router.now.scheduler.queue router.now.scheduler.addresses pass }
    requires named { AllNamed F.name plan.now router.now.mailboxes.items }
    requires counted { length router.now.mailboxes.items ≡ F.count plan.now }
    ensures { result.plan.now ≡ plan.now }
{
    Seat {
        plan,
        router,
        desks,
        pass,
    }
}

/// Returns the seats at a new router's machines: each of the desks with a pass.
pub fn seats<'r, 'p, F: Machine>(
    alloc: Global,
    plan: &'p Plan,
    router: &'r Router<F, QueueScheduler>,
    desks: Rows<Desks<F>>,
    passes: Rows<SchedulerPass>,
) -> Result<Vec<Seat<'r, 'p, F>>, NoMemory>
    requires count { length passes ≡ length desks }
    requires tied { All (λ d. AreDesksOf F.name router.now.mailboxes.items d.stations.items) desks }
    requires calm { All (λ d. AllCalm d.stations.items) desks }
    requires passes { All (IsNewPass router.now.scheduler.queue router.now.scheduler.addresses) passes }
    requires named { AllNamed F.name plan.now router.now.mailboxes.items }
    requires counted { length router.now.mailboxes.items ≡ F.count plan.now }
    ensures count { IfOk result (λ seats. length seats.items ≡ length desks) }
    ensures plan { IfOk result (λ seats. All (λ seat. seat.plan.now ≡ plan.now) seats.items) }
{
    let count = desks.len();
    let mut desks = desks.into_vec();
    let mut passes = passes.into_vec();
    let mut seats = Vec::with_capacity(alloc, count)?;
    for place in 0..count {
        let one = desks.pop().unwrap();
        let pass = passes.pop().unwrap();
        seats.push(seat(plan, router, one, pass))?;
    }
    Ok(seats)
}
