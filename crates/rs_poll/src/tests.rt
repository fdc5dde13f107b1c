ghost use Rattle.std.specs.Prelude.{◌≡◌, ◌<◌, All, IfOk, IfSome, length};
ghost use Rattle.rs_router.specs.Desks.{AreDesksOf, AllCalm};
ghost use Rattle.rs_router.specs.Passes.{IsNewPass};

mod counting;
mod refusing;
mod routing;
mod turns;
mod workers;

use rs_mailcore::{Fsm, Named};
use rs_router::{Desks, QueueScheduler, RouteError, Router, Scheduler, SchedulerPass};
use rs_rows::{NoMemory, Rows};
use std::alloc::Global;
use std::sync::Wait;

/// A machine that counts its messages and adds up their numbers.
#[derive(Debug, Drop)]
pub struct Tally {
    pub messages: u64,
    pub total: u64,
}

/// A message with a number.
#[derive(Debug, Drop)]
pub struct Note {
    pub number: u64,
}

impl Named for Tally {
    type Name = u32;

    ghost name = { λ _. 7 };
}

impl Named for Note {
    type Name = u32;

    ghost name = { λ _. 7 };
}

impl Fsm for Tally {
    ghost use native.Mathlib.Nat.{ℕ_set};

    type Message = Note;

    ghost one_name = { ℕ_set };
}

/// Makes `count` machines that have handled nothing.
pub fn machines(alloc: Global, count: u32) -> Result<Rows<Tally>, NoMemory>
    ensures { IfOk result (λ m. length m ≡ count) }
{
    let mut list = Rows::new(alloc);
    for k in 0..count {
        list.push(Tally {
            messages: 0,
            total: 0,
        })?;
    }
    Ok(list)
}

/// The last of the desks.
pub fn next_desks<S: Scheduler>(
    router: &Router<Tally, S>,
    rows: &mut Rows<Desks<Tally>>,
) -> Option<Desks<Tally>>
    requires desks { All (λ d. AreDesksOf ⟦<Tally as Named>⟧.name router.now.mailboxes.items d.stations.items) rows.old }
    requires calm { All (λ d. AllCalm d.stations.items) rows.old }
    ensures rest { All (λ d. AreDesksOf ⟦<Tally as Named>⟧.name router.now.mailboxes.items d.stations.items) rows.new }
    ensures rest_calm { All (λ d. AllCalm d.stations.items) rows.new }
    ensures desks { IfSome result (λ d. AreDesksOf ⟦<Tally as Named>⟧.name router.now.mailboxes.items d.stations.items) }
    ensures calm { IfSome result (λ d. AllCalm d.stations.items) }
{
    let desks = rows.pop()?;
    Some(desks)
}

/// The last of the passes.
pub fn next_pass(
    scheduler: &QueueScheduler,
    rows: &mut Rows<SchedulerPass>,
) -> Option<SchedulerPass>
    requires { All (IsNewPass scheduler.now.queue scheduler.now.addresses) rows.old }
    ensures rest { All (IsNewPass scheduler.now.queue scheduler.now.addresses) rows.new }
    ensures pass { IfSome result (λ p. ⟦<QueueScheduler as Scheduler>⟧.id scheduler.now ≡ ⟦<QueueScheduler as Scheduler>⟧.pass_id p) }
{
    let pass = rows.pop()?;
    Some(pass)
}

/// Sends a message of this number.
pub fn tell<R: Wait, S: Scheduler>(
    rt: &R,
    router: &Router<Tally, S>,
    desks: &mut Desks<Tally>,
    pass: &mut S::Pass,
    address: u32,
    number: u64,
) -> Result<(), RouteError<Note>>
    requires below { address < length router.now.mailboxes.items }
    requires desks { AreDesksOf ⟦<Tally as Named>⟧.name router.now.mailboxes.items desks.old.stations.items }
    requires calm { AllCalm desks.old.stations.items }
    requires pass { S.id router.now.scheduler ≡ S.pass_id pass.old }
    ensures desks { AreDesksOf ⟦<Tally as Named>⟧.name router.now.mailboxes.items desks.new.stations.items }
    ensures calm { AllCalm desks.new.stations.items }
    ensures pass { S.id router.now.scheduler ≡ S.pass_id pass.new }
{
    router.send(rt, desks, pass, address, Note { number })
}
