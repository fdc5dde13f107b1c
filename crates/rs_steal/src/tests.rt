ghost use Rattle.std.specs.Prelude.{◌≡◌, All, IfSome};
ghost use Rattle.rs_mailbox.specs.Stations.{IsNewStation};
ghost use Rattle.rs_steal.specs.Opening.{IsNew};

mod threads;

use crate::{StealPass, StealScheduler};
use rs_mailbox::{Mailbox, Station, Ticket};
use rs_mailcore::{Fsm, Named};
use rs_router::Scheduler;
use rs_rows::Rows;
use std::alloc::Global;
use std::sync::Wait;
use std::test::Fail;

/// A machine that does nothing, and its messages.
#[derive(Debug, Drop)]
pub struct Still;

#[derive(Debug, Drop)]
pub struct Nudge;

impl Named for Still {
    type Name = u32;

    ghost name = { λ _. 7 };
}

impl Named for Nudge {
    type Name = u32;

    ghost name = { λ _. 7 };
}

impl Fsm for Still {
    ghost use native.Mathlib.Nat.{ℕ_set};

    type Message = Nudge;

    ghost one_name = { ℕ_set };
}

fn next_station(
    mailbox: &Mailbox<Still>,
    stations: &mut Rows<Station<Still>>,
) -> Option<Station<Still>>
    requires { All (IsNewStation ⟦<Still as Named>⟧.name mailbox.now) stations.old }
    ensures { IfSome result (λ s. IsNewStation ⟦<Still as Named>⟧.name mailbox.now s) }
{
    let station = stations.pop()?;
    Some(station)
}

/// The ticket of a new mailbox of this address, to which a message was sent.
pub fn ticket_of<R: Wait>(rt: &R, alloc: Global, address: u32) -> Option<Ticket>
    ensures { IfSome result (λ t. t.address ≡ address) }
{
    let Ok((mailbox, mut stations)) = Mailbox::new(alloc, address, Still, 1) else {
        return None;
    };
    let mut station = next_station(&mailbox, &mut stations)?;
    match mailbox.send(rt, &mut station, Nudge) {
        Ok(ticket) => ticket,
        Err(_) => None,
    }
}

/// The last of the passes.
pub fn next_pass(scheduler: &StealScheduler, passes: &mut Rows<StealPass>) -> Option<StealPass>
    requires { All (IsNew scheduler.now.addresses) passes.old }
    ensures rest { All (IsNew scheduler.now.addresses) passes.new }
    ensures pass { IfSome result (λ p. scheduler.now.addresses ≡ p.addresses) }
{
    let pass = passes.pop()?;
    Some(pass)
}

#[test]
fn a_pass_steals_what_another_pushed(rt: HostRuntime) -> Result<(), Fail> {
    let alloc = rt.alloc();
    let (scheduler, mut passes) = StealScheduler::new(alloc, 2, 2)?;
    let Some(mut b) = next_pass(&scheduler, &mut passes) else {
        panic!(rt; "no pass")
    };
    let Some(mut a) = next_pass(&scheduler, &mut passes) else {
        panic!(rt; "no pass")
    };
    let Some(first) = ticket_of(&rt, alloc, 0) else {
        panic!(rt; "no ticket")
    };
    let Some(second) = ticket_of(&rt, alloc, 1) else {
        panic!(rt; "no ticket")
    };
    assert!(rt; scheduler.push(&rt, &mut a, first).is_ok());
    assert!(rt; scheduler.push(&rt, &mut a, second).is_ok());
    let Some(stolen) = scheduler.pop(&rt, &mut b) else {
        panic!(rt; "not stolen")
    };
    assert!(rt; stolen.address() == 0);
    let Some(popped) = scheduler.pop(&rt, &mut a) else {
        panic!(rt; "not popped")
    };
    assert!(rt; popped.address() == 1);
    assert!(rt; scheduler.pop(&rt, &mut b).is_none());
    Ok(())
}
