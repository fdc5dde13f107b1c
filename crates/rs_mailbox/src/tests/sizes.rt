use crate::contents::Contents;
use crate::tests::{Note, Tally};
use crate::{Hand, Mailbox, MessagePass, Station, Ticket};
use rs_mailcore::{Fsm, Named};
use std::mem::size_of;
use std::test::Fail;

/// Data that machines and messages share.
#[derive(Drop)]
struct Plan {
    stores: Vec<u64>,
}

#[derive(Drop)]
struct Machine<'p> {
    plan: &'p Plan,
    applied: u64,
}

#[derive(Drop)]
struct Mail<'p> {
    plan: &'p Plan,
    upto: u64,
}

impl<'p> Named for Machine<'p> {
    type Name = Plan;

    ghost name = { λ m. m.plan.now };
}

impl<'p> Named for Mail<'p> {
    type Name = Plan;

    ghost name = { λ m. m.plan.now };
}

impl<'p> Fsm for Machine<'p> {
    ghost use Rattle.std.specs.Coded.{Coded-set};
    ghost use Rattle.rs_mailbox.specs.contracts.tests.sizes.Plan.{the_row};

    type Message = Mail<'p>;

    ghost one_name = { Coded-set the_row.coded };
}

fn needs_sync<X: Sync>(_x: &X) {}

fn needs_send<X: Send + Drop>(_x: X) {}

// A mailbox is shared by threads, and a station goes to one, also where the machine borrows what it is named by.
fn cross<'p>(mailbox: &Mailbox<Machine<'p>>, station: Station<Machine<'p>>) {
    needs_sync(mailbox);
    needs_send(station);
}

#[test]
fn seats_have_no_bytes(rt: HostRuntime) -> Result<(), Fail> {
    assert!(rt; size_of::<Hand<Contents<Machine>>>() == 0);
    assert!(rt; size_of::<MessagePass<Mail>>() == 0);
    assert!(rt; size_of::<Station<Machine>>() == 8);
    assert!(rt; size_of::<Ticket>() == 4);
    assert!(rt; size_of::<Mailbox<Tally>>() <= 96);
    Ok(())
}
