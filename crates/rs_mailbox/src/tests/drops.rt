use crate::{Mailbox, Taken};
use rs_mailcore::{Fsm, Named};
use std::alloc::Global;
use std::process::Abort;
use std::sync::Wait;
use std::sync::atomic::{AtomicU64, Ordering};
use std::test::Fail;

/// Counts how often one of it is dropped.
struct Counted<'c> {
    dropped: &'c AtomicU64,
}

impl<'c> Drop for Counted<'c> {
    fn drop(self) {
        let Counted { dropped } = self;
        dropped.fetch_add(1, Ordering::SeqCst);
    }
}

#[derive(Drop)]
struct Machine<'c> {
    counted: Counted<'c>,
}

#[derive(Drop)]
struct Mail<'c> {
    counted: Counted<'c>,
}

impl<'c> Named for Machine<'c> {
    type Name = u32;

    ghost name = { λ _. 7 };
}

impl<'c> Named for Mail<'c> {
    type Name = u32;

    ghost name = { λ _. 7 };
}

impl<'c> Fsm for Machine<'c> {
    ghost use native.Mathlib.Nat.{ℕ_set};

    type Message = Mail<'c>;

    ghost one_name = { ℕ_set };
}

// Three messages are sent and one is taken. What is left goes with the turn and the mailbox.
fn send_three<'c>(rt: &(impl Abort + Wait), alloc: Global, dropped: &'c AtomicU64) {
    let machine = Machine {
        counted: Counted { dropped },
    };
    let Ok((mailbox, mut stations)) = Mailbox::new(alloc, 3, machine, 1) else {
        panic!(rt; "no memory")
    };
    let Some(mut a) = stations.pop() else {
        panic!(rt; "no station")
    };
    let Ok(Some(ticket)) = mailbox.send(
        rt,
        &mut a,
        Mail {
            counted: Counted { dropped },
        },
    ) else {
        panic!(rt; "no ticket")
    };
    assert!(rt;
        mailbox
            .send(
                rt,
                &mut a,
                Mail {
                    counted: Counted { dropped }
                }
            )
            .is_ok()
    );
    assert!(rt;
        mailbox
            .send(
                rt,
                &mut a,
                Mail {
                    counted: Counted { dropped }
                }
            )
            .is_ok()
    );
    let Taken::Machine(mut turn) = mailbox.take(&mut a, ticket) else {
        panic!(rt; "not taken")
    };
    assert!(rt; mailbox.next_message(rt, &mut a, &mut turn).is_some());
    assert!(rt; dropped.load(Ordering::SeqCst) == 1);
    drop(turn);
    assert!(rt; dropped.load(Ordering::SeqCst) == 2);
}

#[test]
fn a_dropped_mailbox_drops_what_it_holds(rt: HostRuntime) -> Result<(), Fail> {
    let dropped = AtomicU64::new(0);
    send_three(&rt, rt.alloc(), &dropped);
    assert!(rt; dropped.load(Ordering::SeqCst) == 4);
    Ok(())
}
