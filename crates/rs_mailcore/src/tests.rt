ghost use Rattle.std.specs.Prelude.{◌≡◌};
ghost use native.Mathlib.Nat.{ℕ_set};
ghost use Rattle.rs_mailcore.specs.Keeping.{moment, IsSound};
ghost use Rattle.rs_mailcore.specs.Sitting.{IsSeated};

use crate::{Core, Desk, Fsm, Named, Phase, Place, Step};
use std::process::Abort;
use std::test::Fail;

#[derive(Drop)]
struct Tally {
    total: u64,
}

#[derive(Drop)]
struct Note {
    number: u64,
}

impl Named for Tally {
    type Name = u32;

    ghost name = { λ _. 7 };
}

impl Named for Note {
    type Name = u32;

    ghost name = { λ _. 7 };
}

impl Fsm for Tally {
    type Message = Note;

    ghost one_name = { ℕ_set };
}

fn send(rt: &impl Abort, desk: &mut Desk<Tally>, station: u32, number: u64) -> bool
    requires { IsSeated (moment desk.old.ledger) desk.old.machine }
    ensures { IsSeated (moment desk.new.ledger) desk.new.machine }
{
    assert!(rt; desk.may_step(station, &Step::Push(Note { number: 0 })));
    assert!(rt; desk.push(station, Note { number }).is_ok());
    assert!(rt; desk.may_step(station, &Step::Announce));
    desk.announce(station);
    assert!(rt; desk.may_step(station, &Step::Notify));
    desk.notify(station)
}

fn take(rt: &impl Abort, desk: &mut Desk<Tally>, station: u32) -> Result<Tally, u64>
    requires { IsSeated (moment desk.old.ledger) desk.old.machine }
    ensures { IsSeated (moment desk.new.ledger) desk.new.machine }
{
    assert!(rt; desk.may_step(station, &Step::Take));
    desk.take(station)
}

fn pop(rt: &impl Abort, desk: &mut Desk<Tally>, station: u32) -> Option<u64>
    requires { IsSeated (moment desk.old.ledger) desk.old.machine }
    ensures { IsSeated (moment desk.new.ledger) desk.new.machine }
{
    assert!(rt; desk.may_step(station, &Step::Pop));
    let Note { number } = desk.pop(station)?;
    Some(number)
}

fn release(rt: &impl Abort, desk: &mut Desk<Tally>, station: u32, machine: Tally) -> Option<Tally>
    requires { IsSeated (moment desk.old.ledger) desk.old.machine }
    ensures { IsSeated (moment desk.new.ledger) desk.new.machine }
{
    assert!(rt; desk.may_step(station, &Step::Release));
    desk.release(station, machine)
}

fn close(rt: &impl Abort, desk: &mut Desk<Tally>, station: u32) -> (u64, Option<Tally>)
    requires { IsSeated (moment desk.old.ledger) desk.old.machine }
    ensures { IsSeated (moment desk.new.ledger) desk.new.machine }
{
    assert!(rt; desk.may_step(station, &Step::Close));
    desk.close(station)
}

#[test]
fn a_desk_gives_its_messages_in_order(rt: HostRuntime) -> Result<(), Fail> {
    let Ok(mut desk) = Desk::new(rt.alloc(), Tally { total: 5 }, 2) else {
        panic!(rt; "no memory")
    };
    assert!(rt; send(&rt, &mut desk, 0, 11));
    assert!(rt; !send(&rt, &mut desk, 1, 12));
    assert!(rt; desk.word() == 0);
    let Ok(machine) = take(&rt, &mut desk, 0) else {
        panic!(rt; "not taken")
    };
    assert!(rt; machine.total == 5);
    assert!(rt; pop(&rt, &mut desk, 0) == Some(11));
    assert!(rt; pop(&rt, &mut desk, 0) == Some(12));
    assert!(rt; pop(&rt, &mut desk, 0).is_none());
    assert!(rt; release(&rt, &mut desk, 0, machine).is_none());
    assert!(rt; desk.may_step(0, &Step::Recheck));
    assert!(rt; !desk.recheck(0));
    assert!(rt; desk.word() == 1);
    Ok(())
}

#[test]
fn a_desk_takes_its_machine_again_where_more_was_sent(rt: HostRuntime) -> Result<(), Fail> {
    let Ok(mut desk) = Desk::new(rt.alloc(), Tally { total: 5 }, 2) else {
        panic!(rt; "no memory")
    };
    assert!(rt; send(&rt, &mut desk, 0, 11));
    let Ok(machine) = take(&rt, &mut desk, 1) else {
        panic!(rt; "not taken")
    };
    assert!(rt; !send(&rt, &mut desk, 0, 12));
    assert!(rt; pop(&rt, &mut desk, 1) == Some(11));
    assert!(rt; release(&rt, &mut desk, 1, machine).is_none());
    assert!(rt; desk.may_step(1, &Step::Recheck));
    assert!(rt; desk.recheck(1));
    assert!(rt; desk.may_step(1, &Step::Retake));
    let Some(machine) = desk.retake(1) else {
        panic!(rt; "not taken again")
    };
    assert!(rt; pop(&rt, &mut desk, 1) == Some(12));
    assert!(rt; desk.may_step(1, &Step::Reschedule));
    assert!(rt; desk.reschedule(1, machine).is_none());
    assert!(rt; desk.word() == 0);
    Ok(())
}

#[test]
fn a_closed_desk_hands_its_machine_out(rt: HostRuntime) -> Result<(), Fail> {
    let Ok(mut desk) = Desk::new(rt.alloc(), Tally { total: 5 }, 2) else {
        panic!(rt; "no memory")
    };
    assert!(rt; send(&rt, &mut desk, 1, 13));
    let Ok(machine) = take(&rt, &mut desk, 0) else {
        panic!(rt; "not taken")
    };
    assert!(rt; matches!(close(&rt, &mut desk, 1), (3, None)));
    assert!(rt;
        matches!(
            release(&rt, &mut desk, 0, machine),
            Some(Tally { total: 5 })
        )
    );
    assert!(rt; matches!(close(&rt, &mut desk, 1), (2, None)));
    assert!(rt; desk.may_step(0, &Step::Look));
    assert!(rt; desk.look(0) == 2);
    assert!(rt; matches!(take(&rt, &mut desk, 0), Err(2)));
    Ok(())
}

// The word after each step of a core with two threads.
#[test]
fn a_core_makes_every_kind_of_step(rt: HostRuntime) -> Result<(), Fail> {
    let Ok(mut core) = Core::new(rt.alloc(), 2) else {
        panic!(rt; "no memory")
    };
    let steps = [
        (0, Step::Push(11), 1),
        (0, Step::Announce, 1),
        (0, Step::Notify, 0),
        (1, Step::Push(12), 0),
        (0, Step::Take, 3),
        (1, Step::Announce, 3),
        (1, Step::Notify, 3),
        (0, Step::Pop, 3),
        (0, Step::Release, 1),
        (0, Step::Recheck, 1),
        (0, Step::Retake, 3),
        (0, Step::Pop, 3),
        (0, Step::Pop, 3),
        (0, Step::Reschedule, 0),
        (1, Step::Look, 0),
        (1, Step::Take, 3),
        (0, Step::Close, 2),
        (1, Step::Release, 2),
    ];
    'steps: for (thread, step, word) in steps {
        assert!(rt; core.may_step(thread, &step));
        assert!(rt; core.step(thread, step).is_ok());
        assert!(rt; core.word() == word);
    }
    assert!(rt; core.ledger.handled == 2);
    assert!(rt; matches!(core.ledger.place, Place::Given));
    Ok(())
}
