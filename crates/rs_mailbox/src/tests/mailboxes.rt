ghost use Rattle.std.specs.Prelude.{◌≡◌, IfSome, All};
ghost use Rattle.rs_mailbox.specs.Stations.{IsNewStation};

use crate::tests::{Note, Tally};
use crate::{Closed, Mailbox, Released, SendError, Station, Taken};
use rs_mailcore::Named;
use rs_rows::Rows;
use std::test::Fail;

/// Takes the last of the stations; `None` if there are none left.
pub fn next_station(
    mailbox: &Mailbox<Tally>,
    stations: &mut Rows<Station<Tally>>,
) -> Option<Station<Tally>>
    requires { All (IsNewStation ⟦<Tally as Named>⟧.name mailbox.now) stations.old }
    ensures rest { All (IsNewStation ⟦<Tally as Named>⟧.name mailbox.now) stations.new }
    ensures station { IfSome result (λ s. IsNewStation ⟦<Tally as Named>⟧.name mailbox.now s) }
{
    let station = stations.pop()?;
    Some(station)
}

#[test]
fn messages_come_in_the_order_of_their_sending(rt: HostRuntime) -> Result<(), Fail> {
    let Ok((mailbox, mut stations)) = Mailbox::new(rt.alloc(), 3, Tally { total: 5 }, 2) else {
        panic!(rt; "no memory")
    };
    let Some(mut a) = next_station(&mailbox, &mut stations) else {
        panic!(rt; "no station")
    };
    let Some(mut b) = next_station(&mailbox, &mut stations) else {
        panic!(rt; "no station")
    };
    let Ok(Some(ticket)) = mailbox.send(&rt, &mut a, Note { number: 11 }) else {
        panic!(rt; "no ticket")
    };
    assert!(rt; ticket.address() == 3);
    assert!(rt; matches!(mailbox.send(&rt, &mut b, Note { number: 21 }), Ok(None)));
    assert!(rt; matches!(mailbox.send(&rt, &mut a, Note { number: 12 }), Ok(None)));
    let Taken::Machine(mut turn) = mailbox.take(&mut b, ticket) else {
        panic!(rt; "not taken")
    };
    assert!(rt; turn.machine().total == 5);
    assert!(rt;
        matches!(
            mailbox.next_message(&rt, &mut b, &mut turn),
            Some(Note { number: 11 })
        )
    );
    assert!(rt;
        matches!(
            mailbox.next_message(&rt, &mut b, &mut turn),
            Some(Note { number: 21 })
        )
    );
    assert!(rt;
        matches!(
            mailbox.next_message(&rt, &mut b, &mut turn),
            Some(Note { number: 12 })
        )
    );
    assert!(rt; mailbox.next_message(&rt, &mut b, &mut turn).is_none());
    assert!(rt; turn.handled() == 3);
    assert!(rt; matches!(mailbox.release(&mut b, turn), Released::Idle));
    assert!(rt; matches!(mailbox.send(&rt, &mut a, Note { number: 13 }), Ok(Some(_))));
    Ok(())
}

#[test]
fn a_rescheduled_machine_runs_again(rt: HostRuntime) -> Result<(), Fail> {
    let Ok((mailbox, mut stations)) = Mailbox::new(rt.alloc(), 3, Tally { total: 0 }, 2) else {
        panic!(rt; "no memory")
    };
    let Some(mut a) = next_station(&mailbox, &mut stations) else {
        panic!(rt; "no station")
    };
    let Some(mut b) = next_station(&mailbox, &mut stations) else {
        panic!(rt; "no station")
    };
    let Ok(Some(ticket)) = mailbox.send(&rt, &mut b, Note { number: 3 }) else {
        panic!(rt; "no ticket")
    };
    let Taken::Machine(turn) = mailbox.take(&mut a, ticket) else {
        panic!(rt; "not taken")
    };
    let Ok(ticket) = mailbox.reschedule(&mut a, turn) else {
        panic!(rt; "closed")
    };
    let Taken::Machine(turn) = mailbox.take(&mut a, ticket) else {
        panic!(rt; "not taken")
    };
    assert!(rt; matches!(mailbox.close(&mut b), Closed::Elsewhere));
    assert!(rt;
        matches!(
            mailbox.release(&mut a, turn),
            Released::Dropped(Tally { total: 0 })
        )
    );
    assert!(rt; matches!(mailbox.close(&mut b), Closed::Already));
    assert!(rt;
        matches!(
            mailbox.send(&rt, &mut a, Note { number: 4 }),
            Err(SendError::Closed(Note { number: 4 }))
        )
    );
    Ok(())
}

#[test]
fn a_closed_mailbox_hands_out_no_message(rt: HostRuntime) -> Result<(), Fail> {
    let Ok((mailbox, mut stations)) = Mailbox::new(rt.alloc(), 3, Tally { total: 5 }, 2) else {
        panic!(rt; "no memory")
    };
    let Some(mut a) = next_station(&mailbox, &mut stations) else {
        panic!(rt; "no station")
    };
    let Some(mut b) = next_station(&mailbox, &mut stations) else {
        panic!(rt; "no station")
    };
    let Ok(Some(ticket)) = mailbox.send(&rt, &mut a, Note { number: 1 }) else {
        panic!(rt; "no ticket")
    };
    assert!(rt; matches!(mailbox.send(&rt, &mut a, Note { number: 2 }), Ok(None)));
    assert!(rt; matches!(mailbox.close(&mut b), Closed::Machine(Tally { total: 5 })));
    assert!(rt;
        matches!(
            mailbox.send(&rt, &mut a, Note { number: 3 }),
            Err(SendError::Closed(Note { number: 3 }))
        )
    );
    assert!(rt; matches!(mailbox.take(&mut a, ticket), Taken::Not(2)));
    Ok(())
}
