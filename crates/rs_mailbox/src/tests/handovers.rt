ghost use Rattle.std.specs.Prelude.{◌≡◌, ◌+◌, ◌^◌, ◌<◌, IfSome, All};
ghost use Rattle.rs_mailbox.specs.Hands.{IsFresh};

use crate::{Back, Hand, Handover, HasCount, Held, Shut};
use rs_mailcore::Named;
use rs_rows::Rows;
use std::test::Fail;

/// A value that counts its messages.
#[derive(Drop)]
struct Parcel {
    taken: u64,
}

impl Named for Parcel {
    type Name = u32;

    ghost name = { λ _. 7 };
}

impl HasCount for Parcel {
    ghost count = { λ p. p.taken };
}

const MOST: u64 = 1 << 62;

fn handle_one(held: &mut Held<Parcel>)
    requires few { held.old.stored.handled < 2 ^ 62 }
    requires count { held.old.stored.value.taken ≡ held.old.stored.handled }
    ensures handled { held.new.stored.handled ≡ held.old.stored.handled + 1 }
    ensures count { held.new.stored.value.taken ≡ held.new.stored.handled }
{
    held.raise();
    held.value().taken += 1;
}

fn next_hand(handover: &Handover<Parcel>, hands: &mut Rows<Hand<Parcel>>) -> Option<Hand<Parcel>>
    requires { All (IsFresh ⟦<Parcel as Named>⟧.name handover.now) hands.old }
    ensures rest { All (IsFresh ⟦<Parcel as Named>⟧.name handover.now) hands.new }
    ensures hand { IfSome result (λ h. IsFresh ⟦<Parcel as Named>⟧.name handover.now h) }
{
    let hand = hands.pop()?;
    Some(hand)
}

#[test]
fn two_hands_pass_a_parcel(rt: HostRuntime) -> Result<(), Fail> {
    let Ok((handover, mut hands)) = Handover::new(rt.alloc(), Parcel { taken: 0 }, 2) else {
        panic!(rt; "no memory")
    };
    let Some(mut b) = next_hand(&handover, &mut hands) else {
        panic!(rt; "no hand")
    };
    let Some(mut a) = next_hand(&handover, &mut hands) else {
        panic!(rt; "no hand")
    };
    handover.announce(&mut a);
    assert!(rt; handover.notify(&mut a));
    handover.announce(&mut b);
    assert!(rt; !handover.notify(&mut b));
    let Ok(mut held) = handover.take(&mut a) else {
        panic!(rt; "not taken")
    };
    assert!(rt; held.handled() == 0);
    assert!(rt; held.handled() < MOST);
    handle_one(&mut held);
    let Back::Again(mut held) = handover.release(&mut a, held) else {
        panic!(rt; "not again")
    };
    assert!(rt; held.handled() < MOST);
    handle_one(&mut held);
    assert!(rt; matches!(handover.release(&mut a, held), Back::Idle));
    assert!(rt; matches!(handover.take(&mut b), Err(1)));
    assert!(rt; matches!(handover.close(&mut b), Shut::Value(_)));
    assert!(rt; matches!(handover.take(&mut a), Err(2)));
    assert!(rt; matches!(handover.close(&mut a), Shut::Already));
    Ok(())
}
