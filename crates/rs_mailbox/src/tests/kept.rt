ghost use native.Mathlib.Nat.{ℕ_set};
ghost use Rattle.std.proofs.Props.{props};
ghost use Rattle.rs_mailbox.specs.Stations.{IsCalm, IsStationOf};

use crate::{Mailbox, Station};
use rs_mailcore::{Fsm, Named};

// A calm station beside its mailbox, as a type keeps it.
#[derive(Drop)]
struct Placed<'b, F: Fsm> {
    mailbox: &'b Mailbox<F>,
    station: Station<F>,
    ghost mine: { IsStationOf F.name mailbox.now station } by { Prim.hlevel (props, ℕ_set, F.one_name) },
    ghost calm: { IsCalm station },
}

fn place<'b, F: Fsm>(mailbox: &'b Mailbox<F>, station: Station<F>) -> Placed<'b, F>
    requires { IsStationOf F.name mailbox.now station × IsCalm station }
{
    Placed { mailbox, station }
}
