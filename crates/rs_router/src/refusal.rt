ghost use Rattle.std.specs.Prelude.{◌≡◌};
ghost use Rattle.rs_mailbox.specs.Stations.{view, IsCalm, IsStationOf};
ghost use Rattle.rs_router.specs.Routes.{Abandons};

use rs_mailbox::{Mailbox, Station, Taken, Ticket};
use rs_mailcore::{Fsm, Named};

/// Spends a ticket that no scheduler takes: the mailbox is closed, its machine is dropped where it was home,
/// and then the ticket is spent by a take, which finds the mailbox closed.
pub fn abandon<F: Fsm>(mailbox: &Mailbox<F>, station: &mut Station<F>, ticket: Ticket)
    requires station { IsStationOf F.name mailbox.now station.old }
    requires calm { IsCalm station.old }
    requires ticket { ticket.address ≡ mailbox.now.address }
    ensures station { IsStationOf F.name mailbox.now station.new }
    ensures calm { IsCalm station.new }
    ensures steps { Abandons (view station.old) (view station.new) }
    ensures sender { station.new.sender ≡ station.old.sender }
{
    drop(mailbox.close(station));
    match mailbox.take(station, ticket) {
        Taken::Machine(_turn) => unreachable!(),
        Taken::Not(_word) => {}
    }
}
