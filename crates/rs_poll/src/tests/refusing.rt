use crate::Poller;
use crate::tests::counting::Counting;
use crate::tests::{machines, next_desks, next_pass, tell};
use rs_base::OpenGate;
use rs_mailbox::Ticket;
use rs_router::{QueueScheduler, Refused, RouteError, Router, Scheduler, SchedulerPass, Tickets};
use rs_rows::NoMemory;
use std::sync::Wait;
use std::sync::atomic::AtomicU64;
use std::test::Fail;

/// A scheduler over a queue, whose passes refuse tickets once they have pushed a number of them.
#[derive(Drop)]
struct Stingy {
    inner: QueueScheduler,
}

#[derive(Drop)]
struct StingyPass {
    inner: SchedulerPass,
    left: u32,
}

impl Scheduler for Stingy {
    ghost use Rattle.std.specs.Prelude.{[]};
    ghost use Rattle.rs_router.specs.Ids.{one_id};
    ghost use Rattle.rs_router.specs.Lines.{Saw};
    ghost use Rattle.rs_router.specs.Passes.{id_of, id_with};

    type Pass = StingyPass;

    type Id = (Tickets, u32);

    ghost size = { λ s. s.inner.addresses };

    ghost id = { λ s. id_with s.inner.queue s.inner.addresses };

    ghost pass_id = { λ p. id_of p.inner };

    ghost one_id = { one_id };

    ghost pushed = { λ p. p.inner.pass.me.view.client.pushed };

    ghost popped = { λ p. p.inner.pass.me.view.client.popped };

    ghost empties = { λ p. p.inner.empties };

    ghost saw_empty = { λ p. Saw [] p.inner.pass.me.view.client };

    fn push<R: Wait>(&self, rt: &R, pass: &mut StingyPass, ticket: Ticket) -> Result<(), Refused> {
        if pass.left == 0 {
            return Err(Refused { ticket });
        }
        pass.left -= 1;
        self.inner.push(rt, &mut pass.inner, ticket)
    }

    fn pop<R: Wait>(&self, rt: &R, pass: &mut StingyPass) -> Option<Ticket> {
        self.inner.pop(rt, &mut pass.inner)
    }

    fn idle<R: Wait>(&self, rt: &R, pass: &mut StingyPass) {
        self.inner.idle(rt, &mut pass.inner);
    }

    fn wake(&self) {
        self.inner.wake();
    }
}

#[test]
fn a_machine_whose_ticket_is_refused_is_closed(rt: HostRuntime) -> Result<(), Fail> {
    let alloc = rt.alloc();
    let machines = machines(alloc, 1)?;
    let (inner, mut passes) = QueueScheduler::new(alloc, 2, 1)?;
    let Some(mine) = next_pass(&inner, &mut passes) else {
        panic!(rt; "no pass")
    };
    let Some(pass) = next_pass(&inner, &mut passes) else {
        panic!(rt; "no pass")
    };
    let mut mine = StingyPass {
        inner: mine,
        left: 1,
    };
    let pass = StingyPass {
        inner: pass,
        left: 0,
    };
    let (router, mut rows) = Router::new(alloc, machines, Stingy { inner }, 2)?;
    let Some(mut my_desks) = next_desks(&router, &mut rows) else {
        panic!(rt; "no desks")
    };
    let Some(desks) = next_desks(&router, &mut rows) else {
        panic!(rt; "no desks")
    };
    let seen = AtomicU64::new(0);
    let handler = Counting::new(&seen, 1, true);
    let mut poller = Poller::new(&router, desks, pass, handler, (), 0, 2);
    assert!(rt; tell(&rt, &router, &mut my_desks, &mut mine, 0, 3).is_ok());
    assert!(rt; matches!(poller.poll_once(&rt, &OpenGate), Err(NoMemory)));
    let closed = tell(&rt, &router, &mut my_desks, &mut mine, 0, 4);
    assert!(rt; matches!(closed, Err(RouteError::Closed(_))));
    Ok(())
}
