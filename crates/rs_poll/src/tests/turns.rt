use crate::tests::counting::Counting;
use crate::tests::{machines, next_desks, next_pass, tell};
use crate::{Poller, Worked};
use rs_base::OpenGate;
use rs_router::{QueueScheduler, Router};
use std::sync::atomic::AtomicU64;
use std::test::Fail;

#[test]
fn a_turn_handles_a_batch_and_then_there_is_nothing(rt: HostRuntime) -> Result<(), Fail> {
    let alloc = rt.alloc();
    let machines = machines(alloc, 1)?;
    let (scheduler, mut passes) = QueueScheduler::new(alloc, 2, 1)?;
    let Some(mut mine) = next_pass(&scheduler, &mut passes) else {
        panic!(rt; "no pass")
    };
    let Some(pass) = next_pass(&scheduler, &mut passes) else {
        panic!(rt; "no pass")
    };
    let (router, mut rows) = Router::new(alloc, machines, scheduler, 2)?;
    let Some(mut my_desks) = next_desks(&router, &mut rows) else {
        panic!(rt; "no desks")
    };
    let Some(desks) = next_desks(&router, &mut rows) else {
        panic!(rt; "no desks")
    };
    let seen = AtomicU64::new(0);
    let handler = Counting::new(&seen, 1, false);
    let mut poller = Poller::new(&router, desks, pass, handler, (), 0, 2);
    assert!(rt; tell(&rt, &router, &mut my_desks, &mut mine, 0, 3).is_ok());
    assert!(rt; tell(&rt, &router, &mut my_desks, &mut mine, 0, 4).is_ok());
    assert!(rt; tell(&rt, &router, &mut my_desks, &mut mine, 0, 5).is_ok());
    assert!(rt; matches!(poller.poll_once(&rt, &OpenGate), Ok(Worked::Turned(0))));
    assert!(rt; poller.worker.handler.advances == 1 && poller.worker.handler.before_advance == 2);
    assert!(rt; poller.worker.handler.handles == 2);
    assert!(rt; matches!(poller.poll_once(&rt, &OpenGate), Ok(Worked::Turned(0))));
    assert!(rt; matches!(poller.poll_once(&rt, &OpenGate), Ok(Worked::Nothing)));
    assert!(rt; *poller.out() == ());
    assert!(rt; tell(&rt, &router, &mut my_desks, &mut mine, 0, 6).is_ok());
    let rs_mailbox::Closed::Machine(machine) = router.close(&mut my_desks, 0) else {
        panic!(rt; "not home")
    };
    assert!(rt; machine.messages == 3 && machine.total == 12);
    assert!(rt; matches!(poller.poll_once(&rt, &OpenGate), Ok(Worked::Gone(0))));
    Ok(())
}
