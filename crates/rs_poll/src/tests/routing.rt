use crate::tests::{machines, next_desks, next_pass, tell};
use rs_router::{QueueScheduler, RouteError, Router, Scheduler};
use std::test::Fail;

/// It gives its ticket to the scheduler, which may hand it out once more.
#[test]
fn each_mailbox_gives_one_ticket_until_it_is_taken(rt: HostRuntime) -> Result<(), Fail> {
    let alloc = rt.alloc();
    let machines = machines(alloc, 2)?;
    let (scheduler, mut passes) = QueueScheduler::new(alloc, 1, 2)?;
    let Some(mut pass) = next_pass(&scheduler, &mut passes) else {
        panic!(rt; "no pass")
    };
    let (router, mut rows) = Router::new(alloc, machines, scheduler, 1)?;
    let Some(mut desks) = next_desks(&router, &mut rows) else {
        panic!(rt; "no desks")
    };
    assert!(rt; tell(&rt, &router, &mut desks, &mut pass, 0, 1).is_ok());
    assert!(rt; tell(&rt, &router, &mut desks, &mut pass, 1, 2).is_ok());
    assert!(rt; tell(&rt, &router, &mut desks, &mut pass, 0, 3).is_ok());
    let scheduler = router.scheduler();
    scheduler.idle(&rt, &mut pass);
    let Some(first) = scheduler.pop(&rt, &mut pass) else {
        panic!(rt; "no ticket")
    };
    assert!(rt; first.address() == 0);
    assert!(rt; scheduler.push(&rt, &mut pass, first).is_ok());
    let Some(second) = scheduler.pop(&rt, &mut pass) else {
        panic!(rt; "no ticket")
    };
    assert!(rt; second.address() == 1);
    assert!(rt; scheduler.pop(&rt, &mut pass).is_some());
    assert!(rt; scheduler.pop(&rt, &mut pass).is_none());
    router.close_all(&mut desks);
    let refused = tell(&rt, &router, &mut desks, &mut pass, 0, 4);
    let Err(RouteError::Closed(message)) = refused else {
        panic!(rt; "not closed")
    };
    assert!(rt; message.number == 4);
    Ok(())
}
