ghost use Rattle.std.specs.Prelude.{◌≡◌, ◌≤◌, IfOk, Some, Option, All, length};
ghost use Rattle.rs_mailbox.specs.Passes.{IsReader, IsSender};

use crate::trail::{MessagePass, MessageQueue, Trail};
use crossbeam_queue::protocol::Split;
use rs_mailcore::{Fsm, Named};
use rs_rows::NoMemory;
use std::alloc::Global;
use std::marker::{Brand, PhantomData};

/// The name of a queue. Each call that makes a queue picks it.
pub trait Naming<N> {
    ghost picked: { Option N };
}

impl<N> Naming<N> for Brand {
    ghost use Rattle.std.specs.Prelude.{None};

    ghost picked = { None };
}

/// How the reading pass makes a sending one, and so gives the queue its name.
pub struct Founds<J> {
    marker: PhantomData<J>,
}

impl<N, M, J: Naming<N>> Split<Trail<N, M>> for Founds<J> {
    ghost use Rattle.rs_mailbox.specs.InOrder.{founder, member};

    ghost left = { λ v. founder J.picked v };

    ghost right = { λ v. member J.picked v };
}

fn open_named<F: Fsm, J: Naming<F::Name>>(
    alloc: Global,
    machine: &F,
    senders: u32,
) -> Result<
    (
        MessageQueue<F::Message>,
        MessagePass<F::Message>,
        Vec<MessagePass<F::Message>>,
    ),
    NoMemory,
>
    requires picked { J.picked ≡ Some (F.name machine.now) }
    requires senders { (1 ≤ senders) × (senders ≤ 4096) }
    ensures reader { IfOk result (λ r. IsReader r.0 (F.name machine.now) r.1) }
    ensures senders { IfOk result (λ r. (length r.2.items ≡ senders) × All (IsSender r.0 (F.name machine.now)) r.2.items) }
{
    let mut list = Vec::with_capacity(alloc, senders as usize)?;
    let (queue, mut reader) = MessageQueue::with_rule(alloc)?;
    list.push_reserved(queue.another::<Founds<J>>(&mut reader));
    for k in 1..senders {
        list.push_reserved(queue.another::<Founds<J>>(&mut reader));
    }
    Ok((queue, reader, list))
}

// The queue of a machine, which has the machine's name, its reading pass and its sending passes.
pub(crate) fn open_queue<F: Fsm>(
    alloc: Global,
    machine: &F,
    senders: u32,
) -> Result<
    (
        MessageQueue<F::Message>,
        MessagePass<F::Message>,
        Vec<MessagePass<F::Message>>,
    ),
    NoMemory,
>
    requires senders { (1 ≤ senders) × (senders ≤ 4096) }
    ensures reader { IfOk result (λ r. IsReader r.0 (F.name machine.now) r.1) }
    ensures senders { IfOk result (λ r. (length r.2.items ≡ senders) × All (IsSender r.0 (F.name machine.now)) r.2.items) }
{
    open_named::<F, Brand>(alloc, machine, senders)
}
