ghost use Rattle.std.specs.Prelude.{◌≡◌, ◌≤◌, ◌*◌, ◌^◌, length};

use crossbeam_queue::protocol::{Lesson, Outcome, Protocol};
use crossbeam_queue::{RuledSegQueue, SegPass};
use rs_mailcore::Named;
use std::alloc::Global;
use std::collections::LinkedList;
use std::marker::PhantomData;

/// The knowledge of a pass of a message queue, for contracts alone: no value of it is made.
pub struct Trail<N, M> {
    /// The queue's name, which it has before the first push.
    pub name: Option<N>,
    /// The pass's number, and how many passes there are, where it is the reading one, number 0.
    pub number: u64,
    pub made: u64,
    /// The messages that it pushed, and those that it popped, in order.
    pub sent: LinkedList<M>,
    pub got: LinkedList<M>,
}

/// The rule of a message queue: of each sender, what was popped and then what the queue holds is what it pushed, in its
/// order; and all messages have the queue's name.
pub struct InOrder<M> {
    marker: PhantomData<M>,
}

impl<M: Named> Protocol<M, Trail<M::Name, M>> for InOrder<M> {
    ghost use Rattle.rs_mailbox.specs.InOrder.{IsInOrder, beginning};

    ghost holds = { IsInOrder M.name };

    ghost first = { beginning };
}

/// What a push tells.
pub struct Sent;

impl<M: Named> Outcome<M, Trail<M::Name, M>> for Sent {
    ghost use Rattle.rs_mailbox.specs.InOrder.{sends, Stands};

    ghost then = { λ v x w. (w ≡ sends v x) × Stands M.name v };
}

impl<N, M> Lesson<M, Trail<N, M>> for Sent {
    ghost fact = { λ v items. Unit {0} };
}

/// What a pop tells.
pub struct Got;

impl<M: Named> Outcome<M, Trail<M::Name, M>> for Got {
    ghost use Rattle.rs_mailbox.specs.InOrder.{gets, Fronts};

    ghost then = { λ v x w. (w ≡ gets v x) × Fronts M.name v x };
}

impl<M: Named> Lesson<M, Trail<M::Name, M>> for Got {
    ghost use Rattle.rs_mailbox.specs.InOrder.{StandsAt};

    ghost fact = { λ v items. StandsAt M.name v items };
}

/// The messages of a mailbox, which many threads push and one at a time pops.
pub type MessageQueue<M> = RuledSegQueue<M, Trail<<M as Named>::Name, M>, InOrder<M>, Global>;

/// A thread's right to push or to pop. It has no bytes at run time.
pub type MessagePass<M> = SegPass<M, Trail<<M as Named>::Name, M>, Global>;
