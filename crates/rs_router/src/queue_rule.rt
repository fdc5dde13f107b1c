ghost use Rattle.std.specs.Prelude.{ℕ};

use crossbeam_queue::protocol::{Lesson, Outcome, Protocol, Split};
use crossbeam_queue::{RuledSegQueue, SegPass};
use rs_mailbox::Ticket;
use std::alloc::Global;
use std::collections::LinkedList;
use std::marker::{Brand, PhantomData};

/// The knowledge of a pass of the ticket queue, for contracts alone: no value of it is made.
pub struct Line {
    /// The first pass, before it has made another.
    pub fresh: bool,
    /// The bound that all addresses are below.
    pub bound: u64,
    /// The addresses that it pushed, and those that it popped, in order.
    pub pushed: LinkedList<u32>,
    pub popped: LinkedList<u32>,
}

/// The rule of the ticket queue: all addresses are below the bound that each pass knows.
pub struct Bounded;

impl Protocol<Ticket, Line> for Bounded {
    ghost use Rattle.std.specs.Prelude.{[], true};
    ghost use Rattle.rs_router.specs.Lines.{IsBounded, line};

    ghost holds = { IsBounded };

    ghost first = { line true 0 [] [] };
}

/// What a push tells.
pub struct Pushed;

impl Outcome<Ticket, Line> for Pushed {
    ghost use Rattle.std.specs.Prelude.{◌≡◌};
    ghost use Rattle.rs_router.specs.Lines.{pushes};

    ghost then = { λ v x w. w ≡ pushes v x.address };
}

/// What a pop tells, of a ticket and of the empty queue.
pub struct Popped;

impl Outcome<Ticket, Line> for Popped {
    ghost use Rattle.std.specs.Prelude.{◌≡◌, ◌<◌};
    ghost use Rattle.rs_router.specs.Lines.{pops};

    ghost then = { λ v x w. (w ≡ pops v x.address) × (x.address < v.bound) };
}

impl Lesson<Ticket, Line> for Popped {
    ghost use Rattle.rs_router.specs.Lines.{Saw};

    ghost fact = { λ v items. Saw items v };
}

/// The bound that all addresses of a queue are below. Each call that opens one picks it.
pub trait Bound {
    ghost bound: { ℕ };
}

impl Bound for Brand {
    ghost bound = { 0 };
}

/// How the first pass makes another, and so gives the queue its bound.
pub struct Founds<J> {
    marker: PhantomData<J>,
}

impl<J: Bound> Split<Line> for Founds<J> {
    ghost use Rattle.rs_router.specs.Lines.{founder, member};

    ghost left = { λ v. founder J.bound v };

    ghost right = { λ v. member J.bound };
}

/// The tickets that wait.
pub type Tickets = RuledSegQueue<Ticket, Line, Bounded, Global>;

/// A worker's right to push and to pop. It has no bytes at run time.
pub type LinePass = SegPass<Ticket, Line, Global>;
