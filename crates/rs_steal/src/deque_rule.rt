ghost use Rattle.std.specs.Prelude.{ℕ};

use crossbeam_deque::protocol::{Outcome, Protocol, Split};
use crossbeam_deque::{Pass, Stealer, Worker};
use rs_mailbox::Ticket;
use std::alloc::Global;
use std::collections::LinkedList;
use std::marker::{Brand, PhantomData};

/// What a pass knows of one deque, for contracts alone: no value of it is made.
pub struct DequeView {
    /// The first pass, before it has made another.
    pub fresh: bool,
    /// What all addresses are below.
    pub bound: u64,
    /// How many passes the deque has at most. No call tells it, so a body that doesn't look at the deque can't show that
    /// the deque was empty: with one pass alone that means that it popped all that it pushed.
    pub count: u64,
    /// How many passes the owner has made, itself among them.
    pub made: u64,
    /// The addresses that it pushed, and those that it popped or stole, in order.
    pub pushed: LinkedList<u32>,
    pub popped: LinkedList<u32>,
}

/// The rule of a deque: what was pushed is what has left, each ticket by one pass, and then what the deque holds.
pub struct TicketRule;

impl Protocol<Ticket, DequeView> for TicketRule {
    ghost use Rattle.rs_steal.specs.Rule.{Holds, beginning, stranger};

    ghost holds = { Holds };

    ghost first = { beginning };

    ghost guest = { stranger };
}

/// What all addresses of a deque are below, and how many passes it has at most. Each call that opens one picks them.
pub trait Mark {
    ghost bound: { ℕ };

    ghost count: { ℕ };
}

impl Mark for Brand {
    ghost bound = { 0 };

    ghost count = { 0 };
}

/// How the first pass makes another, and so gives the deque its bound and its number of passes.
pub struct Founds<J> {
    marker: PhantomData<J>,
}

impl<J: Mark> Split<DequeView> for Founds<J> {
    ghost use Rattle.rs_steal.specs.Rule.{founder, member};

    ghost left = { λ v. founder J.bound J.count v };

    ghost right = { λ v. member J.bound J.count };
}

/// How the owner makes one more pass.
pub struct Joins;

impl Split<DequeView> for Joins {
    ghost use Rattle.rs_steal.specs.Rule.{made_another, member};

    ghost left = { made_another };

    ghost right = { λ v. member v.bound v.count };
}

/// What a push tells.
pub struct Puts;

impl Outcome<Ticket, DequeView> for Puts {
    ghost use Rattle.rs_steal.specs.Rule.{PutIn, addresses};

    ghost then = { λ v xs w. PutIn v (addresses xs) w };
}

/// What a pop and a steal tell, of a ticket and of the empty deque.
pub struct Gets;

impl Outcome<Ticket, DequeView> for Gets {
    ghost use Rattle.rs_steal.specs.Rule.{TakenOut, WasEmpty, addresses};

    ghost then = { λ v xs w. TakenOut v (addresses xs) w };

    ghost empty = { WasEmpty };
}

/// A pass's own deque.
pub type Own = Worker<Ticket, Global, DequeView, TicketRule>;

/// Another pass's deque.
pub type Foreign = Stealer<Ticket, Global, DequeView, TicketRule>;

/// A right to steal from one deque. It has no bytes at run time.
pub type DequePass = Pass<Ticket, DequeView>;
