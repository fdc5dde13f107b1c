//! One mailbox as plain data: its words, its queue, what each thread is about to do, and the eleven steps by which it
//! changes. `Core` makes the steps on numbers, `Desk` on a machine and its messages.
//!
//! `Ledger`, `Core` and `Desk` are the mailbox as plain data and run only in tests. `rs_mailbox` is the mailbox that
//! runs; its contracts use the definitions of `specs/Words.antt` and `specs/Tidy.antt`, as the ones here do.
#![tactic(auto)]

mod desk;
mod ledger;
mod letter;
mod mail_core;
mod named;
mod step;
#[cfg(test)]
mod tests;
mod thread;

pub use desk::Desk;
pub use ledger::Ledger;
pub use letter::{Letter, Place};
pub use mail_core::Core;
pub use named::{Fsm, Named};
pub use step::Step;
pub use thread::{Phase, Stance, Thread};
