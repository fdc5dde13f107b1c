mod drops;
mod handovers;
mod kept;
mod mailboxes;
mod senders;
mod sizes;

use rs_mailcore::{Fsm, Named};

/// A machine that counts, and its messages.
#[derive(Debug, Drop)]
pub struct Tally {
    pub total: u64,
}

/// A message with a number.
#[derive(Debug, Drop)]
pub struct Note {
    pub number: u64,
}

impl Named for Tally {
    type Name = u32;

    ghost name = { λ _. 7 };
}

impl Named for Note {
    type Name = u32;

    ghost name = { λ _. 7 };
}

impl Fsm for Tally {
    ghost use native.Mathlib.Nat.{ℕ_set};

    type Message = Note;

    ghost one_name = { ℕ_set };
}
