ghost use Rattle.std.specs.Prelude.{◌≡◌, None, length};

use crate::stored::HasCount;
use crate::trail::{MessagePass, MessageQueue};
use rs_mailcore::{Fsm, Named};

/// The name of a mailbox's handover: the machines' name, its queue, and the queue's own name. No value of it is made.
pub struct ContentsName<N, M: Named> {
    pub name: N,
    pub posted: Option<N>,
    pub queue: MessageQueue<M>,
}

/// The pass that takes messages. It lies with the machine, so that who has the machine takes them.
#[derive(Drop)]
pub struct Reader<M: Named> {
    pub pass: MessagePass<M>,
    pub ghost ready: { (pass.id ≡ 0) × (pass.me.hand ≡ None) × (pass.me.spare ≡ None) },
}

/// The value at a mailbox's handover: the machine, and the pass that takes its messages.
#[derive(Drop)]
pub struct Contents<F: Fsm> {
    pub machine: F,
    pub reader: Reader<F::Message>,
}

impl<F: Fsm> Named for Contents<F> {
    ghost use Rattle.rs_mailbox.specs.ContentsNames.{contents_name};

    type Name = ContentsName<F::Name, F::Message>;

    ghost name = { contents_name F.name };
}

impl<F: Fsm> HasCount for Contents<F> {
    ghost use Rattle.rs_mailbox.specs.ContentsNames.{taken};

    ghost count = { λ c. length (taken c) };
}
