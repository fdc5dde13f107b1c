ghost use Rattle.std.specs.Prelude.{◌≡◌, length};

use crate::contents::Contents;
use crate::hand::Hand;
use crate::trail::MessagePass;
use rs_mailcore::Fsm;

/// One caller's seat at a mailbox: a hand, and a pass that sends. It has 8 bytes at run time. Outside any call it has
/// announced all that it has pushed, and is calm, unless it has a turn that isn't spent.
#[derive(Drop)]
pub struct Station<F: Fsm> {
    pub(crate) hand: Hand<Contents<F>>,
    pub(crate) sender: MessagePass<F::Message>,
    pub(crate) announced: u64,
    ghost counted: { hand.seat.me.0.stance.announced ≡ announced },
    ghost all_announced: { length sender.me.view.client.sent ≡ announced },
}
