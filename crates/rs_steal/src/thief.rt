ghost use Rattle.std.specs.Prelude.{◌≡◌};
ghost use Rattle.crossbeam_deque.specs.Handles.{IsPassOf, stealer_deque, stealer_flavor};

use crate::deque_rule::{DequePass, Foreign};

/// A stealer of another pass's deque.
#[derive(Drop)]
pub struct Thief {
    pub stealer: Foreign,
    pub pass: DequePass,
    ghost own: { IsPassOf (stealer_deque stealer) pass },
    ghost fifo: { stealer_flavor stealer ≡ 0 },
}
