ghost use Rattle.std.specs.Prelude.{ℕ};

use rs_mailcore::Named;

/// The value at a handover. Its count is the number of messages that were taken for it.
pub trait HasCount: Named {
    ghost count: { Self → ℕ };
}

/// The value with its handled count.
#[derive(Drop)]
pub struct Stored<T> {
    pub value: T,
    pub handled: u64,
}
