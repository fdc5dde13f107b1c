ghost use Rattle.std.specs.Prelude.{◌≡◌, ◌+◌, ◌^◌, ◌<◌};
ghost use Rattle.std.specs.Borrow.{sem};
ghost use Rattle.rs_mailbox.specs.Lending.{LendsValue};

use crate::stored::Stored;

/// The value while a caller has it. It is spent by `release` or `reschedule`. Where it is dropped, its hand keeps
/// holding for good.
#[derive(Drop)]
pub struct Held<T> {
    pub stored: Stored<T>,
}

impl<T> Held<T> {
    /// Returns how many messages were handled.
    pub fn handled(&self) -> u64
        ensures { result ≡ self.now.stored.handled }
    {
        self.stored.handled
    }

    /// Counts one more as handled.
    pub fn raise(&mut self)
        requires { self.old.stored.handled < 2 ^ 62 }
        ensures value { self.new.stored.value ≡ self.old.stored.value }
        ensures handled { self.new.stored.handled ≡ self.old.stored.handled + 1 }
    {
        self.stored.handled += 1;
    }

    /// Lends the value. The handled count stays.
    pub fn value(&mut self) -> &mut T
        ensures* writes_back { sem 𝓛 (LendsValue T.row self.entry result) }
        ensures value { result.now ≡ self.old.stored.value }
    {
        let stored = &mut self.stored;
        &mut stored.value
    }
}
