use rs_apply::ApplyFsm;
use rs_entry::Input;
use rs_mailcore::Fsm;
use rs_meta::StoreFsm;
use rs_peer::PeerFsm;

/// A machine of a plan.
pub trait Machine: Fsm<Name = Input> {
    ghost use Rattle.std.specs.Prelude.{ℕ};
    ghost use Rattle.rs_entry.specs.declared.input.Input.{Input};

    /// The number of machines of this kind that a plan has.
    ghost count: { Input → ℕ };
}

impl<'p> Machine for PeerFsm<'p> {
    ghost use Rattle.rs_check.specs.Values.{count_of};

    ghost count = { count_of };
}

impl<'p> Machine for ApplyFsm<'p> {
    ghost use Rattle.rs_check.specs.Values.{count_of};

    ghost count = { count_of };
}

impl<'p> Machine for StoreFsm<'p> {
    ghost use Rattle.std.specs.Prelude.{length};

    ghost count = { λ input. length input.stores };
}
