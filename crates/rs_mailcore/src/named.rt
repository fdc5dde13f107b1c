ghost use Rattle.std.specs.Prelude.{◌≡◌};

/// A value that belongs to something: its name says to what. A name is plain data, known to contracts alone.
pub trait Named {
    type Name;

    ghost name: { Self → Self.Name };
}

/// A machine that handles messages of its own name, one at a time.
pub trait Fsm: Named + Send + Drop {
    type Message: Named<Name = Self::Name> + Send + Drop;

    ghost one_name: { (x y : Self.Name) → IsProp (x ≡ y) };
}
