ghost use Rattle.std.specs.Prelude.{◌≡◌, ℕ, List};
ghost use mathlib.Core.Option.{some};
ghost use lib.ListN.{get_elem?};
ghost use Rattle.rs_mailbox.specs.declared.ticket.Ticket.{Ticket};
ghost use Rattle.rs_steal.specs.declared.deque_rule.DequeView.{DequeView};
ghost use Rattle.rs_steal.specs.Rule.{Holds, WasEmpty, addresses};
ghost use Rattle.rs_steal.specs.Once.{EachOnce};
ghost use Rattle.rs_steal.specs.Turn.{LeftInTurn};

/// What holds of each deque between any two steps, whatever passes push, pop and steal. It does nothing: its contract
/// tells it.
///
/// `items` is what the deque holds, oldest first, and `views` what each of its passes knows, the owner's first. The
/// tickets have left in the order of the pushes, each taken by exactly one pass, and the deque holds the others.
pub fn deque_laws()
    ensures turn { (items : List Ticket) (views : List DequeView) (v : DequeView) → Holds items views → get_elem? views 0 ≡ some v → LeftInTurn (addresses items) views v.pushed }
    ensures once { (items : List Ticket) (views : List DequeView) → Holds items views → EachOnce (addresses items) views }
    ensures alone { (v : DequeView) → WasEmpty v → v.count ≡ 1 → v.popped ≡ v.pushed }
{}
