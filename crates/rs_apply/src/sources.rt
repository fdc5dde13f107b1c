//! What sources have handed over.

ghost use Rattle.std.specs.Prelude.{◌≡◌, false, MatchOption};
ghost use Rattle.std.specs.List.{list_any};
ghost use Rattle.rs_apply.specs.Merges.{is_of, TakesFirst};

use rs_msg::Closed;

/// Takes out what the source at the address has handed over after this prepare.
pub fn take_closed<'p>(
    closed: &mut Vec<Closed<'p>>,
    address: u32,
    commit: u64,
) -> Option<Closed<'p>>
    ensures { MatchOption result ((list_any (is_of address commit) closed.old.items ≡ false) × (closed.new.items ≡ closed.old.items)) (λ x. TakesFirst (is_of address commit) x closed.old.items closed.new.items) }
{
    for place in 0..closed.len() {
        if is_of(&closed[place], address, commit) {
            return Some(closed.remove(place));
        }
    }
    None
}

/// Returns whether the source at the address handed over its state for the commit at this index.
pub fn has_closed(closed: &[Closed<'_>], address: u32, commit: u64) -> bool
    ensures { result ≡ list_any (is_of address commit) closed.now }
{
    for one in closed {
        if is_of(one, address, commit) {
            return true;
        }
    }
    false
}

fn is_of(one: &Closed<'_>, address: u32, commit: u64) -> bool
    ensures { result ≡ is_of address commit one.now }
{
    one.address() == address && one.commit() == commit
}
