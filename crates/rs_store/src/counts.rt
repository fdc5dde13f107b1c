ghost use Rattle.std.specs.Prelude.{◌≡◌, ℕ, ◌+◌, ◌<◌, ◌≤◌, ◌^◌, length};
ghost use Rattle.std.specs.List.{sum_by};
ghost use Rattle.rs_store.specs.Stores.{carried_in, entries_in};
ghost use Rattle.rs_store.specs.Formed.{steps_of, steps_in};

use rs_entry::{Body, Entry, Log, Store};
use rs_region::{Action, action_of};

fn carried_in(body: &Body) -> usize
    ensures { result ≡ carried_in body.now }
{
    match action_of(body) {
        Action::Merges { carried, .. } => carried.len(),
        _ => 0,
    }
}

fn steps_in(entries: &[Entry]) -> usize
    requires { sum_by steps_of entries.now < 2 ^ 50 }
    ensures { result ≡ sum_by steps_of entries.now }
{
    let mut total: usize = 0;
    for entry in entries {
        total += 1 + carried_in(&entry.body);
    }
    total
}

/// Returns how many entries the store's logs hold, the carried ones too.
pub fn entries_in(store: &Store) -> usize
    requires { entries_in store.now < 2 ^ 50 }
    ensures { result ≡ entries_in store.now }
{
    let mut total: usize = 0;
    for log in store.logs.as_slice() {
        total += steps_in(log.entries.as_slice());
    }
    total
}
