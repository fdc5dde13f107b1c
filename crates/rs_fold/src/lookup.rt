ghost use Rattle.std.specs.Prelude.{◌≡◌, ◌==◌};
ghost use Rattle.std.specs.List.{find};
ghost use Rattle.std.specs.Option.{option_copied, option_map};
ghost use Rattle.rs_key.specs.Keys.{same_bytes};
ghost use Rattle.rs_history.specs.Outcomes.{history_in, history_at};

use rs_entry::{Item, KeyHistory, Outcome, StoreOutcome};
use rs_key::{Key, Rows};

/// Returns the history of the key on the store.
///
/// None exactly where the outcome has no such store, or no history of the key there. It takes no memory.
pub fn history<'a>(outcome: &'a Outcome, store: u64, key: &Key) -> Option<&'a Rows<Item>>
    ensures { option_copied result ≡ history_in outcome.now store key.now }
{
    items_on(store_in(outcome.stores.as_slice(), store), key)
}

fn store_in(stores: &[StoreOutcome], id: u64) -> Option<&StoreOutcome>
    ensures { option_copied result ≡ find (λ s. s.id == id) stores.now }
{
    stores.iter().find(|store| store.id == id)
}

fn items_on<'a>(store: Option<&'a StoreOutcome>, key: &Key) -> Option<&'a Rows<Item>>
    ensures { option_copied result ≡ history_at (option_copied store.entry) key.now }
{
    match store {
        None => None,
        Some(store) => items_in(store.histories.as_slice(), key),
    }
}

fn items_in<'a>(histories: &'a [KeyHistory], key: &Key) -> Option<&'a Rows<Item>>
    ensures { option_copied result ≡ option_map (λ h. h.items) (find (λ h. same_bytes h.key key.now) histories.now) }
{
    let history = histories.iter().find(|history| history.key == *key)?;
    Some(&history.items)
}
