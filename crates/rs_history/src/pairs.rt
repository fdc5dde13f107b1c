ghost use Rattle.std.specs.Prelude.{◌≡◌, IfOk};
ghost use Rattle.std.specs.Option.{option_copied};
ghost use Rattle.rs_history.specs.Histories.{pairs_of, last_value, pair_of};

use rs_entry::{Item, KeyHistory, Pair};
use rs_key::{NoMemory, Rows, TryClone, Value};
use std::alloc::Global;

/// Returns each key with its last value, where its last write isn't a deletion.
pub fn pairs_of(alloc: Global, histories: &Rows<KeyHistory>) -> Result<Rows<Pair>, NoMemory>
    ensures { IfOk result (λ pairs. pairs ≡ pairs_of histories.now) }
{
    let mut pairs = Rows::new(alloc);
    for history in histories.as_slice() {
        let Some(pair) = pair_of(history)? else {
            continue;
        };
        pairs.push(pair)?;
    }
    Ok(pairs)
}

fn pair_of(history: &KeyHistory) -> Result<Option<Pair>, NoMemory>
    ensures { IfOk result (λ pair. pair ≡ pair_of history.now) }
{
    match last_value(history.items.as_slice()) {
        None => Ok(None),
        Some(value) => Ok(Some(Pair {
            key: history.key.try_clone()?,
            value: value.try_clone()?,
        })),
    }
}

/// Returns the value of the last write, none where it is a deletion.
fn last_value(items: &[Item]) -> Option<&Value>
    ensures { option_copied result ≡ last_value items.now }
{
    items.last()?.value.as_ref()
}
