//! The text of lawful logs: how many stores, addresses and applied entries there are.

ghost use Rattle.std.specs.Prelude.{◌≡◌, ◌∷◌, [], ◌-◌, ◌<◌, ◌^◌, IfOk};
ghost use Rattle.rs_field.specs.Forms.{Appends, more_text, number};
ghost use Rattle.raftreplay.specs.Expected.{applied_entries, lawful_text};

use itoa::Buffer;
use rs_check::Plan;
use rs_field::{Text, put_word};
use rs_key::NoMemory;
use std::alloc::Global;

/// Returns `lawful STORES ADDRESSES ENTRIES`.
pub fn write_lawful(alloc: Global, plan: &Plan) -> Result<Vec<u8>, NoMemory>
    ensures { IfOk result (λ text. text.items ≡ lawful_text plan.now) }
{
    let stores = plan.input().stores.len() as u64;
    let mut text = Vec::new(alloc);
    put_word(&mut text, "lawful")?;
    stores.put(&mut text)?;
    u64::from(plan.count()).put(&mut text)?;
    put_count(&mut text, applied_entries(plan))?;
    put_word(&mut text, "\n")?;
    Ok(text)
}

/// Returns how many entries are applied, over all addresses.
fn applied_entries(plan: &Plan) -> u128
    ensures { result ≡ applied_entries plan.now }
{
    let mut total: u128 = 0;
    for address in 0..plan.count() {
        total += u128::from(plan.stop(address).saturating_sub(5));
    }
    total
}

/// Appends a space and the decimal digits of a number.
pub fn put_count(text: &mut Vec<u8>, n: u128) -> Result<(), NoMemory>
    ensures { Appends result text.old text.new (more_text (number n ∷ [])) }
{
    let mut buffer = Buffer::new();
    put_word(text, " ")?;
    put_word(text, buffer.format(n))
}
