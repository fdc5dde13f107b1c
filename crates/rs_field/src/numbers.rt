//! Fields that are numbers or words.

ghost use Rattle.std.specs.Prelude.{◌≡◌};
ghost use Rattle.std.specs.Str.{bytes_eq};
ghost use Rattle.rs_field.specs.Fields.{decimal_of, number_of, id_of};

use crate::fault::TextKind;

/// The greatest number of a text.
const TOP: u64 = 9_223_372_036_854_775_807;

/// Returns the value of decimal digits below 2 ^ 63.
fn decimal_of(field: &[u8]) -> Option<u64>
    ensures { result ≡ decimal_of field.now }
{
    let mut n: u64 = 0;
    for b in field {
        if *b < b'0' || b'9' < *b || n > TOP / 10 {
            return None;
        }
        n = n * 10 + u64::from(*b - b'0');
    }
    if n > TOP {
        return None;
    }
    Some(n)
}

/// Returns the number that a field spells: decimal digits without a leading zero, at most 9,223,372,036,854,775,807.
#[tactic(auto, unfolding(crate::specs::Fields::number_of))]
pub fn number_of(field: &[u8]) -> Result<u64, TextKind>
    ensures { result ≡ number_of field.now }
{
    match field {
        [] => Err(TextKind::BadNumber),
        [b'0', _, ..] => Err(TextKind::BadNumber),
        _ => decimal_of(field).ok_or(TextKind::BadNumber),
    }
}

/// Returns the id that a field spells: a number of at least 1.
#[tactic(auto, unfolding(crate::specs::Fields::id_of))]
pub fn id_of(field: &[u8]) -> Result<u64, TextKind>
    ensures { result ≡ id_of field.now }
{
    let n = number_of(field)?;
    if n == 0 {
        return Err(TextKind::BadNumber);
    }
    Ok(n)
}

/// Returns whether a field is this word.
pub fn is_word(field: &[u8], word: &str) -> bool
    ensures { result ≡ bytes_eq field.now word.now }
{
    field == word.as_bytes()
}
