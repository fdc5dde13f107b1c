ghost use Rattle.std.specs.Prelude.{◌≡◌, ◌/◌, true, is_some, length, Ok, IfOk, OnErr, IsErr, MatchBool};
ghost use Rattle.hex.specs.Hex.{decode_sized};
ghost use Rattle.raftreplay.specs.Words.{key_word};

use rs_key::{Bytes, Key, NoMemory};
use std::alloc::Global;

// Decodes the word's digits into room for half as many bytes; false where they are odd, or no digits.
fn decode_into(word: &str, bytes: &mut [u8]) -> bool
    requires { length bytes.old ≡ length word.now / 2 }
    ensures { MatchBool result (decode_sized word.now (length word.now / 2) ≡ Ok bytes.new) (IsErr (decode_sized word.now (length word.now / 2))) }
{
    match hex::decode_to_slice(word, bytes) {
        Ok(()) => true,
        Err(_) => false,
    }
}

/// Returns the key that a word spells: 2 to 512 hexadecimal digits of either case, an even number of them.
///
/// Whether it spells one is found without memory, so memory runs out only for words that do.
#[tactic(auto, using(crate::proofs::KeyWords::spelled, crate::proofs::KeyWords::too_short, crate::proofs::KeyWords::too_long, crate::proofs::KeyWords::no_digits))]
pub fn key_word(alloc: Global, word: &str) -> Result<Option<Key>, NoMemory>
    ensures ok { IfOk result (λ key. key ≡ key_word word.now) }
    ensures err { OnErr result (is_some (key_word word.now) ≡ true) }
{
    let count = word.len() / 2;
    if count == 0 || count > Key::MOST {
        return Ok(None);
    }
    let mut buffer = [0u8; 256];
    let bytes = &mut buffer[..count];
    if !decode_into(word, bytes) {
        return Ok(None);
    }
    let bytes = Bytes::new(alloc, bytes)?;
    Ok(Some(Key::from_bytes(bytes)))
}
