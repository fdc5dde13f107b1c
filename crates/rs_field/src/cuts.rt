//! Where fields and lines end.

ghost use Rattle.std.specs.Prelude.{◌≡◌, ◌==◌, ◌∷◌, ◌≤◌, ◌<◌, ℕ, [], length, not, false, slice_index, MatchOption, IfSome};
ghost use Rattle.std.specs.List.{position_or_len, list_any};
ghost use Rattle.rs_field.specs.Lines.{parts_of, fields_of};

/// The number of bytes that are compared together.
const BLOCK: usize = 16;

/// Returns whether the byte is among these. All of them are looked at, so that a processor can compare many at once.
fn has(block: &[u8], byte: u8) -> bool
    ensures { result ≡ list_any (λ b. b == byte) block.now }
{
    let mut found = false;
    for b in block {
        found |= *b == byte;
    }
    found
}

/// Returns the end of the blocks at the front that don't have the byte.
fn blocks_without(bytes: &[u8], byte: u8) -> usize
    ensures within { result ≤ length bytes.now }
    ensures none { (k : ℕ) → k < result → (slice_index bytes.now k == byte) ≡ false }
{
    let mut end = 0;
    'skip: while bytes.len() - end >= BLOCK {
        if has(&bytes[end..end + BLOCK], byte) {
            return end;
        }
        end += BLOCK;
    }
    end
}

/// Returns where the byte first stands, or the length where it doesn't.
fn place_of(bytes: &[u8], byte: u8) -> usize
    ensures place { result ≡ position_or_len (λ b. b == byte) bytes.now }
    ensures bound { result ≤ length bytes.now }
{
    let start = blocks_without(bytes, byte);
    for i in start..bytes.len() {
        if bytes[i] == byte {
            return i;
        }
    }
    bytes.len()
}

/// Returns how many spaces stand at the front.
fn spaces_of(bytes: &[u8]) -> usize
    ensures place { result ≡ position_or_len (λ b. not (b == 32)) bytes.now }
    ensures bound { result ≤ length bytes.now }
{
    for (i, b) in bytes.iter().enumerate() {
        if *b != b' ' {
            return i;
        }
    }
    bytes.len()
}

/// Returns the first field and what follows it; `None` exactly where the line has no field.
pub fn next_field(line: &[u8]) -> Option<(&[u8], &[u8])>
    ensures { MatchOption result (fields_of line.now ≡ []) (λ p. fields_of line.now ≡ p.0.now ∷ fields_of p.1.now) }
{
    let rest = &line[spaces_of(line)..];
    if rest.is_empty() {
        return None;
    }
    let (field, after) = rest.split_at(place_of(rest, b' '));
    Some((field, after))
}

/// Returns the first line and the text after its LF; `None` exactly where the text has no LF.
pub fn next_line(text: &[u8]) -> Option<(&[u8], &[u8])>
    ensures parts { MatchOption result (parts_of text.now ≡ text.now ∷ []) (λ p. parts_of text.now ≡ p.0.now ∷ parts_of p.1.now) }
    ensures shorter { IfSome result (λ p. length p.1.now < length text.now) }
{
    let end = place_of(text, b'\n');
    if end == text.len() {
        return None;
    }
    Some((&text[..end], &text[end + 1..]))
}
