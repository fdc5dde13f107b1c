ghost use Rattle.std.specs.Prelude.{◌∷◌, [], map};
ghost use Rattle.std.specs.Fmt.{decimal};
ghost use Rattle.hex.specs.Hex.{encode_lower};
ghost use Rattle.rs_field.specs.Forms.{Appends, Exact, Hex, number, bound, value, bounds, epoch, field_text, more_text};

use crate::hexadecimal::encode_into;
use itoa::Buffer;
use rs_key::{Epoch, Key, NoMemory, Range, Rows, Value};

/// A value that is written as fields of a line.
pub trait Text {
    ghost use Rattle.rs_field.specs.Forms.{Forms};

    // The fields.
    ghost fields: { Self → Forms };

    /// Appends the fields, each after one space. Where memory runs out a part of them may have been appended.
    fn put(&self, out: &mut Vec<u8>) -> Result<(), NoMemory>
        ensures { Appends result out.old out.new (more_text (fields self.now)) };
}

/// Appends the bytes of a word.
pub fn put_word(out: &mut Vec<u8>, word: &str) -> Result<(), NoMemory>
    ensures { Appends result out.old out.new word.now }
{
    out.extend_from_slice(word.as_bytes())?;
    Ok(())
}

/// Appends the decimal digits of a number. One digit needs no buffer.
pub fn put_number(out: &mut Vec<u8>, n: u64) -> Result<(), NoMemory>
    ensures { Appends result out.old out.new (decimal n) }
{
    if n < 10 {
        out.push(b'0' + n as u8)?;
        return Ok(());
    }
    let mut buffer = Buffer::new();
    put_word(out, buffer.format(n))
}

/// Appends bytes in hexadecimal digits of lower case.
pub fn put_hex(out: &mut Vec<u8>, bytes: &[u8]) -> Result<(), NoMemory>
    ensures { Appends result out.old out.new (encode_lower bytes.now) }
{
    let start = out.len();
    let Some(count) = bytes.len().checked_mul(2) else {
        return Err(NoMemory);
    };
    let Some(end) = start.checked_add(count) else {
        return Err(NoMemory);
    };
    out.resize(end, 0)?;
    encode_into(bytes, &mut out[start..]);
    Ok(())
}

/// Appends a value in hexadecimal digits, or `-` for the empty one.
pub fn put_value(out: &mut Vec<u8>, v: &Value) -> Result<(), NoMemory>
    ensures { Appends result out.old out.new (field_text (value v.now)) }
{
    match v.as_bytes() {
        [] => put_word(out, "-"),
        bytes => put_hex(out, bytes),
    }
}

/// Appends a word and the fields that it names, each after one space.
pub fn put_named<T: Text>(out: &mut Vec<u8>, name: &str, named: &T) -> Result<(), NoMemory>
    ensures { Appends result out.old out.new (more_text (Exact name.now ∷ T.fields named.now)) }
{
    put_word(out, " ")?;
    put_word(out, name)?;
    named.put(out)
}

/// Appends numbers, each after one space.
pub fn put_numbers(out: &mut Vec<u8>, numbers: &[u64]) -> Result<(), NoMemory>
    ensures { Appends result out.old out.new (more_text (map number numbers.now)) }
{
    for n in numbers {
        n.put(out)?;
    }
    Ok(())
}

impl Text for u64 {
    ghost fields = { λ n. number n ∷ [] };

    fn put(&self, out: &mut Vec<u8>) -> Result<(), NoMemory> {
        put_word(out, " ")?;
        put_number(out, *self)
    }
}

impl Text for Key {
    ghost fields = { λ k. Hex k ∷ [] };

    fn put(&self, out: &mut Vec<u8>) -> Result<(), NoMemory> {
        put_word(out, " ")?;
        put_hex(out, self.as_bytes())
    }
}

impl Text for Value {
    ghost fields = { λ v. value v ∷ [] };

    fn put(&self, out: &mut Vec<u8>) -> Result<(), NoMemory> {
        put_word(out, " ")?;
        put_value(out, self)
    }
}

impl Text for Option<Key> {
    ghost fields = { λ b. bound b ∷ [] };

    fn put(&self, out: &mut Vec<u8>) -> Result<(), NoMemory> {
        match self {
            None => put_word(out, " -"),
            Some(key) => key.put(out),
        }
    }
}

impl Text for Range {
    ghost fields = { bounds };

    fn put(&self, out: &mut Vec<u8>) -> Result<(), NoMemory> {
        self.start().put(out)?;
        self.end().put(out)
    }
}

impl Text for Epoch {
    ghost fields = { epoch };

    fn put(&self, out: &mut Vec<u8>) -> Result<(), NoMemory> {
        self.conf_ver.put(out)?;
        self.version.put(out)
    }
}

impl Text for Rows<u64> {
    ghost fields = { λ ns. map number ns };

    fn put(&self, out: &mut Vec<u8>) -> Result<(), NoMemory> {
        put_numbers(out, self.as_slice())
    }
}
