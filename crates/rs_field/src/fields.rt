ghost use Rattle.std.specs.Prelude.{◌≡◌, ◌∷◌, [], MatchOption};
ghost use Rattle.rs_field.specs.Lines.{fields_of};
ghost use Rattle.rs_field.specs.Fields.{field_at, number_at, id_at, key_at, value_at, bound_at, end_at};
ghost use Rattle.rs_field.specs.Gives.{Takes, TakesField, TakesPlain};

use crate::cuts::next_field;
use crate::fault::{LineError, TextKind};
use crate::hexadecimal::hex_of;
use crate::numbers::{id_of, is_word, number_of};
use rs_key::{Bytes, Key, Value};
use std::alloc::Global;
use std::marker::Model;

/// The rest of a line. Contracts see the list of its fields.
///
/// A call that takes a field takes it also where it is bad.
#[derive(Drop)]
pub struct Fields<'a> {
    rest: &'a [u8],
}

impl<'a> Model for Fields<'a> {
    ghost use Rattle.std.specs.Prelude.{List, ℕ};
    ghost use Rattle.rs_field.specs.Lines.{fields_of};

    ghost Value = { List (List ℕ) };

    ghost view = { λ f. fields_of f.rest.now };
}

impl<'a> Fields<'a> {
    /// Returns the fields of the line, which spaces separate.
    pub fn new(line: &'a [u8]) -> Fields<'a>
        ensures { result ≡ fields_of line.now }
    {
        Fields { rest: line }
    }

    /// Takes the next field; none exactly where no field is left.
    pub fn next_field(&mut self) -> Option<&'a [u8]>
        ensures { MatchOption result ((self.old ≡ []) × (self.new ≡ [])) (λ f. self.old ≡ f.now ∷ self.new) }
    {
        let (field, rest) = next_field(self.rest)?;
        self.rest = rest;
        Some(field)
    }

    /// Takes the end of the line; a surplus field is a bad line.
    pub fn end(&mut self) -> Result<(), TextKind>
        ensures { result ≡ end_at self.old }
    {
        match self.next_field() {
            None => Ok(()),
            Some(_) => Err(TextKind::BadLine),
        }
    }

    /// Takes the next field; a missing one is a bad line.
    pub fn field(&mut self) -> Result<&'a [u8], TextKind>
        ensures { TakesField result self.new (field_at self.old) }
    {
        self.next_field().ok_or(TextKind::BadLine)
    }

    /// Takes a number.
    #[tactic(auto, unfolding(crate::specs::Fields::number_at))]
    pub fn number(&mut self) -> Result<u64, TextKind>
        ensures { TakesPlain result self.new (number_at self.old) }
    {
        let field = self.field()?;
        number_of(field)
    }

    /// Takes an id.
    #[tactic(auto, unfolding(crate::specs::Fields::id_at))]
    pub fn id(&mut self) -> Result<u64, TextKind>
        ensures { TakesPlain result self.new (id_at self.old) }
    {
        let field = self.field()?;
        id_of(field)
    }

    /// Takes a key: hexadecimal digits of 1 to 256 bytes.
    #[tactic(auto, unfolding(crate::specs::Fields::key_at))]
    pub fn key(&mut self, alloc: Global) -> Result<Key, LineError>
        ensures { Takes result self.new (key_at self.old) }
    {
        let field = self.field()?;
        let bytes = hex_of(alloc, Key::MOST, field)?;
        Ok(Key::from_bytes(bytes))
    }

    /// Takes a value: hexadecimal digits of 1 to 4,096 bytes, or `-` for the empty value.
    #[tactic(auto, unfolding(crate::specs::Fields::value_at))]
    pub fn value(&mut self, alloc: Global) -> Result<Value, LineError>
        ensures { Takes result self.new (value_at self.old) }
    {
        let field = self.field()?;
        if is_word(field, "-") {
            return Ok(Value::from_bytes(Bytes::empty()));
        }
        let bytes = hex_of(alloc, Value::MOST, field)?;
        Ok(Value::from_bytes(bytes))
    }

    /// Takes a bound: a key, or `-` for none.
    #[tactic(auto, unfolding(crate::specs::Fields::bound_at))]
    pub fn bound(&mut self, alloc: Global) -> Result<Option<Key>, LineError>
        ensures { Takes result self.new (bound_at self.old) }
    {
        let field = self.field()?;
        if is_word(field, "-") {
            return Ok(None);
        }
        let bytes = hex_of(alloc, Key::MOST, field)?;
        Ok(Some(Key::from_bytes(bytes)))
    }
}
