//! Parts that stand one after another.

ghost use Rattle.std.specs.Prelude.{◌≡◌, ◌<◌, ℕ};
ghost use Rattle.rs_bin.specs.Reading.{Rest, Read, Takes, many_at};

use crate::cursor::Cursor;
use crate::error::PartError;
use rs_key::Rows;
use std::alloc::Global;

/// The most parts for which room is taken before they are read.
const ROOM: usize = 1_048_576;

/// An element of a list of a file.
pub trait Part: Drop {
    // Reading one, by a number that the parts before it make, and by how many parts of its list follow it.
    ghost at: { ℕ → ℕ → Rest → Read Self };

    // The number for the next part.
    ghost next: { ℕ → Self → ℕ };

    /// Returns the least number of bytes that a value has in the file.
    fn least() -> usize
    where
        Self: Sized,
        ensures { 0 < result };

    /// Takes one from the front, or tells how many bytes are left at the first field that is cut short or bad.
    fn take(
        alloc: Global,
        number: u64,
        left: u32,
        cursor: &mut Cursor<'_>,
    ) -> Result<Self, PartError>
    where
        Self: Sized,
        ensures { Takes result cursor.new (at number left cursor.old) };

    /// Returns the number by which the next part is read.
    fn next(&self, number: u64) -> u64
        ensures { result ≡ next number self.now };
}

/// Takes `count` parts, the first of them by the number. Reserves room for no more parts than the bytes can hold.
pub fn many<T: Part>(
    alloc: Global,
    first: u64,
    count: u32,
    cursor: &mut Cursor<'_>,
) -> Result<Rows<T>, PartError>
    ensures { Takes result cursor.new (many_at T.at T.next first count cursor.old) }
{
    let mut parts = Rows::with_room(alloc, room_for(count, cursor.left(), T::least()));
    let mut number = first;
    for place in 0..count {
        let part = T::take(alloc, number, count - place - 1, cursor)?;
        number = part.next(number);
        parts.push(part)?;
    }
    Ok(parts)
}

/// Returns for how many parts room is reserved: for no more than the bytes left can hold.
fn room_for(count: u32, left: usize, least: usize) -> usize
    requires { 0 < least }
{
    (count as usize).min(left / least).min(ROOM)
}
