ghost use Rattle.std.specs.Prelude.{◌≡◌, ◌<◌, ◌≤◌, ◌^◌, [], ◌∷◌, ◌++◌, length, OnOk, OnErr, MatchOption, IsTrue, ◌↔◌, slice_get};
ghost use Rattle.std.specs.Iterator.Runs.{EveryRun, ItemsMapTo};
ghost use Rattle.std.specs.Slice.Iter.{iter_rest, iter_steps};

use crate::no_memory::NoMemory;
use std::alloc::Global;
use std::marker::Model;
use std::slice;

/// A list that grows at its end. Contracts see it as a list.
#[derive(Debug, Drop)]
pub struct Rows<T> {
    items: Vec<T>,
}

impl<T> Model for Rows<T> {
    ghost use Rattle.std.specs.Prelude.{List};

    ghost Value = { List T };

    ghost view = { λ r. r.items.items };
}

impl<T> Rows<T> {
    /// Returns the empty list. It takes no memory, and keeps the allocator for its pushes.
    pub fn new(alloc: Global) -> Rows<T>
        ensures { result ≡ [] }
    {
        Rows {
            items: Vec::new(alloc),
        }
    }

    /// Returns the empty list, with room for `room` elements if there is memory for them.
    ///
    /// Without memory the list is empty too, and a push asks for memory again.
    pub fn with_room(alloc: Global, room: usize) -> Rows<T>
        ensures { result ≡ [] }
    {
        let mut items = Vec::new(alloc);
        let _reserved = items.reserve_exact(room);
        Rows { items }
    }

    /// Returns the list of these elements. It takes no memory.
    pub fn from_vec(items: Vec<T>) -> Rows<T>
        ensures { result ≡ items.items }
    {
        Rows { items }
    }

    /// Returns the allocator that pushes take memory from.
    pub fn allocator(&self) -> Global {
        *self.items.allocator()
    }

    /// Returns the number of elements.
    pub fn len(&self) -> usize
        ensures { result ≡ length self.now }
    {
        self.items.len()
    }

    /// Returns whether the list has no elements.
    pub fn is_empty(&self) -> bool
        ensures { IsTrue result ↔ (length self.now ≡ 0) }
    {
        self.items.is_empty()
    }

    /// Returns the element at this place, counted from 0; `None` exactly where the place isn't below the length.
    pub fn get(&self, place: usize) -> Option<&T>
        ensures { MatchOption result (length self.now ≤ place) (λ x. slice_get self.now place ≡ Some x.now) }
    {
        self.items.get(place)
    }

    /// Returns the elements as a slice.
    pub fn as_slice(&self) -> &[T]
        ensures { result.now ≡ self.now }
    {
        self.items.as_slice()
    }

    /// Returns the elements, without a copy.
    pub fn into_vec(self) -> Vec<T>
        ensures { result.items ≡ self }
    {
        self.items
    }

    /// Adds the value at the end. Where memory runs out the list is as it was, and the value is dropped.
    pub fn push(&mut self, value: T) -> Result<(), NoMemory>
    where
        T: Drop,
        ensures ok { OnOk result (self.new ≡ self.old ++ value ∷ []) }
        ensures err { OnErr result (self.new ≡ self.old) }
    {
        self.items.push(value)?;
        Ok(())
    }

    /// Takes out the last element; none exactly where the list is empty.
    pub fn pop(&mut self) -> Option<T>
        ensures { MatchOption result ((self.old ≡ []) × (self.new ≡ [])) (λ last. self.old ≡ self.new ++ last ∷ []) }
    {
        self.items.pop()
    }
}

impl<'a, T> IntoIterator for &'a Rows<T> {
    type Item = &'a T;

    type IntoIter = slice::Iter<'a, T>;

    ghost into_iter_gives = { λ rows it. (iter_rest it ≡ rows.now) × (length (iter_rest it) < 2 ^ 64)
        × EveryRun (iter_steps {A = T}) (λ p. ItemsMapTo p (λ x. x.now) (iter_rest p.from)) };

    fn into_iter(self) -> Self::IntoIter {
        self.as_slice().iter()
    }
}
