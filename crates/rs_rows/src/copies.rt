ghost use Rattle.std.specs.Prelude.{◌≡◌, IfOk};

use crate::no_memory::NoMemory;
use crate::rows::Rows;

/// Copies that want memory.
pub trait TryClone {
    /// Returns an equal value. Where memory runs out nothing has changed.
    fn try_clone(&self) -> Result<Self, NoMemory>
    where
        Self: Sized,
        ensures { IfOk result (λ copy. copy ≡ self.now) };
}

impl TryClone for u64 {
    fn try_clone(&self) -> Result<u64, NoMemory> {
        Ok(*self)
    }
}

impl<T: TryClone> TryClone for Option<T> {
    fn try_clone(&self) -> Result<Option<T>, NoMemory> {
        match self {
            None => Ok(None),
            Some(value) => Ok(Some(value.try_clone()?)),
        }
    }
}

impl<T: TryClone + Drop> TryClone for Rows<T> {
    fn try_clone(&self) -> Result<Rows<T>, NoMemory> {
        let mut copy = Rows::with_room(self.allocator(), self.len());
        for row in self.as_slice() {
            copy.push(row.try_clone()?)?;
        }
        Ok(copy)
    }
}
