ghost use Rattle.std.specs.Prelude.{◌≡◌, ◌↔◌, IsTrue, Bool, nat_eq};
ghost use Rattle.rs_rows.specs.Lists.{same_lists, same_options};

use crate::rows::Rows;

/// Equality of plain data.
pub trait Same {
    // The test that is computed.
    ghost equals: { Self → Self → Bool };

    /// Returns whether the two values are equal: exactly, and as the test computes.
    fn is_same(&self, other: &Self) -> bool
        ensures test { result ≡ equals self.now other.now }
        ensures exact { IsTrue result ↔ (self.now ≡ other.now) };
}

impl Same for u64 {
    ghost equals = { nat_eq };

    fn is_same(&self, other: &u64) -> bool {
        *self == *other
    }
}

impl<T: Same> Same for Option<T> {
    ghost equals = { same_options T.equals };

    fn is_same(&self, other: &Option<T>) -> bool {
        match (self, other) {
            (None, None) => true,
            (Some(a), Some(b)) => a.is_same(b),
            _ => false,
        }
    }
}

impl<T: Same> Same for Rows<T> {
    ghost equals = { same_lists T.equals };

    fn is_same(&self, other: &Rows<T>) -> bool {
        if self.len() != other.len() {
            return false;
        }
        let a = self.as_slice();
        let b = other.as_slice();
        for i in 0..a.len() {
            if !a[i].is_same(&b[i]) {
                return false;
            }
        }
        true
    }
}
