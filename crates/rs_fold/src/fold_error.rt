ghost use Rattle.std.specs.Prelude.{◌≡◌};
ghost use Rattle.rs_fold.specs.declared.fold_error.FoldError.TheVariants as errors;

use rs_key::NoMemory;
use std::alloc::AllocError;
use thiserror::Error;

/// The error of an order that gives no outcome.
#[derive(Clone, Copy, Debug, PartialEq, Eq, Error)]
pub enum FoldError {
    /// The region at this place of the order, counted from 1, isn't ready in its turn. It is the first such place.
    #[error("the region at place {0} of the order isn't ready in its turn")]
    NotReady(u64),
    /// The order ends where this region is still ready. It is the least such region.
    #[error("the order ends where region {0} is still ready")]
    Unfinished(u64),
    /// Memory ran out.
    #[error("out of memory")]
    NoMemory,
}

impl From<NoMemory> for FoldError {
    ghost from_gives = { λ _ e. e ≡ errors.NoMemory };

    fn from(_: NoMemory) -> FoldError {
        FoldError::NoMemory
    }
}

impl From<AllocError> for FoldError {
    ghost from_gives = { λ _ e. e ≡ errors.NoMemory };

    fn from(_: AllocError) -> FoldError {
        FoldError::NoMemory
    }
}
