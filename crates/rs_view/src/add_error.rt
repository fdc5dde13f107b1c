use thiserror::Error;

/// Why a reshaping isn't added.
#[derive(Debug, Drop, Error)]
pub enum AddError {
    #[error("the reshaping doesn't follow the cut")]
    NotNext,
    #[error("out of memory")]
    NoMemory,
}
