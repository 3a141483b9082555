//! Why no text is made.

use std::alloc::{AllocError, AllocFailed};

/// Why no text is made of a schema in parts.
#[derive(Drop)]
pub enum Stop {
    /// Memory ran out.
    OutOfMemory(AllocError),
    /// The schema has to be made first.
    NotCovered,
}

impl From<AllocError> for Stop {
    ghost from_gives = { λ _ _. Unit {0} };

    fn from(error: AllocError) -> Stop {
        Stop::OutOfMemory(error)
    }
}

impl<T: Drop> From<AllocFailed<T>> for Stop {
    ghost from_gives = { λ _ _. Unit {0} };

    fn from(_error: AllocFailed<T>) -> Stop {
        Stop::OutOfMemory(AllocError)
    }
}
