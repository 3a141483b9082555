//! The reason why a call has no answer.
use std::alloc::{AllocError, AllocFailed};

/// Why there is no answer.
#[derive(Clone, Copy)]
pub enum NoAnswer {
    /// Memory ran out.
    OutOfMemory,
    /// No call has this name.
    NoCall,
    /// The call takes no such input.
    BadInput,
}

impl From<AllocError> for NoAnswer {
    fn from(_e: AllocError) -> NoAnswer {
        NoAnswer::OutOfMemory
    }
}

impl<T: Drop> From<AllocFailed<T>> for NoAnswer {
    fn from(_e: AllocFailed<T>) -> NoAnswer {
        NoAnswer::OutOfMemory
    }
}

impl From<serde_json::Error> for NoAnswer {
    fn from(e: serde_json::Error) -> NoAnswer {
        if e.is_memory() {
            NoAnswer::OutOfMemory
        } else {
            NoAnswer::BadInput
        }
    }
}
