//! Why a source is refused, and where.
use std::alloc::{AllocError, AllocFailed, Global};

/// A place in a source. Lines and columns count from 1, and columns count characters.
#[derive(Clone, Copy, Debug, PartialEq, Eq)]
pub struct Place {
    /// the line
    pub line: usize,
    /// the column
    pub column: usize,
}

/// What is wrong at a place.
#[derive(Debug, Drop)]
pub struct Refusal {
    /// where it is
    pub place: Place,
    /// what it is
    pub reason: String,
}

/// Why a source is not read.
#[derive(Debug, Drop)]
pub enum Fault {
    /// Memory ran out.
    OutOfMemory,
    /// The source has something that is not read.
    Refused(Refusal),
}

impl From<AllocError> for Fault {
    fn from(_e: AllocError) -> Fault {
        Fault::OutOfMemory
    }
}

impl<T: Drop> From<AllocFailed<T>> for Fault {
    fn from(_e: AllocFailed<T>) -> Fault {
        Fault::OutOfMemory
    }
}

/// The fault of what is at this place.
pub fn refused(alloc: Global, place: Place, reason: &str) -> Fault {
    match String::from_str(alloc, reason) {
        Ok(reason) => Fault::Refused(Refusal { place, reason }),
        Err(_) => Fault::OutOfMemory,
    }
}
