//! How a walk over a value stops, and the place that it reports.
use crate::fault::InputFault;
use std::alloc::{AllocError, AllocFailed, Global};

/// Why a walk over a value stopped.
#[derive(Drop)]
pub enum Stop {
    OutOfMemory,
    /// The place is relative to the value at which the walk is.
    Fault(InputFault),
}

impl From<AllocError> for Stop {
    fn from(_e: AllocError) -> Stop {
        Stop::OutOfMemory
    }
}

impl<T: Drop> From<AllocFailed<T>> for Stop {
    fn from(_e: AllocFailed<T>) -> Stop {
        Stop::OutOfMemory
    }
}

/// A fault of the value at which the walk is.
pub fn refuse(alloc: Global, reason: &str) -> Result<(), Stop> {
    let reason = String::from_str(alloc, reason)?;
    fault_here(alloc, reason)
}

/// The same with a reason that was made for it.
pub fn fault_here(alloc: Global, reason: String) -> Result<(), Stop> {
    Err(Stop::Fault(InputFault {
        place: String::new(alloc),
        reason,
    }))
}

/// The result of a walk over a member, with places relative to the object.
pub fn inside(alloc: Global, name: &str, found: Result<(), Stop>) -> Result<(), Stop> {
    match found {
        Err(Stop::Fault(fault)) => {
            let mut place = escaped(alloc, name)?;
            place.push_str(fault.place.as_str())?;
            let reason = fault.reason;
            Err(Stop::Fault(InputFault { place, reason }))
        }
        _ => found,
    }
}

/// The result of a walk over an item, with places relative to the list.
pub fn inside_item(alloc: Global, n: usize, found: Result<(), Stop>) -> Result<(), Stop> {
    let name = format!(in alloc; "{n}")?;
    inside(alloc, name.as_str(), found)
}

// The step of a JSON Pointer to the member of this name.
fn escaped(alloc: Global, name: &str) -> Result<String, AllocError> {
    let mut step = String::from_str(alloc, "/")?;
    for c in name.chars() {
        match c {
            '~' => step.push_str("~0")?,
            '/' => step.push_str("~1")?,
            _ => step.push(c)?,
        }
    }
    Ok(step)
}
