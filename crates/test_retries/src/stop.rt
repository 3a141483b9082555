//! Why the program stops.
use schemagen_input::{SampleError, TextError};
use schemagen_run::fault::{Fault, OUT_OF_MEMORY};
use schemars::GenerateError;
use schemars::schema::OrderedError;
use schemars::types::TypesError;
use std::alloc::{AllocError, AllocFailed};
use std::io;

/// Why the program stops, or makes a call again.
#[derive(Clone, Copy, Debug)]
pub(crate) enum Stop {
    /// Memory was refused.
    Memory,
    /// A call was refused for another reason.
    Refused,
    /// A call that ran out of memory has changed something.
    Changed,
}

fn stop_at(is_memory: bool) -> Stop {
    if is_memory {
        Stop::Memory
    } else {
        Stop::Refused
    }
}

impl From<AllocError> for Stop {
    fn from(_error: AllocError) -> Stop {
        Stop::Memory
    }
}

impl<T: Drop> From<AllocFailed<T>> for Stop {
    fn from(_error: AllocFailed<T>) -> Stop {
        Stop::Memory
    }
}

impl From<GenerateError> for Stop {
    fn from(error: GenerateError) -> Stop {
        stop_at(error.code() == OUT_OF_MEMORY)
    }
}

impl From<TypesError> for Stop {
    fn from(error: TypesError) -> Stop {
        stop_at(error.code() == OUT_OF_MEMORY)
    }
}

impl From<OrderedError> for Stop {
    fn from(error: OrderedError) -> Stop {
        stop_at(error.code() == OUT_OF_MEMORY)
    }
}

impl From<Fault> for Stop {
    fn from(fault: Fault) -> Stop {
        stop_at(fault == Fault::Refused(OUT_OF_MEMORY))
    }
}

impl From<TextError> for Stop {
    fn from(error: TextError) -> Stop {
        stop_at(error == TextError::OutOfMemory)
    }
}

impl From<SampleError> for Stop {
    fn from(error: SampleError) -> Stop {
        stop_at(error == SampleError::OutOfMemory)
    }
}

impl From<serde_json::Error> for Stop {
    fn from(error: serde_json::Error) -> Stop {
        stop_at(error.is_memory())
    }
}

impl From<io::Error> for Stop {
    fn from(error: io::Error) -> Stop {
        stop_at(error.kind() == io::ErrorKind::OutOfMemory)
    }
}
