//! Why a text is not written.
ghost use Rattle.std.specs.Prelude.{◌≡◌};

use std::alloc::{AllocError, AllocFailed};

/// Why a text was not written to the end.
#[derive(Clone, Copy, Debug, thiserror::Error)]
pub enum OrderedError {
    /// Out of memory. The writers to a sink take none, and never answer this.
    #[error("OutOfMemory")]
    OutOfMemory,
    /// The sink has failed.
    #[error("Write")]
    Write,
}

impl OrderedError {
    ghost use Rattle.schemars_text.specs.Refusals.{code_of};

    /// The number that callers in other languages know the error by.
    pub fn code(&self) -> u32
        ensures { result ≡ code_of self.now }
    {
        match self {
            OrderedError::OutOfMemory => 1,
            OrderedError::Write => 13,
        }
    }
}

impl From<AllocError> for OrderedError {
    ghost use Rattle.schemars_text.specs.declared.error.OrderedError.TheVariants.{OutOfMemory};

    ghost from_gives = { λ _ e. e ≡ OutOfMemory };

    fn from(_e: AllocError) -> OrderedError {
        OrderedError::OutOfMemory
    }
}

impl<T: Drop> From<AllocFailed<T>> for OrderedError {
    ghost use Rattle.schemars_text.specs.declared.error.OrderedError.TheVariants.{OutOfMemory};

    ghost from_gives = { λ _ e. e ≡ OutOfMemory };

    fn from(e: AllocFailed<T>) -> OrderedError {
        OrderedError::from(AllocError::from(e))
    }
}
