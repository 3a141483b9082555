//! Why transforms are not copied.
use std::alloc::{AllocError, AllocFailed};
use thiserror::Error;

/// An error of a copy of transforms.
#[derive(Clone, Copy, Debug, Error)]
pub enum CloneError {
    /// Out of memory.
    #[error("Memory")]
    Memory,
    /// A transform is user-defined.
    #[error("OwnTransform")]
    OwnTransform,
}

impl From<AllocError> for CloneError {
    ghost use Rattle.std.specs.Prelude.{◌≡◌};
    ghost use Rattle.schemars_transform.specs.declared.error.CloneError.TheVariants.{Memory};

    ghost from_gives = { λ _ e. e ≡ Memory };

    fn from(_e: AllocError) -> CloneError {
        CloneError::Memory
    }
}

impl<T: Drop> From<AllocFailed<T>> for CloneError {
    ghost use Rattle.std.specs.Prelude.{◌≡◌};
    ghost use Rattle.schemars_transform.specs.declared.error.CloneError.TheVariants.{Memory};

    ghost from_gives = { λ _ e. e ≡ Memory };

    fn from(e: AllocFailed<T>) -> CloneError {
        CloneError::from(AllocError::from(e))
    }
}
