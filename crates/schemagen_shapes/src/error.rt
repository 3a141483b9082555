//! Why a value is not an input.
ghost use Rattle.std.specs.Prelude.{◌≡◌, Some, None, IfOk, MatchResult};
ghost use Rattle.schemagen_shapes.specs.Errors.{as_input};

use schemars_types::TypesError;
use std::alloc::{AllocError, AllocFailed};

/// Why a value is not an input.
#[derive(Clone, Copy, Debug, PartialEq, Eq)]
pub enum InputError {
    /// Memory ran out.
    OutOfMemory,
    /// The value is not a table with a number for its root.
    BadTable,
}

impl From<AllocError> for InputError {
    ghost use Rattle.schemagen_shapes.specs.declared.error.InputError.TheVariants.{OutOfMemory};

    ghost from_gives = { λ _ e. e ≡ OutOfMemory };

    fn from(_e: AllocError) -> InputError {
        InputError::OutOfMemory
    }
}

impl<T: Drop> From<AllocFailed<T>> for InputError {
    ghost use Rattle.schemagen_shapes.specs.declared.error.InputError.TheVariants.{OutOfMemory};

    ghost from_gives = { λ _ e. e ≡ OutOfMemory };

    fn from(_e: AllocFailed<T>) -> InputError {
        InputError::OutOfMemory
    }
}

impl From<TypesError> for InputError {
    ghost from_gives = { λ e r. r ≡ as_input e };

    fn from(e: TypesError) -> InputError {
        match e {
            TypesError::OutOfMemory => InputError::OutOfMemory,
            _ => InputError::BadTable,
        }
    }
}

/// What is said, or that it is not of a table.
pub fn if_said<T>(said: Result<T, InputError>) -> Result<Option<T>, AllocError>
    ensures { IfOk result (λ found. MatchResult said (λ t. found ≡ Some t)
        (λ e. (e ≡ InputError.BadTable) × (found ≡ None))) }
{
    match said {
        Ok(found) => Ok(Some(found)),
        Err(InputError::BadTable) => Ok(None),
        Err(InputError::OutOfMemory) => Err(AllocError),
    }
}
