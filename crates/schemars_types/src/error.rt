use std::alloc::{AllocError, AllocFailed};
use thiserror::Error;

/// An error of a table.
#[derive(Debug, Drop, Error)]
pub enum TypesError {
    /// Out of memory.
    #[error("OutOfMemory")]
    OutOfMemory,
    /// This row was reserved but never defined.
    #[error("UndefinedType")]
    UndefinedType(usize),
    /// This row has two fields, or two variants, of this name.
    #[error("RepeatedName")]
    RepeatedName(usize, String),
    /// This row is on a cycle of rows that are written in place.
    #[error("DirectCycle")]
    DirectCycle(usize),
    /// This row is on a cycle of rows that have the values of the next.
    #[error("EmptyCycle")]
    EmptyCycle(usize),
    /// This row has another entry already.
    #[error("AlreadyDefined")]
    AlreadyDefined(usize),
    /// The table has no row of this number.
    #[error("UnknownType")]
    UnknownType(usize),
}

impl TypesError {
    ghost use Rattle.std.specs.Prelude.{◌≡◌};
    ghost use Rattle.schemars_types.specs.Refusals.{code_of};

    /// Returns the number of the error, for callers in other languages.
    pub fn code(&self) -> u32
        ensures { result ≡ code_of self.now }
    {
        match self {
            TypesError::OutOfMemory => 1,
            TypesError::UndefinedType(_) => 2,
            TypesError::RepeatedName(_, _) => 3,
            TypesError::DirectCycle(_) => 4,
            TypesError::EmptyCycle(_) => 5,
            TypesError::AlreadyDefined(_) => 6,
            TypesError::UnknownType(_) => 8,
        }
    }
}

impl From<AllocError> for TypesError {
    ghost use Rattle.std.specs.Prelude.{◌≡◌};
    ghost use Rattle.schemars_types.specs.declared.error.TypesError.TheVariants.{OutOfMemory};

    ghost from_gives = { λ _ e. e ≡ OutOfMemory };

    fn from(_e: AllocError) -> TypesError {
        TypesError::OutOfMemory
    }
}

impl<T: Drop> From<AllocFailed<T>> for TypesError {
    ghost use Rattle.std.specs.Prelude.{◌≡◌};
    ghost use Rattle.schemars_types.specs.declared.error.TypesError.TheVariants.{OutOfMemory};

    ghost from_gives = { λ _ e. e ≡ OutOfMemory };

    fn from(_e: AllocFailed<T>) -> TypesError {
        TypesError::OutOfMemory
    }
}
