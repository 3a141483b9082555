//! Why a value is not written beside the row or the document of its type.
use schemars_agreement::WriteError;
use schemars_generate::GenerateError;
use schemars_types::TypesError;
use thiserror::Error;

/// Why a value is not written beside the row of its type.
#[derive(Debug, Drop, Error)]
pub enum DescribedError {
    /// The type is not registered, or the table has a fault.
    #[error(transparent)]
    Types(#[from] TypesError),
    /// The value is not written.
    #[error(transparent)]
    Write(#[from] WriteError),
}

/// Why a value is not written beside the document of its type.
#[derive(Debug, Drop, Error)]
pub enum RootError {
    /// Out of memory.
    #[error("OutOfMemory")]
    OutOfMemory,
    /// The table is neither plain, nor plain under writing without flattened enums, so that nothing is
    /// promised of its documents in some dialect.
    #[error("NotPlain")]
    NotPlain,
    /// The document is not generated.
    #[error(transparent)]
    Generate(#[from] GenerateError),
    /// The value is not written.
    #[error(transparent)]
    Write(#[from] WriteError),
}
