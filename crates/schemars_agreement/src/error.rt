//! Why a value is not written.
use thiserror::Error;

/// Why a value is not written.
#[derive(Debug, Drop, Error)]
pub enum WriteError {
    /// The value has a number that JSON does not have: a float that is not finite, or a whole number
    /// beyond 64 bits.
    #[error("the value has a number that JSON does not have")]
    NotInJson,
    /// The value could not be written.
    #[error(transparent)]
    Json(#[from] serde_json::Error),
}
