//! Why a configuration is not read.
use std::alloc::AllocError;
use thiserror::Error;

/// Why no configuration is read from a text.
#[derive(Debug, Drop, Error)]
pub enum Refusal {
    /// It is not JSON.
    #[error(transparent)]
    Json(#[from] serde_json::Error),
    /// It is JSON, but not an object.
    #[error("a configuration is an object")]
    NoObject,
    /// This member is missing.
    #[error("`{0}` is missing")]
    Missing(&'static str),
    /// This member is not what it has to be.
    #[error("`{0}` is not {1}")]
    WrongType(&'static str, &'static str),
    /// Out of memory.
    #[error(transparent)]
    Memory(#[from(alloc)] AllocError),
}
