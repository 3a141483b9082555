//! What types say of themselves.
mod containers;
mod line;
mod own;
mod own_actor;
mod own_enums;
pub(crate) mod own_types;
mod packs;
mod refused;
mod scalars;

use crate::types::scalars::line;
use schemars::GenerateError;
use std::alloc::{AllocError, Global};

/// What the type of this name says of itself, or why it is refused.
pub(crate) fn answer(alloc: Global, of: &str) -> Result<String, AllocError> {
    match line(alloc, of) {
        Ok(told) => Ok(told),
        Err(GenerateError::OutOfMemory) => Err(AllocError),
        Err(error) => format!(in alloc; "{error}"),
    }
}
