//! Calls in turn, as the steps of a line.
mod belonging;
mod by_type;
mod generators;
pub(crate) mod own_transforms;
mod parts;
pub(crate) mod settings;
mod tables;

use crate::cases::Asked;
use std::alloc::{AllocError, Global};

/// The first step of the line whose answer is another.
pub(crate) fn fault_in(
    alloc: Global,
    asked: Asked,
    line: &str,
) -> Result<Option<String>, AllocError> {
    let parts: Vec<&str> = line.split('\t').collect(alloc)?;
    let [name, settings, table, steps @ ..] = parts.as_slice() else {
        return Ok(Some(format!(in alloc; "no steps: {line}")?));
    };
    let fault = match asked {
        Asked::Generator => generators::fault_in(alloc, settings, table, steps)?,
        Asked::Meaning => belonging::fault_in(alloc, table, steps)?,
        _ => tables::fault_in(alloc, table, steps)?,
    };
    match fault {
        Some(fault) => Ok(Some(format!(in alloc; "{name}: {fault}")?)),
        None => Ok(None),
    }
}
