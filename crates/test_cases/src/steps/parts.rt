//! What the steps of a line consist of, and the first that is wrong.
use schemagen_input::{TextError, read_table};
use schemars::types::{Types, TypesError};
use std::alloc::{AllocError, Global};

/// The call of a step, and the answer that is wanted.
pub(crate) fn parts_of<'t>(step: &'t str) -> (&'t str, &'t str) {
    step.split_once(" => ").unwrap_or((step, ""))
}

/// The word of a call, and what follows it.
pub(crate) fn call_in<'t>(call: &'t str) -> (&'t str, &'t str) {
    call.split_once(' ').unwrap_or((call, ""))
}

/// The number that a text is, or 0.
pub(crate) fn number_in(text: &str) -> usize {
    text.parse::<usize>().unwrap_or(0)
}

/// The table of a text, if it is one.
pub(crate) fn table_of(alloc: Global, text: &str) -> Result<Option<Types>, AllocError> {
    match read_table(alloc, text.as_bytes()) {
        Ok((types, _root)) => Ok(Some(types)),
        Err(TextError::OutOfMemory) => Err(AllocError),
        Err(_) => Ok(None),
    }
}

/// What is wrong with a step, if its answer is another.
pub(crate) fn fault_of(
    alloc: Global,
    step: &str,
    told: &str,
) -> Result<Option<String>, AllocError> {
    let (call, wanted) = parts_of(step);
    if told == wanted {
        return Ok(None);
    }
    Ok(Some(format!(in alloc; "{call}: wanted {wanted}, and came {told}")?))
}

/// The number and the name of a refusal, the row, and the name of the field.
pub(crate) fn refusal(alloc: Global, error: &TypesError) -> Result<String, AllocError> {
    let code = error.code();
    match error {
        TypesError::OutOfMemory => format!(in alloc; "{code} {error}"),
        TypesError::RepeatedName(n, name) => format!(in alloc; "{code} {error} {n} {name}"),
        TypesError::UndefinedType(n)
        | TypesError::DirectCycle(n)
        | TypesError::EmptyCycle(n)
        | TypesError::AlreadyDefined(n)
        | TypesError::UnknownType(n) => format!(in alloc; "{code} {error} {n}"),
    }
}

/// What answers calls in turn.
pub(crate) trait Steps {
    /// What a call answers, as text.
    fn told(&mut self, alloc: Global, call: &str) -> Result<String, AllocError>;
}

/// The first step whose answer is another.
pub(crate) fn first_wrong<T: Steps>(
    alloc: Global,
    asked: &mut T,
    steps: &[&str],
) -> Result<Option<String>, AllocError> {
    for step in steps {
        let (call, _wanted) = parts_of(step);
        let told = asked.told(alloc, call)?;
        if let Some(fault) = fault_of(alloc, step, told.as_str())? {
            return Ok(Some(fault));
        }
    }
    Ok(None)
}
