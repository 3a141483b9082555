//! Why a text is refused.
use crate::findings::{Finding, Kind, add, add_at_row};
use json::Scratch;
use schemagen_faults::find_fault;
use schemagen_input::read_input;
use schemagen_json::{BorrowedValue, ParseError};
use schemars_types::{Types, TypesError};
use serde_json::Value;
use std::alloc::{AllocError, Global};

/// Adds why the text says no table.
pub fn add_refusal(
    alloc: Global,
    bytes: &[u8],
    findings: &mut Vec<Finding>,
) -> Result<(), AllocError> {
    let Ok(text) = std::str::from_utf8(bytes) else {
        return add(alloc, findings, Kind::Syntax, "", "this is no UTF-8");
    };
    let mut scratch = Scratch::new(alloc);
    match BorrowedValue::from_str(alloc, text, &mut scratch) {
        Ok(value) => add_bad_table(alloc, &value, findings),
        Err(ParseError::OutOfMemory) => Err(AllocError),
        Err(ParseError::NotJson) => add_syntax_error(alloc, text, findings),
    }
}

// Adds where the text is no JSON, and why.
fn add_syntax_error(
    alloc: Global,
    text: &str,
    findings: &mut Vec<Finding>,
) -> Result<(), AllocError> {
    match Value::from_str(alloc, text) {
        Err(error) if !error.is_memory() => {
            let sentence = format!(in alloc; "this is no JSON: {error}")?;
            add(alloc, findings, Kind::Syntax, "", sentence.as_str())
        }
        _ => Err(AllocError),
    }
}

// Adds the place at which the value is not a table, or that its root is not a row.
fn add_bad_table(
    alloc: Global,
    value: &BorrowedValue<'_>,
    findings: &mut Vec<Finding>,
) -> Result<(), AllocError> {
    if let Some(fault) = find_fault(alloc, value)? {
        return add(
            alloc,
            findings,
            Kind::Form,
            fault.place.as_str(),
            fault.reason.as_str(),
        );
    }
    match read_input(alloc, value) {
        Ok((types, root)) => {
            let rows = types.len();
            let sentence = format!(in alloc; "{root} is no row of a table of {rows}")?;
            add(alloc, findings, Kind::Root, "/root", sentence.as_str())
        }
        Err(_) => Err(AllocError),
    }
}

/// Adds what `Types::check` found.
pub fn add_row_fault(
    alloc: Global,
    findings: &mut Vec<Finding>,
    types: &Types,
    error: &TypesError,
) -> Result<(), AllocError> {
    match error {
        TypesError::UndefinedType(n) => {
            let sentence = "this row has no shape";
            add_at_row(alloc, findings, Kind::Undefined, types, *n, sentence)
        }
        TypesError::RepeatedName(n, name) => {
            let sentence = format!(in alloc; "the name {name:?} stands twice")?;
            add_at_row(
                alloc,
                findings,
                Kind::RepeatedName,
                types,
                *n,
                sentence.as_str(),
            )
        }
        TypesError::DirectCycle(n) => {
            let sentence = "this row is on a cycle of rows that are written in place";
            add_at_row(alloc, findings, Kind::InlineCycle, types, *n, sentence)
        }
        TypesError::EmptyCycle(n) => {
            let sentence = "this row is on a cycle of rows that have the values of the next";
            add_at_row(alloc, findings, Kind::EmptyCycle, types, *n, sentence)
        }
        _ => Ok(()),
    }
}
