//! Annotations, formats and patterns of a wrong form.
use crate::findings::{Finding, Kind, add_at_row};
use crate::owners::owners_in;
use regex_syntax::{Config, ErrorKind, parse};
use schemars_schema::Schema;
use schemars_schema::edits::is_listed;
use schemars_types::{Shape, TypeEntry, TypeNo, Types};
use serde_json::{Map, Value};
use std::alloc::{AllocError, Global};

const TEXTS: [&str; 3] = ["title", "description", "format"];

const TRUTH_VALUES: [&str; 3] = ["deprecated", "readOnly", "writeOnly"];

// The formats of JSON Schema (2020-12 validation, 7.3), of OpenAPI 3.0, and of the numbers and
// times that the Rust crate describes.
const FORMATS: [&str; 40] = [
    "date-time",
    "date",
    "time",
    "duration",
    "email",
    "idn-email",
    "hostname",
    "idn-hostname",
    "ipv4",
    "ipv6",
    "ip",
    "uri",
    "uri-reference",
    "iri",
    "iri-reference",
    "uuid",
    "uri-template",
    "json-pointer",
    "relative-json-pointer",
    "regex",
    "int8",
    "int16",
    "int32",
    "int64",
    "int128",
    "int",
    "uint8",
    "uint16",
    "uint32",
    "uint64",
    "uint128",
    "uint",
    "float",
    "double",
    "byte",
    "binary",
    "password",
    "partial-date-time",
    "partial-time",
    "zoned-date-time",
];

/// Adds a warning for each annotation, format and pattern of row `n` that has a wrong form.
pub fn add_forms(
    alloc: Global,
    types: &Types,
    n: TypeNo,
    entry: &TypeEntry,
    findings: &mut Vec<Finding>,
) -> Result<(), AllocError> {
    for owner in &owners_in(alloc, entry)? {
        add_notes(alloc, types, n, owner.name.as_str(), owner.notes, findings)?;
    }
    if let Shape::Formatted(format) = &entry.shape {
        add_format(alloc, types, n, format.as_str(), findings)?;
    }
    if let Shape::Literal(schema) = &entry.shape {
        add_literal(alloc, types, n, schema, findings)?;
    }
    Ok(())
}

fn add_notes(
    alloc: Global,
    types: &Types,
    n: TypeNo,
    owner: &str,
    notes: &Map<String, Value>,
    findings: &mut Vec<Finding>,
) -> Result<(), AllocError> {
    for (key, value) in notes.iter() {
        let key = key.as_str();
        if let Some(form) = wrong_form(key, value) {
            let sentence = format!(in alloc; "the note {key:?} of {owner} is no {form}")?;
            add_at_row(alloc, findings, Kind::NoteForm, types, n, sentence.as_str())?;
        }
        if key == "format"
            && let Some(format) = value.as_str()
        {
            add_format(alloc, types, n, format, findings)?;
        }
    }
    Ok(())
}

// What the value of an annotation has to be, and is not.
fn wrong_form(key: &str, value: &Value) -> Option<&'static str> {
    if is_listed(key, &TEXTS) && !value.is_string() {
        return Some("text");
    }
    if is_listed(key, &TRUTH_VALUES) && !value.is_boolean() {
        return Some("truth value");
    }
    if key == "examples" && !value.is_array() {
        return Some("list");
    }
    None
}

fn add_format(
    alloc: Global,
    types: &Types,
    n: TypeNo,
    format: &str,
    findings: &mut Vec<Finding>,
) -> Result<(), AllocError> {
    if is_listed(format, &FORMATS) {
        return Ok(());
    }
    let sentence = format!(in alloc; "no standard has the format {format:?}")?;
    add_at_row(alloc, findings, Kind::Format, types, n, sentence.as_str())
}

fn add_literal(
    alloc: Global,
    types: &Types,
    n: TypeNo,
    schema: &Schema,
    findings: &mut Vec<Finding>,
) -> Result<(), AllocError> {
    let Some(members) = schema.as_object() else {
        return Ok(());
    };
    add_notes(alloc, types, n, "the literal", members, findings)?;
    match members.get("pattern") {
        Some(Value::String(pattern)) => { add_pattern(alloc, types, n, pattern.as_str(), findings) }
        _ => Ok(()),
    }
}

fn add_pattern(
    alloc: Global,
    types: &Types,
    n: TypeNo,
    pattern: &str,
    findings: &mut Vec<Finding>,
) -> Result<(), AllocError> {
    let Err(error) = parse(alloc, pattern, &Config::default()) else {
        return Ok(());
    };
    match error.kind {
        ErrorKind::OutOfMemory => Err(AllocError),
        // ECMA-262 has these.
        ErrorKind::UnsupportedBackreference | ErrorKind::UnsupportedLookAround => Ok(()),
        ErrorKind::NestLimitExceeded | ErrorKind::CaptureLimitExceeded => Ok(()),
        kind => {
            let why = kind.message();
            let sentence = format!(in alloc;
                "the pattern {pattern:?} may be no regular expression: {why}"
            )?;
            add_at_row(alloc, findings, Kind::Pattern, types, n, sentence.as_str())
        }
    }
}
