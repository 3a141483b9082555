//! The defaults of fields.
use crate::fields::container_default;
use schemaderive_options::{ContainerOptions, DefaultValue, FieldOptions, Notes};
use schemaderive_rows::Builder;
use schemaderive_syntax::{Fault, Field, Place};

// What is known of a default.
#[derive(Drop)]
enum Known {
    /// its JSON
    Value(String),
    /// that it is not written
    Skipped,
    /// nothing, for this reason
    Unknown(&'static str),
}

// Whether a function says of a default that it is not written.
fn skips(function: &str, json: &str) -> Option<bool> {
    let name = match function.rsplit_once("::") {
        Some((_, name)) => name,
        None => function,
    };
    match name {
        "is_none" => Some(json == "null"),
        "is_empty" => Some(json == "\"\"" || json == "[]" || json == "{}"),
        "not" => Some(json == "false"),
        _ => None,
    }
}

/// Adds the default of a field to its notes, or a warning that it is not known.
///
/// # Errors
///
/// Memory runs out.
pub fn add_default(
    builder: &mut Builder<'_>,
    row: usize,
    field: &Field<'_>,
    options: &FieldOptions,
    container: Option<&ContainerOptions>,
    notes: &mut Notes,
) -> Result<(), Fault> {
    let alloc = builder.alloc();
    let Some((place, is_function)) = origin(field, options, container) else {
        return Ok(());
    };
    if !options.presence.serialize {
        return Ok(());
    }
    match known_default(builder, row, is_function, options)? {
        Known::Value(json) => notes.put(alloc, "default", json)?,
        Known::Skipped => {}
        Known::Unknown(reason) => builder.context.warn(place, "default", reason)?,
    }
    Ok(())
}

fn known_default(
    builder: &Builder<'_>,
    row: usize,
    is_function: bool,
    options: &FieldOptions,
) -> Result<Known, Fault> {
    let unknown = "its value is not known here, so the document has none";
    if is_function || options.stands_for.is_some() {
        return Ok(Known::Unknown(unknown));
    }
    let Some(json) = builder.default_of(row) else {
        return Ok(Known::Unknown(unknown));
    };
    if let Some(function) = &options.skip_if {
        match skips(function.as_str(), json) {
            Some(true) => return Ok(Known::Skipped),
            Some(false) => {}
            None => {
                return Ok(Known::Unknown(
                    "whether it is written is not known here, so the document has none",
                ));
            }
        }
    }
    Ok(Known::Value(String::from_str(builder.alloc(), json)?))
}

// Where a default comes from, and whether a function gives it.
fn origin(
    field: &Field<'_>,
    options: &FieldOptions,
    container: Option<&ContainerOptions>,
) -> Option<(Place, bool)> {
    match options.default {
        Some(DefaultValue::OfType(place)) => return Some((place, false)),
        Some(DefaultValue::OfFunction(place)) => return Some((place, true)),
        None => {}
    }
    match container_default(container) {
        Some(DefaultValue::OfType(_)) => Some((field.place, !derives(container))),
        Some(DefaultValue::OfFunction(_)) => Some((field.place, true)),
        None => None,
    }
}

fn derives(container: Option<&ContainerOptions>) -> bool {
    match container {
        Some(options) => options.derives_default,
        None => false,
    }
}
