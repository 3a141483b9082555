//! What calls answer that look at one schema.
use crate::calls::error::NoAnswer;
use crate::calls::values::{pair_in, schema_in, text_of, text_of_bool};
use crate::calls::{builders, edits, transforms};
use schemars_schema::Schema;
use serde_json::Value;
use std::alloc::Global;

/// What the call of this name answers to a value, or why there is no answer.
pub fn answer(
    alloc: Global,
    call: &str,
    argument: &str,
    value: &Value,
) -> Result<String, NoAnswer> {
    match call {
        "insert" | "insert_object_property" | "merge_at" => {
            edits::answer_of_two(alloc, call, argument, value)
        }
        "flatten"
        | "insert_validation_property"
        | "insert_metadata_property_if_nonempty"
        | "must_contain" => built(alloc, call, argument, value),
        "to_value" => to_value(alloc, value),
        "transform" => transformed(alloc, argument, value),
        "on_value" => transforms::answer_of_value(alloc, value),
        "recursive_transform_at_depth" => transforms::answer_nested(alloc, value),
        _ => answer_of(alloc, call, argument, value),
    }
}

// The schema is the first of a list of two, and what is put in the second.
fn built(alloc: Global, call: &str, argument: &str, value: &Value) -> Result<String, NoAnswer> {
    let (first, second) = pair_in(value).ok_or(NoAnswer::BadInput)?;
    let mut schema = schema_in(first)?;
    builders::answer(alloc, call, argument, &mut schema, second)
}

fn answer_of(alloc: Global, call: &str, argument: &str, value: &Value) -> Result<String, NoAnswer> {
    let mut schema = schema_in(value)?;
    edits::answer(alloc, call, argument, &mut schema)
}

// The first word of the argument names the transform.
fn transformed(alloc: Global, argument: &str, value: &Value) -> Result<String, NoAnswer> {
    let (name, argument) = argument.split_once(' ').unwrap_or((argument, ""));
    let mut schema = schema_in(value)?;
    transforms::answer(alloc, name, argument, &mut schema)
}

/// What a call answers that only looks at this schema.
pub(crate) fn look(
    alloc: Global,
    call: &str,
    argument: &str,
    schema: &Schema,
) -> Result<String, NoAnswer> {
    match call {
        "to_ordered_string" => Ok(schema.to_ordered_string(alloc)?),
        "serialize" => Ok(serde_json::to_string(alloc, schema)?),
        "as_bool" => text_of_bool(alloc, schema.as_bool()),
        "as_object" => as_object(alloc, schema),
        "get" => Ok(text_of(alloc, schema.get(argument))?),
        "pointer" => Ok(text_of(alloc, schema.pointer(alloc, argument)?)?),
        _ => Err(NoAnswer::NoCall),
    }
}

fn to_value(alloc: Global, value: &Value) -> Result<String, NoAnswer> {
    let schema = schema_in(value)?;
    Ok(schema.to_value().to_string(alloc)?)
}

fn as_object(alloc: Global, schema: &Schema) -> Result<String, NoAnswer> {
    match schema.as_object() {
        Some(members) => Ok(serde_json::to_string(alloc, members)?),
        None => text_of_bool(alloc, None),
    }
}
