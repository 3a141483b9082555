//! What the builders of keywords answer.
use crate::calls::error::NoAnswer;
use crate::calls::values::schema_in;
use schemars_builders::{
    escape, get_title_and_description, insert_metadata_property_if_nonempty,
    insert_validation_property, must_contain,
};
use schemars_flatten::flatten;
use schemars_schema::Schema;
use serde_json::Value;
use std::alloc::Global;

/// The schema after a call that puts something of the value into it.
pub(crate) fn answer(
    alloc: Global,
    call: &str,
    argument: &str,
    schema: &mut Schema,
    value: &Value,
) -> Result<String, NoAnswer> {
    match call {
        "flatten" => flatten(alloc, schema, schema_in(value)?)?,
        "insert_validation_property" => validated(alloc, schema, argument, value)?,
        _ => described(alloc, call, argument, schema, value)?,
    }
    Ok(schema.to_ordered_string(alloc)?)
}

// The argument is the type and the key.
fn validated(
    alloc: Global,
    schema: &mut Schema,
    argument: &str,
    value: &Value,
) -> Result<(), NoAnswer> {
    let (required_type, key) = argument.split_once(' ').ok_or(NoAnswer::BadInput)?;
    insert_validation_property(alloc, schema, required_type, key, value.clone()?)?;
    Ok(())
}

fn described(
    alloc: Global,
    call: &str,
    key: &str,
    schema: &mut Schema,
    value: &Value,
) -> Result<(), NoAnswer> {
    let text = value.as_str().ok_or(NoAnswer::BadInput)?;
    match call {
        "must_contain" => must_contain(alloc, schema, text)?,
        _ => insert_metadata_property_if_nonempty(alloc, schema, key, text)?,
    }
    Ok(())
}

/// The pattern of a text, or the title and the description in it, each in quotes.
pub fn answer_about_text(alloc: Global, call: &str, text: &str) -> Result<String, NoAnswer> {
    match call {
        "escape" => quoted(alloc, escape(alloc, text)?.as_str()),
        _ => {
            let (title, description) = get_title_and_description(text);
            let title = quoted(alloc, title)?;
            let description = quoted(alloc, description)?;
            Ok(format!(in alloc; "{title} {description}")?)
        }
    }
}

fn quoted(alloc: Global, text: &str) -> Result<String, NoAnswer> {
    Ok(Value::try_from_str(alloc, text)?.to_string(alloc)?)
}
