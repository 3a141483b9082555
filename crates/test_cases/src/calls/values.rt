//! Values and schemas in values, and texts of values.
use crate::calls::error::NoAnswer;
use schemars_schema::Schema;
use serde_json::Value;
use std::alloc::{AllocError, Global};

/// The two values of a list.
pub fn pair_in(value: &Value) -> Option<(&Value, &Value)> {
    match value {
        Value::Array(items) => match items.as_slice() {
            [first, second] => Some((first, second)),
            _ => None,
        },
        _ => None,
    }
}

/// The schema that a value is, in a copy.
pub(crate) fn schema_in(value: &Value) -> Result<Schema, NoAnswer> {
    match Schema::try_from(value.clone()?) {
        Ok(schema) => Ok(schema),
        Err(_) => Err(NoAnswer::BadInput),
    }
}

/// A value's text, and `none` where there is none.
pub(crate) fn text_of(alloc: Global, value: Option<&Value>) -> Result<String, AllocError> {
    match value {
        Some(value) => value.to_string(alloc),
        None => String::from_str(alloc, "none"),
    }
}

/// A truth value's text, and `none` where there is none.
pub fn text_of_bool(alloc: Global, value: Option<bool>) -> Result<String, NoAnswer> {
    let text = match value {
        Some(true) => "true",
        Some(false) => "false",
        None => "none",
    };
    Ok(String::from_str(alloc, text)?)
}
