//! User-defined types, and schemas that are written as JSON.
use crate::types::line::line_of;
use crate::types::own_types::own_type;
use crate::types::refused::rows_after_a_refusal;
use schemars::{GenerateError, Schema, json_schema};
use std::alloc::{AllocError, Global};

pub(crate) fn own(alloc: Global, of: &str) -> Result<String, GenerateError> {
    match of {
        "Vec<Option<u8>>" => line_of::<Vec<Option<u8>>>(alloc),
        "Option<Result<i8,u8>>" => line_of::<Option<Result<i8, u8>>>(alloc),
        "Option<Option<Option<Result<i8,u8>>>>" => {
            line_of::<Option<Option<Option<Result<i8, u8>>>>>(alloc)
        }
        "rows after a refusal" => rows_after_a_refusal(alloc),
        _ => written(alloc, of),
    }
}

// The schema that is written so.
fn written(alloc: Global, of: &str) -> Result<String, GenerateError> {
    let schema = match of {
        "json_schema!({})" => json_schema!(in alloc; {})?,
        "json_schema!(true)" => json_schema!(in alloc; true)?,
        "json_schema!(false)" => json_schema!(in alloc; false)?,
        "json_schema! up to 9" => object(alloc, 9)?,
        _ => return own_type(alloc, of),
    };
    Ok(schema.to_ordered_string(alloc)?)
}

fn object(alloc: Global, limit: u64) -> Result<Schema, AllocError> {
    json_schema!(in alloc; {
        "type": "object",
        "properties": {"n": {"type": ["integer", "null"], "maximum": limit}},
        "required": [],
        "additionalProperties": false,
        "default": null,
    })
}
