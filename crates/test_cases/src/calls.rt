//! What calls of the libraries answer, as text.
mod builders;
mod edits;
pub(crate) mod error;
mod schemas;
mod transforms;
pub(crate) mod values;

use crate::calls::builders::answer_about_text;
use crate::calls::error::NoAnswer;
use crate::calls::values::{pair_in, text_of_bool};
use crate::samples;
use schemagen_run::fault::Fault;
use schemars::consts::meta_schemas;
use schemars_schema::encoding::{encode_ref_name, percent_decode};
use schemars_schema::{NotASchema, Schema, json_eq, json_same, json_same_members};
use serde_json::Value;
use std::alloc::{AllocError, Global};
use std::borrow::CowStr;

/// What the call answers that the first word names. The rest of the words is its argument, and the
/// input its value, or a list of its values.
pub fn answer(alloc: Global, words: &str, input: &str) -> Result<String, AllocError> {
    let (call, argument) = words.split_once(' ').unwrap_or((words, ""));
    match answer_to(alloc, call, argument, input) {
        Ok(answer) => Ok(answer),
        Err(NoAnswer::OutOfMemory) => Err(AllocError),
        Err(NoAnswer::NoCall) => String::from_str(alloc, "no call"),
        Err(NoAnswer::BadInput) => String::from_str(alloc, "bad input"),
    }
}

fn answer_to(alloc: Global, call: &str, argument: &str, input: &str) -> Result<String, NoAnswer> {
    if call == "deserialize" {
        return deserialized(alloc, input);
    }
    let value = Value::from_str(alloc, input)?;
    answer_about(alloc, call, argument, &value)
}

fn answer_about(
    alloc: Global,
    call: &str,
    argument: &str,
    value: &Value,
) -> Result<String, NoAnswer> {
    match call {
        "try_from" => try_from(alloc, value),
        "from" => from(alloc, value),
        "from_value" => from_value(alloc, value),
        "meta_schema" => Ok(String::from_str(alloc, meta_schema(argument))?),
        "is_schema" => text_of_bool(alloc, Some(Schema::is_schema(value))),
        "json_eq" | "json_same" | "json_same_members" => {
            text_of_bool(alloc, are_equal(call, value))
        }
        "encode_ref_name" | "percent_decode" | "new_ref" => about_text(alloc, call, value),
        "escape" | "get_title_and_description" => {
            let text = value.as_str().ok_or(NoAnswer::BadInput)?;
            answer_about_text(alloc, call, text)
        }
        "fault" => fault(alloc, value),
        "into_root_schema_for_value" | "root_schema_for_value" | "schema_for_value" => {
            samples::answer(alloc, call, argument, value)
        }
        _ => crate::calls::schemas::answer(alloc, call, argument, value),
    }
}

fn deserialized(alloc: Global, input: &str) -> Result<String, NoAnswer> {
    let schema: Schema = serde_json::from_str(alloc, input)?;
    Ok(schema.to_ordered_string(alloc)?)
}

fn try_from(alloc: Global, value: &Value) -> Result<String, NoAnswer> {
    match Schema::try_from(value.clone()?) {
        Ok(schema) => Ok(schema.to_ordered_string(alloc)?),
        Err(refused) => refusal(alloc, &refused),
    }
}

// The refusal's number and name, and the value that it hands back.
fn refusal(alloc: Global, refused: &NotASchema) -> Result<String, NoAnswer> {
    let NotASchema(value) = refused;
    let value = value.to_string(alloc)?;
    Ok(format!(in alloc; "{} {refused} {value}", refused.code())?)
}

// The schema by the conversion from a truth value, or from members, and the default one of null.
fn from(alloc: Global, value: &Value) -> Result<String, NoAnswer> {
    let schema = match value {
        Value::Null => Schema::default(alloc),
        Value::Bool(b) => Schema::from(*b),
        Value::Object(members) => Schema::from(members.clone()?),
        _ => return Err(NoAnswer::BadInput),
    };
    Ok(Value::from(schema).to_string(alloc)?)
}

// The address of this draft.
fn meta_schema(draft: &str) -> &'static str {
    match draft {
        "draft-07" => meta_schemas::DRAFT07,
        "2019-09" => meta_schemas::DRAFT2019_09,
        "2020-12" => meta_schemas::DRAFT2020_12,
        _ => meta_schemas::OPENAPI3,
    }
}

fn from_value(alloc: Global, value: &Value) -> Result<String, NoAnswer> {
    let schema: Schema = serde_json::from_value(alloc, value.clone()?)?;
    Ok(schema.to_ordered_string(alloc)?)
}

// Whether two values are equal, or they, or two lists of members, are the same.
fn are_equal(call: &str, value: &Value) -> Option<bool> {
    match pair_in(value)? {
        (Value::Object(left), Value::Object(right)) if call == "json_same_members" => {
            Some(json_same_members(left, right))
        }
        (left, right) if call == "json_same" => Some(json_same(left, right)),
        (left, right) if call == "json_eq" => Some(json_eq(left, right)),
        _ => None,
    }
}

// Whether a text is borrowed, and the text in quotes.
fn text_of_cow(alloc: Global, text: CowStr<'_>) -> Result<String, NoAnswer> {
    let kind = match &text {
        CowStr::Borrowed(_) => "borrowed",
        CowStr::Owned(_) => "owned",
    };
    let quoted = Value::try_from_str(alloc, text.as_str())?.to_string(alloc)?;
    Ok(format!(in alloc; "{kind} {quoted}")?)
}

fn about_text(alloc: Global, call: &str, value: &Value) -> Result<String, NoAnswer> {
    let text = value.as_str().ok_or(NoAnswer::BadInput)?;
    match call {
        "new_ref" => {
            let schema = Schema::new_ref(alloc, String::from_str(alloc, text)?)?;
            Ok(schema.to_ordered_string(alloc)?)
        }
        "encode_ref_name" => text_of_cow(alloc, encode_ref_name(alloc, text)?),
        _ => match percent_decode(alloc, text)? {
            Some(text) => text_of_cow(alloc, text),
            None => text_of_bool(alloc, None),
        },
    }
}

// The line and the status of the refusal of this number, and of wrong words where there is none.
fn fault(alloc: Global, value: &Value) -> Result<String, NoAnswer> {
    let fault = match value.as_u64() {
        Some(code) => Fault::Refused(u32::try_from(code).unwrap_or(u32::MAX)),
        None => Fault::Usage,
    };
    Ok(format!(in alloc; "{fault}, status {}", fault.status())?)
}
