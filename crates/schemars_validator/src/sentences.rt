//! What is said of a failure.
use serde_json::Value;
use std::alloc::{AllocError, Global};

/// Keywords by which a value fits some schemas.
#[derive(Clone, Copy, Debug, PartialEq, Eq)]
pub enum Choice {
    AnyOf,
    OneOf,
    Not,
}

impl Choice {
    pub fn keyword(self) -> &'static str {
        match self {
            Choice::AnyOf => "anyOf",
            Choice::OneOf => "oneOf",
            Choice::Not => "not",
        }
    }

    /// Whether the keyword is met by a value that fits so many of its schemas.
    pub fn is_met(self, fitting: usize) -> bool {
        match self {
            Choice::AnyOf => fitting != 0,
            Choice::OneOf => fitting == 1,
            Choice::Not => fitting == 0,
        }
    }
}

/// What is wrong where a keyword that judges a value by itself is not met.
pub fn sentence_about(alloc: Global, keyword: &str, wanted: &Value) -> Result<String, AllocError> {
    let wanted = wanted.to_string(alloc)?;
    let wanted = wanted.as_str();
    match keyword {
        "type" => format!(in alloc; "is not of type {wanted}"),
        "const" => format!(in alloc; "is not {wanted}"),
        "enum" => format!(in alloc; "is none of {wanted}"),
        "minimum" => format!(in alloc; "is less than {wanted}"),
        "maximum" => format!(in alloc; "is greater than {wanted}"),
        "exclusiveMinimum" => format!(in alloc; "is not greater than {wanted}"),
        "exclusiveMaximum" => format!(in alloc; "is not less than {wanted}"),
        "multipleOf" => format!(in alloc; "is no multiple of {wanted}"),
        "minLength" => format!(in alloc; "has fewer than {wanted} characters"),
        "maxLength" => format!(in alloc; "has more than {wanted} characters"),
        "pattern" => format!(in alloc; "does not match {wanted}"),
        "minItems" => format!(in alloc; "has fewer than {wanted} items"),
        "maxItems" => format!(in alloc; "has more than {wanted} items"),
        "uniqueItems" => format!(in alloc; "has an item twice"),
        "minProperties" => format!(in alloc; "has fewer than {wanted} members"),
        "maxProperties" => format!(in alloc; "has more than {wanted} members"),
        _ => format!(in alloc; "is not accepted by {keyword}"),
    }
}

/// What is wrong where a value lacks a member, which another one may ask for.
pub fn sentence_of_missing(
    alloc: Global,
    name: &str,
    beside: Option<&str>,
) -> Result<String, AllocError> {
    match beside {
        None => format!(in alloc; "has no member {name:?}"),
        Some(other) => format!(in alloc; "has the member {other:?} and no member {name:?}"),
    }
}

/// What is wrong where so many items fit the schema under `contains`.
pub fn sentence_of_items(alloc: Global, fitting: usize, few: bool) -> Result<String, AllocError> {
    let much = if few { "few" } else { "many" };
    format!(in alloc; "has too {much} items that fit the schema: {fitting}")
}

/// What is wrong with a value that has a key with which this is wrong.
pub fn sentence_of_key(alloc: Global, error: &str) -> Result<String, AllocError> {
    format!(in alloc; "has a key that {error}")
}

/// What is wrong where a value fits so many schemas of a choice.
pub fn sentence_of_choice(
    alloc: Global,
    choice: Choice,
    fitting: usize,
) -> Result<String, AllocError> {
    match choice {
        Choice::AnyOf => String::from_str(alloc, "fits none of the schemas"),
        Choice::OneOf if fitting == 0 => String::from_str(alloc, "fits none of the schemas"),
        Choice::OneOf => format!(in alloc; "fits {fitting} of the schemas, not one"),
        Choice::Not => String::from_str(alloc, "fits the schema that is denied"),
    }
}

/// What is said where failures were left out, and schemas were not asked.
pub fn sentence_of_more(
    alloc: Global,
    left_out: u64,
    not_asked: u64,
) -> Result<String, AllocError> {
    if not_asked == 0 {
        return format!(in alloc; "has {left_out} more failures");
    }
    format!(in alloc; "has {left_out} more failures, and {not_asked} more schemas were not asked")
}
