//! The failures of keywords that judge a value by itself, or by its keys, or by how many of its items fit.
use crate::asking::{Asked, At, add, is_denied, is_denied_by};
use crate::probes::with_keyword;
use crate::sentences::{sentence_about, sentence_of_items, sentence_of_missing};
use crate::told::Told;
use schemars_assertions::member;
use serde_json::{Map, Value};
use std::alloc::AllocError;

// The keywords that judge a value by itself.
const BY_ITSELF: [&str; 16] = [
    "type",
    "const",
    "enum",
    "minimum",
    "maximum",
    "exclusiveMinimum",
    "exclusiveMaximum",
    "multipleOf",
    "minLength",
    "maxLength",
    "pattern",
    "minItems",
    "maxItems",
    "uniqueItems",
    "minProperties",
    "maxProperties",
];

/// Adds why the keywords for the value itself, for its keys and for the count of its items deny it.
pub fn explain_itself(
    asked: &Asked<'_>,
    keywords: &Map<String, Value>,
    at: &At<'_>,
    told: &mut Told,
) -> Result<(), AllocError> {
    for keyword in BY_ITSELF {
        if let Some(wanted) = member(keywords, keyword) {
            explain_keyword(asked, keywords, keyword, wanted, at, told)?;
        }
    }
    explain_required(asked, keywords, at, told)?;
    explain_dependent(asked, keywords, "dependentRequired", at, told)?;
    explain_dependent(asked, keywords, "dependencies", at, told)?;
    explain_contained(asked, keywords, at, told)
}

// The keyword whose bound a truth value under this one excludes.
fn excluded_bound(keyword: &str, wanted: &Value) -> Option<&'static str> {
    match wanted {
        Value::Bool(_) if keyword == "exclusiveMinimum" => Some("minimum"),
        Value::Bool(_) if keyword == "exclusiveMaximum" => Some("maximum"),
        _ => None,
    }
}

// Adds that a keyword denies the value, unless the one that is read beside it does so alone.
fn explain_keyword(
    asked: &Asked<'_>,
    keywords: &Map<String, Value>,
    keyword: &'static str,
    wanted: &Value,
    at: &At<'_>,
    told: &mut Told,
) -> Result<(), AllocError> {
    let bound = excluded_bound(keyword, wanted);
    let beside = bound.unwrap_or("nullable");
    if !is_denied_by(asked, keywords, &[keyword, beside], at.value)?
        || is_denied_by(asked, keywords, &[beside], at.value)?
    {
        return Ok(());
    }
    let said = match bound {
        Some(bound) => keywords.get(bound).unwrap_or(wanted),
        None => wanted,
    };
    let error = sentence_about(asked.alloc, keyword, said)?;
    add(asked, keywords, keyword, at, error.as_str(), told)
}

// ---- keys

fn explain_required(
    asked: &Asked<'_>,
    keywords: &Map<String, Value>,
    at: &At<'_>,
    told: &mut Told,
) -> Result<(), AllocError> {
    match member(keywords, "required") {
        Some(names) => explain_missing(asked, keywords, "required", None, names, at, told),
        None => Ok(()),
    }
}

// What a keyword requires beside each key, where it is read.
fn explain_dependent(
    asked: &Asked<'_>,
    keywords: &Map<String, Value>,
    keyword: &str,
    at: &At<'_>,
    told: &mut Told,
) -> Result<(), AllocError> {
    let (Some(Value::Object(dependent)), Value::Object(members)) = (
        member(keywords, keyword),
        at.value,
    ) else {
        return Ok(());
    };
    if !is_denied_by(asked, keywords, &[keyword], at.value)? {
        return Ok(());
    }
    for (name, names) in dependent.iter() {
        let name = name.as_str();
        if members.get(name).is_some() {
            explain_missing(asked, keywords, keyword, Some(name), names, at, told)?;
        }
    }
    Ok(())
}

// Adds each required name that the value lacks. A list of other things requires nothing.
fn explain_missing(
    asked: &Asked<'_>,
    keywords: &Map<String, Value>,
    keyword: &str,
    beside: Option<&str>,
    names: &Value,
    at: &At<'_>,
    told: &mut Told,
) -> Result<(), AllocError> {
    let (Value::Array(list), Value::Object(members)) = (names, at.value) else {
        return Ok(());
    };
    let required = with_keyword(asked.alloc, "required", names)?;
    if !is_denied(asked, &required, at.value)? {
        return Ok(());
    }
    for name in list {
        if let Value::String(name) = name {
            let name = name.as_str();
            if members.get(name).is_none() {
                let error = sentence_of_missing(asked.alloc, name, beside)?;
                add(asked, keywords, keyword, at, error.as_str(), told)?;
            }
        }
    }
    Ok(())
}

// ---- items

// How many items fit, where too few or too many do.
fn explain_contained(
    asked: &Asked<'_>,
    keywords: &Map<String, Value>,
    at: &At<'_>,
    told: &mut Told,
) -> Result<(), AllocError> {
    let (Some(schema), Value::Array(items)) = (member(keywords, "contains"), at.value) else {
        return Ok(());
    };
    let all = ["contains", "minContains", "maxContains"];
    if !is_denied_by(asked, keywords, &all, at.value)? {
        return Ok(());
    }
    let mut count: usize = 0;
    for item in items {
        if !is_denied(asked, schema, item)? {
            count = count.saturating_add(1);
        }
    }
    let few = is_denied_by(asked, keywords, &["contains", "minContains"], at.value)?;
    let error = sentence_of_items(asked.alloc, count, few)?;
    add(asked, keywords, "contains", at, error.as_str(), told)
}
