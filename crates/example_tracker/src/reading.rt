//! A configuration from JSON.
use crate::refusal::Refusal;
use crate::settings::{Configuration, Limits};
use serde_json::{Map, Value};
use std::alloc::{AllocError, Global};

type Members = Map<String, Value>;

/// Reads a configuration.
///
/// It is the duty of this reader to take exactly what the schema of `Configuration` accepts, since
/// no contract ties the two. So a list is no configuration, members that the schema does not name
/// are passed over, and `null` stands for an optional member that is missing. Numbers are written
/// without a fraction: `4.0`, which the schema accepts too, is refused.
///
/// # Errors
///
/// A refusal, which names the member that is missing or of another type.
pub fn read(alloc: Global, text: &str) -> Result<Configuration, Refusal> {
    let value = Value::from_str(alloc, text)?;
    configuration_in(alloc, &value)
}

fn configuration_in(alloc: Global, value: &Value) -> Result<Configuration, Refusal> {
    let members = value.as_object().ok_or(Refusal::NoObject)?;
    let limits = limits(members)?;
    let workers = number("workers", required(members, "workers")?)?;
    let listen = text(alloc, "listen", required(members, "listen")?)?;
    let tags = texts(alloc, "tags", required(members, "tags")?)?;
    Ok(Configuration {
        listen,
        workers,
        tags,
        limits,
    })
}

fn limits(members: &Members) -> Result<Option<Limits>, Refusal> {
    let Some(value) = optional(members, "limits") else {
        return Ok(None);
    };
    let members = value
        .as_object()
        .ok_or(Refusal::WrongType("limits", "an object"))?;
    let requests = number("requests", required(members, "requests")?)?;
    let seconds = match optional(members, "seconds") {
        Some(value) => Some(number("seconds", value)?),
        None => None,
    };
    Ok(Some(Limits { requests, seconds }))
}

fn required<'a>(members: &'a Members, name: &'static str) -> Result<&'a Value, Refusal> {
    members.get(name).ok_or(Refusal::Missing(name))
}

// The member's value, unless it is missing or null.
fn optional<'a>(members: &'a Members, name: &str) -> Option<&'a Value> {
    match members.get(name) {
        Some(value) if !value.is_null() => Some(value),
        _ => None,
    }
}

fn number(name: &'static str, value: &Value) -> Result<u16, Refusal> {
    match value.as_u64().map(u16::try_from) {
        Some(Ok(number)) => Ok(number),
        _ => Err(Refusal::WrongType(name, "a whole number from 0 to 65535")),
    }
}

fn text(alloc: Global, name: &'static str, value: &Value) -> Result<String, Refusal> {
    match value.as_str() {
        Some(text) => Ok(String::from_str(alloc, text)?),
        None => Err(Refusal::WrongType(name, "a text")),
    }
}

fn texts(alloc: Global, name: &'static str, value: &Value) -> Result<Vec<String>, Refusal> {
    let wanted = "a list of texts";
    let items = value.as_array().ok_or(Refusal::WrongType(name, wanted))?;
    let mut texts = Vec::new(alloc);
    for item in items {
        let text = item.as_str().ok_or(Refusal::WrongType(name, wanted))?;
        texts.push(String::from_str(alloc, text)?)?;
    }
    Ok(texts)
}
