//! Schemas sent to a serializer, with their keywords in a fixed order.
use crate::ordered::Layout;
use crate::places::{FIRST_KEYWORDS, LAST_KEYWORDS, has_fixed_place};
use serde::{Serialize, Serializer};
use serde_json::{Map, Value};

/// Sends a schema, with the members of each schema object in the order of `to_ordered_string`.
pub fn send_ordered<S: Serializer>(schema: &Value, out: &mut S) -> Result<(), S::Error> {
    send(schema, Layout::Schema, out)
}

#[cycle(send)]
fn send<S: Serializer>(value: &Value, layout: Layout, out: &mut S) -> Result<(), S::Error> {
    match value {
        Value::Array(items) => send_items(items, layout.inside(), out),
        Value::Object(members) => send_members(members, layout, out),
        _ => value.serialize(out),
    }
}

#[cycle(send)]
fn send_items<S: Serializer>(
    items: &Vec<Value>,
    layout: Layout,
    out: &mut S,
) -> Result<(), S::Error> {
    out.begin_seq(Some(items.len()))?;
    for item in items {
        send(item, layout, out)?;
    }
    out.end_seq()
}

#[cycle(send)]
fn send_members<S: Serializer>(
    members: &Map<String, Value>,
    layout: Layout,
    out: &mut S,
) -> Result<(), S::Error> {
    out.begin_map(Some(members.len()))?;
    match layout {
        Layout::Schema => {
            send_keywords(members, &FIRST_KEYWORDS, out)?;
            send_others(members, out)?;
            send_keywords(members, &LAST_KEYWORDS, out)?;
        }
        Layout::PlainJson | Layout::NamedSchemas => send_in_map_order(members, layout, out)?,
    }
    out.end_map()
}

#[cycle(send)]
fn send_in_map_order<S: Serializer>(
    members: &Map<String, Value>,
    layout: Layout,
    out: &mut S,
) -> Result<(), S::Error> {
    for (key, value) in members.iter() {
        send_member(key.as_str(), value, layout, out)?;
    }
    Ok(())
}

#[cycle(send)]
fn send_keywords<S: Serializer>(
    members: &Map<String, Value>,
    keywords: &[&str],
    out: &mut S,
) -> Result<(), S::Error> {
    for keyword in keywords {
        if let Some(value) = members.get(*keyword) {
            send_member(*keyword, value, Layout::Schema, out)?;
        }
    }
    Ok(())
}

#[cycle(send)]
fn send_others<S: Serializer>(members: &Map<String, Value>, out: &mut S) -> Result<(), S::Error> {
    for (key, value) in members.iter() {
        if !has_fixed_place(key.as_str()) {
            send_member(key.as_str(), value, Layout::Schema, out)?;
        }
    }
    Ok(())
}

#[cycle(send)]
fn send_member<S: Serializer>(
    key: &str,
    value: &Value,
    layout: Layout,
    out: &mut S,
) -> Result<(), S::Error> {
    out.key(key)?;
    send(value, layout.under(key), out)
}
