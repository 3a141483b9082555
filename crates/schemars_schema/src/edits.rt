//! Plain JSON: what texts, lists and schemas hold, and small changes of lists and of members.
ghost use Rattle.std.specs.Prelude.{◌≡◌, OnOk, map};
ghost use Rattle.schemars_schema.specs.Words.{array, no_items, as_str, view, items_view, members_view, is_text, holds_text, has_one_member, with_last, changed_at, put_missing, is_listed};

use crate::schema::Schema;
use serde_json::{Map, Value};
use std::alloc::{AllocError, Global};

/// Whether the key is one of these.
pub fn is_listed(key: &str, keys: &[&str]) -> bool
    ensures { result ≡ is_listed key.now (map (λ k. k.now) keys.now) }
{
    for listed in keys {
        if key == *listed {
            return true;
        }
    }
    false
}

/// Whether the value is this text.
pub fn is_text(value: &Value, text: &str) -> bool
    ensures { result ≡ is_text text.now (as_str (view value.now)) }
{
    match value.as_str() {
        Some(found) => found == text,
        None => false,
    }
}

/// Whether one of the values is this text.
pub fn holds_text(values: &[Value], text: &str) -> bool
    ensures { result ≡ holds_text text.now (items_view values.now) }
{
    for value in values {
        if is_text(value, text) {
            return true;
        }
    }
    false
}

/// Whether the schema is an object of exactly one member.
pub fn has_one_member(schema: &Schema) -> bool
    ensures { result ≡ has_one_member schema.now }
{
    match schema.as_object() {
        Some(members) => members.len() == 1,
        None => false,
    }
}

/// Appends a value to a list. What is not a list stays as it is.
pub fn push_to(list: &mut Value, value: Value) -> Result<(), AllocError>
    ensures { OnOk result (view list.new ≡ with_last (view value) (view list.old)) }
{
    match list.as_array_mut() {
        Some(items) => serde_json::push(items, value),
        None => Ok(()),
    }
}

/// Appends a value to the list at a key, which is made where it is missing. What is there and is
/// not a list stays as it is.
pub fn append_at(
    alloc: Global,
    members: &mut Map<String, Value>,
    key: &str,
    value: Value,
) -> Result<(), AllocError>
    ensures { OnOk result (members_view members.new.entries
        ≡ changed_at key.now (with_last (view value)) (array no_items)
        (members_view members.old.entries)) }
{
    match members.get_mut(key) {
        Some(list) => push_to(list, value),
        None => {
            let list = vec![in alloc; value]?;
            serde_json::put(members, alloc, key, Value::Array(list))
        }
    }
}

/// Puts a value in at a key, unless one is there.
pub fn put_missing(
    alloc: Global,
    members: &mut Map<String, Value>,
    key: &str,
    value: Value,
) -> Result<(), AllocError>
    ensures { OnOk result (members_view members.new.entries
        ≡ put_missing key.now (view value) (members_view members.old.entries)) }
{
    if members.contains_key(key) {
        return Ok(());
    }
    serde_json::put(members, alloc, key, value)
}
