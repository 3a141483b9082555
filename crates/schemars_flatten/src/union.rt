//! Keywords of one schema put into another.
ghost use Rattle.std.specs.Prelude.{◌≡◌, ◌||◌, codes, string_bytes, string_cmp, option_map, unwrap_or, IfOk, OnOk};
ghost use Rattle.schemars_flatten.specs.Words.{IsOrdered, array, object, put, get_member, view, items_view, members_view, put_members, without, is_joined, is_merged, is_choice, appended, joined, merged, united, with_united, alone, both_choices, with_choice, with_keyword, with_keywords};

use serde_json::{Map, Value};
use std::alloc::{AllocError, Global};
use std::mem;

// Puts keywords in, one after another.
pub(crate) fn put_keywords(
    alloc: Global,
    members: &mut Map<String, Value>,
    others: Map<String, Value>,
) -> Result<(), AllocError>
    ensures { OnOk result (members_view members.new.entries
        ≡ with_keywords (members_view others.entries) (members_view members.old.entries)) }
{
    for (key, value) in others {
        put_keyword(alloc, members, key, value)?;
    }
    Ok(())
}

fn put_keyword(
    alloc: Global,
    members: &mut Map<String, Value>,
    key: String,
    value: Value,
) -> Result<(), AllocError>
    ensures { OnOk result (members_view members.new.entries
        ≡ with_keyword (string_bytes key) (view value) (members_view members.old.entries)) }
{
    if is_choice(key.as_str()) {
        put_choice(alloc, members, key, value)
    } else {
        put_united(members, key, value)
    }
}

// Puts a choice in. Two of them go into `allOf`, each as a schema of its own.
fn put_choice(
    alloc: Global,
    members: &mut Map<String, Value>,
    key: String,
    value: Value,
) -> Result<(), AllocError>
    ensures { OnOk result (members_view members.new.entries
        ≡ with_choice (string_bytes key) (view value) (members_view members.old.entries)) }
{
    match remove(members, key.as_str()) {
        Some(first) => {
            let choices = both_choices(alloc, key.as_str(), first, value)?;
            put_united(members, String::from_str(alloc, "allOf")?, choices)
        }
        None => insert(members, key, value),
    }
}

fn both_choices(alloc: Global, key: &str, first: Value, second: Value) -> Result<Value, AllocError>
    ensures { IfOk result (λ v. view v ≡ both_choices key.now (view first) (view second)) }
{
    let first = alone(alloc, key, first)?;
    let second = alone(alloc, key, second)?;
    Ok(Value::Array(vec![in alloc; first, second]?))
}

// A schema of one keyword.
fn alone(alloc: Global, key: &str, value: Value) -> Result<Value, AllocError>
    ensures { IfOk result (λ v. view v ≡ alone key.now (view value)) }
{
    let mut members = Map::new(alloc);
    serde_json::put(&mut members, alloc, key, value)?;
    Ok(Value::Object(members))
}

// Adds a keyword, or merges its value into the one that is there.
fn put_united(members: &mut Map<String, Value>, key: String, value: Value) -> Result<(), AllocError>
    ensures { OnOk result (members_view members.new.entries
        ≡ with_united (string_bytes key) (view value) (members_view members.old.entries)) }
{
    match members.get_mut(key.as_str()) {
        Some(first) => unite_values(key.as_str(), first, value),
        None => insert(members, key, value),
    }
}

fn unite_values(key: &str, first: &mut Value, second: Value) -> Result<(), AllocError>
    ensures { OnOk result (view first.new ≡ united key.now (view first.old) (view second)) }
{
    if is_joined(key) {
        join(first, second)
    } else if is_merged(key) {
        merge(first, second)
    } else {
        // The first stays.
        drop(second);
        Ok(())
    }
}

fn join(first: &mut Value, second: Value) -> Result<(), AllocError>
    ensures { OnOk result (view first.new ≡ joined (view first.old) (view second)) }
{
    match second {
        Value::Array(more) => match first.as_array_mut() {
            Some(items) => push_all(items, more),
            None => Ok(()),
        },
        _ => Ok(()),
    }
}

fn merge(first: &mut Value, second: Value) -> Result<(), AllocError>
    ensures { OnOk result (view first.new ≡ merged (view first.old) (view second)) }
{
    match second {
        Value::Object(more) => match first.as_object_mut() {
            Some(members) => put_members(members, more),
            None => Ok(()),
        },
        _ => Ok(()),
    }
}

/// Pushes all of `more`, in order. The only error is that memory runs out.
pub fn push_all(items: &mut Vec<Value>, mut more: Vec<Value>) -> Result<(), AllocError>
    ensures { OnOk result (items_view items.new.items
        ≡ appended (items_view items.old.items) (items_view more.items)) }
{
    items.append(&mut more)
}

// Merges another object in, whose value stays where both have a name. The smaller of the two
// moves into the larger one.
fn put_members(members: &mut Map<String, Value>, more: Map<String, Value>) -> Result<(), AllocError>
    ensures { OnOk result (members_view members.new.entries
        ≡ put_members (members_view more.entries) (members_view members.old.entries)) }
{
    if members.len() < more.len() {
        let fewer = mem::replace(members, more);
        put_missing(members, fewer)
    } else {
        put_each(members, more)
    }
}

// Puts each member in, in place of one with its name.
fn put_each(members: &mut Map<String, Value>, more: Map<String, Value>) -> Result<(), AllocError>
    ensures { OnOk result (members_view members.new.entries
        ≡ put_members (members_view more.entries) (members_view members.old.entries)) }
{
    for (name, value) in more {
        insert(members, name, value)?;
    }
    Ok(())
}

// Puts in the members whose names are missing.
fn put_missing(members: &mut Map<String, Value>, more: Map<String, Value>) -> Result<(), AllocError>
    requires { IsOrdered string_cmp members.old }
    ensures { OnOk result (members_view members.new.entries
        ≡ put_members (members_view members.old.entries) (members_view more.entries)) }
{
    for (name, value) in more {
        put_if_missing(members, name, value)?;
    }
    Ok(())
}

fn put_if_missing(
    members: &mut Map<String, Value>,
    name: String,
    value: Value,
) -> Result<(), AllocError>
    ensures { OnOk result (members_view members.new.entries ≡ put (string_bytes name)
        (unwrap_or (get_member (string_bytes name) (members_view members.old.entries)) (view value))
        (members_view members.old.entries)) }
{
    members.entry(name)?.or_insert(value);
    Ok(())
}

fn insert(members: &mut Map<String, Value>, key: String, value: Value) -> Result<(), AllocError>
    ensures { OnOk result (members_view members.new.entries
        ≡ put (string_bytes key) (view value) (members_view members.old.entries)) }
{
    let _old = members.insert(key, value)?;
    Ok(())
}

pub(crate) fn remove(members: &mut Map<String, Value>, key: &str) -> Option<Value>
    ensures value { option_map view result
        ≡ get_member key.now (members_view members.old.entries) }
    ensures removed { members_view members.new.entries
        ≡ without key.now (members_view members.old.entries) }
{
    members.remove(key)
}

fn is_joined(key: &str) -> bool
    ensures { result ≡ is_joined key.now }
{
    key == "required" || key == "allOf"
}

fn is_merged(key: &str) -> bool
    ensures { result ≡ is_merged key.now }
{
    key == "properties" || key == "patternProperties"
}

fn is_choice(key: &str) -> bool
    ensures { result ≡ is_choice key.now }
{
    key == "oneOf" || key == "anyOf"
}
