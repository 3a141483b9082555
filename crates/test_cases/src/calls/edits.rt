//! What calls answer that change a schema, and what the schema then is.
use crate::calls::error::NoAnswer;
use crate::calls::schemas::look;
use crate::calls::values::{pair_in, schema_in, text_of, text_of_bool};
use schemars_builders::{allow_null, apply_internal_enum_variant_tag, insert_object_property};
use schemars_schema::Schema;
use serde_json::{Value, put};
use std::alloc::{AllocError, Global};
use std::mem;

/// What a call answers to this schema, which it may change.
pub(crate) fn answer(
    alloc: Global,
    call: &str,
    argument: &str,
    schema: &mut Schema,
) -> Result<String, NoAnswer> {
    match call {
        "allow_null" => with_null(alloc, schema),
        "apply_internal_enum_variant_tag" => tagged(alloc, schema, argument),
        "clone" => cloned(alloc, schema, argument),
        "ensure_object" | "as_object_mut" => with_member(alloc, call, schema, argument),
        "get_mut" | "pointer_mut" | "remove" => {
            let old = taken(alloc, call, schema, argument)?;
            with_old(alloc, old, schema)
        }
        _ => look(alloc, call, argument, schema),
    }
}

fn with_null(alloc: Global, schema: &mut Schema) -> Result<String, NoAnswer> {
    allow_null(alloc, schema)?;
    Ok(schema.to_ordered_string(alloc)?)
}

// The argument is the tag and the variant's name, with `deny` behind them where unknown fields are
// denied.
fn tagged(alloc: Global, schema: &mut Schema, argument: &str) -> Result<String, NoAnswer> {
    let (tag, variant) = argument.split_once(' ').ok_or(NoAnswer::BadInput)?;
    match variant.strip_suffix(" deny") {
        Some(variant) => apply_internal_enum_variant_tag(alloc, schema, tag, variant, true)?,
        None => apply_internal_enum_variant_tag(alloc, schema, tag, variant, false)?,
    }
    Ok(schema.to_ordered_string(alloc)?)
}

// A copy of the schema, from which a member is then removed.
fn cloned(alloc: Global, schema: &mut Schema, key: &str) -> Result<String, NoAnswer> {
    let copy = schema.clone()?;
    let _ = schema.remove(key);
    Ok(copy.to_ordered_string(alloc)?)
}

// The schema with null at a key, by the members that a call lends.
fn with_member(
    alloc: Global,
    call: &str,
    schema: &mut Schema,
    key: &str,
) -> Result<String, NoAnswer> {
    if call == "ensure_object" {
        put(schema.ensure_object(alloc)?, alloc, key, Value::Null)?;
    } else {
        match schema.as_object_mut() {
            Some(members) => put(members, alloc, key, Value::Null)?,
            None => return text_of_bool(alloc, None),
        }
    }
    Ok(schema.to_ordered_string(alloc)?)
}

// The value that stood in a place, where a truth value then stands.
fn replaced(place: Option<&mut Value>) -> Option<Value> {
    match place {
        Some(value) => Some(mem::replace(value, Value::Bool(true))),
        None => None,
    }
}

// The value that a call takes out, or leads to.
fn taken(
    alloc: Global,
    call: &str,
    schema: &mut Schema,
    argument: &str,
) -> Result<Option<Value>, AllocError> {
    match call {
        "get_mut" => Ok(replaced(schema.get_mut(argument))),
        "pointer_mut" => Ok(replaced(schema.pointer_mut(alloc, argument)?)),
        _ => Ok(schema.remove(argument)),
    }
}

// The value that a call took out or replaced, and the schema after it.
fn with_old(alloc: Global, old: Option<Value>, schema: &Schema) -> Result<String, NoAnswer> {
    let old = text_of(alloc, old.as_ref())?;
    let schema = schema.to_ordered_string(alloc)?;
    Ok(format!(in alloc; "{old} {schema}")?)
}

/// What a call answers that takes a schema and a value: the two of a list.
pub(crate) fn answer_of_two(
    alloc: Global,
    call: &str,
    argument: &str,
    value: &Value,
) -> Result<String, NoAnswer> {
    let (first, second) = pair_in(value).ok_or(NoAnswer::BadInput)?;
    let mut schema = schema_in(first)?;
    match call {
        "insert" => inserted(alloc, &mut schema, argument, second),
        "insert_object_property" => with_property(alloc, &mut schema, argument, second),
        _ => merged_at(alloc, &mut schema, argument, second),
    }
}

fn inserted(
    alloc: Global,
    schema: &mut Schema,
    key: &str,
    value: &Value,
) -> Result<String, NoAnswer> {
    let value = value.clone()?;
    let old = schema.insert(alloc, String::from_str(alloc, key)?, value)?;
    with_old(alloc, old, schema)
}

// The argument is the property's key, with `optional` behind it where the property is optional.
fn with_property(
    alloc: Global,
    schema: &mut Schema,
    argument: &str,
    property: &Value,
) -> Result<String, NoAnswer> {
    let property = schema_in(property)?;
    match argument.strip_suffix(" optional") {
        Some(key) => insert_object_property(alloc, schema, key, true, property)?,
        None => insert_object_property(alloc, schema, argument, false, property)?,
    }
    Ok(schema.to_ordered_string(alloc)?)
}

// What is then there is open where the members cannot be put there.
fn merged_at(
    alloc: Global,
    schema: &mut Schema,
    pointer: &str,
    value: &Value,
) -> Result<String, NoAnswer> {
    let Value::Object(members) = value else {
        return Err(NoAnswer::BadInput);
    };
    if schema.merge_at(alloc, pointer, members.clone()?)? {
        Ok(schema.to_ordered_string(alloc)?)
    } else {
        text_of_bool(alloc, Some(false))
    }
}
