//! A schema with the keywords of another put in.
ghost use Rattle.std.specs.Prelude.{◌≡◌, codes, OnOk};
ghost use Rattle.schemars_flatten.specs.Words.{put, view, members_view, contains_key, has_subschema, moved, moved_beside, rest_keyword, opened_keywords, united_all, flattened, AreJoinable, AcceptsBoth};

use crate::union::{put_keywords, remove};
use schemars_schema::Schema;
use serde_json::{Map, Value};
use std::alloc::{AllocError, Global};

/// Merges the keywords of another schema into a schema, as for a flattened field.
///
/// `false` adds nothing. `true` allows further members of the object, unless the schema is a truth
/// value or has a keyword for them. If the other schema is an object, a truth value becomes one
/// first, as by `ensure_object`. Then `additionalProperties` of each side becomes
/// `unevaluatedProperties` if the other side has that keyword or applies schemas to the same value.
/// Missing keywords are added; `required` and `allOf` are concatenated; `properties` and
/// `patternProperties` are merged, and the other's value is kept under a common name; a second
/// `oneOf` or `anyOf` is moved with the first into `allOf`; of other keywords the schema's own
/// value is kept. If values to concatenate or merge are not lists or objects, the schema's own
/// value is kept too, and two choices beside an `allOf` that is not a list are both dropped.
pub fn flatten(alloc: Global, schema: &mut Schema, other: Schema) -> Result<(), AllocError>
    ensures becomes { OnOk result (schema.new ≡ flattened schema.old other) }
    ensures law { OnOk result (AreJoinable schema.old other
        → AcceptsBoth schema.old other schema.new) }
{
    put_schema(alloc, schema, other)?;
    Ok(())
}

fn put_schema(alloc: Global, schema: &mut Schema, other: Schema) -> Result<(), AllocError>
    ensures { OnOk result (schema.new ≡ flattened schema.old other) }
{
    match other.to_value() {
        Value::Object(others) => {
            let members = schema.ensure_object(alloc)?;
            unite(alloc, members, others)
        }
        Value::Bool(true) => match schema.as_object_mut() {
            Some(members) => open(alloc, members),
            None => Ok(()),
        },
        _ => Ok(()),
    }
}

// Puts the keywords of another object in.
fn unite(
    alloc: Global,
    members: &mut Map<String, Value>,
    others: Map<String, Value>,
) -> Result<(), AllocError>
    ensures { OnOk result (members_view members.new.entries
        ≡ united_all (members_view members.old.entries) (members_view others.entries)) }
{
    let mut others = others;
    move_beside(alloc, members, &others)?;
    move_beside(alloc, &mut others, members)?;
    put_keywords(alloc, members, others)
}

// Makes `additionalProperties` `unevaluatedProperties` where the other side asks for it.
fn move_beside(
    alloc: Global,
    members: &mut Map<String, Value>,
    others: &Map<String, Value>,
) -> Result<(), AllocError>
    ensures { OnOk result (members_view members.new.entries
        ≡ moved_beside (members_view others.now.entries) (members_view members.old.entries)) }
{
    if !contains_key(members, "additionalProperties") {
        return Ok(());
    }
    if contains_key(others, "unevaluatedProperties") || has_subschema(others) {
        move_additional(alloc, members)
    } else {
        Ok(())
    }
}

fn move_additional(alloc: Global, members: &mut Map<String, Value>) -> Result<(), AllocError>
    ensures { OnOk result (members_view members.new.entries
        ≡ moved (members_view members.old.entries)) }
{
    match remove(members, "additionalProperties") {
        Some(additional) => serde_json::put(members, alloc, "unevaluatedProperties", additional),
        None => Ok(()),
    }
}

// Lets further members of the object in, unless a keyword speaks of them.
fn open(alloc: Global, members: &mut Map<String, Value>) -> Result<(), AllocError>
    ensures { OnOk result (members_view members.new.entries
        ≡ opened_keywords (members_view members.old.entries)) }
{
    if contains_key(members, "additionalProperties")
        || contains_key(members, "unevaluatedProperties")
    {
        return Ok(());
    }
    serde_json::put(members, alloc, rest_keyword(members), Value::Bool(true))
}

// The keyword that judges what is left of an object.
fn rest_keyword(members: &Map<String, Value>) -> &'static str
    ensures { result.now ≡ rest_keyword (members_view members.now.entries) }
{
    if has_subschema(members) {
        "unevaluatedProperties"
    } else {
        "additionalProperties"
    }
}

// Whether a keyword applies schemas to the same value.
fn has_subschema(members: &Map<String, Value>) -> bool
    ensures { result ≡ has_subschema (members_view members.now.entries) }
{
    contains_key(members, "if")
        || contains_key(members, "allOf")
        || contains_key(members, "anyOf")
        || contains_key(members, "oneOf")
        || contains_key(members, "$ref")
}

fn contains_key(members: &Map<String, Value>, key: &str) -> bool
    ensures { result ≡ contains_key key.now (members_view members.now.entries) }
{
    members.contains_key(key)
}
