//! Whether schemas let further members of an object in.
ghost use Rattle.std.specs.Prelude.{◌≡◌, false, codes};
ghost use Rattle.schemars_flatten.specs.Words.{as_str, view, items_view, members_view, is_text, closes, closed_in, closed_in_items, closed_in_keywords, closed_at, closes_inside, has_type, must_be_in_place, opened_inside};

use crate::part::opening::closes_by;
use schemars_schema::Schema;
use schemars_schema::keywords::{holds_same, lists_same};
use serde_json::{Map, Value};

/// Returns whether the content beside the tag of an internally tagged variant has to be written in
/// place, given its document: if it is inline anyway; if its `type` is `null`, which then becomes
/// that of an object; or if it, or a schema inside it that judges the same object, has
/// `additionalProperties` or `unevaluatedProperties` with the value false, which would refuse the
/// tag. If a reference will do, opening the schemas inside changes nothing.
pub fn must_be_in_place(schema: &Schema, inline: bool) -> bool
    ensures value { result ≡ must_be_in_place inline schema.now }
    ensures unchanged { result ≡ false → opened_inside schema.now ≡ schema.now }
{
    asks_for_place(schema, inline)
}

fn asks_for_place(schema: &Schema, inline: bool) -> bool
    ensures { result ≡ must_be_in_place inline schema.now }
{
    inline
        || has_type(schema.as_value(), "null")
        || closes(schema.as_value())
        || closes_inside(schema)
}

// Whether the type is this one alone.
pub(crate) fn has_type(schema: &Value, name: &str) -> bool
    ensures { result ≡ has_type name.now (view schema.now) }
{
    schema.get("type").is_some_and(|found| is_text(found, name))
}

fn is_text(value: &Value, text: &str) -> bool
    ensures { result ≡ is_text text.now (as_str (view value.now)) }
{
    match value.as_str() {
        Some(found) => found == text,
        None => false,
    }
}

fn closes(schema: &Value) -> bool
    ensures { result ≡ closes (view schema.now) }
{
    closes_by(schema, "additionalProperties") || closes_by(schema, "unevaluatedProperties")
}

// Whether a schema inside this one, which judges the same object, lets no further members in.
fn closes_inside(schema: &Schema) -> bool
    ensures { result ≡ closes_inside schema.now }
{
    match schema.as_object() {
        Some(members) => keywords_close(members),
        None => false,
    }
}

#[cycle(closing)]
#[tactic(auto, using(crate::proofs::ClosedCalls::keywords))]
fn keywords_close(members: &Map<String, Value>) -> bool
    ensures { result ≡ closed_in_keywords (members_view members.now.entries) }
{
    for (key, value) in members.iter() {
        if keyword_closes(key.as_str(), value) {
            return true;
        }
    }
    false
}

#[cycle(closing)]
fn keyword_closes(key: &str, value: &Value) -> bool
    ensures { result ≡ closed_at key.now (closed_in (view value.now)) }
{
    if holds_same(key) {
        schema_closes(value)
    } else if lists_same(key) {
        list_closes(value)
    } else {
        false
    }
}

#[cycle(closing)]
fn schema_closes(schema: &Value) -> bool
    ensures { result ≡ (closed_in (view schema.now)).in_schema }
{
    match schema.as_object() {
        Some(members) => closes(schema) || keywords_close(members),
        None => false,
    }
}

#[cycle(closing)]
fn list_closes(list: &Value) -> bool
    ensures { result ≡ (closed_in (view list.now)).in_list }
{
    match list.as_array() {
        Some(schemas) => items_close(schemas),
        None => false,
    }
}

#[cycle(closing)]
fn items_close(schemas: &[Value]) -> bool
    ensures { result ≡ closed_in_items (items_view schemas.now) }
{
    for schema in schemas {
        if schema_closes(schema) {
            return true;
        }
    }
    false
}
