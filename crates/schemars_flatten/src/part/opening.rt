//! Schemas that let further members of an object in.
ghost use Rattle.std.specs.Prelude.{◌≡◌, Some, OnOk};
ghost use Rattle.schemars_flatten.specs.Words.{view, is_listed, place_meant, with_same_object, with_same_objects, is_false, closes_by, opened_at, opened_here, same_object_place, opened, opened_inside};

use schemars_schema::Schema;
use schemars_schema::keywords::{holds_same, lists_same};
use schemars_walk::rewrite::place::Place;
use schemars_walk::rewrite::{Rule, rewrite};
use serde_json::Value;
use std::alloc::{AllocError, Global};

/// Allows further members in each schema inside this one that judges the same object: in every
/// schema that is reached only through `if`, `then`, `else`, `allOf`, `anyOf` and `oneOf`, at any
/// depth, `additionalProperties` and `unevaluatedProperties` are removed where they are false. The
/// schema keeps its own.
pub fn open_inside(alloc: Global, schema: &mut Schema) -> Result<(), AllocError>
    ensures { OnOk result (schema.new ≡ opened_inside schema.old) }
{
    rewrite(Level::Around, alloc, schema)
}

// Lets further members in, in a schema and in those inside it that judge the same object.
pub(crate) fn open(alloc: Global, schema: &mut Schema) -> Result<(), AllocError>
    ensures { OnOk result (schema.new ≡ opened schema.old) }
{
    rewrite(Level::Below, alloc, schema)
}

// How far inside a schema lies.
#[derive(Clone, Copy)]
enum Level {
    // Around the schema that keeps its own keywords.
    Around,
    // In that schema.
    Top,
    // In one that is opened.
    Below,
}

impl Rule for Level {
    ghost use Rattle.schemars_flatten.specs.Opening.{opening_by_level};

    ghost rules = { opening_by_level };

    fn inside(self, _schema: &Value) -> Level {
        match self {
            Level::Around => Level::Top,
            Level::Top | Level::Below => Level::Below,
        }
    }

    fn place(self, key: &str, _value: &Value) -> Place {
        same_object_place(key)
    }

    fn finish(self, _alloc: Global, schema: &mut Schema) -> Result<(), AllocError> {
        match self {
            Level::Around | Level::Top => {}
            Level::Below => open_here(schema),
        }
        Ok(())
    }
}

fn open_here(schema: &mut Schema)
    ensures { schema.new ≡ opened_here schema.old }
{
    open_at(schema, "additionalProperties");
    open_at(schema, "unevaluatedProperties");
}

fn open_at(schema: &mut Schema, key: &str)
    ensures { schema.new ≡ opened_at key.now schema.old }
{
    if closes_by(schema.as_value(), key) {
        let _false = schema.remove(key);
    }
}

// Whether a keyword lets no further members in.
pub(crate) fn closes_by(schema: &Value, key: &str) -> bool
    ensures { result ≡ closes_by key.now (view schema.now) }
{
    schema.get(key).is_some_and(is_false)
}

fn is_false(value: &Value) -> bool
    ensures { result ≡ is_false (Some (view value.now)) }
{
    match value {
        Value::Bool(admits) => !*admits,
        _ => false,
    }
}

fn same_object_place(key: &str) -> Place
    ensures { place_meant result ≡ same_object_place key.now }
{
    if holds_same(key) {
        Place::Schema
    } else if lists_same(key) {
        Place::List
    } else {
        Place::Nothing
    }
}
