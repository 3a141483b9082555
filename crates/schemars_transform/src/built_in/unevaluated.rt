//! `additionalProperties` for drafts that have no `unevaluatedProperties`.
ghost use Rattle.std.specs.Prelude.{◌≡◌, IfOk, OnOk};
ghost use Rattle.schemars_transform.specs.Words.{no_members, view, items_view, members_view, is_listed, with_same_object, with_same_objects, keys, keys_in, names_in, names_in_items, names_in_keywords, names_under, property_names, with_names, object_with_names, properties_made, with_properties};

use crate::built_in::keywords::put;
use schemars_schema::Schema;
use schemars_schema::edits::put_missing;
use schemars_schema::keywords::{holds_same, lists_same};
use schemars_walk::rewrite::change::{Change, change_all};
use schemars_walk::{Transform, TransformError};
use serde_json::{Map, Value};
use std::alloc::{AllocError, Global};

/// Renames `unevaluatedProperties` to `additionalProperties`.
///
/// The names under `properties` of all schemas that judge the same object, at any depth below `if`,
/// `then`, `else`, `allOf`, `anyOf` and `oneOf`, are added to `properties` with the schema `true`
/// if they are missing.
#[derive(Clone, Copy, Default)]
pub struct ReplaceUnevaluatedProperties;

impl Transform for ReplaceUnevaluatedProperties {
    ghost use Rattle.schemars_transform.specs.Built.{Changes};
    ghost use Rattle.schemars_transform.specs.Unevaluated.{replace_unevaluated_properties};

    ghost makes = { λ t s r u v. Changes replace_unevaluated_properties t s r u v };

    fn transform(&mut self, alloc: Global, schema: &mut Schema) -> Result<(), TransformError> {
        change_all(*self, alloc, schema)?;
        Ok(())
    }
}

impl Change for ReplaceUnevaluatedProperties {
    ghost use Rattle.schemars_transform.specs.Unevaluated.{unevaluated_as_additional};

    ghost changed = { λ t s. unevaluated_as_additional s };

    fn change(self, alloc: Global, schema: &mut Schema) -> Result<(), AllocError> {
        let Some(rest) = schema.remove("unevaluatedProperties") else {
            return Ok(());
        };
        let _old = put(alloc, schema, "additionalProperties", rest)?;
        add_properties(alloc, schema)
    }
}

// Puts the names of the schemas inside into `properties`.
fn add_properties(alloc: Global, schema: &mut Schema) -> Result<(), AllocError>
    ensures { OnOk result (schema.new ≡ with_properties schema.old) }
{
    match schema.remove("properties") {
        Some(properties) => {
            let named = with_named(alloc, schema, properties)?;
            let _none = put(alloc, schema, "properties", named)?;
            Ok(())
        }
        None => make_properties(alloc, schema),
    }
}

// An object with the names of a schema.
fn with_named(alloc: Global, schema: &Schema, properties: Value) -> Result<Value, AllocError>
    ensures { IfOk result (λ v. view v
        ≡ object_with_names (property_names schema.now) (view properties)) }
{
    match properties {
        Value::Object(members) => {
            let mut named = members;
            add_names(alloc, schema.as_value(), &mut named)?;
            Ok(Value::Object(named))
        }
        unchanged => Ok(unchanged),
    }
}

fn make_properties(alloc: Global, schema: &mut Schema) -> Result<(), AllocError>
    ensures { OnOk result (schema.new
        ≡ properties_made (with_names (property_names schema.old) no_members) schema.old) }
{
    let mut named = Map::new(alloc);
    add_names(alloc, schema.as_value(), &mut named)?;
    if named.is_empty() {
        return Ok(());
    }
    let _none = put(alloc, schema, "properties", Value::Object(named))?;
    Ok(())
}

// Puts in the names of a schema and of those inside it that judge the same object.
#[cycle(names)]
#[tactic(auto, using(crate::proofs::Gathering::names_in_object, crate::proofs::Gathering::names_in_other))]
fn add_names(
    alloc: Global,
    schema: &Value,
    names: &mut Map<String, Value>,
) -> Result<(), AllocError>
    ensures { OnOk result (members_view names.new.entries
        ≡ with_names (names_in (view schema.now)).in_schema (members_view names.old.entries)) }
{
    match schema.as_object() {
        Some(members) => add_keywords(alloc, members, names),
        None => Ok(()),
    }
}

#[cycle(names)]
#[tactic(auto, using(crate::proofs::Gathering::keyword_done, crate::proofs::Gathering::nothing_left))]
fn add_keywords(
    alloc: Global,
    members: &Map<String, Value>,
    names: &mut Map<String, Value>,
) -> Result<(), AllocError>
    ensures { OnOk result (members_view names.new.entries
        ≡ with_names (names_in_keywords (members_view members.now.entries))
        (members_view names.old.entries)) }
{
    for (key, value) in members.iter() {
        add_at(alloc, key.as_str(), value, names)?;
    }
    Ok(())
}

#[cycle(names)]
fn add_at(
    alloc: Global,
    key: &str,
    value: &Value,
    names: &mut Map<String, Value>,
) -> Result<(), AllocError>
    ensures { OnOk result (members_view names.new.entries
        ≡ with_names (names_under key.now (view value.now) (names_in (view value.now)))
        (members_view names.old.entries)) }
{
    if key == "properties" {
        add_keys(alloc, value, names)
    } else if holds_same(key) {
        add_names(alloc, value, names)
    } else if lists_same(key) {
        add_list(alloc, value, names)
    } else {
        Ok(())
    }
}

#[cycle(names)]
#[tactic(auto, using(crate::proofs::Gathering::names_in_array, crate::proofs::Gathering::names_in_no_array))]
fn add_list(alloc: Global, list: &Value, names: &mut Map<String, Value>) -> Result<(), AllocError>
    ensures { OnOk result (members_view names.new.entries
        ≡ with_names (names_in (view list.now)).in_list (members_view names.old.entries)) }
{
    match list.as_array() {
        Some(schemas) => add_items(alloc, schemas, names),
        None => Ok(()),
    }
}

#[cycle(names)]
#[tactic(auto, using(crate::proofs::Gathering::item_done, crate::proofs::Gathering::no_items_left))]
fn add_items(
    alloc: Global,
    schemas: &[Value],
    names: &mut Map<String, Value>,
) -> Result<(), AllocError>
    ensures { OnOk result (members_view names.new.entries
        ≡ with_names (names_in_items (items_view schemas.now)) (members_view names.old.entries)) }
{
    for schema in schemas {
        add_names(alloc, schema, names)?;
    }
    Ok(())
}

// Puts in the keys of an object.
fn add_keys(
    alloc: Global,
    properties: &Value,
    names: &mut Map<String, Value>,
) -> Result<(), AllocError>
    ensures { OnOk result (members_view names.new.entries
        ≡ with_names (keys_in (view properties.now)) (members_view names.old.entries)) }
{
    match properties.as_object() {
        Some(members) => add_each(alloc, members, names),
        None => Ok(()),
    }
}

fn add_each(
    alloc: Global,
    members: &Map<String, Value>,
    names: &mut Map<String, Value>,
) -> Result<(), AllocError>
    ensures { OnOk result (members_view names.new.entries
        ≡ with_names (keys (members_view members.now.entries)) (members_view names.old.entries)) }
{
    for (key, _) in members.iter() {
        put_missing(alloc, names, key.as_str(), Value::Bool(true))?;
    }
    Ok(())
}
