//! Units of enums as the objects that they are inside another object.
ghost use Rattle.std.specs.Prelude.{◌≡◌, codes, option_map, IfOk, OnOk};
ghost use Rattle.schemars_flatten.specs.Words.{array, no_items, as_str, view, items_view, members_view, appended, changed_at, on_list, unit_object, unit_object_first, unit_objects, units_of, with_items, with_units, first_units, first_as_objects, list_changed_at, units_as_objects, null_schema};

use crate::part::closing::has_type;
use crate::union::push_all;
use schemars_schema::Schema;
use serde_json::{Map, Value};
use std::alloc::{AllocError, Global};

// Makes the texts that a schema lists, or the first schema of its `oneOf`, objects under `oneOf`.
pub(crate) fn units_as_objects(alloc: Global, schema: &mut Schema) -> Result<(), AllocError>
    ensures { OnOk result (schema.new ≡ units_as_objects schema.old) }
{
    match units_of(alloc, schema.as_value())? {
        Some(units) => {
            let _texts = schema.remove("enum");
            let _type = schema.remove("type");
            put_units(alloc, schema, units)
        }
        None => change_choice(alloc, schema),
    }
}

// The objects of a schema that lists texts.
fn units_of(alloc: Global, schema: &Value) -> Result<Option<Vec<Value>>, AllocError>
    ensures { IfOk result (λ units. option_map (λ v. items_view v.items) units
        ≡ units_of (view schema.now)) }
{
    if !has_type(schema, "string") {
        return Ok(None);
    }
    match schema.get("enum") {
        Some(Value::Array(texts)) => Ok(Some(unit_objects(alloc, texts)?)),
        _ => Ok(None),
    }
}

// An object for each text of a list.
fn unit_objects(alloc: Global, texts: &[Value]) -> Result<Vec<Value>, AllocError>
    ensures { IfOk result (λ v. items_view v.items ≡ unit_objects (items_view texts.now)) }
{
    let mut units = Vec::new(alloc);
    for text in texts {
        push_unit(alloc, &mut units, text)?;
    }
    Ok(units)
}

fn push_unit(alloc: Global, units: &mut Vec<Value>, text: &Value) -> Result<(), AllocError>
    ensures { OnOk result (items_view units.new.items ≡ appended (items_view units.old.items)
        (unit_object_first (as_str (view text.now)) no_items)) }
{
    match text.as_str() {
        Some(name) => serde_json::push(units, unit_object(alloc, name)?),
        None => Ok(()),
    }
}

// An object with the unit's name as its one key, and null there.
fn unit_object(alloc: Global, name: &str) -> Result<Value, AllocError>
    ensures { IfOk result (λ v. view v ≡ unit_object name.now) }
{
    let mut properties = Map::new(alloc);
    serde_json::put(&mut properties, alloc, name, null_schema(alloc)?)?;
    let required = vec![in alloc; Value::try_from_str(alloc, name)?]?;
    let mut members = Map::new(alloc);
    let object = Value::try_from_str(alloc, "object")?;
    serde_json::put(&mut members, alloc, "type", object)?;
    serde_json::put(&mut members, alloc, "properties", Value::Object(properties))?;
    serde_json::put(&mut members, alloc, "required", Value::Array(required))?;
    Ok(Value::Object(members))
}

fn null_schema(alloc: Global) -> Result<Value, AllocError>
    ensures { IfOk result (λ v. view v ≡ null_schema) }
{
    let mut members = Map::new(alloc);
    let null = Value::try_from_str(alloc, "null")?;
    serde_json::put(&mut members, alloc, "type", null)?;
    Ok(Value::Object(members))
}

// Puts objects at the end of `oneOf`, which is made where it is missing.
fn put_units(alloc: Global, schema: &mut Schema, units: Vec<Value>) -> Result<(), AllocError>
    ensures { OnOk result (schema.new ≡ with_units (items_view units.items) schema.old) }
{
    let members = schema.ensure_object(alloc)?;
    put_choices(alloc, members, units)
}

fn put_choices(
    alloc: Global,
    members: &mut Map<String, Value>,
    units: Vec<Value>,
) -> Result<(), AllocError>
    ensures { OnOk result (members_view members.new.entries
        ≡ changed_at (codes "oneOf") (with_items (items_view units.items)) (array no_items)
        (members_view members.old.entries)) }
{
    match members.get_mut("oneOf") {
        Some(choice) => push_units(choice, units),
        None => serde_json::put(members, alloc, "oneOf", Value::Array(units)),
    }
}

fn push_units(choice: &mut Value, units: Vec<Value>) -> Result<(), AllocError>
    ensures { OnOk result (view choice.new
        ≡ with_items (items_view units.items) (view choice.old)) }
{
    match choice.as_array_mut() {
        Some(schemas) => push_all(schemas, units),
        None => Ok(()),
    }
}

// Puts the objects of the first schema of `oneOf` at its end, in place of the schema.
fn change_choice(alloc: Global, schema: &mut Schema) -> Result<(), AllocError>
    ensures { OnOk result (schema.new
        ≡ list_changed_at (codes "oneOf") first_as_objects schema.old) }
{
    match schema.get_mut("oneOf") {
        Some(choice) => change_list(alloc, choice),
        None => Ok(()),
    }
}

fn change_list(alloc: Global, choice: &mut Value) -> Result<(), AllocError>
    ensures { OnOk result (view choice.new ≡ on_list first_as_objects (view choice.old)) }
{
    match choice.as_array_mut() {
        Some(schemas) => first_as_objects(alloc, schemas),
        None => Ok(()),
    }
}

fn first_as_objects(alloc: Global, schemas: &mut Vec<Value>) -> Result<(), AllocError>
    ensures { OnOk result (items_view schemas.new.items
        ≡ first_as_objects (items_view schemas.old.items)) }
{
    match first_units(alloc, schemas)? {
        Some(units) => {
            let _first = schemas.remove(0);
            push_all(schemas, units)
        }
        None => Ok(()),
    }
}

// The objects of the first schema of a list.
fn first_units(alloc: Global, schemas: &[Value]) -> Result<Option<Vec<Value>>, AllocError>
    ensures { IfOk result (λ units. option_map (λ v. items_view v.items) units
        ≡ first_units (items_view schemas.now)) }
{
    match schemas.first() {
        Some(first) => units_of(alloc, first),
        None => Ok(None),
    }
}
