//! Schemas that accept null too.
ghost use Rattle.std.specs.Prelude.{◌≡◌, ◌∷◌, [], IfOk, OnOk, Some, codes, option_map, string_bytes, None};
ghost use Rattle.schemars_builders.specs.Words.{Data, string, array, object, no_items, item, put, get, get_member, as_object, as_str, as_bool, view, items_view, members_in, Dialect, is_null, allow_null, null_schema, is_null_schema, holds_null, holds_null_schema, const_admits_null, enum_admits_null, offers_null, is_null_choice, is_combined, accepts_everything, type_with_null, null_in_type, enum_with_null, null_in_enum, const_or_null, null_in_values, or_null, IsDraft, IsNullable, AcceptsNullToo};

use schemars_schema::Schema;
use schemars_schema::edits::{has_one_member, holds_text, is_text};
use serde_json::{Map, Value};
use std::alloc::{AllocError, Global};
use std::mem;

/// Makes a schema accept null too.
///
/// `true` is unchanged, and so is an object with only `anyOf`, one of whose schemas is the schema
/// of null. `false` becomes the schema of null. An object that combines schemas, has a `$ref`, or
/// has a `not` that refuses everything becomes `anyOf` of itself and the schema of null. Any other
/// object gets `null` at the end of its `type`, and null at the end of its `enum`; a `const` other
/// than null becomes an `enum` of its value and null.
pub fn allow_null(alloc: Global, schema: &mut Schema) -> Result<(), AllocError>
    ensures becomes { OnOk result (schema.new ≡ allow_null schema.old) }
    ensures law { OnOk result ((dialect : Dialect) → IsDraft dialect
        → IsNullable dialect schema.old → AcceptsNullToo dialect schema.old schema.new) }
{
    make_nullable(alloc, schema)?;
    Ok(())
}

fn make_nullable(alloc: Global, schema: &mut Schema) -> Result<(), AllocError>
    ensures { OnOk result (schema.new ≡ allow_null schema.old) }
{
    match schema.as_bool() {
        Some(true) => {}
        Some(false) => *schema = null_schema(alloc)?,
        None => allow_null_in_object(alloc, schema)?,
    }
    Ok(())
}

fn allow_null_in_object(alloc: Global, schema: &mut Schema) -> Result<(), AllocError>
    requires { as_bool schema.old ≡ None }
    ensures { OnOk result (schema.new ≡ allow_null schema.old) }
{
    if schema.as_object().is_none() {
        return Ok(());
    }
    if is_null_choice(schema) {
        return Ok(());
    }
    if is_combined(schema) {
        let combined = mem::replace(schema, Schema::from(true));
        *schema = or_null(alloc, combined)?;
        return Ok(());
    }
    null_in_type(alloc, schema)?;
    null_in_values(alloc, schema)
}

// The schema of null alone.
fn null_schema(alloc: Global) -> Result<Schema, AllocError>
    ensures { IfOk result (λ s. s ≡ null_schema) }
{
    let mut members = Map::new(alloc);
    serde_json::put(
        &mut members,
        alloc,
        "type",
        Value::try_from_str(alloc, "null")?,
    )?;
    Ok(Schema::from(members))
}

// Whether a schema is `anyOf` alone, and one of its schemas is that of null.
fn is_null_choice(schema: &Schema) -> bool
    ensures { result ≡ is_null_choice schema.now }
{
    has_one_member(schema) && schema.get("anyOf").is_some_and(offers_null)
}

fn offers_null(choices: &Value) -> bool
    ensures { result ≡ offers_null (Some (view choices.now)) }
{
    match choices {
        Value::Array(schemas) => holds_null_schema(schemas),
        _ => false,
    }
}

fn holds_null_schema(schemas: &[Value]) -> bool
    ensures { result ≡ holds_null_schema (items_view schemas.now) }
{
    for schema in schemas {
        if is_null_schema(schema) {
            return true;
        }
    }
    false
}

// Whether the type is `null`, which `const` and `enum` admit.
fn is_null_schema(schema: &Value) -> bool
    ensures { result ≡ is_null_schema (view schema.now) }
{
    let has_null_type = schema.get("type").is_some_and(|name| is_text(name, "null"));
    has_null_type && const_admits_null(schema.get("const")) && enum_admits_null(schema.get("enum"))
}

fn const_admits_null(constant: Option<&Value>) -> bool
    ensures { result ≡ const_admits_null (option_map (λ v. view v.now) constant.entry) }
{
    match constant {
        Some(value) => is_null(value),
        None => true,
    }
}

fn enum_admits_null(values: Option<&Value>) -> bool
    ensures { result ≡ enum_admits_null (option_map (λ v. view v.now) values.entry) }
{
    match values {
        Some(Value::Array(values)) => holds_null(values),
        _ => true,
    }
}

fn holds_null(values: &[Value]) -> bool
    ensures { result ≡ holds_null (items_view values.now) }
{
    for value in values {
        if is_null(value) {
            return true;
        }
    }
    false
}

fn is_null(value: &Value) -> bool
    ensures { result ≡ is_null (view value.now) }
{
    matches!(value, Value::Null)
}

// Whether a schema may refuse null by more than its own type.
fn is_combined(schema: &Schema) -> bool
    ensures { result ≡ is_combined schema.now }
{
    schema.get("if").is_some()
        || schema.get("allOf").is_some()
        || schema.get("anyOf").is_some()
        || schema.get("oneOf").is_some()
        || schema.get("$ref").is_some()
        || schema.get("not").is_some_and(accepts_everything)
}

fn accepts_everything(schema: &Value) -> bool
    ensures { result ≡ accepts_everything (Some (view schema.now)) }
{
    match schema {
        Value::Bool(accepts) => *accepts,
        Value::Object(members) => members.is_empty(),
        _ => false,
    }
}

// This schema or null.
fn or_null(alloc: Global, schema: Schema) -> Result<Schema, AllocError>
    ensures { IfOk result (λ s. s ≡ or_null schema) }
{
    let null = null_schema(alloc)?;
    let either = vec![in alloc; schema.to_value(), null.to_value()]?;
    let mut members = Map::new(alloc);
    serde_json::put(&mut members, alloc, "anyOf", Value::Array(either))?;
    Ok(Schema::from(members))
}

fn null_in_type(alloc: Global, schema: &mut Schema) -> Result<(), AllocError>
    requires { schema.old ≡ object (members_in schema.old) }
    ensures { OnOk result (schema.new ≡ object (null_in_type
        (get (codes "type") schema.old) (members_in schema.old))) }
{
    let Some(type_names) = schema.get("type") else {
        return Ok(());
    };
    let with_null = type_with_null(alloc, type_names.clone()?)?;
    let key = String::from_str(alloc, "type")?;
    let _ = schema.insert(alloc, key, with_null)?;
    Ok(())
}

// A type with null at its end, unless it has null.
fn type_with_null(alloc: Global, type_names: Value) -> Result<Value, AllocError>
    ensures { IfOk result (λ v. view v ≡ type_with_null (view type_names)) }
{
    match type_names {
        Value::String(name) => name_with_null(alloc, name),
        Value::Array(names) => names_with_null(alloc, names),
        unchanged => Ok(unchanged),
    }
}

fn name_with_null(alloc: Global, name: String) -> Result<Value, AllocError>
    ensures { IfOk result (λ v. view v ≡ type_with_null (string (string_bytes name))) }
{
    if name.as_str() == "null" {
        return Ok(Value::String(name));
    }
    let null = Value::try_from_str(alloc, "null")?;
    let names = vec![in alloc; Value::String(name), null]?;
    Ok(Value::Array(names))
}

fn names_with_null(alloc: Global, names: Vec<Value>) -> Result<Value, AllocError>
    ensures { IfOk result (λ v. view v ≡ type_with_null (array (items_view names.items))) }
{
    if holds_text(&names, "null") {
        return Ok(Value::Array(names));
    }
    let null = Value::try_from_str(alloc, "null")?;
    let mut names = names;
    serde_json::push(&mut names, null)?;
    Ok(Value::Array(names))
}

// Lets `const` and `enum` admit null.
fn null_in_values(alloc: Global, schema: &mut Schema) -> Result<(), AllocError>
    requires { schema.old ≡ object (members_in schema.old) }
    ensures { OnOk result (schema.new ≡ object (null_in_values (members_in schema.old))) }
{
    match schema.get("const") {
        Some(Value::Null) => Ok(()),
        Some(_) => const_or_null(alloc, schema),
        None => null_in_enum(alloc, schema),
    }
}

// Makes a `const` an `enum` of its value and null.
fn const_or_null(alloc: Global, schema: &mut Schema) -> Result<(), AllocError>
    requires { schema.old ≡ object (members_in schema.old) }
    ensures { OnOk result ((c : Data) → get (codes "const") schema.old ≡ Some c
        → schema.new ≡ object (const_or_null c (members_in schema.old))) }
{
    let Some(constant) = schema.remove("const") else {
        return Ok(());
    };
    let values = vec![in alloc; constant, Value::Null]?;
    let key = String::from_str(alloc, "enum")?;
    let _ = schema.insert(alloc, key, Value::Array(values))?;
    Ok(())
}

fn null_in_enum(alloc: Global, schema: &mut Schema) -> Result<(), AllocError>
    requires { schema.old ≡ object (members_in schema.old) }
    ensures { OnOk result (schema.new ≡ object (null_in_enum
        (get (codes "enum") schema.old) (members_in schema.old))) }
{
    let Some(values) = schema.get("enum") else {
        return Ok(());
    };
    let with_null = enum_with_null(values.clone()?)?;
    let key = String::from_str(alloc, "enum")?;
    let _ = schema.insert(alloc, key, with_null)?;
    Ok(())
}

// A list of values with null at its end, unless it has null.
fn enum_with_null(values: Value) -> Result<Value, AllocError>
    ensures { IfOk result (λ v. view v ≡ enum_with_null (view values)) }
{
    match values {
        Value::Array(values) => values_with_null(values),
        unchanged => Ok(unchanged),
    }
}

fn values_with_null(values: Vec<Value>) -> Result<Value, AllocError>
    ensures { IfOk result (λ v. view v ≡ enum_with_null (array (items_view values.items))) }
{
    if holds_null(&values) {
        return Ok(Value::Array(values));
    }
    let mut values = values;
    serde_json::push(&mut values, Value::Null)?;
    Ok(Value::Array(values))
}
