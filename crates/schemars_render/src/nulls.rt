//! Schemas in parts that accept null too.
ghost use Rattle.std.specs.Prelude.{◌≡◌, false, codes, Some, IfOk, OnOk};
ghost use Rattle.schemars_render.specs.Words.{null, string, array, object, no_items, item, put, get_member, view, is_null, allow_null, or_null, is_combined, accepts_everything, holds_null, null_in_type, type_with_null, null_in_values, null_in_enum, enum_with_null, assembled_view, items_assembled};

use schemars_parts::{Assembled, MemberList, Stop, holds_text, into_items, lone_object};
use serde_json::Value;
use std::alloc::Global;

// The schema, which accepts null too.
pub(crate) fn with_null<'t>(alloc: Global, schema: Assembled<'t>) -> Result<Assembled<'t>, Stop>
    ensures { IfOk result (λ p. assembled_view p ≡ allow_null (assembled_view schema.entry)) }
{
    match schema {
        Assembled::Reference(target) => or_null(alloc, Assembled::Reference(target)),
        Assembled::Object(members) => {
            let members = MemberList::of(members)?;
            null_in_object(alloc, members)
        }
        Assembled::Value(value) => null_in_value(alloc, value),
        _ => Err(Stop::NotCovered),
    }
}

fn null_in_value<'t>(alloc: Global, value: &'t Value) -> Result<Assembled<'t>, Stop>
    ensures { IfOk result (λ p. assembled_view p ≡ allow_null (view value.now)) }
{
    match value {
        Value::Object(members) => {
            let members = MemberList::of_values(alloc, members)?;
            null_in_object(alloc, members)
        }
        Value::Bool(true) => Ok(Assembled::Value(value)),
        _ => Err(Stop::NotCovered),
    }
}

// What the schema accepts, or null.
fn or_null<'t>(alloc: Global, schema: Assembled<'t>) -> Result<Assembled<'t>, Stop>
    ensures { IfOk result (λ p. assembled_view p ≡ or_null (assembled_view schema.entry)) }
{
    let null = lone_object(alloc, "type", Assembled::Text("null"))?;
    let choices = vec![in alloc; schema, null]?;
    lone_object(alloc, "anyOf", Assembled::List(choices))
}

// A choice of others is not covered, since it may accept null already.
fn null_in_object<'t>(alloc: Global, members: MemberList<'t>) -> Result<Assembled<'t>, Stop>
    ensures { IfOk result (λ p. assembled_view p ≡ allow_null (object members.entry)) }
{
    if members.has("anyOf") {
        return Err(Stop::NotCovered);
    }
    if is_combined(&members)? {
        return or_null(alloc, members.into_object());
    }
    let mut members = members;
    null_in_type(alloc, &mut members)?;
    null_in_values(alloc, &mut members)?;
    Ok(members.into_object())
}

// Whether a schema may refuse null by more than its own type.
fn is_combined(members: &MemberList<'_>) -> Result<bool, Stop>
    ensures { IfOk result (λ b. b ≡ is_combined (object members.now)) }
{
    let combines = members.has("if")
        || members.has("allOf")
        || members.has("anyOf")
        || members.has("oneOf")
        || members.has("$ref");
    if combines {
        return Ok(true);
    }
    match members.find("not") {
        Some(Assembled::Value(schema)) => Ok(accepts_everything(schema)),
        Some(_) => Err(Stop::NotCovered),
        None => Ok(false),
    }
}

fn accepts_everything(schema: &Value) -> bool
    ensures { result ≡ accepts_everything (Some (view schema.now)) }
{
    match schema {
        Value::Bool(accepts) => *accepts,
        Value::Object(members) => members.is_empty(),
        _ => false,
    }
}

// Lets the type have null, where there is one.
fn null_in_type<'t>(alloc: Global, members: &mut MemberList<'t>) -> Result<(), Stop>
    ensures { OnOk result (members.new
        ≡ null_in_type (get_member (codes "type") members.old) members.old) }
{
    match members.take("type") {
        Some(type_names) => {
            let with_null = type_with_null(alloc, type_names)?;
            members.put("type", with_null)
        }
        None => Ok(()),
    }
}

// A type with null at its end, unless it has null.
fn type_with_null<'t>(alloc: Global, type_names: Assembled<'t>) -> Result<Assembled<'t>, Stop>
    ensures { IfOk result (λ p. assembled_view p ≡ type_with_null (assembled_view type_names.entry)) }
{
    match type_names {
        Assembled::Text(name) => name_with_null(alloc, name),
        Assembled::Value(Value::String(name)) => name_with_null(alloc, name.as_str()),
        names => {
            let names = into_items(alloc, names)?;
            names_with_null(names)
        }
    }
}

fn name_with_null<'t>(alloc: Global, name: &'t str) -> Result<Assembled<'t>, Stop>
    ensures { IfOk result (λ p. assembled_view p ≡ type_with_null (string name.now)) }
{
    if name == "null" {
        return Ok(Assembled::Text(name));
    }
    let names = vec![in alloc; Assembled::Text(name), Assembled::Text("null")]?;
    Ok(Assembled::List(names))
}

fn names_with_null<'t>(names: Vec<Assembled<'t>>) -> Result<Assembled<'t>, Stop>
    ensures { IfOk result (λ p. assembled_view p
        ≡ type_with_null (array (items_assembled names.entry.items))) }
{
    if holds_text(&names, "null") {
        return Ok(Assembled::List(names));
    }
    let mut names = names;
    names.push(Assembled::Text("null"))?;
    Ok(Assembled::List(names))
}

// Lets `const` and `enum` admit null.
fn null_in_values<'t>(alloc: Global, members: &mut MemberList<'t>) -> Result<(), Stop>
    ensures { OnOk result (members.new ≡ null_in_values members.old) }
{
    match members.take("const") {
        Some(constant) => const_or_null(alloc, members, constant),
        None => null_in_enum(alloc, members),
    }
}

// Makes a `const` that was taken out an `enum` of its value and null. A null is not covered.
fn const_or_null<'t>(
    alloc: Global,
    members: &mut MemberList<'t>,
    constant: Assembled<'t>,
) -> Result<(), Stop>
    ensures other { OnOk result (is_null (assembled_view constant.entry) ≡ false) }
    ensures becomes { OnOk result (members.new
        ≡ put (codes "enum") (array (item (assembled_view constant.entry) (item null no_items)))
        members.old) }
{
    if is_null_part(&constant) {
        return Err(Stop::NotCovered);
    }
    let values = vec![in alloc; constant, Assembled::Null]?;
    members.put("enum", Assembled::List(values))
}

fn null_in_enum<'t>(alloc: Global, members: &mut MemberList<'t>) -> Result<(), Stop>
    ensures { OnOk result (members.new
        ≡ null_in_enum (get_member (codes "enum") members.old) members.old) }
{
    match members.take("enum") {
        Some(values) => {
            let with_null = enum_with_null(alloc, values)?;
            members.put("enum", with_null)
        }
        None => Ok(()),
    }
}

// A list of values with null at its end, unless it has null.
fn enum_with_null<'t>(alloc: Global, values: Assembled<'t>) -> Result<Assembled<'t>, Stop>
    ensures { IfOk result (λ p. assembled_view p ≡ enum_with_null (assembled_view values.entry)) }
{
    let values = into_items(alloc, values)?;
    values_with_null(values)
}

fn values_with_null<'t>(values: Vec<Assembled<'t>>) -> Result<Assembled<'t>, Stop>
    ensures { IfOk result (λ p. assembled_view p
        ≡ enum_with_null (array (items_assembled values.entry.items))) }
{
    if holds_null(&values) {
        return Ok(Assembled::List(values));
    }
    let mut values = values;
    values.push(Assembled::Null)?;
    Ok(Assembled::List(values))
}

fn holds_null(values: &[Assembled<'_>]) -> bool
    ensures { result ≡ holds_null (items_assembled values.now) }
{
    for value in values {
        if is_null_part(value) {
            return true;
        }
    }
    false
}

fn is_null_part(part: &Assembled<'_>) -> bool
    ensures { result ≡ is_null (assembled_view part.now) }
{
    match part {
        Assembled::Null => true,
        Assembled::Value(value) => matches!(value, Value::Null),
        _ => false,
    }
}
