//! Documents that are flattened into the object around them.
ghost use Rattle.std.specs.Prelude.{◌≡◌, codes, IfOk, OnOk};
ghost use Rattle.schemars_flatten.specs.Words.{view, items_view, alone, on_list, list_changed_at, is_empty_object, holds_empty_object, with_empty_object, one_or_anything, choice_or_anything, optional, optional_where, flattened_part};

use crate::merging::flatten;
use crate::part::opening::open;
use crate::part::units::units_as_objects;
use schemars_schema::Schema;
use serde_json::{Map, Value};
use std::alloc::{AllocError, Global};

/// Makes a document a part that is flattened into the object around it. A truth value is unchanged.
///
/// 1. Texts that the schema lists under `enum`, with the `type` of a text, become objects with the
///    text as their only key and null as its value, at the end of `oneOf`, which is created if it
///    is missing and unchanged if it is not a list. Other values of `enum` are dropped. If the
///    schema lists no texts, those of the first schema of `oneOf` are taken, and that schema is
///    removed.
/// 2. If the part is optional, `required` is removed; `oneOf` becomes an `anyOf` of itself and
///    `{}`, which is moved into `allOf` together with any `anyOf` that is there; a list under
///    `anyOf` gets `{}` at its end unless it has it.
/// 3. Further members are allowed: `additionalProperties` and `unevaluatedProperties` are removed
///    where they are false, here and in every schema that is reached only through `if`, `then`,
///    `else`, `allOf`, `anyOf` and `oneOf`.
pub fn as_flattened(alloc: Global, schema: &mut Schema, is_optional: bool) -> Result<(), AllocError>
    ensures { OnOk result (schema.new ≡ flattened_part is_optional schema.old) }
{
    units_as_objects(alloc, schema)?;
    make_optional_where(alloc, schema, is_optional)?;
    open(alloc, schema)
}

fn make_optional_where(
    alloc: Global,
    schema: &mut Schema,
    is_optional: bool,
) -> Result<(), AllocError>
    ensures { OnOk result (schema.new ≡ optional_where is_optional schema.old) }
{
    if is_optional {
        make_optional(alloc, schema)
    } else {
        Ok(())
    }
}

// Lets an object have none of the members.
fn make_optional(alloc: Global, schema: &mut Schema) -> Result<(), AllocError>
    ensures { OnOk result (schema.new ≡ optional schema.old) }
{
    let _names = schema.remove("required");
    choice_or_anything(alloc, schema)?;
    admit_anything(alloc, schema)
}

// Puts `oneOf` into an `anyOf` that admits anything.
fn choice_or_anything(alloc: Global, schema: &mut Schema) -> Result<(), AllocError>
    ensures { OnOk result (schema.new ≡ choice_or_anything schema.old) }
{
    match schema.remove("oneOf") {
        Some(choice) => flatten(alloc, schema, one_or_anything(alloc, choice)?),
        None => Ok(()),
    }
}

fn one_or_anything(alloc: Global, choice: Value) -> Result<Schema, AllocError>
    ensures { IfOk result (λ s. s ≡ one_or_anything (view choice)) }
{
    let one = alone(alloc, "oneOf", choice)?;
    let anything = Value::Object(Map::new(alloc));
    let either = Value::Array(vec![in alloc; one, anything]?);
    let mut members = Map::new(alloc);
    serde_json::put(&mut members, alloc, "anyOf", either)?;
    Ok(Schema::from(members))
}

// A schema of one keyword.
fn alone(alloc: Global, key: &str, value: Value) -> Result<Value, AllocError>
    ensures { IfOk result (λ v. view v ≡ alone key.now (view value)) }
{
    let mut members = Map::new(alloc);
    serde_json::put(&mut members, alloc, key, value)?;
    Ok(Value::Object(members))
}

// Puts `{}` at the end of `anyOf`, unless it has it.
fn admit_anything(alloc: Global, schema: &mut Schema) -> Result<(), AllocError>
    ensures { OnOk result (schema.new
        ≡ list_changed_at (codes "anyOf") with_empty_object schema.old) }
{
    match schema.get_mut("anyOf") {
        Some(choice) => change_list(alloc, choice),
        None => Ok(()),
    }
}

fn change_list(alloc: Global, choice: &mut Value) -> Result<(), AllocError>
    ensures { OnOk result (view choice.new ≡ on_list with_empty_object (view choice.old)) }
{
    match choice.as_array_mut() {
        Some(schemas) => push_empty_object(alloc, schemas),
        None => Ok(()),
    }
}

fn push_empty_object(alloc: Global, schemas: &mut Vec<Value>) -> Result<(), AllocError>
    ensures { OnOk result (items_view schemas.new.items
        ≡ with_empty_object (items_view schemas.old.items)) }
{
    if holds_empty_object(schemas) {
        return Ok(());
    }
    serde_json::push(schemas, Value::Object(Map::new(alloc)))
}

fn holds_empty_object(schemas: &[Value]) -> bool
    ensures { result ≡ holds_empty_object (items_view schemas.now) }
{
    for schema in schemas {
        if is_empty_object(schema) {
            return true;
        }
    }
    false
}

fn is_empty_object(schema: &Value) -> bool
    ensures { result ≡ is_empty_object (view schema.now) }
{
    match schema {
        Value::Object(members) => members.is_empty(),
        _ => false,
    }
}
