//! The schemas of enums' variants.
ghost use Rattle.std.specs.Prelude.{◌≡◌, IfOk};
ghost use Rattle.schemars_builders.specs.Variants.{unit_variant, externally_tagged_variant};

use schemars_schema::Schema;
use serde_json::{Map, Value};
use std::alloc::{AllocError, Global};

/// Returns the schema of a unit variant: a text that is its name.
pub fn new_unit_enum_variant(alloc: Global, variant: &str) -> Result<Schema, AllocError>
    ensures { IfOk result (λ s. s ≡ unit_variant variant.now) }
{
    let mut members = Map::new(alloc);
    let text = Value::try_from_str(alloc, "string")?;
    serde_json::put(&mut members, alloc, "type", text)?;
    let name = Value::try_from_str(alloc, variant)?;
    serde_json::put(&mut members, alloc, "const", name)?;
    Ok(Schema::from(members))
}

/// Returns the schema of an externally tagged variant: an object with the name as its only key, and
/// this schema for its value.
pub fn new_externally_tagged_enum_variant(
    alloc: Global,
    variant: &str,
    sub_schema: Schema,
) -> Result<Schema, AllocError>
    ensures { IfOk result (λ s. s ≡ externally_tagged_variant variant.now sub_schema) }
{
    let mut properties = Map::new(alloc);
    serde_json::put(&mut properties, alloc, variant, sub_schema.to_value())?;
    let mut required = Vec::new(alloc);
    serde_json::push(&mut required, Value::try_from_str(alloc, variant)?)?;
    let mut members = Map::new(alloc);
    let object = Value::try_from_str(alloc, "object")?;
    serde_json::put(&mut members, alloc, "type", object)?;
    serde_json::put(&mut members, alloc, "properties", Value::Object(properties))?;
    serde_json::put(&mut members, alloc, "required", Value::Array(required))?;
    serde_json::put(
        &mut members,
        alloc,
        "additionalProperties",
        Value::Bool(false),
    )?;
    Ok(Schema::from(members))
}
