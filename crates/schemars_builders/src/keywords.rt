//! Keywords that are put into a schema where they say something.
ghost use Rattle.std.specs.Prelude.{◌≡◌, Some, OnOk, OnErr, codes};
ghost use Rattle.schemars_builders.specs.Words.{string, view, inserted, with_metadata, with_validation, names_type, includes_type, validates, escaped};

use crate::pattern::escape;
use schemars_schema::Schema;
use schemars_schema::edits::holds_text;
use serde_json::Value;
use std::alloc::{AllocError, Global};

/// Sets a keyword to a text, unless the text is empty.
///
/// A truth value becomes an object first, as by `ensure_object`.
///
/// # Errors
///
/// `AllocError` if memory runs out; the schema is then unchanged.
pub fn insert_metadata_property_if_nonempty(
    alloc: Global,
    schema: &mut Schema,
    key: &str,
    value: &str,
) -> Result<(), AllocError>
    ensures ok { OnOk result (schema.new ≡ with_metadata key.now value.now schema.old) }
    ensures err { OnErr result (schema.new ≡ schema.old) }
{
    if value.is_empty() {
        return Ok(());
    }
    let text = Value::try_from_str(alloc, value)?;
    set_keyword(alloc, schema, key, text)
}

/// Sets a keyword if the schema's `type` is this type or a list with it. For `number`, the type
/// `integer` will do as well. Any other schema is unchanged.
///
/// # Errors
///
/// `AllocError` if memory runs out; the schema is then unchanged.
pub fn insert_validation_property(
    alloc: Global,
    schema: &mut Schema,
    required_type: &str,
    key: &str,
    value: Value,
) -> Result<(), AllocError>
    ensures ok { OnOk result (schema.new
        ≡ with_validation required_type.now key.now (view value) schema.old) }
    ensures err { OnErr result (schema.new ≡ schema.old) }
{
    if !validates(schema, required_type) {
        return Ok(());
    }
    set_keyword(alloc, schema, key, value)
}

/// Sets the `pattern` of a schema of texts to this text, escaped. Any other schema is unchanged.
///
/// # Errors
///
/// `AllocError` if memory runs out; the schema is then unchanged.
pub fn must_contain(alloc: Global, schema: &mut Schema, text: &str) -> Result<(), AllocError>
    ensures ok { OnOk result (schema.new ≡ with_validation (codes "string") (codes "pattern")
        (string (escaped text.now)) schema.old) }
    ensures err { OnErr result (schema.new ≡ schema.old) }
{
    let pattern = escape(alloc, text)?;
    insert_validation_property(alloc, schema, "string", "pattern", Value::String(pattern))
}

fn set_keyword(
    alloc: Global,
    schema: &mut Schema,
    key: &str,
    value: Value,
) -> Result<(), AllocError>
    ensures ok { OnOk result (schema.new ≡ inserted key.now (view value) schema.old) }
    ensures err { OnErr result (schema.new ≡ schema.old) }
{
    let key = String::from_str(alloc, key)?;
    let _ = schema.insert(alloc, key, value)?;
    Ok(())
}

fn validates(schema: &Schema, required_type: &str) -> bool
    ensures { result ≡ validates required_type.now schema.now }
{
    has_type(schema, required_type) || (required_type == "number" && has_type(schema, "integer"))
}

fn has_type(schema: &Schema, name: &str) -> bool
    ensures { result ≡ includes_type name.now schema.now }
{
    match schema.get("type") {
        Some(names) => names_type(names, name),
        None => false,
    }
}

fn names_type(names: &Value, name: &str) -> bool
    ensures { result ≡ names_type name.now (Some (view names.now)) }
{
    match names {
        Value::String(only) => only.as_str() == name,
        Value::Array(names) => holds_text(names, name),
        _ => false,
    }
}
