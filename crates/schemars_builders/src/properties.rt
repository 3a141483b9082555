//! Properties put into the schemas of objects.
ghost use Rattle.std.specs.Prelude.{◌≡◌, codes, OnOk};
ghost use Rattle.schemars_builders.specs.Words.{array, no_items, item, put, view, members_view, with_member, with_first, with_property, required_first, required_last, required_unless, with_object_property, has_null_type, tagged, closed_where, internally_tagged_variant};

use crate::variants::new_unit_enum_variant;
use schemars_schema::Schema;
use schemars_schema::edits::{append_at, is_text, put_missing};
use serde_json::{Map, Value};
use std::alloc::{AllocError, Global};

/// Adds the tag of an internally tagged enum to the schema of a variant: a required member with the
/// variant's name.
///
/// A truth value becomes an object first, as by `ensure_object`. The `type` becomes `object`. The
/// schema of the name is set under the tag in `properties`, and the tag is added to the front of
/// `required`, even if it is there already. The two are created if they are missing, and unchanged
/// if they are not an object and not a list. If the `type` was `null` and unknown fields are
/// denied, `additionalProperties` becomes false unless it is there.
pub fn apply_internal_enum_variant_tag(
    alloc: Global,
    schema: &mut Schema,
    tag_name: &str,
    variant: &str,
    deny_unknown_fields: bool,
) -> Result<(), AllocError>
    ensures { OnOk result (schema.new
        ≡ internally_tagged_variant tag_name.now variant.now deny_unknown_fields schema.old) }
{
    let is_closed = deny_unknown_fields && has_null_type(schema);
    let members = schema.ensure_object(alloc)?;
    tag(alloc, members, tag_name, variant)?;
    close_where(alloc, members, is_closed)
}

/// Adds a property to the schema of an object.
///
/// A truth value becomes an object first, as by `ensure_object`. The property's schema is set under
/// the key in `properties`, and unless it is optional the key is added to the end of `required`,
/// even if it is there already. The two are created if they are missing, and unchanged if they are
/// not an object and not a list.
pub fn insert_object_property(
    alloc: Global,
    schema: &mut Schema,
    key: &str,
    is_optional: bool,
    sub_schema: Schema,
) -> Result<(), AllocError>
    ensures { OnOk result (schema.new
        ≡ with_object_property key.now is_optional sub_schema schema.old) }
{
    let members = schema.ensure_object(alloc)?;
    put_property(alloc, members, key, sub_schema.to_value())?;
    require_unless(alloc, members, is_optional, key)
}

fn has_null_type(schema: &Schema) -> bool
    ensures { result ≡ has_null_type schema.now }
{
    schema.get("type").is_some_and(|name| is_text(name, "null"))
}

// Makes the keywords those of objects that have to have the tag.
fn tag(
    alloc: Global,
    members: &mut Map<String, Value>,
    tag_name: &str,
    variant: &str,
) -> Result<(), AllocError>
    ensures { OnOk result (members_view members.new.entries
        ≡ tagged tag_name.now variant.now (members_view members.old.entries)) }
{
    let object = Value::try_from_str(alloc, "object")?;
    serde_json::put(members, alloc, "type", object)?;
    let name = new_unit_enum_variant(alloc, variant)?;
    put_property(alloc, members, tag_name, name.to_value())?;
    require_first(alloc, members, tag_name)
}

fn close_where(
    alloc: Global,
    members: &mut Map<String, Value>,
    is_closed: bool,
) -> Result<(), AllocError>
    ensures { OnOk result (members_view members.new.entries
        ≡ closed_where is_closed (members_view members.old.entries)) }
{
    if !is_closed {
        return Ok(());
    }
    put_missing(alloc, members, "additionalProperties", Value::Bool(false))
}

// Puts the schema of a property in.
fn put_property(
    alloc: Global,
    members: &mut Map<String, Value>,
    name: &str,
    property: Value,
) -> Result<(), AllocError>
    ensures { OnOk result (members_view members.new.entries
        ≡ with_property name.now (view property) (members_view members.old.entries)) }
{
    match members.get_mut("properties") {
        Some(properties) => put_member(alloc, properties, name, property),
        None => {
            let mut properties = Map::new(alloc);
            serde_json::put(&mut properties, alloc, name, property)?;
            serde_json::put(members, alloc, "properties", Value::Object(properties))
        }
    }
}

fn put_member(alloc: Global, object: &mut Value, key: &str, value: Value) -> Result<(), AllocError>
    ensures { OnOk result (view object.new ≡ with_member key.now (view value) (view object.old)) }
{
    match object.as_object_mut() {
        Some(members) => serde_json::put(members, alloc, key, value),
        None => Ok(()),
    }
}

fn require_unless(
    alloc: Global,
    members: &mut Map<String, Value>,
    is_optional: bool,
    name: &str,
) -> Result<(), AllocError>
    ensures { OnOk result (members_view members.new.entries
        ≡ required_unless is_optional name.now (members_view members.old.entries)) }
{
    if is_optional {
        return Ok(());
    }
    require_last(alloc, members, name)
}

fn require_first(
    alloc: Global,
    members: &mut Map<String, Value>,
    name: &str,
) -> Result<(), AllocError>
    ensures { OnOk result (members_view members.new.entries
        ≡ required_first name.now (members_view members.old.entries)) }
{
    let name = Value::try_from_str(alloc, name)?;
    match members.get_mut("required") {
        Some(required) => insert_first(required, name),
        None => require_alone(alloc, members, name),
    }
}

fn require_last(
    alloc: Global,
    members: &mut Map<String, Value>,
    name: &str,
) -> Result<(), AllocError>
    ensures { OnOk result (members_view members.new.entries
        ≡ required_last name.now (members_view members.old.entries)) }
{
    let name = Value::try_from_str(alloc, name)?;
    append_at(alloc, members, "required", name)
}

fn require_alone(
    alloc: Global,
    members: &mut Map<String, Value>,
    name: Value,
) -> Result<(), AllocError>
    ensures { OnOk result (members_view members.new.entries
        ≡ put (codes "required") (array (item (view name) no_items))
        (members_view members.old.entries)) }
{
    let names = vec![in alloc; name]?;
    serde_json::put(members, alloc, "required", Value::Array(names))
}

fn insert_first(list: &mut Value, value: Value) -> Result<(), AllocError>
    ensures { OnOk result (view list.new ≡ with_first (view value) (view list.old)) }
{
    match list.as_array_mut() {
        Some(items) => Ok(items.insert(0, value)?),
        None => Ok(()),
    }
}
