//! The tag of an internally tagged enum in a schema in parts.
ghost use Rattle.std.specs.Prelude.{◌≡◌, IfOk, OnOk};
ghost use Rattle.schemars_render.specs.Words.{object, has_null_type, with_property, required_first, tagged, closed_where, internally_tagged_variant, unit_variant, assembled_view};

use schemars_parts::{Assembled, MemberList, Stop, is_text_part, members_in, object_of};
use schemars_templates::template::Tag;
use std::alloc::Global;

// The schema of a variant, made that of objects with the variant's name under the tag.
pub(crate) fn with_tag<'t>(
    alloc: Global,
    schema: Assembled<'t>,
    tag: &Tag<'t>,
) -> Result<Assembled<'t>, Stop>
    ensures { IfOk result (λ p. assembled_view p ≡ internally_tagged_variant tag.now.tag.now
        tag.now.name.now tag.now.closed (assembled_view schema.entry)) }
{
    let mut members = members_in(alloc, schema)?;
    let is_closed = tag.closed && has_null_type(&members);
    put_tag(alloc, &mut members, tag.tag, tag.name)?;
    close_where(&mut members, is_closed)?;
    Ok(members.into_object())
}

fn has_null_type(members: &MemberList<'_>) -> bool
    ensures { result ≡ has_null_type (object members.now) }
{
    members
        .find("type")
        .is_some_and(|part| is_text_part(part, "null"))
}

// Makes the keywords those of objects that have to have the tag.
fn put_tag<'t>(
    alloc: Global,
    members: &mut MemberList<'t>,
    tag: &'t str,
    name: &'t str,
) -> Result<(), Stop>
    ensures { OnOk result (members.new ≡ tagged tag.now name.now members.old) }
{
    members.put("type", Assembled::Text("object"))?;
    let property = unit_variant(alloc, name)?;
    put_property(alloc, members, tag, property)?;
    require_first(alloc, members, tag)
}

// The schema of a text that is this name.
fn unit_variant<'t>(alloc: Global, name: &'t str) -> Result<Assembled<'t>, Stop>
    ensures { IfOk result (λ p. assembled_view p ≡ unit_variant name.now) }
{
    let type_name = ("type", Assembled::Text("string"));
    let constant = ("const", Assembled::Text(name));
    let members = vec![in alloc; type_name, constant]?;
    object_of(members)
}

// Puts the schema of a property in.
fn put_property<'t>(
    alloc: Global,
    members: &mut MemberList<'t>,
    name: &'t str,
    property: Assembled<'t>,
) -> Result<(), Stop>
    ensures { OnOk result (members.new
        ≡ with_property name.now (assembled_view property.entry) members.old) }
{
    let mut properties = members.take_members(alloc, "properties")?;
    properties.put(name, property)?;
    members.put("properties", properties.into_object())
}

// Puts the name before those that are required.
fn require_first<'t>(alloc: Global, members: &mut MemberList<'t>, name: &'t str) -> Result<(), Stop>
    ensures { OnOk result (members.new ≡ required_first name.now members.old) }
{
    let mut names = members.take_items(alloc, "required")?;
    names.insert(0, Assembled::Text(name))?;
    members.put("required", Assembled::List(names))
}

// Excludes other keys, unless they are spoken of.
fn close_where<'t>(members: &mut MemberList<'t>, is_closed: bool) -> Result<(), Stop>
    ensures { OnOk result (members.new ≡ closed_where is_closed members.old) }
{
    if !is_closed || members.has("additionalProperties") {
        return Ok(());
    }
    members.put("additionalProperties", Assembled::Bool(false))
}
