//! Templates of maps by their members.
ghost use Rattle.std.specs.Prelude.{◌≡◌, ◌∷◌, ◌++◌, [], map, IfOk, OnOk};
ghost use Rattle.schemars_templates.specs.Words.{text_items, template_view, node_view, keyword_view, property_view, typed_template, properties_at, required_at, closed_keyword, map_template, member_template, whole_template};

use crate::template::nodes::{named, object_with, text, truth};
use crate::template::{SchemaNode, SchemaTemplate, ValueTemplate};
use std::alloc::{AllocError, Global};

/// A map with these properties.
pub fn map_template<'t>(
    alloc: Global,
    properties: Vec<(&'t str, SchemaTemplate<'t>)>,
    required: Vec<&'t str>,
    closed: bool,
) -> Result<SchemaNode<'t>, AllocError>
    ensures { IfOk result (λ t. node_view t
        ≡ map_template (map property_view properties.entry.items)
        (text_items (map (λ n. n.now) required.entry.items)) closed) }
{
    let room = if closed { 4 } else { 3 };
    let mut keywords: Vec<(&'t str, ValueTemplate<'t>)> = typed(alloc, "object", room)?;
    add_properties(&mut keywords, properties)?;
    add_required(&mut keywords, required)?;
    add_closed(&mut keywords, closed)?;
    Ok(object_with(keywords))
}

/// The keyword `type` with this name, in a list with room for `room` keywords.
pub fn typed<'t>(
    alloc: Global,
    name: &'t str,
    room: usize,
) -> Result<Vec<(&'t str, ValueTemplate<'t>)>, AllocError>
    ensures { IfOk result (λ v. map keyword_view v.items ≡ typed_template name.now ∷ []) }
{
    let mut keywords: Vec<(&'t str, ValueTemplate<'t>)> = Vec::with_capacity(alloc, room)?;
    keywords.push(("type", text(name)))?;
    Ok(keywords)
}

/// Adds these properties, if there are any.
pub fn add_properties<'t>(
    keywords: &mut Vec<(&'t str, ValueTemplate<'t>)>,
    properties: Vec<(&'t str, SchemaTemplate<'t>)>,
) -> Result<(), AllocError>
    ensures { OnOk result (map keyword_view keywords.new.items
        ≡ map keyword_view keywords.old.items
        ++ properties_at (map property_view properties.entry.items)) }
{
    if properties.is_empty() {
        return Ok(());
    }
    keywords.push(("properties", named(properties)))?;
    Ok(())
}

fn add_required<'t>(
    keywords: &mut Vec<(&'t str, ValueTemplate<'t>)>,
    required: Vec<&'t str>,
) -> Result<(), AllocError>
    ensures { OnOk result (map keyword_view keywords.new.items
        ≡ map keyword_view keywords.old.items
        ++ required_at (text_items (map (λ n. n.now) required.entry.items))) }
{
    if required.is_empty() {
        return Ok(());
    }
    keywords.push(("required", ValueTemplate::Texts(required)))?;
    Ok(())
}

// Excludes other keys, if `closed`.
fn add_closed<'t>(
    keywords: &mut Vec<(&'t str, ValueTemplate<'t>)>,
    closed: bool,
) -> Result<(), AllocError>
    ensures { OnOk result (map keyword_view keywords.new.items
        ≡ map keyword_view keywords.old.items ++ closed_keyword closed) }
{
    if closed {
        keywords.push(("additionalProperties", truth(false)))?;
    }
    Ok(())
}

/// A map with this member, which has to be there.
pub fn member_template<'t>(
    alloc: Global,
    name: &'t str,
    part: SchemaTemplate<'t>,
    closed: bool,
) -> Result<SchemaNode<'t>, AllocError>
    ensures { IfOk result (λ t. node_view t
        ≡ member_template closed name.now (template_view part.entry)) }
{
    let properties: Vec<(&'t str, SchemaTemplate<'t>)> = vec![in alloc; (name, part)]?;
    let required = vec![in alloc; name]?;
    map_template(alloc, properties, required, closed)
}

/// A map with these members, each of which has to be there.
pub fn whole_template<'t>(
    alloc: Global,
    properties: Vec<(&'t str, SchemaTemplate<'t>)>,
    closed: bool,
) -> Result<SchemaNode<'t>, AllocError>
    ensures { IfOk result (λ t. node_view t
        ≡ whole_template (map property_view properties.entry.items) closed) }
{
    let required = names(alloc, &properties)?;
    map_template(alloc, properties, required, closed)
}

fn names<'t>(
    alloc: Global,
    properties: &[(&'t str, SchemaTemplate<'t>)],
) -> Result<Vec<&'t str>, AllocError>
    ensures { IfOk result (λ v. map (λ n. n.now) v.items
        ≡ map (λ e. e.0) (map property_view properties.now)) }
{
    let mut names = Vec::with_capacity(alloc, properties.len())?;
    for property in properties {
        names.push(property.0)?;
    }
    Ok(names)
}
