//! The templates of enums whose variants are tagged by their names, or by nothing.
ghost use Rattle.std.specs.Prelude.{◌≡◌, ◌∷◌, [], codes, map, IfOk};
ghost use Rattle.schemars_documents.specs.Words.{array, payload_of, variant_of, text_items, noted, template_view, node_view, object_with, typed_template, said, payload_template, named_template, bare_units, other_items, external_template, payload_item, untagged_template, titled};

use crate::shape::lists::tuple_template;
use crate::shape::maps::struct_template;
use schemars_schema::Schema;
use schemars_shapes::is_bare_unit;
use schemars_templates::template::maps::{member_template, typed};
use schemars_templates::template::nodes::{
    any_of, bare, noted, object_with, one_of, row, type_alone, unit,
};
use schemars_templates::template::{SchemaNode, SchemaTemplate, ValueTemplate};
use schemars_types::{Contract, Payload, Variant};
use std::alloc::{AllocError, Global};

/// A choice of the shared item of units without notes, if there is one, and the other items. The
/// shared item is the whole choice if there is no other.
pub fn external_template<'t>(
    alloc: Global,
    contract: Contract,
    variants: &'t [Variant],
) -> Result<SchemaNode<'t>, AllocError>
    ensures { IfOk result (λ t. node_view t
        ≡ external_template contract (map variant_of variants.now)) }
{
    let names = bare_units(alloc, variants)?;
    let others = other_items(alloc, contract, variants)?;
    if names.is_empty() {
        if others.is_empty() {
            return Ok(SchemaNode::Finished(Schema::from(false)));
        }
        return one_of(alloc, others);
    }
    let units = units_template(alloc, names)?;
    if others.is_empty() {
        return Ok(units);
    }
    let items = led_by(units, others)?;
    one_of(alloc, items)
}

/// One item at least, of those of the variants' payloads.
pub fn untagged_template<'t>(
    alloc: Global,
    contract: Contract,
    titles: bool,
    variants: &'t [Variant],
) -> Result<SchemaNode<'t>, AllocError>
    ensures { IfOk result (λ t. node_view t
        ≡ untagged_template contract titles (map variant_of variants.now)) }
{
    if variants.is_empty() {
        return Ok(SchemaNode::Finished(Schema::from(false)));
    }
    let items = payload_items(alloc, contract, titles, variants)?;
    any_of(alloc, items)
}

fn bare_units<'t>(alloc: Global, variants: &'t [Variant]) -> Result<Vec<&'t str>, AllocError>
    ensures { IfOk result (λ v. map (λ n. n.now) v.items
        ≡ bare_units (map variant_of variants.now)) }
{
    let mut names = Vec::with_capacity(alloc, variants.len())?;
    for variant in variants {
        if is_bare_unit(variant) {
            names.push(variant.name.as_str())?;
        }
    }
    Ok(names)
}

// The items of the other variants, each with its notes.
fn other_items<'t>(
    alloc: Global,
    contract: Contract,
    variants: &'t [Variant],
) -> Result<Vec<SchemaTemplate<'t>>, AllocError>
    ensures { IfOk result (λ v. map template_view v.items
        ≡ other_items contract (map variant_of variants.now)) }
{
    let mut items = Vec::new(alloc);
    for variant in variants {
        if !is_bare_unit(variant) {
            let item = other_item(alloc, contract, variant)?;
            items.push(item)?;
        }
    }
    Ok(items)
}

fn other_item<'t>(
    alloc: Global,
    contract: Contract,
    variant: &'t Variant,
) -> Result<SchemaTemplate<'t>, AllocError>
    ensures { IfOk result (λ t. template_view t ≡ noted (variant_of variant.now).notes
        (named_template contract (variant_of variant.now).name (variant_of variant.now).payload)) }
{
    let item = named_template(alloc, contract, variant.name.as_str(), &variant.payload)?;
    Ok(noted(&variant.notes, item))
}

fn units_template<'t>(alloc: Global, names: Vec<&'t str>) -> Result<SchemaNode<'t>, AllocError>
    ensures { IfOk result (λ t. node_view t
        ≡ object_with (typed_template (codes "string")
        ∷ said (codes "enum") (array (text_items (map (λ n. n.now) names.entry.items))) ∷ [])) }
{
    let mut keywords: Vec<(&'t str, ValueTemplate<'t>)> = typed(alloc, "string", 2)?;
    keywords.push(("enum", ValueTemplate::Texts(names)))?;
    Ok(object_with(keywords))
}

fn led_by<'t>(
    first: SchemaNode<'t>,
    mut rest: Vec<SchemaTemplate<'t>>,
) -> Result<Vec<SchemaTemplate<'t>>, AllocError>
    ensures { IfOk result (λ v. map template_view v.items
        ≡ node_view first.entry ∷ map template_view rest.entry.items) }
{
    rest.insert(0, bare(first))?;
    Ok(rest)
}

// A unit by its name, and another payload under that name alone.
fn named_template<'t>(
    alloc: Global,
    contract: Contract,
    name: &'t str,
    payload: &'t Payload,
) -> Result<SchemaNode<'t>, AllocError>
    ensures { IfOk result (λ t. node_view t
        ≡ named_template contract name.now (payload_of payload.now)) }
{
    if let Payload::Unit = payload {
        return unit(alloc, name);
    }
    let part = payload_template(alloc, contract, payload)?;
    member_template(alloc, name, bare(part), true)
}

// The payload of each variant, with the variant's notes.
fn payload_items<'t>(
    alloc: Global,
    contract: Contract,
    titles: bool,
    variants: &'t [Variant],
) -> Result<Vec<SchemaTemplate<'t>>, AllocError>
    ensures { IfOk result (λ v. map template_view v.items
        ≡ map (payload_item contract titles) (map variant_of variants.now)) }
{
    let mut items = Vec::with_capacity(alloc, variants.len())?;
    for variant in variants {
        let item = payload_item(alloc, contract, titles, variant)?;
        items.push(item)?;
    }
    Ok(items)
}

fn payload_item<'t>(
    alloc: Global,
    contract: Contract,
    titles: bool,
    variant: &'t Variant,
) -> Result<SchemaTemplate<'t>, AllocError>
    ensures { IfOk result (λ t. template_view t
        ≡ payload_item contract titles (variant_of variant.now)) }
{
    let payload = payload_template(alloc, contract, &variant.payload)?;
    let item = titled(alloc, titles, variant.name.as_str(), payload)?;
    Ok(noted(&variant.notes, item))
}

// The schema under this title, where there are titles.
fn titled<'t>(
    alloc: Global,
    titles: bool,
    name: &'t str,
    node: SchemaNode<'t>,
) -> Result<SchemaNode<'t>, AllocError>
    ensures { IfOk result (λ t. node_view t
        ≡ titled titles name.now (node_view node.entry)) }
{
    if titles {
        return Ok(SchemaNode::Titled(name, Box::new(alloc, bare(node))?));
    }
    Ok(node)
}

// What a variant has beside its name.
pub(crate) fn payload_template<'t>(
    alloc: Global,
    contract: Contract,
    payload: &'t Payload,
) -> Result<SchemaNode<'t>, AllocError>
    ensures { IfOk result (λ t. node_view t
        ≡ payload_template contract (payload_of payload.now)) }
{
    match payload {
        Payload::Unit => Ok(type_alone("null")),
        Payload::Newtype(n) => Ok(row(*n)),
        Payload::Tuple(parts) => tuple_template(alloc, parts),
        Payload::Struct(fields) => struct_template(alloc, contract, fields),
    }
}
