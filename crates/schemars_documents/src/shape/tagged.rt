//! The templates of enums whose variants are named by a member of their own maps.
ghost use Rattle.std.specs.Prelude.{◌≡◌, map, IfOk};
ghost use Rattle.schemars_documents.specs.Words.{internal_payload_of, internal_variant_of, internal_view, template_view, node_view, content_template, internal_item, internal_template};

use crate::shape::maps::struct_template;
use schemars_schema::Schema;
use schemars_templates::template::nodes::{bare, noted, one_of, type_alone};
use schemars_templates::template::{Ask, SchemaNode, SchemaTemplate, Tag};
use schemars_types::{Contract, Internal, InternalPayload, InternalVariant};
use std::alloc::{AllocError, Global};

/// Just one of the variants' maps.
pub fn internal_template<'t>(
    alloc: Global,
    contract: Contract,
    internal: &'t Internal,
) -> Result<SchemaNode<'t>, AllocError>
    ensures { IfOk result (λ t. node_view t ≡ internal_template contract
        (internal_view internal.now).0 (internal_view internal.now).1
        (internal_view internal.now).2) }
{
    if internal.variants.is_empty() {
        return Ok(SchemaNode::Finished(Schema::from(false)));
    }
    let tag = internal.tag.as_str();
    let items = internal_items(alloc, contract, tag, internal.closed, &internal.variants)?;
    one_of(alloc, items)
}

// The map of each variant, with the variant's notes.
fn internal_items<'t>(
    alloc: Global,
    contract: Contract,
    tag: &'t str,
    closed: bool,
    variants: &'t [InternalVariant],
) -> Result<Vec<SchemaTemplate<'t>>, AllocError>
    ensures { IfOk result (λ v. map template_view v.items
        ≡ map (internal_item contract tag.now closed) (map internal_variant_of variants.now)) }
{
    let mut items = Vec::with_capacity(alloc, variants.len())?;
    for variant in variants {
        let item = internal_item(alloc, contract, tag, closed, variant)?;
        items.push(item)?;
    }
    Ok(items)
}

fn internal_item<'t>(
    alloc: Global,
    contract: Contract,
    tag: &'t str,
    closed: bool,
    variant: &'t InternalVariant,
) -> Result<SchemaTemplate<'t>, AllocError>
    ensures { IfOk result (λ t. template_view t
        ≡ internal_item contract tag.now closed (internal_variant_of variant.now)) }
{
    let content = content_template(alloc, contract, &variant.payload)?;
    let name = variant.name.as_str();
    let tag = Box::new(alloc, Tag { tag, name, closed })?;
    let inner = Box::new(alloc, bare(content))?;
    Ok(noted(&variant.notes, SchemaNode::Tagged(tag, inner)))
}

// The content beside the tag.
fn content_template<'t>(
    alloc: Global,
    contract: Contract,
    payload: &'t InternalPayload,
) -> Result<SchemaNode<'t>, AllocError>
    ensures { IfOk result (λ t. node_view t
        ≡ content_template contract (internal_payload_of payload.now)) }
{
    match payload {
        InternalPayload::Unit => Ok(type_alone("null")),
        InternalPayload::Newtype(n) => Ok(SchemaNode::Asked(Ask::Content(*n))),
        InternalPayload::Struct(fields) => struct_template(alloc, contract, fields),
    }
}
