//! The templates of enums whose values have name and content under keys of their own.
ghost use Rattle.std.specs.Prelude.{◌≡◌, ◌∷◌, ◌++◌, map, IfOk, OnOk};
ghost use Rattle.schemars_documents.specs.Words.{unit_variant, payload_of, variant_of, adjacent_view, template_view, node_view, property_view, said, adjacent_payload, adjacent_item, adjacent_template};

use crate::shape::enums::payload_template;
use schemars_schema::Schema;
use schemars_templates::template::maps::whole_template;
use schemars_templates::template::nodes::{bare, noted, one_of, unit};
use schemars_templates::template::{SchemaNode, SchemaTemplate};
use schemars_types::{Adjacent, Contract, Payload, Variant};
use std::alloc::{AllocError, Global};

/// Just one of the variants' maps.
pub fn adjacent_template<'t>(
    alloc: Global,
    contract: Contract,
    adjacent: &'t Adjacent,
) -> Result<SchemaNode<'t>, AllocError>
    ensures { IfOk result (λ t. node_view t ≡ adjacent_template contract
        (adjacent_view adjacent.now).0 (adjacent_view adjacent.now).1
        (adjacent_view adjacent.now).2 (adjacent_view adjacent.now).3) }
{
    if adjacent.variants.is_empty() {
        return Ok(SchemaNode::Finished(Schema::from(false)));
    }
    let tag = adjacent.tag.as_str();
    let content = adjacent.content.as_str();
    let items = adjacent_items(
        alloc,
        contract,
        tag,
        content,
        adjacent.closed,
        &adjacent.variants,
    )?;
    one_of(alloc, items)
}

// The map of each variant, with the variant's notes.
fn adjacent_items<'t>(
    alloc: Global,
    contract: Contract,
    tag: &'t str,
    content: &'t str,
    closed: bool,
    variants: &'t [Variant],
) -> Result<Vec<SchemaTemplate<'t>>, AllocError>
    ensures { IfOk result (λ v. map template_view v.items
        ≡ map (adjacent_item contract tag.now content.now closed) (map variant_of variants.now)) }
{
    let mut items = Vec::with_capacity(alloc, variants.len())?;
    for variant in variants {
        let item = adjacent_item(alloc, contract, tag, content, closed, variant)?;
        items.push(item)?;
    }
    Ok(items)
}

fn adjacent_item<'t>(
    alloc: Global,
    contract: Contract,
    tag: &'t str,
    content: &'t str,
    closed: bool,
    variant: &'t Variant,
) -> Result<SchemaTemplate<'t>, AllocError>
    ensures { IfOk result (λ t. template_view t
        ≡ adjacent_item contract tag.now content.now closed (variant_of variant.now)) }
{
    let members = members(alloc, contract, tag, content, variant)?;
    let item = whole_template(alloc, members, closed)?;
    Ok(noted(&variant.notes, item))
}

// The variant's name, and what the variant has unless it is a unit.
fn members<'t>(
    alloc: Global,
    contract: Contract,
    tag: &'t str,
    content: &'t str,
    variant: &'t Variant,
) -> Result<Vec<(&'t str, SchemaTemplate<'t>)>, AllocError>
    ensures { IfOk result (λ v. map property_view v.items
        ≡ said tag.now (unit_variant (variant_of variant.now).name)
        ∷ adjacent_payload contract content.now (variant_of variant.now).payload) }
{
    let name = unit(alloc, variant.name.as_str())?;
    let mut members = vec![in alloc; (tag, bare(name))]?;
    add_payload(alloc, contract, content, &variant.payload, &mut members)?;
    Ok(members)
}

fn add_payload<'t>(
    alloc: Global,
    contract: Contract,
    content: &'t str,
    payload: &'t Payload,
    members: &mut Vec<(&'t str, SchemaTemplate<'t>)>,
) -> Result<(), AllocError>
    ensures { OnOk result (map property_view members.new.items
        ≡ map property_view members.old.items
        ++ adjacent_payload contract content.now (payload_of payload.now)) }
{
    match payload {
        Payload::Unit => Ok(()),
        Payload::Newtype(_) | Payload::Tuple(_) | Payload::Struct(_) => {
            let part = payload_template(alloc, contract, payload)?;
            members.push((content, bare(part)))?;
            Ok(())
        }
    }
}
