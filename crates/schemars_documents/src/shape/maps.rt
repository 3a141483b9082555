//! The templates of structs and ranges.
ghost use Rattle.std.specs.Prelude.{◌≡◌, map, IfOk};
ghost use Rattle.schemars_documents.specs.Words.{field_of, flattened_of, fields_of, ask_of, node_view, property_view, property, fields_template, with_flattened, members_asked, struct_template, range_template};

use crate::documents::{is_required, required_names};
use schemars_templates::template::maps::map_template;
use schemars_templates::template::nodes::{bare, noted, row};
use schemars_templates::template::{Ask, SchemaNode, SchemaTemplate};
use schemars_types::{Contract, Field, Fields, Flattened, TypeNo};
use std::alloc::{AllocError, Global};

/// A map with these fields, and with the members of the flattened rows.
pub fn struct_template<'t>(
    alloc: Global,
    contract: Contract,
    fields: &'t Fields,
) -> Result<SchemaNode<'t>, AllocError>
    ensures { IfOk result (λ t. node_view t
        ≡ struct_template contract (fields_of fields.now)) }
{
    let own = fields_template(alloc, contract, &fields.list, fields.closed)?;
    with_flattened(alloc, contract, own, &fields.flatten)
}

fn fields_template<'t>(
    alloc: Global,
    contract: Contract,
    list: &'t [Field],
    closed: bool,
) -> Result<SchemaNode<'t>, AllocError>
    ensures { IfOk result (λ t. node_view t
        ≡ fields_template contract (map field_of list.now) closed) }
{
    let properties = properties(alloc, list)?;
    let required = required_names(alloc, contract, list)?;
    map_template(alloc, properties, required, closed)
}

// Adds the members of these rows, one row after another.
fn with_flattened<'t>(
    alloc: Global,
    contract: Contract,
    own: SchemaNode<'t>,
    flatten: &[Flattened],
) -> Result<SchemaNode<'t>, AllocError>
    ensures { IfOk result (λ t. node_view t
        ≡ with_flattened contract (map flattened_of flatten.now) (node_view own.entry)) }
{
    if flatten.is_empty() {
        return Ok(own);
    }
    let members = members_of(alloc, contract, flatten)?;
    Ok(SchemaNode::WithMembers(Box::new(alloc, bare(own))?, members))
}

fn members_of(
    alloc: Global,
    contract: Contract,
    flatten: &[Flattened],
) -> Result<Vec<Ask>, AllocError>
    ensures { IfOk result (λ v. map ask_of v.items
        ≡ map (members_asked contract) (map flattened_of flatten.now)) }
{
    let mut members = Vec::with_capacity(alloc, flatten.len())?;
    for part in flatten {
        let required = is_required(contract, part.required);
        members.push(Ask::MembersOf(part.ty, required))?;
    }
    Ok(members)
}

// The fields' schemas under their names, each with its notes.
fn properties<'t>(
    alloc: Global,
    fields: &'t [Field],
) -> Result<Vec<(&'t str, SchemaTemplate<'t>)>, AllocError>
    ensures { IfOk result (λ v. map property_view v.items
        ≡ map property (map field_of fields.now)) }
{
    let mut properties = Vec::with_capacity(alloc, fields.len())?;
    for field in fields {
        let part = noted(&field.notes, row(field.ty));
        properties.push((field.name.as_str(), part))?;
    }
    Ok(properties)
}

/// A map with a start and an end of this row.
pub fn range_template<'t>(alloc: Global, n: TypeNo) -> Result<SchemaNode<'t>, AllocError>
    ensures { IfOk result (λ t. node_view t ≡ range_template n) }
{
    let properties: Vec<(&'t str, SchemaTemplate<'t>)> = vec![in alloc;
        ("start", bare(row(n))),
        ("end", bare(row(n))),
    ]?;
    let required = vec![in alloc; "start", "end"]?;
    map_template(alloc, properties, required, false)
}
