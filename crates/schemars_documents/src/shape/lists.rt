//! The templates of lists.
ghost use Rattle.std.specs.Prelude.{◌≡◌, [], map, IfOk};
ghost use Rattle.schemars_documents.specs.Words.{row, template_view, node_view, list_template, set_template, array_template, up_to_template, tuple_template};

use crate::shape::scalars::empty_list_template;
use schemars_templates::template::nodes::{bare, count, object_with, row, row_value, text, truth};
use schemars_templates::template::{SchemaNode, SchemaTemplate, ValueTemplate};
use schemars_types::TypeNo;
use std::alloc::{AllocError, Global};

/// A list of items of this row.
pub fn seq_template<'t>(alloc: Global, item: TypeNo) -> Result<SchemaNode<'t>, AllocError>
    ensures { IfOk result (λ t. node_view t ≡ list_template item []) }
{
    let keywords = vec![in alloc; ("type", text("array")), ("items", row_value(item))]?;
    Ok(object_with(keywords))
}

/// A list of items of this row that differ.
pub fn set_template<'t>(alloc: Global, item: TypeNo) -> Result<SchemaNode<'t>, AllocError>
    ensures { IfOk result (λ t. node_view t ≡ set_template item) }
{
    let keywords = vec![in alloc;
        ("type", text("array")),
        ("items", row_value(item)),
        ("uniqueItems", truth(true)),
    ]?;
    Ok(object_with(keywords))
}

/// A list of `len` items of this row.
pub fn array_template<'t>(
    alloc: Global,
    item: TypeNo,
    len: u64,
) -> Result<SchemaNode<'t>, AllocError>
    ensures { IfOk result (λ t. node_view t ≡ array_template item len) }
{
    if len == 0 {
        return empty_list_template(alloc);
    }
    let keywords = vec![in alloc;
        ("type", text("array")),
        ("items", row_value(item)),
        ("minItems", count(len)),
        ("maxItems", count(len)),
    ]?;
    Ok(object_with(keywords))
}

/// A list of at most `cap` items of this row.
pub fn up_to_template<'t>(
    alloc: Global,
    item: TypeNo,
    cap: u64,
) -> Result<SchemaNode<'t>, AllocError>
    ensures { IfOk result (λ t. node_view t ≡ up_to_template item cap) }
{
    let keywords = vec![in alloc;
        ("type", text("array")),
        ("items", row_value(item)),
        ("maxItems", count(cap)),
    ]?;
    Ok(object_with(keywords))
}

/// A list of one item for each part.
pub fn tuple_template<'t>(alloc: Global, parts: &[TypeNo]) -> Result<SchemaNode<'t>, AllocError>
    ensures { IfOk result (λ t. node_view t ≡ tuple_template parts.now) }
{
    if parts.is_empty() {
        return empty_list_template(alloc);
    }
    let len = parts.len() as u64;
    let items = rows_in_order(alloc, parts)?;
    let keywords = vec![in alloc;
        ("type", text("array")),
        ("prefixItems", ValueTemplate::Schemas(items)),
        ("minItems", count(len)),
        ("maxItems", count(len)),
    ]?;
    Ok(object_with(keywords))
}

fn rows_in_order<'t>(alloc: Global, parts: &[TypeNo]) -> Result<Vec<SchemaTemplate<'t>>, AllocError>
    ensures { IfOk result (λ v. map template_view v.items ≡ map row parts.now) }
{
    let mut rows = Vec::with_capacity(alloc, parts.len())?;
    for part in parts {
        rows.push(bare(row(*part)))?;
    }
    Ok(rows)
}
