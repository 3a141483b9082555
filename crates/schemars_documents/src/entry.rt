//! The template of each shape's document.
#![tactic(auto)]

ghost use Rattle.std.specs.Prelude.{◌≡◌, IfOk};
ghost use Rattle.schemars_documents.specs.Words.{shape_of, entry_of, IsChecked, bytes_document, basis_of, row, finished, nullable, template_view, node_view, template_of, entry_template, literal_document};

use crate::documents::{bytes_document, schema_document};
use crate::integers::{int_document, non_zero_document};
use crate::shape::adjacent::adjacent_template;
use crate::shape::choices::{bound_template, either_template, result_template};
use crate::shape::enums::{external_template, untagged_template};
use crate::shape::keyed::values_template;
use crate::shape::lists::{
    array_template, seq_template, set_template, tuple_template, up_to_template,
};
use crate::shape::maps::{range_template, struct_template};
use crate::shape::scalars::{char_template, formatted_template, int_template};
use crate::shape::tagged::internal_template;
use crate::template::basis::Basis;
use schemars_schema::Schema;
use schemars_templates::template::nodes::{bare, noted, row, type_alone};
use schemars_templates::template::{SchemaNode, SchemaTemplate};
use schemars_types::{Contract, IntKind, Shape, TypeEntry, TypeNo};
use std::alloc::{AllocError, Global};

/// The template of a row's document, with its notes.
pub fn entry_template<'t>(
    alloc: Global,
    basis: &Basis<'t>,
    entry: &'t TypeEntry,
) -> Result<SchemaTemplate<'t>, AllocError>
    requires { IsChecked (basis_of basis.now).rows }
    ensures { IfOk result (λ t. template_view t
        ≡ entry_template (basis_of basis.now) (entry_of entry.now)) }
{
    let node = template_of(alloc, basis, &entry.shape)?;
    Ok(noted(&entry.notes, node))
}

// The template of a shape's document.
fn template_of<'t>(
    alloc: Global,
    basis: &Basis<'t>,
    shape: &'t Shape,
) -> Result<SchemaNode<'t>, AllocError>
    requires { IsChecked (basis_of basis.now).rows }
    ensures { IfOk result (λ t. node_view t
        ≡ template_of (basis_of basis.now) (shape_of shape.now)) }
{
    match shape {
        Shape::Null => Ok(type_alone("null")),
        Shape::Bool => Ok(type_alone("boolean")),
        Shape::Int(kind) => int_template(alloc, *kind),
        Shape::NonZero(kind) => Ok(SchemaNode::Finished(non_zero_document(alloc, *kind)?)),
        Shape::Number => Ok(type_alone("number")),
        Shape::Text => Ok(type_alone("string")),
        Shape::Char => char_template(alloc),
        Shape::Formatted(format) => formatted_template(alloc, format.as_str()),
        Shape::Any => Ok(SchemaNode::Finished(Schema::from(true))),
        Shape::Bytes => bytes_template(alloc, basis.contract),
        Shape::SchemaItself => Ok(SchemaNode::Finished(schema_document(alloc)?)),
        Shape::Option(some) => option_template(alloc, *some),
        Shape::Seq(item) => seq_template(alloc, *item),
        Shape::Set(item) => set_template(alloc, *item),
        Shape::Array(item, len) => array_template(alloc, *item, *len),
        Shape::UpTo(item, cap) => up_to_template(alloc, *item, *cap),
        Shape::Tuple(parts) => tuple_template(alloc, parts),
        Shape::Struct(fields) => struct_template(alloc, basis.contract, fields),
        Shape::Newtype(inner) => Ok(row(*inner)),
        Shape::Result(ok, err) => result_template(alloc, *ok, *err),
        Shape::Bound(n) => bound_template(alloc, *n),
        Shape::Range(n) => range_template(alloc, *n),
        Shape::Either(left, right) => either_template(alloc, *left, *right),
        Shape::Map(key, value) => values_template(alloc, basis.types, *key, *value),
        Shape::External(variants) => external_template(alloc, basis.contract, variants),
        Shape::Untagged(variants) => untagged_template(
            alloc,
            basis.contract,
            basis.titles,
            variants,
        ),
        Shape::Internal(internal) => internal_template(alloc, basis.contract, internal),
        Shape::Adjacent(adjacent) => adjacent_template(alloc, basis.contract, adjacent),
        Shape::Literal(schema) => literal_template(schema),
    }
}

fn bytes_template<'t>(alloc: Global, contract: Contract) -> Result<SchemaNode<'t>, AllocError>
    ensures { IfOk result (λ t. node_view t ≡ finished (bytes_document contract)) }
{
    let byte = int_document(alloc, IntKind::U8)?;
    Ok(SchemaNode::Finished(bytes_document(alloc, contract, byte)?))
}

fn literal_template<'t>(schema: &Schema) -> Result<SchemaNode<'t>, AllocError>
    ensures { IfOk result (λ t. node_view t ≡ finished (literal_document schema.now)) }
{
    let _ = schema.as_value();
    Ok(SchemaNode::Finished(schema.clone()?))
}

fn option_template<'t>(alloc: Global, some: TypeNo) -> Result<SchemaNode<'t>, AllocError>
    ensures { IfOk result (λ t. node_view t ≡ nullable (row some)) }
{
    Ok(SchemaNode::Nullable(Box::new(alloc, bare(row(some)))?))
}
