//! Rows and tables.
ghost use Rattle.std.specs.Prelude.{◌↔◌, IsTrue, IfOk, map};
ghost use Rattle.schemars_plain.specs.Words.{shape_of, enum, by_name, by_tag, by_tag_and_content, internal_view, adjacent_view, entry_at, expanded_shape_in, IsPlainShape, IsPlainEntry, IsPlainTable};

use crate::contents::has_no_contents;
use crate::fields::are_plain;
use crate::literal::is_plain_literal;
use crate::notes::are_notes;
use crate::parts::have_plain_parts;
use crate::variants::{are_distinct_variants, are_plain_variants, are_tagged};
use schemars_shapes::AnyVariant;
use schemars_types::{Adjacent, Internal, Shape, TypeNo, Types};
use std::alloc::{AllocError, Global};

/// Returns whether a table is plain: whether it is promised that the documents of its types accept
/// exactly the values of the types.
///
/// # Errors
///
/// Only where memory runs out.
pub fn is_plain(alloc: Global, types: &Types) -> Result<bool, AllocError>
    ensures { IfOk result (λ b. IsTrue b ↔ IsPlainTable types.now) }
{
    for n in 0..types.len() {
        if !is_plain_row(alloc, types, n)? {
            return Ok(false);
        }
    }
    Ok(true)
}

/// Returns whether a row is plain. One that was never defined is.
///
/// # Errors
///
/// Only where memory runs out.
pub fn is_plain_row(alloc: Global, types: &Types, n: TypeNo) -> Result<bool, AllocError>
    ensures { IfOk result (λ b. IsTrue b ↔ IsPlainEntry types.now (entry_at types.now n)) }
{
    let Some(entry) = types.entry(n) else {
        return Ok(true);
    };
    if !are_notes(&entry.notes) {
        return Ok(false);
    }
    if !have_plain_parts(types, &entry.shape) || !has_no_contents(&entry.shape) {
        return Ok(false);
    }
    is_plain_shape(alloc, types, &entry.shape)
}

/// Returns whether literals, notes and names in a shape are plain. The fields of the rows that are
/// flattened into it are among its own.
///
/// # Errors
///
/// Only where memory runs out.
pub fn is_plain_shape(alloc: Global, types: &Types, shape: &Shape) -> Result<bool, AllocError>
    ensures { IfOk result (λ b. IsTrue b
        ↔ IsPlainShape (expanded_shape_in types.now (shape_of shape.now))) }
{
    match shape {
        Shape::Struct(fields) => are_plain(alloc, types, fields),
        Shape::External(variants) => are_named_and_plain(alloc, types, variants),
        Shape::Untagged(variants) => are_plain_variants(alloc, types, variants),
        Shape::Internal(internal) => is_plain_internal(alloc, types, internal),
        Shape::Adjacent(adjacent) => is_plain_adjacent(alloc, types, adjacent),
        Shape::Literal(schema) => Ok(is_plain_literal(schema)),
        Shape::Null | Shape::Bool | Shape::Int(_) | Shape::NonZero(_) => Ok(true),
        Shape::Number | Shape::Text | Shape::Char | Shape::Formatted(_) => Ok(true),
        Shape::Any | Shape::Bytes | Shape::SchemaItself => Ok(true),
        Shape::Option(_) | Shape::Newtype(_) | Shape::Seq(_) | Shape::Set(_) => Ok(true),
        Shape::Array(..) | Shape::UpTo(..) | Shape::Tuple(_) => Ok(true),
        Shape::Result(..) | Shape::Either(..) => Ok(true),
        Shape::Bound(_) | Shape::Range(_) | Shape::Map(..) => Ok(true),
    }
}

// Variants that are distinguished by their names.
fn are_named_and_plain<V: AnyVariant>(
    alloc: Global,
    types: &Types,
    variants: &[V],
) -> Result<bool, AllocError>
    ensures { IfOk result (λ b. IsTrue b ↔ IsPlainShape (expanded_shape_in types.now
        (enum by_name (map V.says variants.now)))) }
{
    let is_distinct = are_distinct_variants(alloc, variants)?;
    if !is_distinct {
        return Ok(false);
    }
    are_plain_variants(alloc, types, variants)
}

fn is_plain_internal(alloc: Global, types: &Types, value: &Internal) -> Result<bool, AllocError>
    ensures { IfOk result (λ b. IsTrue b ↔ IsPlainShape (expanded_shape_in types.now
        (enum (by_tag (internal_view value.now).0 (internal_view value.now).1)
        (internal_view value.now).2))) }
{
    if !are_named_and_plain(alloc, types, &value.variants)? {
        return Ok(false);
    }
    are_tagged(alloc, types, value.tag.as_str(), &value.variants)
}

fn is_plain_adjacent(alloc: Global, types: &Types, value: &Adjacent) -> Result<bool, AllocError>
    ensures { IfOk result (λ b. IsTrue b ↔ IsPlainShape (expanded_shape_in types.now
        (enum (by_tag_and_content (adjacent_view value.now).0 (adjacent_view value.now).1
        (adjacent_view value.now).2) (adjacent_view value.now).3))) }
{
    if value.tag == value.content {
        return Ok(false);
    }
    are_named_and_plain(alloc, types, &value.variants)
}
