//! Tables into which no enum is flattened: what is promised of these is promised in each dialect.
ghost use Rattle.std.specs.Prelude.{◌↔◌, IsTrue, IfOk, map};
ghost use Rattle.schemars_plain.specs.Words.{shape_of, entry_at, EntryFlattensNoEnums, FlattensNoEnums, IsPlainForEach, ShapeFlattensNoEnums};

use crate::table::is_plain;
use crate::under::{has_no_enums, is_plain_under, variants_have_no_enums};
use schemars_types::{Contract, Shape, TypeNo, Types};
use std::alloc::{AllocError, Global};

/// Returns whether a table is plain, or is plain under a contract and flattens no enum: whether in
/// each dialect the documents of its types for that contract are promised to accept exactly the
/// values of the types.
///
/// # Errors
///
/// Only where memory runs out.
pub fn is_plain_for_each(
    alloc: Global,
    contract: Contract,
    types: &Types,
) -> Result<bool, AllocError>
    ensures { IfOk result (λ b. IsTrue b ↔ IsPlainForEach contract types.now) }
{
    let plain = is_plain(alloc, types)?;
    if plain {
        return Ok(true);
    }
    let has_none = flattens_no_enums(alloc, types)?;
    if !has_none {
        return Ok(false);
    }
    is_plain_under(alloc, contract, types)
}

/// Returns whether no enum is flattened.
///
/// # Errors
///
/// Only where memory runs out.
pub fn flattens_no_enums(alloc: Global, types: &Types) -> Result<bool, AllocError>
    ensures { IfOk result (λ b. IsTrue b ↔ FlattensNoEnums types.now) }
{
    for n in 0..types.len() {
        if !row_flattens_no_enums(alloc, types, n)? {
            return Ok(false);
        }
    }
    Ok(true)
}

fn row_flattens_no_enums(alloc: Global, types: &Types, n: TypeNo) -> Result<bool, AllocError>
    ensures { IfOk result (λ b. IsTrue b
        ↔ EntryFlattensNoEnums types.now (entry_at types.now n)) }
{
    match types.entry(n) {
        Some(entry) => shape_flattens_no_enums(alloc, types, &entry.shape),
        None => Ok(true),
    }
}

fn shape_flattens_no_enums(alloc: Global, types: &Types, shape: &Shape) -> Result<bool, AllocError>
    ensures { IfOk result (λ b. IsTrue b
        ↔ ShapeFlattensNoEnums types.now (shape_of shape.now)) }
{
    match shape {
        Shape::Struct(fields) => has_no_enums(alloc, types, &fields.flatten),
        Shape::External(variants) | Shape::Untagged(variants) => {
            variants_have_no_enums(alloc, types, variants)
        }
        Shape::Internal(internal) => variants_have_no_enums(alloc, types, &internal.variants),
        Shape::Adjacent(adjacent) => variants_have_no_enums(alloc, types, &adjacent.variants),
        Shape::Null | Shape::Bool | Shape::Int(_) | Shape::NonZero(_) => Ok(true),
        Shape::Number | Shape::Text | Shape::Char | Shape::Formatted(_) => Ok(true),
        Shape::Any | Shape::Bytes | Shape::SchemaItself | Shape::Literal(_) => Ok(true),
        Shape::Option(_) | Shape::Newtype(_) | Shape::Seq(_) | Shape::Set(_) => Ok(true),
        Shape::Array(..) | Shape::UpTo(..) | Shape::Tuple(_) => Ok(true),
        Shape::Result(..) | Shape::Either(..) => Ok(true),
        Shape::Bound(_) | Shape::Range(_) | Shape::Map(..) => Ok(true),
    }
}
