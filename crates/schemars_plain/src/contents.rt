//! Newtypes that are tagged inside their maps: which rows may stand beside a tag.
ghost use Rattle.std.specs.Prelude.{◌↔◌, map, IsTrue, IfOk};
ghost use Rattle.schemars_plain.specs.Words.{shape_of, internal_payload_of, internal_view, HasContent, HaveContents, ShapeHasContents, IsNoContent, IsContentShape, IsPlainContent};

use crate::fields::lacks;
use crate::under::has_no_enums;
use schemars_types::{Internal, InternalPayload, Shape, TypeNo, Types};
use std::alloc::{AllocError, Global};

/// Whether no newtype of a shape is tagged inside its map.
pub fn has_no_contents(shape: &Shape) -> bool
    ensures { IsTrue result ↔ ShapeHasContents IsNoContent (shape_of shape.now) }
{
    match shape {
        Shape::Internal(internal) => has_no_newtypes(internal),
        Shape::Struct(_) | Shape::External(_) | Shape::Untagged(_) | Shape::Adjacent(_) => true,
        Shape::Null | Shape::Bool | Shape::Int(_) | Shape::NonZero(_) => true,
        Shape::Number | Shape::Text | Shape::Char | Shape::Formatted(_) => true,
        Shape::Any | Shape::Bytes | Shape::SchemaItself | Shape::Literal(_) => true,
        Shape::Option(_) | Shape::Newtype(_) | Shape::Seq(_) | Shape::Set(_) => true,
        Shape::Array(..) | Shape::UpTo(..) | Shape::Tuple(_) => true,
        Shape::Result(..) | Shape::Either(..) => true,
        Shape::Bound(_) | Shape::Range(_) | Shape::Map(..) => true,
    }
}

/// Whether none of the variants is a newtype.
pub fn has_no_newtypes(internal: &Internal) -> bool
    ensures { IsTrue result ↔ HaveContents IsNoContent (internal_view internal.now).0
        (internal_view internal.now).2 }
{
    for variant in &internal.variants {
        match variant.payload {
            InternalPayload::Newtype(_) => return false,
            InternalPayload::Unit | InternalPayload::Struct(_) => {}
        }
    }
    true
}

/// Returns whether each newtype of a shape that is tagged inside its map is of a row that may
/// stand beside the tag.
///
/// # Errors
///
/// Only where memory runs out.
pub fn has_plain_contents(alloc: Global, types: &Types, shape: &Shape) -> Result<bool, AllocError>
    ensures { IfOk result (λ b. IsTrue b
        ↔ ShapeHasContents (IsPlainContent types.now) (shape_of shape.now)) }
{
    match shape {
        Shape::Internal(internal) => are_plain_contents(alloc, types, internal),
        Shape::Struct(_) | Shape::External(_) | Shape::Untagged(_) | Shape::Adjacent(_) => Ok(true),
        Shape::Null | Shape::Bool | Shape::Int(_) | Shape::NonZero(_) => Ok(true),
        Shape::Number | Shape::Text | Shape::Char | Shape::Formatted(_) => Ok(true),
        Shape::Any | Shape::Bytes | Shape::SchemaItself | Shape::Literal(_) => Ok(true),
        Shape::Option(_) | Shape::Newtype(_) | Shape::Seq(_) | Shape::Set(_) => Ok(true),
        Shape::Array(..) | Shape::UpTo(..) | Shape::Tuple(_) => Ok(true),
        Shape::Result(..) | Shape::Either(..) => Ok(true),
        Shape::Bound(_) | Shape::Range(_) | Shape::Map(..) => Ok(true),
    }
}

fn are_plain_contents(alloc: Global, types: &Types, internal: &Internal) -> Result<bool, AllocError>
    ensures { IfOk result (λ b. IsTrue b ↔ HaveContents (IsPlainContent types.now)
        (internal_view internal.now).0 (internal_view internal.now).2) }
{
    for variant in &internal.variants {
        if !has_plain_content(alloc, types, internal.tag.as_str(), &variant.payload)? {
            return Ok(false);
        }
    }
    Ok(true)
}

fn has_plain_content(
    alloc: Global,
    types: &Types,
    tag: &str,
    payload: &InternalPayload,
) -> Result<bool, AllocError>
    ensures { IfOk result (λ b. IsTrue b
        ↔ HasContent (IsPlainContent types.now) tag.now (internal_payload_of payload.now)) }
{
    match payload {
        InternalPayload::Newtype(n) => is_plain_content(alloc, types, tag, *n),
        InternalPayload::Unit | InternalPayload::Struct(_) => Ok(true),
    }
}

/// Returns whether row `n` may stand beside a tag: whether it is a struct none of whose fields, its
/// own or flattened, is named as the tag, and into which no enum is flattened.
///
/// # Errors
///
/// Only where memory runs out.
pub fn is_plain_content(
    alloc: Global,
    types: &Types,
    tag: &str,
    n: TypeNo,
) -> Result<bool, AllocError>
    ensures { IfOk result (λ b. IsTrue b ↔ IsPlainContent types.now tag.now n) }
{
    match types.entry(n) {
        Some(entry) => is_content_shape(alloc, types, tag, &entry.shape),
        None => Ok(false),
    }
}

fn is_content_shape(
    alloc: Global,
    types: &Types,
    tag: &str,
    shape: &Shape,
) -> Result<bool, AllocError>
    ensures { IfOk result (λ b. IsTrue b
        ↔ IsContentShape types.now tag.now (shape_of shape.now)) }
{
    match shape {
        Shape::Struct(fields) => {
            let has_no_tag = lacks(alloc, types, fields, tag)?;
            Ok(has_no_tag && has_no_enums(alloc, types, &fields.flatten)?)
        }
        Shape::External(_) | Shape::Untagged(_) => Ok(false),
        Shape::Internal(_) | Shape::Adjacent(_) => Ok(false),
        Shape::Null | Shape::Bool | Shape::Int(_) | Shape::NonZero(_) => Ok(false),
        Shape::Number | Shape::Text | Shape::Char | Shape::Formatted(_) => Ok(false),
        Shape::Any | Shape::Bytes | Shape::SchemaItself | Shape::Literal(_) => Ok(false),
        Shape::Option(_) | Shape::Newtype(_) | Shape::Seq(_) | Shape::Set(_) => Ok(false),
        Shape::Array(..) | Shape::UpTo(..) | Shape::Tuple(_) => Ok(false),
        Shape::Result(..) | Shape::Either(..) => Ok(false),
        Shape::Bound(_) | Shape::Range(_) | Shape::Map(..) => Ok(false),
    }
}
