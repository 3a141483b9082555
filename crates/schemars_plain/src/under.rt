//! Tables that are plain under a contract: Options and enums may be flattened too.
ghost use Rattle.std.specs.Prelude.{◌≡◌, ◌↔◌, map, IsTrue, IfOk, option_map, false};
ghost use Rattle.schemars_plain.specs.Words.{shape_of, flattened_of, internal_view, any_payload_of, entry_at, flattened_in, part_enums, expanded_payload, expanded_variant, expanded_shape_in, parts_in, variant_parts, may_miss, tag_names, enum_names_at, PayloadHasNamesApart, VariantsHaveNamesApart, ShapeHasNamesApart, IsBare, HasBareUnits, HaveContents, IsNoContent, HasVariant, HasNoEnums, VariantsHaveNoEnums, IsPartShape, IsPartUnder, ArePartsUnder, IsEntryUnder, IsPlainUnder};

use crate::contents::{has_no_newtypes, has_plain_contents};
use crate::enums::{fields_apart, flattened_enums};
use crate::notes::{are_notes, has_no_notes};
use crate::parts::payload_parts;
use crate::table::is_plain_shape;
use schemars_shapes::{AnyPayload, AnyVariant};
use schemars_types::{
    Contract, Flattened, Internal, Shape, TypeNo, Types, row_inside, without_options,
};
use std::alloc::{AllocError, Global};

/// Returns whether a table is plain under a contract: whether it is promised that in 2020-12 and
/// 2019-09 the documents of its types for that contract accept exactly the values of the types.
///
/// # Errors
///
/// Only where memory runs out.
pub fn is_plain_under(alloc: Global, contract: Contract, types: &Types) -> Result<bool, AllocError>
    ensures { IfOk result (λ b. IsTrue b ↔ IsPlainUnder contract types.now) }
{
    for n in 0..types.len() {
        if !is_plain_row_under(alloc, contract, types, n)? {
            return Ok(false);
        }
    }
    Ok(true)
}

/// Returns whether a row is plain under a contract. One that was never defined is.
///
/// # Errors
///
/// Only where memory runs out.
pub fn is_plain_row_under(
    alloc: Global,
    contract: Contract,
    types: &Types,
    n: TypeNo,
) -> Result<bool, AllocError>
    ensures { IfOk result (λ b. IsTrue b ↔ IsEntryUnder contract types.now (entry_at types.now n)) }
{
    let Some(entry) = types.entry(n) else {
        return Ok(true);
    };
    if !are_notes(&entry.notes) {
        return Ok(false);
    }
    if !is_plain_shape(alloc, types, &entry.shape)? {
        return Ok(false);
    }
    if !has_names_apart(alloc, types, &entry.shape)? {
        return Ok(false);
    }
    if !has_plain_contents(alloc, types, &entry.shape)? {
        return Ok(false);
    }
    has_parts_under(alloc, contract, types, &entry.shape)
}

/// Returns whether the names of fields, tag and flattened enums are all different in each map of a
/// shape.
///
/// # Errors
///
/// Only where memory runs out.
pub fn has_names_apart(alloc: Global, types: &Types, shape: &Shape) -> Result<bool, AllocError>
    ensures { IfOk result (λ b. IsTrue b ↔ ShapeHasNamesApart (enum_names_at types.now)
        (expanded_shape_in types.now (shape_of shape.now))) }
{
    match shape {
        Shape::Struct(fields) => fields_apart(alloc, types, None, fields),
        Shape::External(variants) | Shape::Untagged(variants) => {
            variants_apart(alloc, types, None, variants)
        }
        Shape::Internal(internal) => {
            let tag = Some(internal.tag.as_str());
            variants_apart(alloc, types, tag, &internal.variants)
        }
        Shape::Adjacent(adjacent) => variants_apart(alloc, types, None, &adjacent.variants),
        Shape::Null | Shape::Bool | Shape::Int(_) | Shape::NonZero(_) => Ok(true),
        Shape::Number | Shape::Text | Shape::Char | Shape::Formatted(_) => Ok(true),
        Shape::Any | Shape::Bytes | Shape::SchemaItself | Shape::Literal(_) => Ok(true),
        Shape::Option(_) | Shape::Newtype(_) | Shape::Seq(_) | Shape::Set(_) => Ok(true),
        Shape::Array(..) | Shape::UpTo(..) | Shape::Tuple(_) => Ok(true),
        Shape::Result(..) | Shape::Either(..) => Ok(true),
        Shape::Bound(_) | Shape::Range(_) | Shape::Map(..) => Ok(true),
    }
}

fn variants_apart<V: AnyVariant>(
    alloc: Global,
    types: &Types,
    tag: Option<&str>,
    variants: &[V],
) -> Result<bool, AllocError>
    ensures { IfOk result (λ b. IsTrue b ↔ VariantsHaveNamesApart (enum_names_at types.now)
        (tag_names (option_map (λ t. t.now) tag.entry))
        (map (expanded_variant (flattened_in types.now) (part_enums types.now))
        (map V.says variants.now))) }
{
    for variant in variants {
        if !payload_apart(alloc, types, tag, variant.payload())? {
            return Ok(false);
        }
    }
    Ok(true)
}

fn payload_apart(
    alloc: Global,
    types: &Types,
    tag: Option<&str>,
    payload: AnyPayload<'_>,
) -> Result<bool, AllocError>
    ensures { IfOk result (λ b. IsTrue b ↔ PayloadHasNamesApart (enum_names_at types.now)
        (tag_names (option_map (λ t. t.now) tag.entry))
        (expanded_payload (flattened_in types.now) (part_enums types.now)
        (any_payload_of payload.entry))) }
{
    match payload {
        AnyPayload::Struct(fields) => fields_apart(alloc, types, tag, fields),
        AnyPayload::Unit | AnyPayload::Newtype(_) | AnyPayload::Tuple(_) => Ok(true),
    }
}

/// Returns whether each row that is flattened into the maps of a shape is, its Options taken off,
/// an open struct, or an enum that has to be there under the contract.
///
/// # Errors
///
/// Only where memory runs out.
pub fn has_parts_under(
    alloc: Global,
    contract: Contract,
    types: &Types,
    shape: &Shape,
) -> Result<bool, AllocError>
    ensures { IfOk result (λ b. IsTrue b
        ↔ ArePartsUnder contract types.now (parts_in (shape_of shape.now))) }
{
    match shape {
        Shape::Struct(fields) => are_parts_under(alloc, contract, types, &fields.flatten),
        Shape::External(variants) | Shape::Untagged(variants) => {
            variants_under(alloc, contract, types, variants)
        }
        Shape::Internal(internal) => variants_under(alloc, contract, types, &internal.variants),
        Shape::Adjacent(adjacent) => variants_under(alloc, contract, types, &adjacent.variants),
        Shape::Null | Shape::Bool | Shape::Int(_) | Shape::NonZero(_) => Ok(true),
        Shape::Number | Shape::Text | Shape::Char | Shape::Formatted(_) => Ok(true),
        Shape::Any | Shape::Bytes | Shape::SchemaItself | Shape::Literal(_) => Ok(true),
        Shape::Option(_) | Shape::Newtype(_) | Shape::Seq(_) | Shape::Set(_) => Ok(true),
        Shape::Array(..) | Shape::UpTo(..) | Shape::Tuple(_) => Ok(true),
        Shape::Result(..) | Shape::Either(..) => Ok(true),
        Shape::Bound(_) | Shape::Range(_) | Shape::Map(..) => Ok(true),
    }
}

fn variants_under<V: AnyVariant>(
    alloc: Global,
    contract: Contract,
    types: &Types,
    variants: &[V],
) -> Result<bool, AllocError>
    ensures { IfOk result (λ b. IsTrue b
        ↔ ArePartsUnder contract types.now (variant_parts (map V.says variants.now))) }
{
    for variant in variants {
        let parts = payload_parts(variant.payload());
        if !are_parts_under(alloc, contract, types, parts)? {
            return Ok(false);
        }
    }
    Ok(true)
}

fn are_parts_under(
    alloc: Global,
    contract: Contract,
    types: &Types,
    parts: &[Flattened],
) -> Result<bool, AllocError>
    ensures { IfOk result (λ b. IsTrue b
        ↔ ArePartsUnder contract types.now (map flattened_of parts.now)) }
{
    for part in parts {
        if !is_part_under(alloc, contract, types, part)? {
            return Ok(false);
        }
    }
    Ok(true)
}

fn is_part_under(
    alloc: Global,
    contract: Contract,
    types: &Types,
    part: &Flattened,
) -> Result<bool, AllocError>
    ensures { IfOk result (λ b. IsTrue b
        ↔ IsPartUnder contract types.now (flattened_of part.now)) }
{
    let optional = may_miss(contract, types, part);
    match types.entry(without_options(types, part.ty)) {
        Some(entry) => is_part_shape(alloc, types, optional, &entry.shape),
        None => Ok(false),
    }
}

// The members of an Option may be missing, unless they have to be there under the contract.
fn may_miss(contract: Contract, types: &Types, part: &Flattened) -> bool
    ensures { result ≡ may_miss types.now contract (flattened_of part.now) }
{
    let required = match contract {
        Contract::Deserialize => part.required.deserialize,
        Contract::Serialize => part.required.serialize,
    };
    row_inside(types, part.ty).is_some() && !required
}

fn is_part_shape(
    alloc: Global,
    types: &Types,
    optional: bool,
    shape: &Shape,
) -> Result<bool, AllocError>
    ensures { IfOk result (λ b. IsTrue b
        ↔ IsPartShape types.now optional (shape_of shape.now)) }
{
    match shape {
        Shape::Struct(fields) if fields.closed => Ok(false),
        Shape::Struct(fields) if optional => has_no_enums(alloc, types, &fields.flatten),
        Shape::Struct(_) => Ok(true),
        Shape::External(variants) => Ok(!optional && is_part_enum(variants)),
        Shape::Internal(internal) => is_part_internal(alloc, types, optional, internal),
        Shape::Untagged(_) | Shape::Adjacent(_) => Ok(false),
        Shape::Null | Shape::Bool | Shape::Int(_) | Shape::NonZero(_) => Ok(false),
        Shape::Number | Shape::Text | Shape::Char | Shape::Formatted(_) => Ok(false),
        Shape::Any | Shape::Bytes | Shape::SchemaItself | Shape::Literal(_) => Ok(false),
        Shape::Option(_) | Shape::Newtype(_) | Shape::Seq(_) | Shape::Set(_) => Ok(false),
        Shape::Array(..) | Shape::UpTo(..) | Shape::Tuple(_) => Ok(false),
        Shape::Result(..) | Shape::Either(..) => Ok(false),
        Shape::Bound(_) | Shape::Range(_) | Shape::Map(..) => Ok(false),
    }
}

fn is_part_internal(
    alloc: Global,
    types: &Types,
    optional: bool,
    internal: &Internal,
) -> Result<bool, AllocError>
    ensures { IfOk result (λ b. IsTrue b ↔ ((optional ≡ false)
        × HasVariant (internal_view internal.now).2
        × HaveContents IsNoContent (internal_view internal.now).0 (internal_view internal.now).2
        × VariantsHaveNoEnums types.now (internal_view internal.now).2)) }
{
    if !optional && !internal.variants.is_empty() && has_no_newtypes(internal) {
        variants_have_no_enums(alloc, types, &internal.variants)
    } else {
        Ok(false)
    }
}

// There is a variant, and units have no notes.
fn is_part_enum<V: AnyVariant>(variants: &[V]) -> bool
    ensures { IsTrue result
        ↔ (HasVariant (map V.says variants.now) × HasBareUnits (map V.says variants.now)) }
{
    !variants.is_empty() && has_bare_units(variants)
}

fn has_bare_units<V: AnyVariant>(variants: &[V]) -> bool
    ensures { IsTrue result ↔ HasBareUnits (map V.says variants.now) }
{
    for variant in variants {
        if !is_bare(variant) {
            return false;
        }
    }
    true
}

fn is_bare<V: AnyVariant>(variant: &V) -> bool
    ensures { IsTrue result ↔ IsBare (V.says variant.now) }
{
    match variant.payload() {
        AnyPayload::Unit => has_no_notes(variant.notes()),
        AnyPayload::Newtype(_) | AnyPayload::Tuple(_) | AnyPayload::Struct(_) => true,
    }
}

/// Whether no enum is among the members of a map of the variants into which rows are flattened.
pub fn variants_have_no_enums<V: AnyVariant>(
    alloc: Global,
    types: &Types,
    variants: &[V],
) -> Result<bool, AllocError>
    ensures { IfOk result (λ b. IsTrue b
        ↔ VariantsHaveNoEnums types.now (map V.says variants.now)) }
{
    for variant in variants {
        if !has_no_enums(alloc, types, payload_parts(variant.payload()))? {
            return Ok(false);
        }
    }
    Ok(true)
}

/// Whether no enum is among the members of a map into which these rows are flattened.
pub fn has_no_enums(alloc: Global, types: &Types, parts: &[Flattened]) -> Result<bool, AllocError>
    ensures { IfOk result (λ b. IsTrue b
        ↔ HasNoEnums types.now (map flattened_of parts.now)) }
{
    let enums = flattened_enums(alloc, types, parts)?;
    Ok(enums.is_empty())
}
