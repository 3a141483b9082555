//! What is flattened into the maps of a row.
ghost use Rattle.std.specs.Prelude.{◌≡◌, ◌↔◌, map, IsTrue, Some};
ghost use Rattle.schemars_plain.specs.Words.{shape_of, flattened_of, entry_of, any_payload_of, entry_at, payload_parts, variant_parts, parts_in, IsOpenStruct, ArePlainParts};

use schemars_shapes::{AnyPayload, AnyVariant};
use schemars_types::{Flattened, Shape, TypeEntry, TypeNo, Types};

/// Returns whether what is flattened into the maps of a shape are open structs whose members have
/// to be there, read or written.
pub fn have_plain_parts(types: &Types, shape: &Shape) -> bool
    ensures { IsTrue result ↔ ArePlainParts types.now (parts_in (shape_of shape.now)) }
{
    match shape {
        Shape::Struct(fields) => are_plain_parts(types, &fields.flatten),
        Shape::External(variants) | Shape::Untagged(variants) => of_variants(types, variants),
        Shape::Internal(internal) => of_variants(types, &internal.variants),
        Shape::Adjacent(adjacent) => of_variants(types, &adjacent.variants),
        Shape::Null | Shape::Bool | Shape::Int(_) | Shape::NonZero(_) => true,
        Shape::Number | Shape::Text | Shape::Char | Shape::Formatted(_) => true,
        Shape::Any | Shape::Bytes | Shape::SchemaItself | Shape::Literal(_) => true,
        Shape::Option(_) | Shape::Newtype(_) | Shape::Seq(_) | Shape::Set(_) => true,
        Shape::Array(..) | Shape::UpTo(..) | Shape::Tuple(_) => true,
        Shape::Result(..) | Shape::Either(..) => true,
        Shape::Bound(_) | Shape::Range(_) | Shape::Map(..) => true,
    }
}

fn of_variants<V: AnyVariant>(types: &Types, variants: &[V]) -> bool
    ensures { IsTrue result ↔ ArePlainParts types.now (variant_parts (map V.says variants.now)) }
{
    for variant in variants {
        if !are_plain_parts(types, payload_parts(variant.payload())) {
            return false;
        }
    }
    true
}

/// What is flattened into the map of a variant.
pub fn payload_parts(payload: AnyPayload<'_>) -> &[Flattened]
    ensures { map flattened_of result.now ≡ payload_parts (any_payload_of payload.entry) }
{
    match payload {
        AnyPayload::Struct(fields) => &fields.flatten,
        AnyPayload::Unit | AnyPayload::Newtype(_) | AnyPayload::Tuple(_) => &[],
    }
}

fn are_plain_parts(types: &Types, parts: &[Flattened]) -> bool
    ensures { IsTrue result ↔ ArePlainParts types.now (map flattened_of parts.now) }
{
    for part in parts {
        let is_required = part.required.deserialize && part.required.serialize;
        if !(is_open(types, part.ty) && is_required) {
            return false;
        }
    }
    true
}

fn is_open(types: &Types, n: TypeNo) -> bool
    ensures { IsTrue result ↔ IsOpenStruct (entry_at types.now n) }
{
    match types.entry(n) {
        Some(entry) => is_open_struct(entry),
        None => false,
    }
}

fn is_open_struct(entry: &TypeEntry) -> bool
    ensures { IsTrue result ↔ IsOpenStruct (Some (entry_of entry.now)) }
{
    match &entry.shape {
        Shape::Struct(fields) => !fields.closed,
        _ => false,
    }
}
