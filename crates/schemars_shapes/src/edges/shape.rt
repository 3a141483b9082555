//! What a shape refers to, and its names.
ghost use Rattle.std.specs.Prelude.{◌≡◌, nat_le, find, string_bytes, IfOk, MatchOption};
ghost use Rattle.schemars_shapes.specs.Words.{shape_of, map_from, numbers_of, names_of, any_payload_of, rows_of, payload_rows, AreDistinctLists, IsFirstRepeated};

use crate::any_variant::AnyPayload;
use crate::edges::rows::Rows;
use crate::edges::unknown::first_unknown_among;
use crate::edges::variant::{add_payload_rows, first_unknown_in, repeated_in, rows_in};
use crate::edges::{adjacent, fields};
use crate::shape::{Shape, TypeNo};
use std::alloc::{AllocError, Global};

/// The first number to which the shape refers and that is not a row of a table of this length.
pub fn first_unknown(shape: &Shape, len: usize) -> Option<TypeNo>
    ensures { result ≡ find (λ n. nat_le len n) (numbers_of (shape_of shape.now)) }
{
    match shape {
        Shape::Option(n) | Shape::Newtype(n) => first_unknown_among(&[*n], len),
        Shape::Seq(n) | Shape::Set(n) => first_unknown_among(&[*n], len),
        Shape::Array(n, _) | Shape::UpTo(n, _) => first_unknown_among(&[*n], len),
        Shape::Bound(n) | Shape::Range(n) => first_unknown_among(&[*n], len),
        Shape::Result(n, m) | Shape::Either(n, m) => first_unknown_among(&[*n, *m], len),
        Shape::Map(key, value) => first_unknown_among(&[*key, *value], len),
        Shape::External(variants) | Shape::Untagged(variants) => first_unknown_in(variants, len),
        Shape::Internal(internal) => first_unknown_in(&internal.variants, len),
        Shape::Adjacent(adjacent) => first_unknown_in(&adjacent.variants, len),
        Shape::Tuple(parts) => first_unknown_among(parts, len),
        Shape::Struct(fields) => fields::first_unknown(fields, len),
        Shape::Null | Shape::Bool | Shape::Int(_) | Shape::NonZero(_) => None,
        Shape::Number | Shape::Text | Shape::Char | Shape::Formatted(_) => None,
        Shape::Any | Shape::Bytes | Shape::SchemaItself | Shape::Literal(_) => None,
    }
}

/// The rows of this kind that the shape refers to.
pub fn rows(alloc: Global, shape: &Shape, kind: Rows) -> Result<Vec<TypeNo>, AllocError>
    ensures { IfOk result (λ v. v.items ≡ rows_of kind (shape_of shape.now)) }
{
    match shape {
        Shape::Option(n) | Shape::Newtype(n) => own_rows(alloc, AnyPayload::Newtype(*n), kind),
        Shape::Seq(n) | Shape::Set(n) => own_rows(alloc, AnyPayload::Tuple(&[*n]), kind),
        Shape::Array(n, _) | Shape::UpTo(n, _) => own_rows(alloc, AnyPayload::Tuple(&[*n]), kind),
        Shape::Bound(n) | Shape::Range(n) => own_rows(alloc, AnyPayload::Tuple(&[*n]), kind),
        Shape::Result(n, m) | Shape::Either(n, m) => {
            own_rows(alloc, AnyPayload::Tuple(&[*n, *m]), kind)
        }
        Shape::Map(key, value) => map_rows(alloc, *key, *value, kind),
        Shape::Tuple(parts) => own_rows(alloc, AnyPayload::Tuple(parts), kind),
        Shape::Struct(fields) => own_rows(alloc, AnyPayload::Struct(fields), kind),
        Shape::External(variants) => rows_in(alloc, variants, kind.under_key()),
        Shape::Untagged(variants) => rows_in(alloc, variants, kind),
        Shape::Internal(internal) => rows_in(alloc, &internal.variants, kind.beside_tag()),
        Shape::Adjacent(adjacent) => rows_in(alloc, &adjacent.variants, kind.under_key()),
        Shape::Null | Shape::Bool | Shape::Int(_) | Shape::NonZero(_) => Ok(Vec::new(alloc)),
        Shape::Number | Shape::Text | Shape::Char | Shape::Formatted(_) => Ok(Vec::new(alloc)),
        Shape::Any | Shape::Bytes | Shape::SchemaItself | Shape::Literal(_) => Ok(Vec::new(alloc)),
    }
}

// Those of a shape that refers to rows as the payload of a variant does.
fn own_rows(alloc: Global, payload: AnyPayload<'_>, kind: Rows) -> Result<Vec<TypeNo>, AllocError>
    ensures { IfOk result (λ v. v.items ≡ payload_rows kind (any_payload_of payload.entry)) }
{
    let mut rows = Vec::new(alloc);
    add_payload_rows(payload, kind, &mut rows)?;
    Ok(rows)
}

fn map_rows(
    alloc: Global,
    key: TypeNo,
    value: TypeNo,
    kind: Rows,
) -> Result<Vec<TypeNo>, AllocError>
    ensures { IfOk result (λ v. v.items ≡ rows_of kind (map_from key value)) }
{
    match kind {
        Rows::All => Ok(vec![in alloc; key, value]?),
        Rows::Asked => Ok(vec![in alloc; key]?),
        Rows::Flattened | Rows::Same => Ok(Vec::new(alloc)),
    }
}

/// The first name that is met a second time: in the list of fields, or in that of variants, or
/// else in the list of fields of a variant. The keys of an adjacently tagged enum come before its
/// variants.
pub fn repeated_name(alloc: Global, shape: &Shape) -> Result<Option<String>, AllocError>
    ensures { IfOk result (λ r. MatchOption r (AreDistinctLists (names_of (shape_of shape.now)))
        (λ s. IsFirstRepeated (names_of (shape_of shape.now)) (string_bytes s))) }
{
    match shape {
        Shape::Struct(fields) => fields::repeated_name(alloc, fields),
        Shape::External(variants) | Shape::Untagged(variants) => repeated_in(alloc, variants),
        Shape::Internal(internal) => repeated_in(alloc, &internal.variants),
        Shape::Adjacent(adjacent) => adjacent::repeated_name(alloc, adjacent),
        Shape::Null | Shape::Bool | Shape::Int(_) | Shape::NonZero(_) => Ok(None),
        Shape::Number | Shape::Text | Shape::Char | Shape::Formatted(_) => Ok(None),
        Shape::Any | Shape::Bytes | Shape::SchemaItself => Ok(None),
        Shape::Option(_) | Shape::Newtype(_) | Shape::Seq(_) | Shape::Set(_) => Ok(None),
        Shape::Array(..) | Shape::UpTo(..) | Shape::Tuple(_) => Ok(None),
        Shape::Result(..) | Shape::Either(..) | Shape::Bound(_) | Shape::Range(_) => Ok(None),
        Shape::Map(..) | Shape::Literal(_) => Ok(None),
    }
}
