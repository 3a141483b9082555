//! What variants refer to, and their names.
ghost use Rattle.std.specs.Prelude.{◌≡◌, ◌++◌, nat_le, find, map, bytes_eq, string_bytes, IfOk, OnOk, MatchOption};
ghost use Rattle.schemars_shapes.specs.Words.{IsDistinct, payload_numbers, variant_numbers, of_variants, payload_names, variant_names, any_payload_of, IsRepeated, AreDistinctLists, IsFirstRepeated, payload_rows};

use crate::any_variant::{AnyPayload, AnyVariant};
use crate::edges::fields;
use crate::edges::names::first_repeated;
use crate::edges::rows::Rows;
use crate::edges::unknown::first_unknown_among;
use crate::shape::TypeNo;
use std::alloc::{AllocError, Global};

fn first_unknown_in_payload(payload: AnyPayload<'_>, len: usize) -> Option<TypeNo>
    ensures { result ≡ find (λ n. nat_le len n) (payload_numbers (any_payload_of payload.entry)) }
{
    match payload {
        AnyPayload::Unit => None,
        AnyPayload::Newtype(n) => first_unknown_among(&[n], len),
        AnyPayload::Tuple(parts) => first_unknown_among(parts, len),
        AnyPayload::Struct(fields) => fields::first_unknown(fields, len),
    }
}

/// Adds the rows of this kind of what a variant has where its name is not written.
pub(crate) fn add_payload_rows(
    payload: AnyPayload<'_>,
    kind: Rows,
    rows: &mut Vec<TypeNo>,
) -> Result<(), AllocError>
    ensures { OnOk result (rows.new.items
        ≡ rows.old.items ++ payload_rows kind (any_payload_of payload.entry)) }
{
    match (payload, kind) {
        (AnyPayload::Newtype(n), Rows::All | Rows::Same) => Ok(rows.push(n)?),
        (AnyPayload::Tuple(parts), Rows::All) => Ok(rows.extend_from_slice(parts)?),
        (AnyPayload::Struct(fields), _) => fields::add_rows(fields, kind, rows),
        _ => Ok(()),
    }
}

// The first name of a field that is met a second time.
#[tactic(auto, using(crate::proofs::FieldRows::none_twice))]
fn repeated_in_payload(alloc: Global, payload: AnyPayload<'_>) -> Result<Option<String>, AllocError>
    ensures { IfOk result (λ r. MatchOption r
        (IsDistinct bytes_eq (payload_names (any_payload_of payload.entry)))
        (λ s. IsRepeated (payload_names (any_payload_of payload.entry)) (string_bytes s))) }
{
    match payload {
        AnyPayload::Struct(fields) => fields::repeated_name(alloc, fields),
        AnyPayload::Unit | AnyPayload::Newtype(_) | AnyPayload::Tuple(_) => Ok(None),
    }
}

#[tactic(auto, using(crate::proofs::VariantNumbers::found_here, crate::proofs::VariantNumbers::found_later))]
pub(crate) fn first_unknown_in<V: AnyVariant>(variants: &[V], len: usize) -> Option<TypeNo>
    ensures { result ≡ find (λ n. nat_le len n) (variant_numbers (map V.says variants.now)) }
{
    for variant in variants {
        if let Some(n) = first_unknown_in_payload(variant.payload(), len) {
            return Some(n);
        }
    }
    None
}

// The rows of this kind of each variant, in their order.
pub(crate) fn rows_in<V: AnyVariant>(
    alloc: Global,
    variants: &[V],
    kind: Rows,
) -> Result<Vec<TypeNo>, AllocError>
    ensures { IfOk result (λ v. v.items
        ≡ of_variants (payload_rows kind) (map V.says variants.now)) }
{
    let mut rows = Vec::new(alloc);
    for variant in variants {
        add_payload_rows(variant.payload(), kind, &mut rows)?;
    }
    Ok(rows)
}

// The first name that is met a second time, among the variants, or else among the fields of one.
pub(crate) fn repeated_in<V: AnyVariant>(
    alloc: Global,
    variants: &[V],
) -> Result<Option<String>, AllocError>
    ensures { IfOk result (λ r. MatchOption r
        (AreDistinctLists (variant_names (map V.says variants.now)))
        (λ s. IsFirstRepeated (variant_names (map V.says variants.now)) (string_bytes s))) }
{
    if let Some(name) = repeated_variant(alloc, variants)? {
        return Ok(Some(name));
    }
    for variant in variants {
        if let Some(name) = repeated_in_payload(alloc, variant.payload())? {
            return Ok(Some(name));
        }
    }
    Ok(None)
}

fn repeated_variant<V: AnyVariant>(
    alloc: Global,
    variants: &[V],
) -> Result<Option<String>, AllocError>
    ensures { IfOk result (λ r. MatchOption r
        (IsDistinct bytes_eq (map (λ x. x.name) (map V.says variants.now)))
        (λ s. IsRepeated (map (λ x. x.name) (map V.says variants.now)) (string_bytes s))) }
{
    let mut names = Vec::new(alloc);
    for variant in variants {
        names.push(variant.name())?;
    }
    first_repeated(alloc, &names)
}
