//! The variants of enums.
ghost use Rattle.std.specs.Prelude.{◌≡◌, ◌↔◌, map, IsTrue, IfOk};
ghost use Rattle.schemars_plain.specs.Words.{any_payload_of, flattened_in, part_enums, expanded_variant, expanded_payload, AreDistinctVariants, IsPlainPayload, ArePlainVariants, IsTagged, AreTagged, AreNotes};

use crate::fields::{are_plain, lacks};
use crate::notes::are_notes;
use schemars_shapes::{AnyPayload, AnyVariant, first_repeated};
use schemars_types::Types;
use std::alloc::{AllocError, Global};

/// Whether the notes of the variants and of their fields are annotations alone, and the names of
/// the fields of each all differ.
pub fn are_plain_variants<V: AnyVariant>(
    alloc: Global,
    types: &Types,
    variants: &[V],
) -> Result<bool, AllocError>
    ensures { IfOk result (λ b. IsTrue b ↔ ArePlainVariants
        (map (expanded_variant (flattened_in types.now) (part_enums types.now))
        (map V.says variants.now))) }
{
    for variant in variants {
        if !is_plain_variant(alloc, types, variant)? {
            return Ok(false);
        }
    }
    Ok(true)
}

fn is_plain_variant<V: AnyVariant>(
    alloc: Global,
    types: &Types,
    variant: &V,
) -> Result<bool, AllocError>
    ensures { IfOk result (λ b. IsTrue b ↔ (AreNotes (V.says variant.now).notes
        × IsPlainPayload (expanded_payload (flattened_in types.now) (part_enums types.now)
        (V.says variant.now).payload))) }
{
    if !are_notes(variant.notes()) {
        return Ok(false);
    }
    is_plain_payload(alloc, types, variant.payload())
}

fn is_plain_payload(
    alloc: Global,
    types: &Types,
    payload: AnyPayload<'_>,
) -> Result<bool, AllocError>
    ensures { IfOk result (λ b. IsTrue b ↔ IsPlainPayload
        (expanded_payload (flattened_in types.now) (part_enums types.now)
        (any_payload_of payload.entry))) }
{
    match payload {
        AnyPayload::Struct(fields) => are_plain(alloc, types, fields),
        AnyPayload::Unit | AnyPayload::Newtype(_) | AnyPayload::Tuple(_) => Ok(true),
    }
}

/// Whether the names of the variants all differ.
pub fn are_distinct_variants<V: AnyVariant>(
    alloc: Global,
    variants: &[V],
) -> Result<bool, AllocError>
    ensures { IfOk result (λ b. IsTrue b ↔ AreDistinctVariants (map V.says variants.now)) }
{
    let names = variant_names(alloc, variants)?;
    Ok(first_repeated(alloc, &names)?.is_none())
}

/// The names of variants.
pub fn variant_names<V: AnyVariant>(alloc: Global, variants: &[V]) -> Result<Vec<&str>, AllocError>
    ensures { IfOk result (λ v. map (λ n. n.now) v.items
        ≡ map (λ x. x.name) (map V.says variants.now)) }
{
    let mut names = Vec::new(alloc);
    for variant in variants {
        names.push(variant.name())?;
    }
    Ok(names)
}

/// Whether none of the variants is a tuple, and no field of a variant is named as the tag.
pub fn are_tagged<V: AnyVariant>(
    alloc: Global,
    types: &Types,
    tag: &str,
    variants: &[V],
) -> Result<bool, AllocError>
    ensures { IfOk result (λ b. IsTrue b ↔ AreTagged tag.now
        (map (expanded_variant (flattened_in types.now) (part_enums types.now))
        (map V.says variants.now))) }
{
    for variant in variants {
        if !is_tagged(alloc, types, tag, variant.payload())? {
            return Ok(false);
        }
    }
    Ok(true)
}

fn is_tagged(
    alloc: Global,
    types: &Types,
    tag: &str,
    payload: AnyPayload<'_>,
) -> Result<bool, AllocError>
    ensures { IfOk result (λ b. IsTrue b ↔ IsTagged tag.now
        (expanded_payload (flattened_in types.now) (part_enums types.now)
        (any_payload_of payload.entry))) }
{
    match payload {
        AnyPayload::Unit | AnyPayload::Newtype(_) => Ok(true),
        AnyPayload::Tuple(_) => Ok(false),
        AnyPayload::Struct(fields) => lacks(alloc, types, fields, tag),
    }
}
