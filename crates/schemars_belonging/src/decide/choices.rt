//! Enums among the members of a map.
ghost use Rattle.std.specs.Prelude.{◌≡◌, ◌++◌, [], false, IfOk, OnOk, map};
ghost use Rattle.schemars_belonging.specs.Words.{view, shape_of, fields_of, variant_of, internal_payload_of, internal_view, enum_at, effective, expanded_shape_in, flattened_in, exactly_one, every_part, matches_of, has_tagged, external_choice, internal_choice, is_tagged_map, shape_choices, asked, bare, has, offers, variant_in, variants_in, claims, shape_claims, external_claims, internal_claims, all_claims, fits_of};

use crate::claims::{Seen, both, claim, claim_internal};
use crate::decide::Table;
use crate::decide::maps::is_map_of;
use crate::decide::variants::{beside, tag_alone};
use crate::fields::field_members;
use crate::given::tag_given;
use schemars_assertions::Patterns;
use schemars_types::{Fields, Internal, InternalPayload, Shape, TypeNo, Variant};
use serde_json::Value;
use std::alloc::AllocError;

/// Whether of each of the enums exactly one variant fits a value, and the keys that they claim.
#[cycle(belongs)]
pub fn each_enum<'t, P: Patterns>(
    t: &Table<'t, P>,
    left: u64,
    enums: &Vec<TypeNo>,
    value: &Value,
    claimed: &mut Vec<&'t str>,
) -> Result<bool, AllocError>
    ensures one { let a = asked t.now.types.now t.now.contract (P.reading t.now.patterns.now) in
        IfOk result (λ is. is ≡ every_part (matches_of (offers a left) (map enum_at enums.now.items) (view value.now))) }
    ensures claimed { let a = asked t.now.types.now t.now.contract (P.reading t.now.patterns.now) in
        OnOk result (map (λ k. k.now) claimed.new.items ≡ map (λ k. k.now) claimed.old.items
        ++ all_claims a left enums.now.items (view value.now)) }
{
    let mut all = true;
    for n in enums {
        let one = choices(t, left, *n, value, claimed)?;
        all = both(all, one);
    }
    Ok(all)
}

// The same of row `n`.
#[cycle(belongs)]
fn choices<'t, P: Patterns>(
    t: &Table<'t, P>,
    left: u64,
    n: TypeNo,
    value: &Value,
    claimed: &mut Vec<&'t str>,
) -> Result<bool, AllocError>
    ensures one { let a = asked t.now.types.now t.now.contract (P.reading t.now.patterns.now) in
        IfOk result (λ is. is ≡ exactly_one (fits_of (offers a left n (view value.now)))) }
    ensures claimed { let a = asked t.now.types.now t.now.contract (P.reading t.now.patterns.now) in
        OnOk result (map (λ k. k.now) claimed.new.items ≡ map (λ k. k.now) claimed.old.items
        ++ claims a left n (view value.now)) }
{
    if left == 0 {
        return Ok(false);
    }
    match t.types.entry(n) {
        Some(entry) => shape_choices(t, left - 1, &entry.shape, value, claimed),
        None => Ok(false),
    }
}

#[cycle(belongs)]
fn shape_choices<'t, P: Patterns>(
    t: &Table<'t, P>,
    left: u64,
    shape: &'t Shape,
    value: &Value,
    claimed: &mut Vec<&'t str>,
) -> Result<bool, AllocError>
    ensures one { let a = asked t.now.types.now t.now.contract (P.reading t.now.patterns.now) in
        IfOk result (λ is. is ≡ exactly_one (fits_of (shape_choices a.contract (has a left) (offers a left)
        (expanded_shape_in a.rows (shape_of shape.now)) (view value.now)))) }
    ensures claimed { let a = asked t.now.types.now t.now.contract (P.reading t.now.patterns.now) in
        OnOk result (map (λ k. k.now) claimed.new.items ≡ map (λ k. k.now) claimed.old.items
        ++ shape_claims a left (expanded_shape_in a.rows (shape_of shape.now)) (view value.now)) }
{
    match shape {
        Shape::External(variants) => external_choices(t, left, variants, value, claimed),
        Shape::Internal(internal) => internal_choices(t, left, internal, value, claimed),
        Shape::Struct(_) | Shape::Untagged(_) | Shape::Adjacent(_) => Ok(false),
        Shape::Null | Shape::Bool | Shape::Int(_) | Shape::NonZero(_) => Ok(false),
        Shape::Number | Shape::Text | Shape::Char | Shape::Formatted(_) => Ok(false),
        Shape::Any | Shape::Bytes | Shape::SchemaItself | Shape::Literal(_) => Ok(false),
        Shape::Option(_) | Shape::Newtype(_) | Shape::Seq(_) | Shape::Set(_) => Ok(false),
        Shape::Array(..) | Shape::UpTo(..) | Shape::Tuple(_) => Ok(false),
        Shape::Result(..) | Shape::Either(..) => Ok(false),
        Shape::Bound(_) | Shape::Range(_) | Shape::Map(..) => Ok(false),
    }
}

#[cycle(belongs)]
fn external_choices<'t, P: Patterns>(
    t: &Table<'t, P>,
    left: u64,
    variants: &'t Vec<Variant>,
    value: &Value,
    claimed: &mut Vec<&'t str>,
) -> Result<bool, AllocError>
    ensures one { let a = asked t.now.types.now t.now.contract (P.reading t.now.patterns.now) in
        IfOk result (λ is. is ≡ exactly_one (fits_of (map (external_choice a.contract (has a left) (offers a left) (view value.now))
        (variants_in a (map variant_of variants.now.items))))) }
    ensures claimed { let a = asked t.now.types.now t.now.contract (P.reading t.now.patterns.now) in
        OnOk result (map (λ k. k.now) claimed.new.items ≡ map (λ k. k.now) claimed.old.items
        ++ external_claims a left (view value.now) (variants_in a (map variant_of variants.now.items))) }
{
    let mut seen = Seen::nothing();
    for variant in variants {
        let name = variant.name.as_str();
        let fits = beside(t, left, &[], name, &variant.payload, false, value)?;
        seen = seen.with(fits);
        claim(fits, name, claimed)?;
    }
    Ok(seen.is_one())
}

#[cycle(belongs)]
fn internal_choices<'t, P: Patterns>(
    t: &Table<'t, P>,
    left: u64,
    internal: &'t Internal,
    value: &Value,
    claimed: &mut Vec<&'t str>,
) -> Result<bool, AllocError>
    ensures one { let a = asked t.now.types.now t.now.contract (P.reading t.now.patterns.now) in
        IfOk result (λ is. is ≡ exactly_one (fits_of (map (internal_choice a.contract (has a left) (internal_view internal.now).0
        (view value.now)) (variants_in a (internal_view internal.now).2)))) }
    ensures claimed { let a = asked t.now.types.now t.now.contract (P.reading t.now.patterns.now) in
        OnOk result (map (λ k. k.now) claimed.new.items ≡ map (λ k. k.now) claimed.old.items
        ++ internal_claims a left (internal_view internal.now).0 (view value.now)
        (variants_in a (internal_view internal.now).2)) }
{
    let mut seen = Seen::nothing();
    let tag = internal.tag.as_str();
    for variant in &internal.variants {
        let name = variant.name.as_str();
        let payload = &variant.payload;
        let fits = tagged(t, left, tag, name, payload, value)?;
        seen = seen.with(fits);
        claim_internal(t.alloc, t.types, t.contract, fits, tag, payload, claimed)?;
    }
    Ok(seen.is_one())
}

// Whether a value is a map with the name of a variant under the tag, and with its fields.
#[cycle(belongs)]
fn tagged<P: Patterns>(
    t: &Table<'_, P>,
    left: u64,
    tag: &str,
    name: &str,
    payload: &InternalPayload,
    value: &Value,
) -> Result<bool, AllocError>
    ensures { let a = asked t.now.types.now t.now.contract (P.reading t.now.patterns.now) in
        IfOk result (λ is. is ≡ is_tagged_map a.contract (has a left) tag.now (view value.now)
        (variant_in a (bare name.now (internal_payload_of payload.now)))) }
{
    match payload {
        InternalPayload::Unit => tag_alone(t, left, tag, name, false, value),
        InternalPayload::Newtype(_) => Ok(false),
        InternalPayload::Struct(fields) => tagged_fields(t, left, tag, name, fields, value),
    }
}

#[cycle(belongs)]
fn tagged_fields<P: Patterns>(
    t: &Table<'_, P>,
    left: u64,
    tag: &str,
    name: &str,
    fields: &Fields,
    value: &Value,
) -> Result<bool, AllocError>
    ensures { let a = asked t.now.types.now t.now.contract (P.reading t.now.patterns.now) in
        IfOk result (λ is. is ≡ has_tagged a.contract (has a left) [] tag.now
        (effective (flattened_in a.rows) (fields_of fields.now)) false name.now (view value.now)) }
{
    let tags = &[tag_given(tag, name)];
    let list = field_members(t.alloc, t.types, t.contract, tags, fields)?;
    is_map_of(t, left, &list, false, value)
}
