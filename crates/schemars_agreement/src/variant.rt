//! What the variants of a row are.
#![tactic(auto)]

ghost use Rattle.std.specs.Prelude.{map, Bool, IfSome};
ghost use Rattle.schemars_shapes.specs.Shape.{by_name, by_nothing, by_tag, by_tag_and_content, payload_of, variant_of, internal_payload_of, internal_variant_of};
ghost use Rattle.schemars_written.specs.Fits.{HasVariant, HasVariantAt};

use crate::row::shape_at;
use schemars_types::{InternalPayload, InternalVariant, Payload, Shape, TypeNo, Types, Variant};

/// Returns what the variant of this name has, if row `n` is an enum that is tagged by names.
pub fn external_variant<'a>(types: &'a Types, n: TypeNo, name: &str) -> Option<&'a Payload>
    ensures { IfSome result (λ p. HasVariantAt types.now n by_name name.now (payload_of p.now)) }
{
    match shape_at(types, n) {
        Some(Shape::External(variants)) => payload_named(variants.as_slice(), name),
        _ => None,
    }
}

/// Returns what the variant of this name has, if row `n` is an enum that is not tagged.
pub fn untagged_variant<'a>(types: &'a Types, n: TypeNo, name: &str) -> Option<&'a Payload>
    ensures { IfSome result (λ p. HasVariantAt types.now n by_nothing name.now (payload_of p.now)) }
{
    match shape_at(types, n) {
        Some(Shape::Untagged(variants)) => payload_named(variants.as_slice(), name),
        _ => None,
    }
}

/// Returns what the variant of this name has, if row `n` is an enum with its names under this tag.
pub fn internal_variant<'a>(
    types: &'a Types,
    n: TypeNo,
    tag: &str,
    name: &str,
) -> Option<&'a InternalPayload>
    ensures { IfSome result (λ p. (closed : Bool) × HasVariantAt types.now n
        (by_tag tag.now closed) name.now (internal_payload_of p.now)) }
{
    match shape_at(types, n) {
        Some(Shape::Internal(x)) if x.tag.as_str() == tag => {
            inside_named(x.variants.as_slice(), name)
        }
        _ => None,
    }
}

/// Returns what the variant of this name has, if row `n` is an enum with its names under this tag
/// and its contents under this key.
pub fn adjacent_variant<'a>(
    types: &'a Types,
    n: TypeNo,
    tag: &str,
    content: &str,
    name: &str,
) -> Option<&'a Payload>
    ensures { IfSome result (λ p. (closed : Bool) × HasVariantAt types.now n
        (by_tag_and_content tag.now content.now closed) name.now (payload_of p.now)) }
{
    match shape_at(types, n) {
        Some(Shape::Adjacent(x)) if x.tag.as_str() == tag && x.content.as_str() == content => {
            payload_named(x.variants.as_slice(), name)
        }
        _ => None,
    }
}

fn payload_named<'a>(variants: &'a [Variant], name: &str) -> Option<&'a Payload>
    ensures { IfSome result (λ p. HasVariant name.now (payload_of p.now)
        (map variant_of variants.now)) }
{
    for variant in variants {
        if variant.name.as_str() == name {
            return Some(&variant.payload);
        }
    }
    None
}

fn inside_named<'a>(variants: &'a [InternalVariant], name: &str) -> Option<&'a InternalPayload>
    ensures { IfSome result (λ p. HasVariant name.now (internal_payload_of p.now)
        (map internal_variant_of variants.now)) }
{
    for variant in variants {
        if variant.name.as_str() == name {
            return Some(&variant.payload);
        }
    }
    None
}
