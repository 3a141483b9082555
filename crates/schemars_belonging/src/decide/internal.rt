//! The variants of enums whose names are among the members of a map.
ghost use Rattle.std.specs.Prelude.{◌≡◌, IfOk};
ghost use Rattle.schemars_belonging.specs.Words.{list_any, view, by_tag, fields_of, internal_variant_of, internal_payload_of, internal_view, has_content, has_internal, has_variant, asked, bare, has_tagged_of, has, offers, has_variant_of, variant_in, variants_in};

use crate::decide::maps::has_fields;
use crate::decide::variants::tag_alone;
use crate::decide::{Table, row};
use crate::given::{has_tag, tag_given, without};
use schemars_assertions::Patterns;
use schemars_types::{Fields, Internal, InternalPayload, InternalVariant, TypeNo};
use serde_json::Value;
use std::alloc::AllocError;

/// Whether a value is one of the variants that are tagged inside.
#[cycle(belongs)]
pub fn any_internal<P: Patterns>(
    t: &Table<'_, P>,
    left: u64,
    internal: &Internal,
    value: &Value,
) -> Result<bool, AllocError>
    ensures { let a = asked t.now.types.now t.now.contract (P.reading t.now.patterns.now) in
        IfOk result (λ is. is ≡ list_any (has_variant a.contract (has a left) (offers a left)
        (by_tag (internal_view internal.now).0 (internal_view internal.now).1) (view value.now))
        (variants_in a (internal_view internal.now).2)) }
{
    for variant in &internal.variants {
        if tagged_inside(t, left, internal, variant, value)? {
            return Ok(true);
        }
    }
    Ok(false)
}

#[cycle(belongs)]
fn tagged_inside<P: Patterns>(
    t: &Table<'_, P>,
    left: u64,
    internal: &Internal,
    variant: &InternalVariant,
    value: &Value,
) -> Result<bool, AllocError>
    ensures { let a = asked t.now.types.now t.now.contract (P.reading t.now.patterns.now) in
        IfOk result (λ is. is ≡ has_variant_of a left (by_tag (internal_view internal.now).0 (internal_view internal.now).1)
        (view value.now) (internal_variant_of variant.now)) }
{
    let tag = internal.tag.as_str();
    let name = variant.name.as_str();
    inside(t, left, tag, internal.closed, name, &variant.payload, value)
}

#[cycle(belongs)]
fn inside<P: Patterns>(
    t: &Table<'_, P>,
    left: u64,
    tag: &str,
    closed: bool,
    name: &str,
    payload: &InternalPayload,
    value: &Value,
) -> Result<bool, AllocError>
    ensures { let a = asked t.now.types.now t.now.contract (P.reading t.now.patterns.now) in
        IfOk result (λ is. is ≡ has_internal a.contract (has a left) (offers a left) tag.now closed (view value.now)
        (variant_in a (bare name.now (internal_payload_of payload.now)))) }
{
    match payload {
        InternalPayload::Unit => tag_alone(t, left, tag, name, closed, value),
        InternalPayload::Newtype(n) => content(t, left, tag, name, *n, value),
        InternalPayload::Struct(fields) => has_tagged(t, left, tag, name, fields, value),
    }
}

// Whether a value is a map with a name under the tag, and with fields and enums beside it.
#[cycle(belongs)]
fn has_tagged<P: Patterns>(
    t: &Table<'_, P>,
    left: u64,
    tag: &str,
    name: &str,
    fields: &Fields,
    value: &Value,
) -> Result<bool, AllocError>
    ensures { let a = asked t.now.types.now t.now.contract (P.reading t.now.patterns.now) in
        IfOk result (λ is. is ≡ has_tagged_of a left tag.now name.now (fields_of fields.now) (view value.now)) }
{
    let tags = &[tag_given(tag, name)];
    has_fields(t, left, tags, fields, value)
}

// Whether a value is a map with a name under the tag, whose other members are a value of row `n`.
#[cycle(belongs)]
fn content<P: Patterns>(
    t: &Table<'_, P>,
    left: u64,
    tag: &str,
    name: &str,
    n: TypeNo,
    value: &Value,
) -> Result<bool, AllocError>
    ensures { let a = asked t.now.types.now t.now.contract (P.reading t.now.patterns.now) in
        IfOk result (λ is. is ≡ has_content (has a left n) tag.now name.now (view value.now)) }
{
    let Some(members) = value.as_object() else {
        return Ok(false);
    };
    if !has_tag(members, tag, name) {
        return Ok(false);
    }
    let rest = without(members, tag)?;
    row(t, left, n, &rest)
}
