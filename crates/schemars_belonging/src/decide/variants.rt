//! The variants of enums: by their names, without them, or with their names under a key.
ghost use Rattle.std.specs.Prelude.{◌≡◌, ◌++◌, ◌∷◌, [], bytes_eq, if◌then◌else◌, IfOk, map, not};
ghost use Rattle.schemars_belonging.specs.Words.{list_any, view, adjacent_view, payload_of, variant_of, has_external, has_adjacent, has_member, has_variant, must_have, is_text, asked, bare, tag_given, has, offers, has_payload_of, has_variant_of, variant_in, variants_in, given_of, member_of, member_says, has_beside_of, tagging_of};

use crate::claims::is_unit;
use crate::decide::lists::tuple;
use crate::decide::maps::{has_fields, is_map_of, values};
use crate::decide::{Table, row};
use crate::given::{Given, given_named, has_each_with, is_same, tag_given};
use schemars_assertions::Patterns;
use schemars_literals::{is_null, is_text};
use schemars_types::{Adjacent, Payload, Variant};
use serde_json::Value;
use std::alloc::AllocError;

/// How the name of a variant is written.
#[derive(Clone, Copy)]
pub enum By<'t> {
    /// as the key of what the variant has
    Name,
    /// not at all
    Nothing,
    /// under one key, with what the variant has under another
    Content(&'t Adjacent),
}

#[cycle(belongs)]
fn payload<P: Patterns>(
    t: &Table<'_, P>,
    left: u64,
    payload: &Payload,
    value: &Value,
) -> Result<bool, AllocError>
    ensures { let a = asked t.now.types.now t.now.contract (P.reading t.now.patterns.now) in
        IfOk result (λ is. is ≡ has_payload_of a left (payload_of payload.now) (view value.now)) }
{
    match payload {
        Payload::Unit => Ok(is_null(value)),
        Payload::Newtype(n) => row(t, left, *n, value),
        Payload::Tuple(rows) => tuple(t, left, rows, value),
        Payload::Struct(fields) => has_fields(t, left, &[], fields, value),
    }
}

#[cycle(belongs)]
fn last<P: Patterns>(
    t: &Table<'_, P>,
    left: u64,
    name: &str,
    payload: &Payload,
    closed: bool,
    key: &str,
    value: &Value,
) -> Result<bool, AllocError>
    ensures { let a = asked t.now.types.now t.now.contract (P.reading t.now.patterns.now) in
        IfOk result (λ is. is ≡ (if bytes_eq name.now key.now then has_payload_of a left (payload_of payload.now) (view value.now)
        else not closed)) }
{
    if is_same(name, key) {
        return self::payload(t, left, payload, value);
    }
    Ok(!closed)
}

#[cycle(belongs)]
fn one_beside<P: Patterns>(
    t: &Table<'_, P>,
    left: u64,
    list: &[Given<'_>],
    name: &str,
    payload: &Payload,
    closed: bool,
    key: &str,
    value: &Value,
) -> Result<bool, AllocError>
    ensures { let a = asked t.now.types.now t.now.contract (P.reading t.now.patterns.now) in
        IfOk result (λ is. is ≡ member_says (map (member_of a left) (map given_of list.now)
        ++ must_have name.now (has_payload_of a left (payload_of payload.now)) ∷ [])
        (λ k. not closed) key.now (view value.now)) }
{
    match given_named(list, key) {
        Some(given) => values(t, left, &given.values, value),
        None => last(t, left, name, payload, closed, key, value),
    }
}

/// Whether a value is a map of the given members, and of what a variant has under a name.
#[cycle(belongs)]
pub fn beside<P: Patterns>(
    t: &Table<'_, P>,
    left: u64,
    list: &[Given<'_>],
    name: &str,
    payload: &Payload,
    closed: bool,
    value: &Value,
) -> Result<bool, AllocError>
    ensures { let a = asked t.now.types.now t.now.contract (P.reading t.now.patterns.now) in
        IfOk result (λ is. is ≡ has_beside_of a left (map given_of list.now) name.now (payload_of payload.now) closed
        (view value.now)) }
{
    let Some(members) = value.as_object() else {
        return Ok(false);
    };
    for (key, member) in members.iter() {
        if !one_beside(t, left, list, name, payload, closed, key.as_str(), member)? {
            return Ok(false);
        }
    }
    Ok(has_each_with(list, members, name))
}

/// Whether a value is one of the variants.
#[cycle(belongs)]
pub fn any_variant<P: Patterns>(
    t: &Table<'_, P>,
    left: u64,
    by: By<'_>,
    variants: &Vec<Variant>,
    value: &Value,
) -> Result<bool, AllocError>
    ensures { let a = asked t.now.types.now t.now.contract (P.reading t.now.patterns.now) in
        IfOk result (λ is. is ≡ list_any (has_variant a.contract (has a left) (offers a left) (tagging_of by.entry) (view value.now))
        (variants_in a (map variant_of variants.now.items))) }
{
    for variant in variants {
        if self::variant(t, left, by, variant, value)? {
            return Ok(true);
        }
    }
    Ok(false)
}

#[cycle(belongs)]
fn variant<P: Patterns>(
    t: &Table<'_, P>,
    left: u64,
    by: By<'_>,
    variant: &Variant,
    value: &Value,
) -> Result<bool, AllocError>
    ensures { let a = asked t.now.types.now t.now.contract (P.reading t.now.patterns.now) in
        IfOk result (λ is. is ≡ has_variant_of a left (tagging_of by.entry) (view value.now) (variant_of variant.now)) }
{
    let name = variant.name.as_str();
    match by {
        By::Name => external(t, left, name, &variant.payload, value),
        By::Nothing => payload(t, left, &variant.payload, value),
        By::Content(x) => adjacent(t, left, x, name, &variant.payload, value),
    }
}

#[cycle(belongs)]
fn external<P: Patterns>(
    t: &Table<'_, P>,
    left: u64,
    name: &str,
    payload: &Payload,
    value: &Value,
) -> Result<bool, AllocError>
    ensures { let a = asked t.now.types.now t.now.contract (P.reading t.now.patterns.now) in
        IfOk result (λ is. is ≡ has_external a.contract (has a left) (offers a left) (view value.now)
        (variant_in a (bare name.now (payload_of payload.now)))) }
{
    if is_unit(payload) {
        return Ok(is_text(name, value));
    }
    beside(t, left, &[], name, payload, true, value)
}

#[cycle(belongs)]
fn adjacent<P: Patterns>(
    t: &Table<'_, P>,
    left: u64,
    x: &Adjacent,
    name: &str,
    payload: &Payload,
    value: &Value,
) -> Result<bool, AllocError>
    ensures { let a = asked t.now.types.now t.now.contract (P.reading t.now.patterns.now) in
        IfOk result (λ is. is ≡ has_adjacent a.contract (has a left) (offers a left) (adjacent_view x.now).0 (adjacent_view x.now).1
        (adjacent_view x.now).2 (view value.now) (variant_in a (bare name.now (payload_of payload.now)))) }
{
    let tag = x.tag.as_str();
    let content = x.content.as_str();
    if is_unit(payload) {
        return tag_alone(t, left, tag, name, x.closed, value);
    }
    tag_beside(t, left, tag, name, content, payload, x.closed, value)
}

/// Whether a value is a map with a name under the tag.
#[cycle(belongs)]
pub fn tag_alone<P: Patterns>(
    t: &Table<'_, P>,
    left: u64,
    tag: &str,
    name: &str,
    closed: bool,
    value: &Value,
) -> Result<bool, AllocError>
    ensures { let a = asked t.now.types.now t.now.contract (P.reading t.now.patterns.now) in
        IfOk result (λ is. is ≡ has_member tag.now (is_text name.now) closed (view value.now)) }
{
    is_map_of(t, left, &[tag_given(tag, name)], closed, value)
}

// The same, with what a variant has under another key.
#[cycle(belongs)]
fn tag_beside<P: Patterns>(
    t: &Table<'_, P>,
    left: u64,
    tag: &str,
    name: &str,
    content: &str,
    payload: &Payload,
    closed: bool,
    value: &Value,
) -> Result<bool, AllocError>
    ensures { let a = asked t.now.types.now t.now.contract (P.reading t.now.patterns.now) in
        IfOk result (λ is. is ≡ has_beside_of a left (tag_given tag.now name.now ∷ []) content.now (payload_of payload.now) closed
        (view value.now)) }
{
    let tags = &[tag_given(tag, name)];
    beside(t, left, tags, content, payload, closed, value)
}
