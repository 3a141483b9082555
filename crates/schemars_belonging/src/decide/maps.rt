//! Maps whose members have values of rows.
ghost use Rattle.std.specs.Prelude.{◌≡◌, ◌∷◌, [], IfOk, map, not};
ghost use Rattle.schemars_belonging.specs.Words.{view, members_view, fields_of, key_options, exactly_one, are_members, has_members, has_keys, has_member, asked, has, has_shape_of, given_of, values_of, has_values, member_of, member_says, allows, has_fields_of};
ghost use Rattle.schemars_shapes.specs.Shape as shape;

use crate::claims::{one_of_three, one_of_two};
use crate::decide::choices::each_enum;
use crate::decide::{Table, row};
use crate::enums::flattened_enums;
use crate::fields::field_members;
use crate::given::{Given, Values, given_named, has_each, is_allowed, needed};
use crate::keys::is_key_allowed;
use schemars_assertions::Patterns;
use schemars_literals::is_text;
use schemars_types::{Fields, TypeNo};
use serde_json::{Map, Value};
use std::alloc::AllocError;

/// Whether a value is one that a member may have.
#[cycle(belongs)]
pub fn values<P: Patterns>(
    t: &Table<'_, P>,
    left: u64,
    values: &Values<'_>,
    value: &Value,
) -> Result<bool, AllocError>
    ensures { let a = asked t.now.types.now t.now.contract (P.reading t.now.patterns.now) in
        IfOk result (λ is. is ≡ has_values a left (values_of values.now) (view value.now)) }
{
    match values {
        Values::Row(n) => row(t, left, *n, value),
        Values::Text(text) => Ok(is_text(text, value)),
    }
}

// Whether a member is as it is given, or its key is one that others may have.
#[cycle(belongs)]
fn one_member<P: Patterns>(
    t: &Table<'_, P>,
    left: u64,
    list: &[Given<'_>],
    closed: bool,
    claimed: &[&str],
    key: &str,
    value: &Value,
) -> Result<bool, AllocError>
    ensures { let a = asked t.now.types.now t.now.contract (P.reading t.now.patterns.now) in
        IfOk result (λ is. is ≡ member_says (map (member_of a left) (map given_of list.now))
        (allows closed (map (λ k. k.now) claimed.now)) key.now (view value.now)) }
{
    match given_named(list, key) {
        Some(given) => values(t, left, &given.values, value),
        None => Ok(is_allowed(closed, claimed, key)),
    }
}

// Whether members are as they are given, with others or none, and those are there that have to be.
#[cycle(belongs)]
fn are_members<P: Patterns>(
    t: &Table<'_, P>,
    left: u64,
    list: &[Given<'_>],
    closed: bool,
    claimed: &[&str],
    members: &Map<String, Value>,
) -> Result<bool, AllocError>
    ensures { let a = asked t.now.types.now t.now.contract (P.reading t.now.patterns.now) in
        IfOk result (λ is. is ≡ are_members (map (member_of a left) (map given_of list.now))
        (allows closed (map (λ k. k.now) claimed.now)) (members_view members.now.entries)) }
{
    for (key, value) in members.iter() {
        if !one_member(t, left, list, closed, claimed, key.as_str(), value)? {
            return Ok(false);
        }
    }
    Ok(has_each(list, members))
}

/// Whether a value is a map of these members.
#[cycle(belongs)]
pub fn is_map_of<P: Patterns>(
    t: &Table<'_, P>,
    left: u64,
    list: &[Given<'_>],
    closed: bool,
    value: &Value,
) -> Result<bool, AllocError>
    ensures { let a = asked t.now.types.now t.now.contract (P.reading t.now.patterns.now) in
        IfOk result (λ is. is ≡ has_members (map (member_of a left) (map given_of list.now))
        (λ k. not closed) (view value.now)) }
{
    match value.as_object() {
        Some(members) => are_members(t, left, list, closed, &[], members),
        None => Ok(false),
    }
}

// Whether a value is a map of a member with a value of row `n`.
#[cycle(belongs)]
fn has_member<P: Patterns>(
    t: &Table<'_, P>,
    left: u64,
    name: &str,
    n: TypeNo,
    closed: bool,
    value: &Value,
) -> Result<bool, AllocError>
    ensures { let a = asked t.now.types.now t.now.contract (P.reading t.now.patterns.now) in
        IfOk result (λ is. is ≡ has_member name.now (has a left n) closed (view value.now)) }
{
    is_map_of(t, left, &[needed(name, n)], closed, value)
}

/// Whether a value is a map of the first member or of the second, and not of both.
#[cycle(belongs)]
pub fn one_of<P: Patterns>(
    t: &Table<'_, P>,
    left: u64,
    first: &str,
    one: TypeNo,
    second: &str,
    two: TypeNo,
    closed: bool,
    value: &Value,
) -> Result<bool, AllocError>
    ensures { let a = asked t.now.types.now t.now.contract (P.reading t.now.patterns.now) in
        IfOk result (λ is. is ≡ exactly_one (has_member first.now (has a left one) closed (view value.now)
        ∷ has_member second.now (has a left two) closed (view value.now) ∷ [])) }
{
    let is_first = has_member(t, left, first, one, closed, value)?;
    let is_second = has_member(t, left, second, two, closed, value)?;
    Ok(one_of_two(is_first, is_second))
}

/// Whether a value is a bound of a range: included, excluded or none.
#[cycle(belongs)]
pub fn bound<P: Patterns>(
    t: &Table<'_, P>,
    left: u64,
    n: TypeNo,
    value: &Value,
) -> Result<bool, AllocError>
    ensures { let a = asked t.now.types.now t.now.contract (P.reading t.now.patterns.now) in
        IfOk result (λ is. is ≡ has_shape_of a left (shape.bound n) (view value.now)) }
{
    let is_included = has_member(t, left, "Included", n, false, value)?;
    let is_excluded = has_member(t, left, "Excluded", n, false, value)?;
    let is_unbounded = is_text("Unbounded", value);
    Ok(one_of_three(is_included, is_excluded, is_unbounded))
}

/// Whether a value is a map with a start and an end.
#[cycle(belongs)]
pub fn range<P: Patterns>(
    t: &Table<'_, P>,
    left: u64,
    n: TypeNo,
    value: &Value,
) -> Result<bool, AllocError>
    ensures { let a = asked t.now.types.now t.now.contract (P.reading t.now.patterns.now) in
        IfOk result (λ is. is ≡ has_shape_of a left (shape.range n) (view value.now)) }
{
    let list = &[needed("start", n), needed("end", n)];
    is_map_of(t, left, list, false, value)
}

/// Whether a value is a map of keys that row `key` allows, with values of row `n`.
#[cycle(belongs)]
pub fn has_keys<P: Patterns>(
    t: &Table<'_, P>,
    left: u64,
    key: TypeNo,
    n: TypeNo,
    value: &Value,
) -> Result<bool, AllocError>
    ensures { let a = asked t.now.types.now t.now.contract (P.reading t.now.patterns.now) in
        IfOk result (λ is. is ≡ has_keys a.patterns (key_options a.rows key) (has a left n) (view value.now)) }
{
    let Some(members) = value.as_object() else {
        return Ok(false);
    };
    for (name, member) in members.iter() {
        if !is_key_allowed(t.types, t.patterns, key, name.as_str()) {
            return Ok(false);
        }
        if !row(t, left, n, member)? {
            return Ok(false);
        }
    }
    Ok(true)
}

/// Whether a value is a map of the given members and of fields, with enums among its members.
#[cycle(belongs)]
pub fn has_fields<P: Patterns>(
    t: &Table<'_, P>,
    left: u64,
    tags: &[Given<'_>],
    fields: &Fields,
    value: &Value,
) -> Result<bool, AllocError>
    ensures { let a = asked t.now.types.now t.now.contract (P.reading t.now.patterns.now) in
        IfOk result (λ is. is ≡ has_fields_of a left (map given_of tags.now) (fields_of fields.now) (view value.now)) }
{
    let Some(members) = value.as_object() else {
        return Ok(false);
    };
    let mut claimed = Vec::new(t.alloc);
    let enums = flattened_enums(t.alloc, t.types, &fields.flatten)?;
    let fits = each_enum(t, left, &enums, value, &mut claimed)?;
    if !fits {
        return Ok(false);
    }
    let list = field_members(t.alloc, t.types, t.contract, &*tags, &*fields)?;
    are_members(t, left, &list, fields.closed, &claimed, members)
}
