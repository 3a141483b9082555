//! Variants of enums.
ghost use Rattle.std.specs.Prelude.{◌≡◌, None, Some, IfOk, IfErr, option_map, map, codes};
ghost use Rattle.schemagen_shapes.specs.Words.{data_of, shape_of, no_payload, payload_of, variant_of, internal_payload_of, internal_variant_of, payload_named, payload_under, payload_in, variant_in, variants_in, adjacent_in, enum_in, external_in, untagged_in, payload_inside, variant_inside, internals_in, internal_variant_in, internal_in, optional_member};

use crate::error::InputError;
use crate::fields::fields_said;
use crate::members::{flag_in, items_under, notes_in, number_in, parts_in, text_in};
use schemagen_json::{BorrowedValue, lone_member};
use schemars_types::{
    Adjacent, Internal, InternalPayload, InternalVariant, Payload, Shape, Variant,
};
use std::alloc::Global;

/// The payload that a text says.
pub fn payload_named(name: &str) -> Option<Payload>
    ensures { option_map payload_of result ≡ payload_named name.now }
{
    match name {
        "unit" => Some(Payload::Unit),
        _ => None,
    }
}

// What an object with this one member says that a variant has beside its name.
fn payload_under(
    alloc: Global,
    name: &str,
    value: &BorrowedValue<'_>,
) -> Result<Payload, InputError>
    ensures ok { IfOk result
        (λ p. payload_under name.now (data_of value.now) ≡ Some (payload_of p)) }
    ensures bad { IfErr result
        (λ e. e ≡ InputError.BadTable → payload_under name.now (data_of value.now) ≡ None) }
{
    match name {
        "newtype" => match number_in(value) {
            Some(n) => Ok(Payload::Newtype(n)),
            None => Err(InputError::BadTable),
        },
        "tuple" => match parts_in(alloc, value)? {
            Some(parts) => Ok(Payload::Tuple(parts)),
            None => Err(InputError::BadTable),
        },
        "struct" => {
            let fields = fields_said(alloc, value)?;
            Ok(Payload::Struct(fields))
        }
        _ => Err(InputError::BadTable),
    }
}

fn payload_in(alloc: Global, value: &BorrowedValue<'_>) -> Result<Payload, InputError>
    ensures ok { IfOk result (λ p. payload_in (data_of value.now) ≡ Some (payload_of p)) }
    ensures bad { IfErr result
        (λ e. e ≡ InputError.BadTable → payload_in (data_of value.now) ≡ None) }
{
    match value {
        BorrowedValue::String(name) => payload_named(name).ok_or(InputError::BadTable),
        BorrowedValue::Object(members) => {
            let Some((name, part)) = lone_member(members) else {
                return Err(InputError::BadTable);
            };
            payload_under(alloc, name, part)
        }
        _ => Err(InputError::BadTable),
    }
}

// What a variant says under `payload`; where that is missing, it is a unit.
fn payload_said(alloc: Global, value: &BorrowedValue<'_>) -> Result<Payload, InputError>
    ensures ok { IfOk result (λ p. optional_member no_payload payload_in (codes "payload")
        (data_of value.now)
        ≡ Some (payload_of p)) }
    ensures bad { IfErr result (λ e. e ≡ InputError.BadTable
        → optional_member no_payload payload_in (codes "payload") (data_of value.now) ≡ None) }
{
    match value.get("payload") {
        None => Ok(Payload::Unit),
        Some(payload) => payload_in(alloc, payload),
    }
}

const VARIANT_KEYS: [&str; 3] = ["name", "notes", "payload"];

fn variant_in(alloc: Global, value: &BorrowedValue<'_>) -> Result<Variant, InputError>
    ensures ok { IfOk result (λ x. variant_in (data_of value.now) ≡ Some (variant_of x)) }
    ensures bad { IfErr result
        (λ e. e ≡ InputError.BadTable → variant_in (data_of value.now) ≡ None) }
{
    if !value.has_only(&VARIANT_KEYS) {
        return Err(InputError::BadTable);
    }
    let Some(name) = text_in(value, "name") else {
        return Err(InputError::BadTable);
    };
    let notes = notes_in(alloc, value)?;
    let payload = payload_said(alloc, value)?;
    let name = String::from_str(alloc, name)?;
    Ok(Variant {
        name,
        notes,
        payload,
    })
}

// The variants of an enum; there are none where they are missing.
fn variants_in(alloc: Global, value: &BorrowedValue<'_>) -> Result<Vec<Variant>, InputError>
    ensures ok { IfOk result (λ v. variants_in (data_of value.now)
        ≡ Some (map variant_of v.items)) }
    ensures bad { IfErr result (λ e. e ≡ InputError.BadTable
        → variants_in (data_of value.now) ≡ None) }
{
    let Some(items) = items_under(value, "variants") else {
        return Err(InputError::BadTable);
    };
    let mut variants = Vec::new(alloc);
    for item in items {
        let variant = variant_in(alloc, item)?;
        variants.push(variant)?;
    }
    Ok(variants)
}

// The variants of an enum of which nothing else is said.
fn enum_in(alloc: Global, value: &BorrowedValue<'_>) -> Result<Vec<Variant>, InputError>
    ensures ok { IfOk result (λ v. enum_in (data_of value.now) ≡ Some (map variant_of v.items)) }
    ensures bad { IfErr result (λ e. e ≡ InputError.BadTable → enum_in (data_of value.now) ≡ None) }
{
    if !value.has_only(&["variants"]) {
        return Err(InputError::BadTable);
    }
    variants_in(alloc, value)
}

/// An enum whose variants are tagged by their names.
pub fn external_in(alloc: Global, value: &BorrowedValue<'_>) -> Result<Shape, InputError>
    ensures ok { IfOk result (λ s. external_in (data_of value.now) ≡ Some (shape_of s)) }
    ensures bad { IfErr result (λ e. e ≡ InputError.BadTable
        → external_in (data_of value.now) ≡ None) }
{
    let variants = enum_in(alloc, value)?;
    Ok(Shape::External(variants))
}

/// An enum whose variants are tagged by nothing.
pub fn untagged_in(alloc: Global, value: &BorrowedValue<'_>) -> Result<Shape, InputError>
    ensures ok { IfOk result (λ s. untagged_in (data_of value.now) ≡ Some (shape_of s)) }
    ensures bad { IfErr result (λ e. e ≡ InputError.BadTable
        → untagged_in (data_of value.now) ≡ None) }
{
    let variants = enum_in(alloc, value)?;
    Ok(Shape::Untagged(variants))
}

fn payload_inside(payload: Payload) -> Option<InternalPayload>
    ensures { option_map internal_payload_of result ≡ payload_inside (payload_of payload) }
{
    match payload {
        Payload::Unit => Some(InternalPayload::Unit),
        Payload::Newtype(n) => Some(InternalPayload::Newtype(n)),
        Payload::Tuple(_) => None,
        Payload::Struct(fields) => Some(InternalPayload::Struct(fields)),
    }
}

/// A variant that has fields, the members of a row, or nothing beside its tag.
pub fn variant_inside(variant: Variant) -> Option<InternalVariant>
    ensures { option_map internal_variant_of result ≡ variant_inside (variant_of variant) }
{
    let Variant {
        name,
        notes,
        payload,
    } = variant;
    let payload = payload_inside(payload)?;
    Some(InternalVariant {
        name,
        notes,
        payload,
    })
}

fn internal_variant_in(
    alloc: Global,
    value: &BorrowedValue<'_>,
) -> Result<InternalVariant, InputError>
    ensures ok { IfOk result (λ x. internal_variant_in (data_of value.now)
        ≡ Some (internal_variant_of x)) }
    ensures bad { IfErr result
        (λ e. e ≡ InputError.BadTable → internal_variant_in (data_of value.now) ≡ None) }
{
    let variant = variant_in(alloc, value)?;
    variant_inside(variant).ok_or(InputError::BadTable)
}

// The variants beside a tag; there are none where they are missing.
fn internals_in(
    alloc: Global,
    value: &BorrowedValue<'_>,
) -> Result<Vec<InternalVariant>, InputError>
    ensures ok { IfOk result (λ v. internals_in (data_of value.now)
        ≡ Some (map internal_variant_of v.items)) }
    ensures bad { IfErr result (λ e. e ≡ InputError.BadTable
        → internals_in (data_of value.now) ≡ None) }
{
    let Some(items) = items_under(value, "variants") else {
        return Err(InputError::BadTable);
    };
    let mut variants = Vec::new(alloc);
    for item in items {
        let variant = internal_variant_in(alloc, item)?;
        variants.push(variant)?;
    }
    Ok(variants)
}

/// An enum whose variants are named by a member of their own maps.
pub fn internal_in(alloc: Global, value: &BorrowedValue<'_>) -> Result<Shape, InputError>
    ensures ok { IfOk result (λ s. internal_in (data_of value.now) ≡ Some (shape_of s)) }
    ensures bad { IfErr result (λ e. e ≡ InputError.BadTable
        → internal_in (data_of value.now) ≡ None) }
{
    if !value.has_only(&["tag", "closed", "variants"]) {
        return Err(InputError::BadTable);
    }
    let (Some(tag), Some(closed)) = (text_in(value, "tag"), flag_in(value, "closed")) else {
        return Err(InputError::BadTable);
    };
    let variants = internals_in(alloc, value)?;
    let tag = String::from_str(alloc, tag)?;
    Ok(Shape::Internal(Internal {
        tag,
        closed,
        variants,
    }))
}

const ADJACENT_KEYS: [&str; 4] = ["tag", "content", "closed", "variants"];

/// An enum whose variants have name and content under two keys.
pub fn adjacent_in(alloc: Global, value: &BorrowedValue<'_>) -> Result<Shape, InputError>
    ensures ok { IfOk result (λ s. adjacent_in (data_of value.now) ≡ Some (shape_of s)) }
    ensures bad { IfErr result (λ e. e ≡ InputError.BadTable
        → adjacent_in (data_of value.now) ≡ None) }
{
    if !value.has_only(&ADJACENT_KEYS) {
        return Err(InputError::BadTable);
    }
    let (Some(tag), Some(content)) = (text_in(value, "tag"), text_in(value, "content")) else {
        return Err(InputError::BadTable);
    };
    let Some(closed) = flag_in(value, "closed") else {
        return Err(InputError::BadTable);
    };
    let variants = variants_in(alloc, value)?;
    let tag = String::from_str(alloc, tag)?;
    let content = String::from_str(alloc, content)?;
    Ok(Shape::Adjacent(Adjacent {
        tag,
        content,
        closed,
        variants,
    }))
}
