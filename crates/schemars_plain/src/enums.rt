//! The enums that are flattened into a map, and the names that they put there.
ghost use Rattle.std.specs.Prelude.{◌≡◌, ◌↔◌, ◌++◌, map, IsTrue, IfOk, OnOk, option_map};
ghost use Rattle.schemars_plain.specs.Words.{fields_of, flattened_of, shape_of, variant_of, internal_payload_of, internal_variant_of, internal_view, enum, by_tag, payload_names, flattened_in, flattened_enums, part_enums, shape_enums, enums_within, without_options, expanded_fields, expanded_payload, expanded_variant, expanded_shape_in, all_payload_names, enum_names, enum_names_at, tag_names, HasNamesApart};

use crate::fields::{all_fields, field_names};
use crate::names::are_apart;
use crate::variants::variant_names;
use schemars_types::{
    Fields, Flattened, Internal, InternalPayload, InternalVariant, Shape, TypeNo, Types,
    without_options,
};
use std::alloc::{AllocError, Global};

/// Whether the names of the fields of a struct, of the tag beside them and of each enum that is
/// flattened into it are all different.
pub fn fields_apart<'t>(
    alloc: Global,
    types: &'t Types,
    tag: Option<&'t str>,
    fields: &'t Fields,
) -> Result<bool, AllocError>
    ensures { IfOk result (λ b. IsTrue b ↔ HasNamesApart (enum_names_at types.now)
        (tag_names (option_map (λ t. t.now) tag.entry))
        (expanded_fields (flattened_in types.now) (part_enums types.now) (fields_of fields.now))) }
{
    let own = all_fields(alloc, types, fields)?;
    let enums = flattened_enums(alloc, types, &fields.flatten)?;
    let mut others = tag_names(alloc, tag)?;
    add_enum_names(alloc, types, &enums, &mut others)?;
    Ok(are_apart(&own, &others))
}

fn tag_names<'t>(alloc: Global, tag: Option<&'t str>) -> Result<Vec<Vec<&'t str>>, AllocError>
    ensures { IfOk result (λ v. map (λ names. map (λ n. n.now) names.items) v.items
        ≡ tag_names (option_map (λ t. t.now) tag.entry)) }
{
    let mut lists = Vec::new(alloc);
    if let Some(tag) = tag {
        let mut names = Vec::new(alloc);
        names.push(tag)?;
        lists.push(names)?;
    }
    Ok(lists)
}

// Adds the names of each of these enums.
fn add_enum_names<'t>(
    alloc: Global,
    types: &'t Types,
    enums: &[TypeNo],
    lists: &mut Vec<Vec<&'t str>>,
) -> Result<(), AllocError>
    ensures { OnOk result (map (λ names. map (λ n. n.now) names.items) lists.new.items
        ≡ map (λ names. map (λ n. n.now) names.items) lists.old.items
        ++ map (enum_names_at types.now) enums.now) }
{
    for n in enums {
        lists.push(enum_names(alloc, types, *n)?)?;
    }
    Ok(())
}

// The names that row `n` puts into a map, if it is an enum.
fn enum_names<'t>(alloc: Global, types: &'t Types, n: TypeNo) -> Result<Vec<&'t str>, AllocError>
    ensures { IfOk result (λ v. map (λ n. n.now) v.items ≡ enum_names_at types.now n) }
{
    match types.entry(n) {
        Some(entry) => names_in(alloc, types, &entry.shape),
        None => Ok(Vec::new(alloc)),
    }
}

fn names_in<'t>(
    alloc: Global,
    types: &'t Types,
    shape: &'t Shape,
) -> Result<Vec<&'t str>, AllocError>
    ensures { IfOk result (λ v. map (λ n. n.now) v.items
        ≡ enum_names (expanded_shape_in types.now (shape_of shape.now))) }
{
    match shape {
        Shape::External(variants) => variant_names(alloc, variants),
        Shape::Internal(internal) => internal_names(alloc, types, internal),
        Shape::Struct(_) | Shape::Untagged(_) | Shape::Adjacent(_) => Ok(Vec::new(alloc)),
        Shape::Null | Shape::Bool | Shape::Int(_) | Shape::NonZero(_) => Ok(Vec::new(alloc)),
        Shape::Number | Shape::Text | Shape::Char | Shape::Formatted(_) => Ok(Vec::new(alloc)),
        Shape::Any | Shape::Bytes | Shape::SchemaItself | Shape::Literal(_) => Ok(Vec::new(alloc)),
        Shape::Option(_) | Shape::Newtype(_) | Shape::Seq(_) | Shape::Set(_) => Ok(Vec::new(alloc)),
        Shape::Array(..) | Shape::UpTo(..) | Shape::Tuple(_) => Ok(Vec::new(alloc)),
        Shape::Result(..) | Shape::Either(..) => Ok(Vec::new(alloc)),
        Shape::Bound(_) | Shape::Range(_) | Shape::Map(..) => Ok(Vec::new(alloc)),
    }
}

// The tag of an internally tagged enum, and the names of the fields of its variants.
fn internal_names<'t>(
    alloc: Global,
    types: &'t Types,
    internal: &'t Internal,
) -> Result<Vec<&'t str>, AllocError>
    ensures { IfOk result (λ v. map (λ n. n.now) v.items
        ≡ enum_names (expanded_shape_in types.now
        (enum (by_tag (internal_view internal.now).0 (internal_view internal.now).1)
        (internal_view internal.now).2))) }
{
    let mut names = Vec::new(alloc);
    names.push(internal.tag.as_str())?;
    add_variant_fields(alloc, types, &internal.variants, &mut names)?;
    Ok(names)
}

fn add_variant_fields<'t>(
    alloc: Global,
    types: &'t Types,
    variants: &'t [InternalVariant],
    names: &mut Vec<&'t str>,
) -> Result<(), AllocError>
    ensures { OnOk result (map (λ n. n.now) names.new.items ≡ map (λ n. n.now) names.old.items
        ++ all_payload_names (map (expanded_variant (flattened_in types.now) (part_enums types.now))
        (map internal_variant_of variants.now))) }
{
    for variant in variants {
        add_payload_fields(alloc, types, &variant.payload, names)?;
    }
    Ok(())
}

fn add_payload_fields<'t>(
    alloc: Global,
    types: &'t Types,
    payload: &'t InternalPayload,
    names: &mut Vec<&'t str>,
) -> Result<(), AllocError>
    ensures { OnOk result (map (λ n. n.now) names.new.items ≡ map (λ n. n.now) names.old.items
        ++ payload_names (expanded_payload (flattened_in types.now) (part_enums types.now)
        (internal_payload_of payload.now))) }
{
    match payload {
        InternalPayload::Struct(fields) => {
            let own = field_names(alloc, types, fields)?;
            names.extend_from_slice(&own)
        }
        InternalPayload::Unit | InternalPayload::Newtype(_) => Ok(()),
    }
}

/// The enums among the members of a map into which these rows are flattened.
pub fn flattened_enums(
    alloc: Global,
    types: &Types,
    parts: &[Flattened],
) -> Result<Vec<TypeNo>, AllocError>
    ensures { IfOk result (λ v. v.items
        ≡ flattened_enums (part_enums types.now) (map flattened_of parts.now)) }
{
    let mut found = Vec::new(alloc);
    add_enums(types, types.len(), parts, &mut found)?;
    Ok(found)
}

// Adds the enums among what is flattened, at most `steps` deep.
#[cycle(enums)]
fn add_enums(
    types: &Types,
    steps: usize,
    parts: &[Flattened],
    found: &mut Vec<TypeNo>,
) -> Result<(), AllocError>
    ensures { OnOk result (found.new.items ≡ found.old.items
        ++ flattened_enums (λ p. enums_within types.now steps (without_options types.now p.ty))
        (map flattened_of parts.now)) }
{
    for part in parts {
        add_row_enums(types, steps, without_options(types, part.ty), found)?;
    }
    Ok(())
}

// Adds row `n` if it is an enum, or the enums flattened into it, at most `steps` deep.
#[cycle(enums)]
fn add_row_enums(
    types: &Types,
    steps: usize,
    n: TypeNo,
    found: &mut Vec<TypeNo>,
) -> Result<(), AllocError>
    ensures { OnOk result (found.new.items ≡ found.old.items ++ enums_within types.now steps n) }
{
    if steps == 0 {
        return Ok(());
    }
    match types.entry(n) {
        Some(entry) => add_shape_enums(types, steps - 1, n, &entry.shape, found),
        None => Ok(()),
    }
}

#[cycle(enums)]
fn add_shape_enums(
    types: &Types,
    steps: usize,
    n: TypeNo,
    shape: &Shape,
    found: &mut Vec<TypeNo>,
) -> Result<(), AllocError>
    ensures { OnOk result (found.new.items ≡ found.old.items
        ++ shape_enums (λ p. enums_within types.now steps (without_options types.now p.ty)) n
        (shape_of shape.now)) }
{
    match shape {
        Shape::Struct(fields) => add_enums(types, steps, &fields.flatten, found),
        Shape::External(_) | Shape::Internal(_) => {
            found.push(n)?;
            Ok(())
        }
        Shape::Untagged(_) | Shape::Adjacent(_) => Ok(()),
        Shape::Null | Shape::Bool | Shape::Int(_) | Shape::NonZero(_) => Ok(()),
        Shape::Number | Shape::Text | Shape::Char | Shape::Formatted(_) => Ok(()),
        Shape::Any | Shape::Bytes | Shape::SchemaItself | Shape::Literal(_) => Ok(()),
        Shape::Option(_) | Shape::Newtype(_) | Shape::Seq(_) | Shape::Set(_) => Ok(()),
        Shape::Array(..) | Shape::UpTo(..) | Shape::Tuple(_) => Ok(()),
        Shape::Result(..) | Shape::Either(..) => Ok(()),
        Shape::Bound(_) | Shape::Range(_) | Shape::Map(..) => Ok(()),
    }
}
