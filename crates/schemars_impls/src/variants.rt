//! The variants of a user-defined enum, which are added one after another.
#![tactic(auto, using(crate::proofs::OwnTypes::adding))]

ghost use Rattle.std.specs.Prelude.{◌≡◌, ◌++◌, List, [], ◌∷◌, None, Some, IfErr, OnErr, OnOk, false, map, option_map, string_bytes};
ghost use Rattle.schemars_impls.specs.Words.{bare_fields, entry_of, field_of, flattened_of, internal_payload_of, internal_variant_of, newtype_payload, no_payload, payload_of, shape_of, struct_payload, tuple_payload, variant_of, without_notes, Row, place_of, unknown_in, IsIn, KeepsTo, RefusesAs, bare_variant, fields_with, FieldsAreKnown, NumbersAreKnown, PartsAreKnown, VariantsAreKnown, Keeps, RefusesNumbers};
ghost use Rattle.schemars_shapes.specs.Shape.{Shape as shape, Tagging as tagging};

use crate::law::{JsonSchema, entry, register};
use schemars_types::{
    Adjacent, Field, Fields, Flattened, Internal, InternalPayload, InternalVariant, Payload, Shape,
    TypeEntry, TypeNo, Types, TypesError, Variant,
};
use serde_json::Map;
use std::alloc::{AllocError, Global};

/// Adds a variant without a payload behind the others.
///
/// # Errors
///
/// `AllocError`. The variants are then unchanged.
pub fn add_unit(alloc: Global, variants: &mut Vec<Variant>, name: &str) -> Result<(), AllocError>
    ensures adds { OnOk result (map variant_of variants.new.items
        ≡ map variant_of variants.old.items ++ bare_variant name.now no_payload ∷ []) }
    ensures known { OnOk result ((rows : List Row)
        → VariantsAreKnown rows (map variant_of variants.old.items)
        → VariantsAreKnown rows (map variant_of variants.new.items)) }
    ensures unchanged { OnErr result (variants.new.items ≡ variants.old.items) }
{
    push_variant(alloc, variants, name, Payload::Unit)?;
    Ok(())
}

/// Registers a type, and adds a variant that has a value of it behind the others.
///
/// # Errors
///
/// `OutOfMemory`, or what `register` returns. The variants are then unchanged.
pub fn add_newtype<T: JsonSchema>(
    alloc: Global,
    types: &mut Types,
    variants: &mut Vec<Variant>,
    name: &str,
) -> Result<(), TypesError>
    ensures keeps { Keeps types.old types.new }
    ensures known { OnOk result (VariantsAreKnown types.old (map variant_of variants.old.items)
        → VariantsAreKnown types.new (map variant_of variants.new.items)) }
    ensures adds { OnOk result (option_map (λ n. map variant_of variants.old.items
        ++ bare_variant name.now (newtype_payload n) ∷ []) (place_of T.says.id types.new)
        ≡ Some (map variant_of variants.new.items)) }
    ensures follows { OnOk result (KeepsTo (IsIn T.says) types.old types.new) }
    ensures unchanged { OnErr result (variants.new.items ≡ variants.old.items) }
    ensures refused { IfErr result (RefusesAs (IsIn T.says) types.old) }
{
    let ty = register::<T>(alloc, types)?;
    push_variant(alloc, variants, name, Payload::Newtype(ty))?;
    Ok(())
}

/// Adds a variant that has a value of the type with this number behind the others. An enum that is
/// inside itself adds its own number so, or that of a list of it.
///
/// # Errors
///
/// `OutOfMemory`, or `UnknownType` if the table has no such row. The variants are then unchanged.
pub fn add_newtype_of(
    alloc: Global,
    types: &Types,
    variants: &mut Vec<Variant>,
    name: &str,
    ty: TypeNo,
) -> Result<(), TypesError>
    ensures known { OnOk result (VariantsAreKnown types.now (map variant_of variants.old.items)
        → VariantsAreKnown types.now (map variant_of variants.new.items)) }
    ensures adds { OnOk result (map variant_of variants.new.items
        ≡ map variant_of variants.old.items ++ bare_variant name.now (newtype_payload ty) ∷ []) }
    ensures unchanged { OnErr result (variants.new.items ≡ variants.old.items) }
    ensures refused { IfErr result (RefusesNumbers types.now (ty ∷ [])) }
{
    if types.len() <= ty {
        return Err(TypesError::UnknownType(ty));
    }
    push_variant(alloc, variants, name, Payload::Newtype(ty))?;
    Ok(())
}

/// Adds a variant with these fields behind the others. A closed one allows no other keys.
///
/// # Errors
///
/// `AllocError`. The variants are then unchanged.
pub fn add_struct(
    alloc: Global,
    variants: &mut Vec<Variant>,
    name: &str,
    fields: Vec<Field>,
    closed: bool,
) -> Result<(), AllocError>
    ensures adds { OnOk result (map variant_of variants.new.items
        ≡ map variant_of variants.old.items ++ bare_variant name.now
        (struct_payload (bare_fields (map field_of fields.items) closed)) ∷ []) }
    ensures known { OnOk result ((rows : List Row)
        → FieldsAreKnown rows (map field_of fields.items)
        → VariantsAreKnown rows (map variant_of variants.old.items)
        → VariantsAreKnown rows (map variant_of variants.new.items)) }
    ensures unchanged { OnErr result (variants.new.items ≡ variants.old.items) }
{
    let fields = Fields {
        list: fields,
        flatten: Vec::new(alloc),
        closed,
    };
    push_variant(alloc, variants, name, Payload::Struct(fields))?;
    Ok(())
}

/// Adds a variant with these fields, and the members of these rows, behind the others.
///
/// # Errors
///
/// `AllocError`. The variants are then unchanged.
pub fn add_flat_struct(
    alloc: Global,
    variants: &mut Vec<Variant>,
    name: &str,
    fields: Vec<Field>,
    flatten: Vec<Flattened>,
    closed: bool,
) -> Result<(), AllocError>
    ensures adds { OnOk result (map variant_of variants.new.items
        ≡ map variant_of variants.old.items ++ bare_variant name.now (struct_payload
        (fields_with (map field_of fields.items) (map flattened_of flatten.items) closed)) ∷ []) }
    ensures known { OnOk result ((rows : List Row)
        → FieldsAreKnown rows (map field_of fields.items)
        → PartsAreKnown rows (map flattened_of flatten.items)
        → VariantsAreKnown rows (map variant_of variants.old.items)
        → VariantsAreKnown rows (map variant_of variants.new.items)) }
    ensures unchanged { OnErr result (variants.new.items ≡ variants.old.items) }
{
    let fields = Fields {
        list: fields,
        flatten,
        closed,
    };
    push_variant(alloc, variants, name, Payload::Struct(fields))?;
    Ok(())
}

/// Adds a variant with a list of one value of each of these types behind the others.
///
/// # Errors
///
/// `AllocError`. The variants are then unchanged.
pub fn add_tuple(
    alloc: Global,
    variants: &mut Vec<Variant>,
    name: &str,
    numbers: Vec<TypeNo>,
) -> Result<(), AllocError>
    ensures adds { OnOk result (map variant_of variants.new.items
        ≡ map variant_of variants.old.items
        ++ bare_variant name.now (tuple_payload numbers.items) ∷ []) }
    ensures known { OnOk result ((rows : List Row) → NumbersAreKnown rows numbers.items
        → VariantsAreKnown rows (map variant_of variants.old.items)
        → VariantsAreKnown rows (map variant_of variants.new.items)) }
    ensures unchanged { OnErr result (variants.new.items ≡ variants.old.items) }
{
    push_variant(alloc, variants, name, Payload::Tuple(numbers))?;
    Ok(())
}

/// Returns the entry of an enum whose variants are tagged by their names, without notes.
pub fn external_entry(alloc: Global, variants: Vec<Variant>) -> TypeEntry
    ensures value { entry_of result
        ≡ without_notes false (shape.enum tagging.by_name (map variant_of variants.items)) }
    ensures known { (rows : List Row) → VariantsAreKnown rows (map variant_of variants.items)
        → unknown_in rows (shape_of result.shape) ≡ None }
{
    entry(alloc, false, Shape::External(variants))
}

/// Returns the entry of an enum whose variants are not tagged, without notes.
pub fn untagged_entry(alloc: Global, variants: Vec<Variant>) -> TypeEntry
    ensures value { entry_of result
        ≡ without_notes false (shape.enum tagging.by_nothing (map variant_of variants.items)) }
    ensures known { (rows : List Row) → VariantsAreKnown rows (map variant_of variants.items)
        → unknown_in rows (shape_of result.shape) ≡ None }
{
    entry(alloc, false, Shape::Untagged(variants))
}

/// Returns the entry of an enum whose variants have their names under one key and what they have
/// under another, without notes.
pub fn adjacent_entry(
    alloc: Global,
    tag: String,
    content: String,
    closed: bool,
    variants: Vec<Variant>,
) -> TypeEntry
    ensures value { entry_of result ≡ without_notes false (shape.enum
        (tagging.by_tag_and_content (string_bytes tag) (string_bytes content) closed)
        (map variant_of variants.items)) }
    ensures known { (rows : List Row) → VariantsAreKnown rows (map variant_of variants.items)
        → unknown_in rows (shape_of result.shape) ≡ None }
{
    let adjacent = Adjacent {
        tag,
        content,
        closed,
        variants,
    };
    entry(alloc, false, Shape::Adjacent(adjacent))
}

// Adds a variant without notes.
fn push_variant(
    alloc: Global,
    variants: &mut Vec<Variant>,
    name: &str,
    payload: Payload,
) -> Result<(), AllocError>
    ensures adds { OnOk result (map variant_of variants.new.items
        ≡ map variant_of variants.old.items ++ bare_variant name.now (payload_of payload) ∷ []) }
    ensures unchanged { OnErr result (variants.new.items ≡ variants.old.items) }
{
    let variant = Variant {
        name: String::from_str(alloc, name)?,
        notes: Map::new(alloc),
        payload,
    };
    variants.push(variant)?;
    Ok(())
}

/// Adds a variant without a payload behind the others, in an enum that is tagged by a member.
///
/// # Errors
///
/// `AllocError`. The variants are then unchanged.
pub fn add_internal_unit(
    alloc: Global,
    variants: &mut Vec<InternalVariant>,
    name: &str,
) -> Result<(), AllocError>
    ensures adds { OnOk result (map internal_variant_of variants.new.items
        ≡ map internal_variant_of variants.old.items ++ bare_variant name.now no_payload ∷ []) }
    ensures known { OnOk result ((rows : List Row)
        → VariantsAreKnown rows (map internal_variant_of variants.old.items)
        → VariantsAreKnown rows (map internal_variant_of variants.new.items)) }
    ensures unchanged { OnErr result (variants.new.items ≡ variants.old.items) }
{
    push_internal(alloc, variants, name, InternalPayload::Unit)?;
    Ok(())
}

/// Registers a type, and adds a variant that has its members behind the others.
///
/// # Errors
///
/// `OutOfMemory`, or what `register` returns. The variants are then unchanged.
pub fn add_internal_newtype<T: JsonSchema>(
    alloc: Global,
    types: &mut Types,
    variants: &mut Vec<InternalVariant>,
    name: &str,
) -> Result<(), TypesError>
    ensures keeps { Keeps types.old types.new }
    ensures known { OnOk result
        (VariantsAreKnown types.old (map internal_variant_of variants.old.items)
        → VariantsAreKnown types.new (map internal_variant_of variants.new.items)) }
    ensures adds { OnOk result (option_map (λ n. map internal_variant_of variants.old.items
        ++ bare_variant name.now (newtype_payload n) ∷ []) (place_of T.says.id types.new)
        ≡ Some (map internal_variant_of variants.new.items)) }
    ensures follows { OnOk result (KeepsTo (IsIn T.says) types.old types.new) }
    ensures unchanged { OnErr result (variants.new.items ≡ variants.old.items) }
    ensures refused { IfErr result (RefusesAs (IsIn T.says) types.old) }
{
    let ty = register::<T>(alloc, types)?;
    push_internal(alloc, variants, name, InternalPayload::Newtype(ty))?;
    Ok(())
}

/// Adds a variant that has the members of the type with this number behind the others.
///
/// # Errors
///
/// `OutOfMemory`, or `UnknownType` if the table has no such row. The variants are then unchanged.
pub fn add_internal_newtype_of(
    alloc: Global,
    types: &Types,
    variants: &mut Vec<InternalVariant>,
    name: &str,
    ty: TypeNo,
) -> Result<(), TypesError>
    ensures known { OnOk result
        (VariantsAreKnown types.now (map internal_variant_of variants.old.items)
        → VariantsAreKnown types.now (map internal_variant_of variants.new.items)) }
    ensures adds { OnOk result (map internal_variant_of variants.new.items
        ≡ map internal_variant_of variants.old.items
        ++ bare_variant name.now (newtype_payload ty) ∷ []) }
    ensures unchanged { OnErr result (variants.new.items ≡ variants.old.items) }
    ensures refused { IfErr result (RefusesNumbers types.now (ty ∷ [])) }
{
    if types.len() <= ty {
        return Err(TypesError::UnknownType(ty));
    }
    push_internal(alloc, variants, name, InternalPayload::Newtype(ty))?;
    Ok(())
}

/// Adds a variant with these fields, and the members of these rows, behind the others.
///
/// # Errors
///
/// `AllocError`. The variants are then unchanged.
pub fn add_internal_flat_struct(
    alloc: Global,
    variants: &mut Vec<InternalVariant>,
    name: &str,
    fields: Vec<Field>,
    flatten: Vec<Flattened>,
    closed: bool,
) -> Result<(), AllocError>
    ensures adds { OnOk result (map internal_variant_of variants.new.items
        ≡ map internal_variant_of variants.old.items ++ bare_variant name.now (struct_payload
        (fields_with (map field_of fields.items) (map flattened_of flatten.items) closed)) ∷ []) }
    ensures known { OnOk result ((rows : List Row)
        → FieldsAreKnown rows (map field_of fields.items)
        → PartsAreKnown rows (map flattened_of flatten.items)
        → VariantsAreKnown rows (map internal_variant_of variants.old.items)
        → VariantsAreKnown rows (map internal_variant_of variants.new.items)) }
    ensures unchanged { OnErr result (variants.new.items ≡ variants.old.items) }
{
    let fields = Fields {
        list: fields,
        flatten,
        closed,
    };
    push_internal(alloc, variants, name, InternalPayload::Struct(fields))?;
    Ok(())
}

/// Adds a variant with these fields behind the others. A closed one allows no other keys.
///
/// # Errors
///
/// `AllocError`. The variants are then unchanged.
pub fn add_internal_struct(
    alloc: Global,
    variants: &mut Vec<InternalVariant>,
    name: &str,
    fields: Vec<Field>,
    closed: bool,
) -> Result<(), AllocError>
    ensures adds { OnOk result (map internal_variant_of variants.new.items
        ≡ map internal_variant_of variants.old.items ++ bare_variant name.now
        (struct_payload (bare_fields (map field_of fields.items) closed)) ∷ []) }
    ensures known { OnOk result ((rows : List Row)
        → FieldsAreKnown rows (map field_of fields.items)
        → VariantsAreKnown rows (map internal_variant_of variants.old.items)
        → VariantsAreKnown rows (map internal_variant_of variants.new.items)) }
    ensures unchanged { OnErr result (variants.new.items ≡ variants.old.items) }
{
    let fields = Fields {
        list: fields,
        flatten: Vec::new(alloc),
        closed,
    };
    push_internal(alloc, variants, name, InternalPayload::Struct(fields))?;
    Ok(())
}

/// Returns the entry of an enum whose variants have their names under a key among their members,
/// without notes. If it is closed, variants without a payload allow no other keys.
pub fn internal_entry(
    alloc: Global,
    tag: String,
    closed: bool,
    variants: Vec<InternalVariant>,
) -> TypeEntry
    ensures value { entry_of result ≡ without_notes false (shape.enum
        (tagging.by_tag (string_bytes tag) closed) (map internal_variant_of variants.items)) }
    ensures known { (rows : List Row)
        → VariantsAreKnown rows (map internal_variant_of variants.items)
        → unknown_in rows (shape_of result.shape) ≡ None }
{
    let internal = Internal {
        tag,
        closed,
        variants,
    };
    entry(alloc, false, Shape::Internal(internal))
}

// Adds a variant without notes.
fn push_internal(
    alloc: Global,
    variants: &mut Vec<InternalVariant>,
    name: &str,
    payload: InternalPayload,
) -> Result<(), AllocError>
    ensures adds { OnOk result (map internal_variant_of variants.new.items
        ≡ map internal_variant_of variants.old.items
        ++ bare_variant name.now (internal_payload_of payload) ∷ []) }
    ensures unchanged { OnErr result (variants.new.items ≡ variants.old.items) }
{
    let variant = InternalVariant {
        name: String::from_str(alloc, name)?,
        notes: Map::new(alloc),
        payload,
    };
    variants.push(variant)?;
    Ok(())
}
