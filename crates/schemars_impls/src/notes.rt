//! Annotations of a user-defined type, of its fields and of its variants, such as titles and
//! descriptions.
ghost use Rattle.std.specs.Prelude.{◌≡◌, List, OnErr, OnOk, map};
ghost use Rattle.schemars_impls.specs.Words.{view, entry_of, field_of, internal_variant_of, shape_of, variant_of, Row, FieldsAreKnown, VariantsAreKnown, at_last, noted_entry, noted_field, noted_variant};

use schemars_types::{Field, InternalVariant, TypeEntry, Variant};
use serde_json::{Value, put};
use std::alloc::{AllocError, Global};

/// Adds an annotation to the entry of a type. One with this name is replaced.
///
/// # Errors
///
/// `AllocError`. The entry is then unchanged.
pub fn note_entry(
    alloc: Global,
    entry: &mut TypeEntry,
    key: &str,
    value: Value,
) -> Result<(), AllocError>
    ensures noted { OnOk result
        (entry_of entry.new ≡ noted_entry key.now (view value) (entry_of entry.old)) }
    ensures shape { shape_of entry.new.shape ≡ shape_of entry.old.shape }
    ensures unchanged { OnErr result (entry_of entry.new ≡ entry_of entry.old) }
{
    put(&mut entry.notes, alloc, key, value)
}

/// Adds an annotation to the last field. One with this name is replaced. Where there is no field,
/// there is nothing to annotate.
///
/// # Errors
///
/// `AllocError`. The fields are then unchanged.
pub fn note_field(
    alloc: Global,
    fields: &mut Vec<Field>,
    key: &str,
    value: Value,
) -> Result<(), AllocError>
    ensures noted { OnOk result (map field_of fields.new.items
        ≡ at_last (noted_field key.now (view value)) (map field_of fields.old.items)) }
    ensures known { OnOk result ((rows : List Row)
        → FieldsAreKnown rows (map field_of fields.old.items)
        → FieldsAreKnown rows (map field_of fields.new.items)) }
    ensures unchanged { OnErr result
        (map field_of fields.new.items ≡ map field_of fields.old.items) }
{
    match fields.last_mut() {
        Some(field) => put(&mut field.notes, alloc, key, value),
        None => Ok(()),
    }
}

/// Adds an annotation to the last variant. One with this name is replaced. Where there is no
/// variant, there is nothing to annotate.
///
/// # Errors
///
/// `AllocError`. The variants are then unchanged.
pub fn note_variant(
    alloc: Global,
    variants: &mut Vec<Variant>,
    key: &str,
    value: Value,
) -> Result<(), AllocError>
    ensures noted { OnOk result (map variant_of variants.new.items
        ≡ at_last (noted_variant key.now (view value)) (map variant_of variants.old.items)) }
    ensures known { OnOk result ((rows : List Row)
        → VariantsAreKnown rows (map variant_of variants.old.items)
        → VariantsAreKnown rows (map variant_of variants.new.items)) }
    ensures unchanged { OnErr result
        (map variant_of variants.new.items ≡ map variant_of variants.old.items) }
{
    match variants.last_mut() {
        Some(variant) => put(&mut variant.notes, alloc, key, value),
        None => Ok(()),
    }
}

/// Adds an annotation to the last variant of an enum that is tagged by a member, as `note_variant`
/// does.
///
/// # Errors
///
/// `AllocError`. The variants are then unchanged.
pub fn note_internal_variant(
    alloc: Global,
    variants: &mut Vec<InternalVariant>,
    key: &str,
    value: Value,
) -> Result<(), AllocError>
    ensures noted { OnOk result (map internal_variant_of variants.new.items
        ≡ at_last (noted_variant key.now (view value))
        (map internal_variant_of variants.old.items)) }
    ensures known { OnOk result ((rows : List Row)
        → VariantsAreKnown rows (map internal_variant_of variants.old.items)
        → VariantsAreKnown rows (map internal_variant_of variants.new.items)) }
    ensures unchanged { OnErr result
        (map internal_variant_of variants.new.items ≡ map internal_variant_of variants.old.items) }
{
    match variants.last_mut() {
        Some(variant) => put(&mut variant.notes, alloc, key, value),
        None => Ok(()),
    }
}
