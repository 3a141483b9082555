//! The fields of a user-defined struct that hold the struct itself, in a box, an option, a list, a set
//! or a map. The struct's own row is named by its id, and reserved under its name if there is none.
#![tactic(auto, using(crate::proofs::OwnTypes::adding))]

ghost use Rattle.std.specs.Prelude.{◌≡◌, ◌++◌, ℕ, [], ◌∷◌, Some, IfErr, OnErr, OnOk, map};
ghost use Rattle.schemars_impls.specs.Words.{field_of, required_of, place_of, KeepsTo, RefusesAs, plain_field, FieldsAreKnown, Keeps, HasArrayOf, HasMapOf, HasOptionOf, HasSeqOf, HasSetOf, IsArrayOf, IsMapOf, IsOptionOf, IsReserved, IsSeqOf, IsSetOf};
ghost use Rattle.schemars_types.specs.declared.error.TypesError as TypesError;

use crate::fields::push_field;
use crate::law::JsonSchema;
use crate::rows::{array_of, map_of, option_of, reserve, seq_of, set_of};
use schemars_types::{Field, Required, Types, TypesError};
use std::alloc::Global;

/// Adds a field of the struct itself behind the others.
///
/// # Errors
///
/// `OutOfMemory`. The fields are then unchanged.
pub fn add_own(
    alloc: Global,
    types: &mut Types,
    fields: &mut Vec<Field>,
    name: &str,
    id: &str,
    called: &str,
    required: Required,
) -> Result<(), TypesError>
    ensures keeps { Keeps types.old types.new }
    ensures known { OnOk result (FieldsAreKnown types.old (map field_of fields.old.items)
        → FieldsAreKnown types.new (map field_of fields.new.items)) }
    ensures adds { OnOk result ((n : ℕ) × (place_of id.now types.new ≡ Some n)
        × (map field_of fields.new.items ≡ map field_of fields.old.items
        ++ plain_field name.now n (required_of required) ∷ [])) }
    ensures follows { OnOk result (KeepsTo (IsReserved id.now called.now) types.old types.new) }
    ensures unchanged { OnErr result (fields.new.items ≡ fields.old.items) }
    ensures memory { IfErr result (λ e. e ≡ TypesError.OutOfMemory) }
{
    let ty = reserve(alloc, types, id, called)?;
    push_field(alloc, fields, name, ty, required)?;
    Ok(())
}

/// Adds a field of an option of the struct behind the others.
///
/// # Errors
///
/// `OutOfMemory`. The fields are then unchanged.
pub fn add_option_of(
    alloc: Global,
    types: &mut Types,
    fields: &mut Vec<Field>,
    name: &str,
    id: &str,
    called: &str,
    required: Required,
) -> Result<(), TypesError>
    ensures keeps { Keeps types.old types.new }
    ensures known { OnOk result (FieldsAreKnown types.old (map field_of fields.old.items)
        → FieldsAreKnown types.new (map field_of fields.new.items)) }
    ensures adds { OnOk result ((n : ℕ) × (HasOptionOf id.now called.now types.old types.new n)
        × (map field_of fields.new.items ≡ map field_of fields.old.items
        ++ plain_field name.now n (required_of required) ∷ [])) }
    ensures follows { OnOk result (KeepsTo (IsOptionOf id.now called.now) types.old types.new) }
    ensures unchanged { OnErr result (fields.new.items ≡ fields.old.items) }
    ensures memory { IfErr result (λ e. e ≡ TypesError.OutOfMemory) }
{
    let ty = option_of(alloc, types, id, called)?;
    push_field(alloc, fields, name, ty, required)?;
    Ok(())
}

/// Adds a field of a list of the struct behind the others.
///
/// # Errors
///
/// `OutOfMemory`. The fields are then unchanged.
pub fn add_seq_of(
    alloc: Global,
    types: &mut Types,
    fields: &mut Vec<Field>,
    name: &str,
    id: &str,
    called: &str,
    required: Required,
) -> Result<(), TypesError>
    ensures keeps { Keeps types.old types.new }
    ensures known { OnOk result (FieldsAreKnown types.old (map field_of fields.old.items)
        → FieldsAreKnown types.new (map field_of fields.new.items)) }
    ensures adds { OnOk result ((n : ℕ) × (HasSeqOf id.now called.now types.old types.new n)
        × (map field_of fields.new.items ≡ map field_of fields.old.items
        ++ plain_field name.now n (required_of required) ∷ [])) }
    ensures follows { OnOk result (KeepsTo (IsSeqOf id.now called.now) types.old types.new) }
    ensures unchanged { OnErr result (fields.new.items ≡ fields.old.items) }
    ensures memory { IfErr result (λ e. e ≡ TypesError.OutOfMemory) }
{
    let ty = seq_of(alloc, types, id, called)?;
    push_field(alloc, fields, name, ty, required)?;
    Ok(())
}

/// Adds a field of a set of the struct behind the others.
///
/// # Errors
///
/// `OutOfMemory`. The fields are then unchanged.
pub fn add_set_of(
    alloc: Global,
    types: &mut Types,
    fields: &mut Vec<Field>,
    name: &str,
    id: &str,
    called: &str,
    required: Required,
) -> Result<(), TypesError>
    ensures keeps { Keeps types.old types.new }
    ensures known { OnOk result (FieldsAreKnown types.old (map field_of fields.old.items)
        → FieldsAreKnown types.new (map field_of fields.new.items)) }
    ensures adds { OnOk result ((n : ℕ) × (HasSetOf id.now called.now types.old types.new n)
        × (map field_of fields.new.items ≡ map field_of fields.old.items
        ++ plain_field name.now n (required_of required) ∷ [])) }
    ensures follows { OnOk result (KeepsTo (IsSetOf id.now called.now) types.old types.new) }
    ensures unchanged { OnErr result (fields.new.items ≡ fields.old.items) }
    ensures memory { IfErr result (λ e. e ≡ TypesError.OutOfMemory) }
{
    let ty = set_of(alloc, types, id, called)?;
    push_field(alloc, fields, name, ty, required)?;
    Ok(())
}

/// Adds a field of an array of so many values of the struct behind the others.
///
/// # Errors
///
/// `OutOfMemory`. The fields are then unchanged.
pub fn add_array_of(
    alloc: Global,
    types: &mut Types,
    fields: &mut Vec<Field>,
    name: &str,
    id: &str,
    called: &str,
    len: u64,
    required: Required,
) -> Result<(), TypesError>
    ensures keeps { Keeps types.old types.new }
    ensures known { OnOk result (FieldsAreKnown types.old (map field_of fields.old.items)
        → FieldsAreKnown types.new (map field_of fields.new.items)) }
    ensures adds { OnOk result ((n : ℕ)
        × (HasArrayOf len id.now called.now types.old types.new n)
        × (map field_of fields.new.items ≡ map field_of fields.old.items
        ++ plain_field name.now n (required_of required) ∷ [])) }
    ensures follows { OnOk result
        (KeepsTo (IsArrayOf len id.now called.now) types.old types.new) }
    ensures unchanged { OnErr result (fields.new.items ≡ fields.old.items) }
    ensures memory { IfErr result (λ e. e ≡ TypesError.OutOfMemory) }
{
    let ty = array_of(alloc, types, id, called, len)?;
    push_field(alloc, fields, name, ty, required)?;
    Ok(())
}

/// Registers `K`, and adds a field of a map from `K` to the struct behind the others.
///
/// # Errors
///
/// `OutOfMemory`, or what `register` returns. The fields are then unchanged.
pub fn add_map_of<K: JsonSchema>(
    alloc: Global,
    types: &mut Types,
    fields: &mut Vec<Field>,
    name: &str,
    id: &str,
    called: &str,
    required: Required,
) -> Result<(), TypesError>
    ensures keeps { Keeps types.old types.new }
    ensures known { OnOk result (FieldsAreKnown types.old (map field_of fields.old.items)
        → FieldsAreKnown types.new (map field_of fields.new.items)) }
    ensures adds { OnOk result ((n : ℕ)
        × (HasMapOf K.says id.now called.now types.old types.new n)
        × (map field_of fields.new.items ≡ map field_of fields.old.items
        ++ plain_field name.now n (required_of required) ∷ [])) }
    ensures follows { OnOk result (KeepsTo (IsMapOf K.says id.now called.now) types.old types.new) }
    ensures unchanged { OnErr result (fields.new.items ≡ fields.old.items) }
    ensures refused { IfErr result (RefusesAs (IsMapOf K.says id.now called.now) types.old) }
{
    let ty = map_of::<K>(alloc, types, id, called)?;
    push_field(alloc, fields, name, ty, required)?;
    Ok(())
}
