//! The fields of a user-defined struct, which are added one after another.
ghost use Rattle.std.specs.Prelude.{◌≡◌, ◌++◌, List, [], ◌∷◌, None, Some, IfErr, OnErr, OnOk, false, map, option_map};
ghost use Rattle.schemars_impls.specs.Words.{bare_fields, entry_of, field_of, flattened_of, required_of, shape_of, without_notes, Row, place_of, unknown_in, IsIn, KeepsTo, RefusesAs, fields_with, part, plain_field, FieldsAreKnown, PartsAreKnown, Keeps, RefusesNumbers};
ghost use Rattle.schemars_shapes.specs.Shape.{Shape as shape};

use crate::law::{JsonSchema, entry, register};
use schemars_types::{
    Field, Fields, Flattened, Required, Shape, TypeEntry, TypeNo, Types, TypesError,
};
use serde_json::Map;
use std::alloc::{AllocError, Global};

/// A field that has to be there.
pub const REQUIRED: Required = Required {
    deserialize: true,
    serialize: true,
};

/// A field that is always written and may be missing where it is read, as an `Option` is.
pub const READ_OPTIONAL: Required = Required {
    deserialize: false,
    serialize: true,
};

/// A field that may be missing.
pub const OPTIONAL: Required = Required {
    deserialize: false,
    serialize: false,
};

/// Registers a type, and adds a field of it behind the others.
///
/// # Errors
///
/// `OutOfMemory`, or what `register` returns. The fields are then unchanged.
#[tactic(auto, using(crate::proofs::OwnTypes::adding))]
pub fn add_field<T: JsonSchema>(
    alloc: Global,
    types: &mut Types,
    fields: &mut Vec<Field>,
    name: &str,
    required: Required,
) -> Result<(), TypesError>
    ensures keeps { Keeps types.old types.new }
    ensures known { OnOk result (FieldsAreKnown types.old (map field_of fields.old.items)
        → FieldsAreKnown types.new (map field_of fields.new.items)) }
    ensures adds { OnOk result (option_map (λ n. map field_of fields.old.items
        ++ plain_field name.now n (required_of required) ∷ []) (place_of T.says.id types.new)
        ≡ Some (map field_of fields.new.items)) }
    ensures follows { OnOk result (KeepsTo (IsIn T.says) types.old types.new) }
    ensures unchanged { OnErr result (fields.new.items ≡ fields.old.items) }
    ensures refused { IfErr result (RefusesAs (IsIn T.says) types.old) }
{
    let ty = register::<T>(alloc, types)?;
    push_field(alloc, fields, name, ty, required)?;
    Ok(())
}

/// Adds a field of the type with this number behind the others. A type that is inside itself adds
/// its own number so, or that of an option or a list of it, since it cannot register itself.
///
/// # Errors
///
/// `OutOfMemory`, or `UnknownType` if the table has no such row. The fields are then unchanged.
#[tactic(auto, using(crate::proofs::OwnTypes::adding))]
pub fn add_field_of(
    alloc: Global,
    types: &Types,
    fields: &mut Vec<Field>,
    name: &str,
    ty: TypeNo,
    required: Required,
) -> Result<(), TypesError>
    ensures known { OnOk result (FieldsAreKnown types.now (map field_of fields.old.items)
        → FieldsAreKnown types.now (map field_of fields.new.items)) }
    ensures adds { OnOk result (map field_of fields.new.items
        ≡ map field_of fields.old.items ++ plain_field name.now ty (required_of required) ∷ []) }
    ensures unchanged { OnErr result (fields.new.items ≡ fields.old.items) }
    ensures refused { IfErr result (RefusesNumbers types.now (ty ∷ [])) }
{
    if types.len() <= ty {
        return Err(TypesError::UnknownType(ty));
    }
    push_field(alloc, fields, name, ty, required)?;
    Ok(())
}

/// Returns the entry of a struct with these fields, without notes. A closed one allows no other
/// keys.
pub fn struct_entry(alloc: Global, fields: Vec<Field>, closed: bool) -> TypeEntry
    ensures value { entry_of result
        ≡ without_notes false (shape.struct (bare_fields (map field_of fields.items) closed)) }
    ensures known { (rows : List Row) → FieldsAreKnown rows (map field_of fields.items)
        → unknown_in rows (shape_of result.shape) ≡ None }
{
    let fields = Fields {
        list: fields,
        flatten: Vec::new(alloc),
        closed,
    };
    entry(alloc, false, Shape::Struct(fields))
}

/// Registers a type whose members are those of the struct, and adds it behind the others.
///
/// # Errors
///
/// `OutOfMemory`, or what `register` returns. The list is then unchanged.
#[tactic(auto, using(crate::proofs::OwnTypes::adding))]
pub fn add_flattened<T: JsonSchema>(
    alloc: Global,
    types: &mut Types,
    flatten: &mut Vec<Flattened>,
    required: Required,
) -> Result<(), TypesError>
    ensures keeps { Keeps types.old types.new }
    ensures known { OnOk result (PartsAreKnown types.old (map flattened_of flatten.old.items)
        → PartsAreKnown types.new (map flattened_of flatten.new.items)) }
    ensures adds { OnOk result (option_map (λ n. map flattened_of flatten.old.items
        ++ part n (required_of required) ∷ []) (place_of T.says.id types.new)
        ≡ Some (map flattened_of flatten.new.items)) }
    ensures follows { OnOk result (KeepsTo (IsIn T.says) types.old types.new) }
    ensures unchanged { OnErr result (flatten.new.items ≡ flatten.old.items) }
    ensures refused { IfErr result (RefusesAs (IsIn T.says) types.old) }
{
    let ty = register::<T>(alloc, types)?;
    push_part(flatten, ty, required)?;
    Ok(())
}

/// Returns the entry of a struct with these fields, and the members of these rows, without notes.
#[tactic(auto, using(crate::proofs::OwnTypes::flat_known))]
pub fn flat_entry(
    alloc: Global,
    fields: Vec<Field>,
    flatten: Vec<Flattened>,
    closed: bool,
) -> TypeEntry
    ensures value { entry_of result ≡ without_notes false (shape.struct (fields_with
        (map field_of fields.items) (map flattened_of flatten.items) closed)) }
    ensures known { (rows : List Row) → FieldsAreKnown rows (map field_of fields.items)
        → PartsAreKnown rows (map flattened_of flatten.items)
        → unknown_in rows (shape_of result.shape) ≡ None }
{
    let fields = Fields {
        list: fields,
        flatten,
        closed,
    };
    entry(alloc, false, Shape::Struct(fields))
}

/// Adds a field without notes.
pub(crate) fn push_field(
    alloc: Global,
    fields: &mut Vec<Field>,
    name: &str,
    ty: TypeNo,
    required: Required,
) -> Result<(), AllocError>
    ensures adds { OnOk result (map field_of fields.new.items
        ≡ map field_of fields.old.items ++ plain_field name.now ty (required_of required) ∷ []) }
    ensures unchanged { OnErr result (fields.new.items ≡ fields.old.items) }
{
    let field = Field {
        name: String::from_str(alloc, name)?,
        ty,
        required,
        notes: Map::new(alloc),
    };
    fields.push(field)?;
    Ok(())
}

// Adds a flattened row.
fn push_part(flatten: &mut Vec<Flattened>, ty: TypeNo, required: Required) -> Result<(), AllocError>
    ensures adds { OnOk result (map flattened_of flatten.new.items
        ≡ map flattened_of flatten.old.items ++ part ty (required_of required) ∷ []) }
    ensures unchanged { OnErr result (flatten.new.items ≡ flatten.old.items) }
{
    flatten.push(Flattened { ty, required })?;
    Ok(())
}
