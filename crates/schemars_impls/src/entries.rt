//! The entries of user-defined types that have values of other types and no names for them.
#![tactic(auto, using(crate::proofs::OwnTypes::adding))]

ghost use Rattle.std.specs.Prelude.{◌≡◌, List, [], ◌∷◌, None, IfErr, IfOk, OnOk, false};
ghost use Rattle.schemars_impls.specs.Words.{entry_of, shape_of, without_notes, Row, unknown_in, IsMade, OfOne, IsIn, KeepsTo, RefusesAs, NumbersAreKnown, Keeps, RefusesNumbers};
ghost use Rattle.schemars_shapes.specs.Shape.{Shape as shape};

use crate::law::{JsonSchema, entry, register};
use schemars_types::{Shape, TypeEntry, TypeNo, Types, TypesError};
use std::alloc::Global;

/// Registers a type, and returns the entry of a struct that has one value of it and no name for it,
/// without notes.
///
/// # Errors
///
/// `OutOfMemory`, or what `register` returns.
pub fn newtype_entry<T: JsonSchema>(
    alloc: Global,
    types: &mut Types,
) -> Result<TypeEntry, TypesError>
    ensures keeps { Keeps types.old types.new }
    ensures known { IfOk result (λ e. unknown_in types.new (shape_of e.shape) ≡ None) }
    ensures value { IfOk result (λ e.
        IsMade (OfOne T.says.id (λ n. without_notes false (shape.newtype n))) types.new (entry_of e)) }
    ensures follows { OnOk result (KeepsTo (IsIn T.says) types.old types.new) }
    ensures refused { IfErr result (RefusesAs (IsIn T.says) types.old) }
{
    let n = register::<T>(alloc, types)?;
    Ok(entry(alloc, false, Shape::Newtype(n)))
}

/// Returns the entry of a struct that has one value of the type with this number and no name for it,
/// without notes.
///
/// # Errors
///
/// `UnknownType` if the table has no such row.
pub fn newtype_entry_of(alloc: Global, types: &Types, ty: TypeNo) -> Result<TypeEntry, TypesError>
    ensures value { IfOk result (λ e. entry_of e ≡ without_notes false (shape.newtype ty)) }
    ensures known { IfOk result (λ e. unknown_in types.now (shape_of e.shape) ≡ None) }
    ensures refused { IfErr result (RefusesNumbers types.now (ty ∷ [])) }
{
    if types.len() <= ty {
        return Err(TypesError::UnknownType(ty));
    }
    Ok(entry(alloc, false, Shape::Newtype(ty)))
}

/// Returns the entry of a struct that has one value of each of these types and no names for them,
/// without notes.
pub fn tuple_entry(alloc: Global, numbers: Vec<TypeNo>) -> TypeEntry
    ensures value { entry_of result ≡ without_notes false (shape.tuple numbers.items) }
    ensures known { (rows : List Row) → NumbersAreKnown rows numbers.items
        → unknown_in rows (shape_of result.shape) ≡ None }
{
    entry(alloc, false, Shape::Tuple(numbers))
}
