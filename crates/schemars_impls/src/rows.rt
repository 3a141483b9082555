//! Rows that a type of one's own is made of besides those of other types: its own, and those of
//! options, lists, sets, arrays and maps of it. A type that is inside itself names them so, since it
//! cannot register itself.
#![tactic(auto, using(crate::proofs::OwnTypes::adding))]

ghost use Rattle.std.specs.Prelude.{◌≡◌, ◌++◌, Some, IfErr, IfOk, OnErr, OnOk, string_bytes};
ghost use Rattle.schemars_types.specs.declared.error.TypesError as TypesError;
ghost use Rattle.schemars_impls.specs.Words.{in_place, array_id, map_id, map_name, name_at, place_of, reserved, KeepsTo, RefusesAs, Keeps, HasArrayOf, HasMapOf, HasOptionOf, HasRowOf, HasSeqOf, HasSetOf, IsArrayOf, IsMapOf, IsNumber, IsOptionOf, IsReserved, IsSeqOf, IsSetOf};
ghost use Rattle.schemars_shapes.specs.Shape.{Shape as shape};

use crate::impls::maps::map_id_to;
use crate::law::{JsonSchema, register};
use schemars_types::{TypeNo, Types, TypesError};
use std::alloc::{AllocError, Global};

/// Returns the number of the row with this id. If there is none, a row with this id and name is
/// added, which is not defined. A type that is inside itself gets its own number so, and two types
/// that are inside each other get that of one another.
///
/// # Errors
///
/// `OutOfMemory`; the table is then unchanged.
pub fn reserve(alloc: Global, types: &mut Types, id: &str, name: &str) -> Result<TypeNo, TypesError>
    ensures keeps { Keeps types.old types.new }
    ensures reserves { OnOk result (types.new ≡ reserved id.now name.now types.old) }
    ensures number { IfOk result (λ n. place_of id.now types.new ≡ Some n) }
    ensures known { IfOk result (IsNumber types.new) }
    ensures follows { OnOk result (KeepsTo (IsReserved id.now name.now) types.old types.new) }
    ensures unchanged { OnErr result (types.new ≡ types.old) }
    ensures memory { IfErr result (λ e. e ≡ TypesError.OutOfMemory) }
{
    let id = String::from_str(alloc, id)?;
    types.reserve(id, String::from_str(alloc, name)?)
}

/// Returns the number of the type of null and the values of the type with this id, whose row is
/// reserved under this name if there is none. A row that is there stays as it is, also if it is not
/// defined yet.
///
/// # Errors
///
/// `OutOfMemory`. A row that was reserved stays.
pub fn option_of(
    alloc: Global,
    types: &mut Types,
    id: &str,
    name: &str,
) -> Result<TypeNo, TypesError>
    ensures keeps { Keeps types.old types.new }
    ensures has { IfOk result (HasOptionOf id.now name.now types.old types.new) }
    ensures known { IfOk result (IsNumber types.new) }
    ensures follows { OnOk result (KeepsTo (IsOptionOf id.now name.now) types.old types.new) }
    ensures memory { IfErr result (λ e. e ≡ TypesError.OutOfMemory) }
{
    let n = reserve(alloc, types, id, name)?;
    let made = format!(in alloc; "Option<{id}>")?;
    if let Some(there) = types.find(made.as_str()) {
        return Ok(there);
    }
    let number = types.option(alloc, n)?;
    Ok(number)
}

/// Returns the number of the type of lists of values of the type with this id, as `option_of` does.
///
/// # Errors
///
/// `OutOfMemory`. A row that was reserved stays.
pub fn seq_of(alloc: Global, types: &mut Types, id: &str, name: &str) -> Result<TypeNo, TypesError>
    ensures keeps { Keeps types.old types.new }
    ensures has { IfOk result (HasSeqOf id.now name.now types.old types.new) }
    ensures known { IfOk result (IsNumber types.new) }
    ensures follows { OnOk result (KeepsTo (IsSeqOf id.now name.now) types.old types.new) }
    ensures memory { IfErr result (λ e. e ≡ TypesError.OutOfMemory) }
{
    let n = reserve(alloc, types, id, name)?;
    let made = format!(in alloc; "[{id}]")?;
    if let Some(there) = types.find(made.as_str()) {
        return Ok(there);
    }
    let number = types.seq(alloc, n)?;
    Ok(number)
}

/// Returns the number of the type of sets of values of the type with this id, as `option_of` does.
///
/// # Errors
///
/// `OutOfMemory`. A row that was reserved stays.
pub fn set_of(alloc: Global, types: &mut Types, id: &str, name: &str) -> Result<TypeNo, TypesError>
    ensures keeps { Keeps types.old types.new }
    ensures has { IfOk result (HasSetOf id.now name.now types.old types.new) }
    ensures known { IfOk result (IsNumber types.new) }
    ensures follows { OnOk result (KeepsTo (IsSetOf id.now name.now) types.old types.new) }
    ensures memory { IfErr result (λ e. e ≡ TypesError.OutOfMemory) }
{
    let n = reserve(alloc, types, id, name)?;
    let made = format!(in alloc; "Set<{id}>")?;
    if let Some(there) = types.find(made.as_str()) {
        return Ok(there);
    }
    let number = types.set(alloc, n)?;
    Ok(number)
}

/// Returns the number of the type of lists of exactly `len` values of the type with this id, as
/// `option_of` does. If `len` is 0 it is the type of empty lists.
///
/// # Errors
///
/// `OutOfMemory`. A row that was reserved stays.
pub fn array_of(
    alloc: Global,
    types: &mut Types,
    id: &str,
    name: &str,
    len: u64,
) -> Result<TypeNo, TypesError>
    ensures keeps { Keeps types.old types.new }
    ensures has { IfOk result (HasArrayOf len id.now name.now types.old types.new) }
    ensures known { IfOk result (IsNumber types.new) }
    ensures follows { OnOk result (KeepsTo (IsArrayOf len id.now name.now) types.old types.new) }
    ensures memory { IfErr result (λ e. e ≡ TypesError.OutOfMemory) }
{
    let n = reserve(alloc, types, id, name)?;
    let made = array_id(alloc, id, len)?;
    if let Some(there) = types.find(made.as_str()) {
        return Ok(there);
    }
    let number = types.array(alloc, n, len)?;
    Ok(number)
}

/// Returns the number of the type of maps from `K` to the type with this id, as `option_of` does. `K`
/// is registered first.
///
/// # Errors
///
/// `OutOfMemory`, or what `register` returns. Rows that were added stay.
pub fn map_of<K: JsonSchema>(
    alloc: Global,
    types: &mut Types,
    id: &str,
    name: &str,
) -> Result<TypeNo, TypesError>
    ensures keeps { Keeps types.old types.new }
    ensures has { IfOk result (HasMapOf K.says id.now name.now types.old types.new) }
    ensures known { IfOk result (IsNumber types.new) }
    ensures follows { OnOk result (KeepsTo (IsMapOf K.says id.now name.now) types.old types.new) }
    ensures refused { IfErr result (RefusesAs (IsMapOf K.says id.now name.now) types.old) }
{
    let key = register::<K>(alloc, types)?;
    let number = map_from::<K>(alloc, types, key, id, name)?;
    Ok(number)
}

// The number of the type of maps from `K`, which has this number, to the type with this id.
fn map_from<K: JsonSchema>(
    alloc: Global,
    types: &mut Types,
    key: TypeNo,
    id: &str,
    name: &str,
) -> Result<TypeNo, TypesError>
    requires { place_of K.says.id types.old ≡ Some key }
    ensures has { IfOk result (HasRowOf id.now name.now (map_id K.says.id id.now)
        (λ x. map_name K.says.id (name_at (reserved id.now name.now types.old) key) x)
        (λ k. in_place (shape.map_from key k)) types.old types.new) }
    ensures keeps { Keeps types.old types.new }
    ensures memory { IfErr result (λ e. e ≡ TypesError.OutOfMemory) }
{
    let n = reserve(alloc, types, id, name)?;
    let made = map_id_to::<K>(alloc, id)?;
    if let Some(there) = types.find(made.as_str()) {
        return Ok(there);
    }
    let number = types.map(alloc, key, n)?;
    Ok(number)
}

// The id of lists of so many values of the type with this id.
fn array_id(alloc: Global, id: &str, len: u64) -> Result<String, AllocError>
    ensures { IfOk result (λ t. string_bytes t ≡ array_id id.now len) }
{
    if len == 0 {
        return String::from_str(alloc, "[]");
    }
    format!(in alloc; "[{len}; {id}]")
}
