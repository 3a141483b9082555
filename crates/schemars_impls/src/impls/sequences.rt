//! Lists and sets.
ghost use Rattle.schemars_impls.specs.Words.{seq_row, set_row, cow_str_bytes, entry_of, shape_of, set_id, set_name, unknown_in, IsMade, Keeps, IsIn, KeepsTo, RefusesAs};
ghost use Rattle.std.specs.Prelude.{◌≡◌, None, IfErr, IfOk, OnOk};

use crate::law::{JsonSchema, entry, register};
use schemars_types::{Shape, TypeEntry, Types, TypesError};
use std::alloc::{AllocError, Global};
use std::borrow::CowStr;
use std::collections::{BTreeSet, BinaryHeap, HashSet, LinkedList, VecDeque};
use std::hash::{BuildHasher, Hash};

impl<T: JsonSchema> JsonSchema for Vec<T> {
    ghost says = { seq_row T.says };

    fn inline_schema() -> bool {
        true
    }

    fn schema_name(alloc: Global) -> Result<CowStr<'static>, AllocError> {
        let name = T::schema_name(alloc)?;
        Ok(CowStr::Owned(format!(in alloc; "Array_of_{name}")?))
    }

    fn schema_id(alloc: Global) -> Result<CowStr<'static>, AllocError> {
        let id = T::schema_id(alloc)?;
        Ok(CowStr::Owned(format!(in alloc; "[{id}]")?))
    }

    fn json_schema(alloc: Global, types: &mut Types) -> Result<TypeEntry, TypesError> {
        let n = register::<T>(alloc, types)?;
        Ok(entry(alloc, true, Shape::Seq(n)))
    }
}

/// The same as `Vec`.
impl<T: JsonSchema> JsonSchema for VecDeque<T> {
    ghost says = { seq_row T.says };

    fn inline_schema() -> bool {
        Vec::<T>::inline_schema()
    }

    fn schema_name(alloc: Global) -> Result<CowStr<'static>, AllocError> {
        Vec::<T>::schema_name(alloc)
    }

    fn schema_id(alloc: Global) -> Result<CowStr<'static>, AllocError> {
        Vec::<T>::schema_id(alloc)
    }

    fn json_schema(alloc: Global, types: &mut Types) -> Result<TypeEntry, TypesError> {
        Vec::<T>::json_schema(alloc, types)
    }
}

/// The same as `Vec`.
impl<T: JsonSchema> JsonSchema for LinkedList<T> {
    ghost says = { seq_row T.says };

    fn inline_schema() -> bool {
        Vec::<T>::inline_schema()
    }

    fn schema_name(alloc: Global) -> Result<CowStr<'static>, AllocError> {
        Vec::<T>::schema_name(alloc)
    }

    fn schema_id(alloc: Global) -> Result<CowStr<'static>, AllocError> {
        Vec::<T>::schema_id(alloc)
    }

    fn json_schema(alloc: Global, types: &mut Types) -> Result<TypeEntry, TypesError> {
        Vec::<T>::json_schema(alloc, types)
    }
}

/// The same as `Vec`.
impl<T: Ord + JsonSchema> JsonSchema for BinaryHeap<T> {
    ghost says = { seq_row T.says };

    fn inline_schema() -> bool {
        Vec::<T>::inline_schema()
    }

    fn schema_name(alloc: Global) -> Result<CowStr<'static>, AllocError> {
        Vec::<T>::schema_name(alloc)
    }

    fn schema_id(alloc: Global) -> Result<CowStr<'static>, AllocError> {
        Vec::<T>::schema_id(alloc)
    }

    fn json_schema(alloc: Global, types: &mut Types) -> Result<TypeEntry, TypesError> {
        Vec::<T>::json_schema(alloc, types)
    }
}

impl<T: Ord + JsonSchema> JsonSchema for BTreeSet<T> {
    ghost says = { set_row T.says };

    fn inline_schema() -> bool {
        true
    }

    fn schema_name(alloc: Global) -> Result<CowStr<'static>, AllocError> {
        set_name::<T>(alloc)
    }

    fn schema_id(alloc: Global) -> Result<CowStr<'static>, AllocError> {
        set_id::<T>(alloc)
    }

    fn json_schema(alloc: Global, types: &mut Types) -> Result<TypeEntry, TypesError> {
        set_entry::<T>(alloc, types)
    }
}

impl<T: Eq + Hash + JsonSchema, S: BuildHasher> JsonSchema for HashSet<T, S> {
    ghost says = { set_row T.says };

    fn inline_schema() -> bool {
        true
    }

    fn schema_name(alloc: Global) -> Result<CowStr<'static>, AllocError> {
        set_name::<T>(alloc)
    }

    fn schema_id(alloc: Global) -> Result<CowStr<'static>, AllocError> {
        set_id::<T>(alloc)
    }

    fn json_schema(alloc: Global, types: &mut Types) -> Result<TypeEntry, TypesError> {
        set_entry::<T>(alloc, types)
    }
}

/// Returns the name of sets of `T`.
pub(crate) fn set_name<T: JsonSchema>(alloc: Global) -> Result<CowStr<'static>, AllocError>
    ensures { IfOk result (λ t. cow_str_bytes t ≡ set_name T.says.name) }
{
    let name = T::schema_name(alloc)?;
    Ok(CowStr::Owned(format!(in alloc; "Set_of_{name}")?))
}

/// Returns the id of sets of `T`.
pub(crate) fn set_id<T: JsonSchema>(alloc: Global) -> Result<CowStr<'static>, AllocError>
    ensures { IfOk result (λ t. cow_str_bytes t ≡ set_id T.says.id) }
{
    let id = T::schema_id(alloc)?;
    Ok(CowStr::Owned(format!(in alloc; "Set<{id}>")?))
}

/// Returns the entry of sets of `T`, which is registered.
pub(crate) fn set_entry<T: JsonSchema>(
    alloc: Global,
    types: &mut Types,
) -> Result<TypeEntry, TypesError>
    ensures keeps { Keeps types.old types.new }
    ensures known { IfOk result (λ e. unknown_in types.new (shape_of e.shape) ≡ None) }
    ensures made { IfOk result
        (λ e. IsMade (set_row T.says).making types.new (entry_of e)) }
    ensures follows { OnOk result (KeepsTo (IsIn T.says) types.old types.new) }
    ensures refused { IfErr result (RefusesAs (IsIn T.says) types.old) }
{
    let n = register::<T>(alloc, types)?;
    Ok(entry(alloc, true, Shape::Set(n)))
}
