//! Maps.
ghost use Rattle.std.specs.Prelude.{◌≡◌, None, IfErr, IfOk, OnOk, string_bytes};
ghost use Rattle.schemars_impls.specs.Words.{cow_str_bytes, entry_of, shape_of, map_id, map_name, unknown_in, IsMade, Keeps, IsIn, KeepsTo, RefusesAs, map_row};

use crate::impls::tuple::parts::register_two;
use crate::law::{JsonSchema, entry};
use schemars_types::{Shape, TypeEntry, Types, TypesError};
use std::alloc::{AllocError, Global};
use std::borrow::CowStr;
use std::collections::{BTreeMap, HashMap};
use std::hash::{BuildHasher, Hash};

impl<K: Ord + JsonSchema, V: JsonSchema> JsonSchema for BTreeMap<K, V> {
    ghost says = { map_row K.says V.says };

    fn inline_schema() -> bool {
        true
    }

    fn schema_name(alloc: Global) -> Result<CowStr<'static>, AllocError> {
        map_name::<K, V>(alloc)
    }

    fn schema_id(alloc: Global) -> Result<CowStr<'static>, AllocError> {
        map_id::<K, V>(alloc)
    }

    fn json_schema(alloc: Global, types: &mut Types) -> Result<TypeEntry, TypesError> {
        map_entry::<K, V>(alloc, types)
    }
}

impl<K: Eq + Hash + JsonSchema, V: JsonSchema, S: BuildHasher> JsonSchema for HashMap<K, V, S> {
    ghost says = { map_row K.says V.says };

    fn inline_schema() -> bool {
        true
    }

    fn schema_name(alloc: Global) -> Result<CowStr<'static>, AllocError> {
        map_name::<K, V>(alloc)
    }

    fn schema_id(alloc: Global) -> Result<CowStr<'static>, AllocError> {
        map_id::<K, V>(alloc)
    }

    fn json_schema(alloc: Global, types: &mut Types) -> Result<TypeEntry, TypesError> {
        map_entry::<K, V>(alloc, types)
    }
}

/// Returns the name of maps from `K` to `V`, without that of the keys if they are texts.
pub(crate) fn map_name<K: JsonSchema, V: JsonSchema>(
    alloc: Global,
) -> Result<CowStr<'static>, AllocError>
    ensures { IfOk result (λ t. cow_str_bytes t ≡ map_name K.says.id K.says.name V.says.name) }
{
    let id = K::schema_id(alloc)?;
    let value = V::schema_name(alloc)?;
    if id.as_str() == "string" {
        return Ok(CowStr::Owned(format!(in alloc; "Map_of_{value}")?));
    }
    let key = K::schema_name(alloc)?;
    Ok(CowStr::Owned(format!(in alloc; "Map_from_{key}_to_{value}")?))
}

/// Returns the id of maps from `K` to `V`.
pub(crate) fn map_id<K: JsonSchema, V: JsonSchema>(
    alloc: Global,
) -> Result<CowStr<'static>, AllocError>
    ensures { IfOk result (λ t. cow_str_bytes t ≡ map_id K.says.id V.says.id) }
{
    let key = K::schema_id(alloc)?;
    let value = V::schema_id(alloc)?;
    if key.as_str() == "string" {
        return Ok(CowStr::Owned(format!(in alloc; "Map<{value}>")?));
    }
    Ok(CowStr::Owned(format!(in alloc; "Map<{key}, {value}>")?))
}

/// Returns the id of maps from `K` to the type with this id.
pub(crate) fn map_id_to<K: JsonSchema>(alloc: Global, value: &str) -> Result<String, AllocError>
    ensures { IfOk result (λ t. string_bytes t ≡ map_id K.says.id value.now) }
{
    let key = K::schema_id(alloc)?;
    if key.as_str() == "string" {
        return format!(in alloc; "Map<{value}>");
    }
    format!(in alloc; "Map<{key}, {value}>")
}

/// Returns the entry of maps from `K` to `V`, which are registered.
pub(crate) fn map_entry<K: JsonSchema, V: JsonSchema>(
    alloc: Global,
    types: &mut Types,
) -> Result<TypeEntry, TypesError>
    ensures keeps { Keeps types.old types.new }
    ensures known { IfOk result (λ e. unknown_in types.new (shape_of e.shape) ≡ None) }
    ensures made { IfOk result
        (λ e. IsMade (map_row K.says V.says).making types.new (entry_of e)) }
    ensures follows { OnOk result
        (KeepsTo (λ d. IsIn K.says d × IsIn V.says d) types.old types.new) }
    ensures refused { IfErr result (RefusesAs (λ d. IsIn K.says d × IsIn V.says d) types.old) }
{
    let (key, value) = register_two::<K, V>(alloc, types)?;
    Ok(entry(alloc, true, Shape::Map(key, value)))
}
