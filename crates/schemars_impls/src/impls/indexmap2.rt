//! Maps and sets in the order of insertion.
ghost use Rattle.std.specs.Prelude.{true};
ghost use Rattle.schemars_types.specs.Names.{map_id, map_name, set_id, set_name};
ghost use Rattle.schemars_impls.specs.Containers.{map_row, set_row};

use crate::impls::maps::{map_entry, map_id, map_name};
use crate::impls::sequences::{set_entry, set_id, set_name};
use crate::law::JsonSchema;
use indexmap::{IndexMap, IndexSet};
use schemars_types::{TypeEntry, Types, TypesError};
use std::alloc::{AllocError, Global};
use std::borrow::CowStr;
use std::hash::{BuildHasher, Hash};

impl<K: Eq + Hash + JsonSchema, V: JsonSchema, S: BuildHasher> JsonSchema for IndexMap<K, V, S> {
    ghost says = { map_row K.says V.says };

    fn inline_schema() -> bool {
        true
    }

    fn schema_name(alloc: Global) -> Result<CowStr<'static>, AllocError> {
        map_name::<K, V>(alloc)
    }

    fn schema_id(alloc: Global) -> Result<CowStr<'static>, AllocError> {
        map_id::<K, V>(alloc)
    }

    fn json_schema(alloc: Global, types: &mut Types) -> Result<TypeEntry, TypesError> {
        map_entry::<K, V>(alloc, types)
    }
}

impl<T: Eq + Hash + JsonSchema, S: BuildHasher> JsonSchema for IndexSet<T, S> {
    ghost says = { set_row T.says };

    fn inline_schema() -> bool {
        true
    }

    fn schema_name(alloc: Global) -> Result<CowStr<'static>, AllocError> {
        set_name::<T>(alloc)
    }

    fn schema_id(alloc: Global) -> Result<CowStr<'static>, AllocError> {
        set_id::<T>(alloc)
    }

    fn json_schema(alloc: Global, types: &mut Types) -> Result<TypeEntry, TypesError> {
        set_entry::<T>(alloc, types)
    }
}
