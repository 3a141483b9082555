//! Lists that are short as a rule.
ghost use Rattle.schemars_impls.specs.Containers.{seq_row};

use crate::law::JsonSchema;
use schemars_types::{TypeEntry, Types, TypesError};
use smallvec::SmallVec;
use std::alloc::{AllocError, Global};
use std::borrow::CowStr;

/// The same as `Vec`.
impl<T: JsonSchema, const N: usize> JsonSchema for SmallVec<T, N> {
    ghost says = { seq_row T.says };

    fn inline_schema() -> bool {
        Vec::<T>::inline_schema()
    }

    fn schema_name(alloc: Global) -> Result<CowStr<'static>, AllocError> {
        Vec::<T>::schema_name(alloc)
    }

    fn schema_id(alloc: Global) -> Result<CowStr<'static>, AllocError> {
        Vec::<T>::schema_id(alloc)
    }

    fn json_schema(alloc: Global, types: &mut Types) -> Result<TypeEntry, TypesError> {
        Vec::<T>::json_schema(alloc, types)
    }
}
