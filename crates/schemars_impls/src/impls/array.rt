//! Arrays.
ghost use Rattle.schemars_impls.specs.Containers.{array_row};

use crate::law::{JsonSchema, entry, register};
use schemars_types::{Shape, TypeEntry, Types, TypesError};
use std::alloc::{AllocError, Global};
use std::borrow::CowStr;

/// Arrays of no items are one type, whose entry does not refer to the items.
impl<T: JsonSchema, const N: usize> JsonSchema for [T; N] {
    ghost says = { array_row T.says N };

    fn inline_schema() -> bool {
        true
    }

    fn schema_name(alloc: Global) -> Result<CowStr<'static>, AllocError> {
        if N == 0 {
            return Ok(CowStr::Borrowed("EmptyArray"));
        }
        let name = T::schema_name(alloc)?;
        Ok(CowStr::Owned(format!(in alloc; "Array_size_{N}_of_{name}")?))
    }

    fn schema_id(alloc: Global) -> Result<CowStr<'static>, AllocError> {
        if N == 0 {
            return Ok(CowStr::Borrowed("[]"));
        }
        let id = T::schema_id(alloc)?;
        Ok(CowStr::Owned(format!(in alloc; "[{N}; {id}]")?))
    }

    fn json_schema(alloc: Global, types: &mut Types) -> Result<TypeEntry, TypesError> {
        if N == 0 {
            return Ok(entry(alloc, true, Shape::Tuple(Vec::new(alloc))));
        }
        let n = register::<T>(alloc, types)?;
        Ok(entry(alloc, true, Shape::Array(n, N as u64)))
    }
}
