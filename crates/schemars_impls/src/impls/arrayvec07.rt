//! Lists and texts of bounded length.
ghost use Rattle.std.specs.Prelude.{codes, true};
ghost use Rattle.schemars_impls.specs.Words.{in_place, up_to_id, up_to_name, alone, of_one};
ghost use Rattle.schemars_shapes.specs.Shape.{Shape as shape};

use crate::law::{JsonSchema, entry, register};
use arrayvec::{ArrayString, ArrayVec};
use schemars_types::{Shape, TypeEntry, Types, TypesError};
use std::alloc::{AllocError, Global};
use std::borrow::CowStr;

impl<T: JsonSchema, const CAP: usize, A> JsonSchema for ArrayVec<T, CAP, A> {
    ghost says = { of_one (up_to_id T.says.id CAP) (up_to_name T.says.name CAP) true
        (λ n. in_place (shape.up_to n CAP)) T.says };

    fn inline_schema() -> bool {
        true
    }

    fn schema_name(alloc: Global) -> Result<CowStr<'static>, AllocError> {
        let name = T::schema_name(alloc)?;
        Ok(CowStr::Owned(format!(in alloc; "Array_up_to_size_{CAP}_of_{name}")?))
    }

    fn schema_id(alloc: Global) -> Result<CowStr<'static>, AllocError> {
        let id = T::schema_id(alloc)?;
        Ok(CowStr::Owned(format!(in alloc; "[{id}; up to {CAP}]")?))
    }

    fn json_schema(alloc: Global, types: &mut Types) -> Result<TypeEntry, TypesError> {
        let n = register::<T>(alloc, types)?;
        Ok(entry(alloc, true, Shape::UpTo(n, CAP as u64)))
    }
}

/// The same as `String`.
impl<const CAP: usize> JsonSchema for ArrayString<CAP> {
    ghost says = { alone (codes "string") (codes "string") true (in_place shape.text) };

    fn inline_schema() -> bool {
        String::inline_schema()
    }

    fn schema_name(alloc: Global) -> Result<CowStr<'static>, AllocError> {
        String::schema_name(alloc)
    }

    fn schema_id(alloc: Global) -> Result<CowStr<'static>, AllocError> {
        String::schema_id(alloc)
    }

    fn json_schema(alloc: Global, types: &mut Types) -> Result<TypeEntry, TypesError> {
        String::json_schema(alloc, types)
    }
}
