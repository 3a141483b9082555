//! Byte strings.
ghost use Rattle.std.specs.Prelude.{codes, false};
ghost use Rattle.schemars_shapes.specs.Shape.{Shape as shape, without_notes};
ghost use Rattle.schemars_impls.specs.Dictionary.{alone};

use crate::law::{JsonSchema, entry};
use bytes::{Bytes, BytesMut};
use schemars_types::{Shape, TypeEntry, Types, TypesError};
use std::alloc::{AllocError, Global};
use std::borrow::CowStr;

impl JsonSchema for Bytes {
    ghost says = { alone (codes "bytes::Bytes") (codes "Bytes") false
        (without_notes false shape.bytes) };

    fn inline_schema() -> bool {
        false
    }

    fn schema_name(_alloc: Global) -> Result<CowStr<'static>, AllocError> {
        Ok(CowStr::Borrowed("Bytes"))
    }

    fn schema_id(_alloc: Global) -> Result<CowStr<'static>, AllocError> {
        Ok(CowStr::Borrowed("bytes::Bytes"))
    }

    fn json_schema(alloc: Global, _types: &mut Types) -> Result<TypeEntry, TypesError> {
        Ok(entry(alloc, false, Shape::Bytes))
    }
}

/// The same as `Bytes`.
impl JsonSchema for BytesMut {
    ghost says = { alone (codes "bytes::Bytes") (codes "Bytes") false
        (without_notes false shape.bytes) };

    fn inline_schema() -> bool {
        Bytes::inline_schema()
    }

    fn schema_name(alloc: Global) -> Result<CowStr<'static>, AllocError> {
        Bytes::schema_name(alloc)
    }

    fn schema_id(alloc: Global) -> Result<CowStr<'static>, AllocError> {
        Bytes::schema_id(alloc)
    }

    fn json_schema(alloc: Global, types: &mut Types) -> Result<TypeEntry, TypesError> {
        Bytes::json_schema(alloc, types)
    }
}
