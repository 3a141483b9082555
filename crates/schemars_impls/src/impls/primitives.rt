//! Truth values, characters, texts and the unit.
ghost use Rattle.std.specs.Prelude.{codes, true};
ghost use Rattle.schemars_shapes.specs.Shape.{Shape as shape, in_place};
ghost use Rattle.schemars_impls.specs.Dictionary.{alone};

mod floats;
mod integers;
mod net;

use crate::law::{JsonSchema, entry};
use schemars_types::{Shape, TypeEntry, Types, TypesError};
use std::alloc::{AllocError, Global};
use std::borrow::CowStr;

impl JsonSchema for () {
    ghost says = { alone (codes "null") (codes "null") true (in_place shape.null) };

    fn inline_schema() -> bool {
        true
    }

    fn schema_name(_alloc: Global) -> Result<CowStr<'static>, AllocError> {
        Ok(CowStr::Borrowed("null"))
    }

    fn schema_id(alloc: Global) -> Result<CowStr<'static>, AllocError> {
        Self::schema_name(alloc)
    }

    fn json_schema(alloc: Global, _types: &mut Types) -> Result<TypeEntry, TypesError> {
        Ok(entry(alloc, true, Shape::Null))
    }
}

impl JsonSchema for bool {
    ghost says = { alone (codes "boolean") (codes "boolean") true (in_place shape.bool) };

    fn inline_schema() -> bool {
        true
    }

    fn schema_name(_alloc: Global) -> Result<CowStr<'static>, AllocError> {
        Ok(CowStr::Borrowed("boolean"))
    }

    fn schema_id(alloc: Global) -> Result<CowStr<'static>, AllocError> {
        Self::schema_name(alloc)
    }

    fn json_schema(alloc: Global, _types: &mut Types) -> Result<TypeEntry, TypesError> {
        Ok(entry(alloc, true, Shape::Bool))
    }
}

impl JsonSchema for char {
    ghost says = { alone (codes "char") (codes "Character") true (in_place shape.char) };

    fn inline_schema() -> bool {
        true
    }

    fn schema_name(_alloc: Global) -> Result<CowStr<'static>, AllocError> {
        Ok(CowStr::Borrowed("Character"))
    }

    fn schema_id(_alloc: Global) -> Result<CowStr<'static>, AllocError> {
        Ok(CowStr::Borrowed("char"))
    }

    fn json_schema(alloc: Global, _types: &mut Types) -> Result<TypeEntry, TypesError> {
        Ok(entry(alloc, true, Shape::Char))
    }
}

impl JsonSchema for String {
    ghost says = { alone (codes "string") (codes "string") true (in_place shape.text) };

    fn inline_schema() -> bool {
        true
    }

    fn schema_name(_alloc: Global) -> Result<CowStr<'static>, AllocError> {
        Ok(CowStr::Borrowed("string"))
    }

    fn schema_id(alloc: Global) -> Result<CowStr<'static>, AllocError> {
        Self::schema_name(alloc)
    }

    fn json_schema(alloc: Global, _types: &mut Types) -> Result<TypeEntry, TypesError> {
        Ok(entry(alloc, true, Shape::Text))
    }
}
