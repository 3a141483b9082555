//! JSON values, numbers and schemas.
ghost use Rattle.std.specs.Prelude.{codes, false, true};
ghost use Rattle.schemars_shapes.specs.Shape.{Shape as shape, in_place, without_notes};
ghost use Rattle.schemars_impls.specs.Dictionary.{alone};

use crate::law::{JsonSchema, entry};
use schemars_schema::Schema;
use schemars_types::{Shape, TypeEntry, Types, TypesError};
use serde_json::{Number, Value};
use std::alloc::{AllocError, Global};
use std::borrow::CowStr;

impl JsonSchema for Value {
    ghost says = { alone (codes "AnyValue") (codes "AnyValue") true (in_place shape.any) };

    fn inline_schema() -> bool {
        true
    }

    fn schema_name(_alloc: Global) -> Result<CowStr<'static>, AllocError> {
        Ok(CowStr::Borrowed("AnyValue"))
    }

    fn schema_id(alloc: Global) -> Result<CowStr<'static>, AllocError> {
        Self::schema_name(alloc)
    }

    fn json_schema(alloc: Global, _types: &mut Types) -> Result<TypeEntry, TypesError> {
        Ok(entry(alloc, true, Shape::Any))
    }
}

impl JsonSchema for Number {
    ghost says = { alone (codes "Number") (codes "Number") true (in_place shape.number) };

    fn inline_schema() -> bool {
        true
    }

    fn schema_name(_alloc: Global) -> Result<CowStr<'static>, AllocError> {
        Ok(CowStr::Borrowed("Number"))
    }

    fn schema_id(alloc: Global) -> Result<CowStr<'static>, AllocError> {
        Self::schema_name(alloc)
    }

    fn json_schema(alloc: Global, _types: &mut Types) -> Result<TypeEntry, TypesError> {
        Ok(entry(alloc, true, Shape::Number))
    }
}

impl JsonSchema for Schema {
    ghost says = { alone (codes "schemars::Schema") (codes "Schema") false
        (without_notes false shape.schema_itself) };

    fn inline_schema() -> bool {
        false
    }

    fn schema_name(_alloc: Global) -> Result<CowStr<'static>, AllocError> {
        Ok(CowStr::Borrowed("Schema"))
    }

    fn schema_id(_alloc: Global) -> Result<CowStr<'static>, AllocError> {
        Ok(CowStr::Borrowed("schemars::Schema"))
    }

    fn json_schema(alloc: Global, _types: &mut Types) -> Result<TypeEntry, TypesError> {
        Ok(entry(alloc, false, Shape::SchemaItself))
    }
}
