//! Universally unique identifiers.
ghost use Rattle.std.specs.Prelude.{codes, true};
ghost use Rattle.schemars_shapes.specs.Shape.{Shape as shape, in_place};
ghost use Rattle.schemars_impls.specs.Dictionary.{alone};

use crate::law::{JsonSchema, entry};
use schemars_types::{Shape, TypeEntry, Types, TypesError};
use std::alloc::{AllocError, Global};
use std::borrow::CowStr;
use uuid::Uuid;

impl JsonSchema for Uuid {
    ghost says = { alone (codes "uuid::Uuid") (codes "Uuid") true
        (in_place (shape.formatted (codes "uuid"))) };

    fn inline_schema() -> bool {
        true
    }

    fn schema_name(_alloc: Global) -> Result<CowStr<'static>, AllocError> {
        Ok(CowStr::Borrowed("Uuid"))
    }

    fn schema_id(_alloc: Global) -> Result<CowStr<'static>, AllocError> {
        Ok(CowStr::Borrowed("uuid::Uuid"))
    }

    fn json_schema(alloc: Global, _types: &mut Types) -> Result<TypeEntry, TypesError> {
        let format = String::from_str(alloc, "uuid")?;
        Ok(entry(alloc, true, Shape::Formatted(format)))
    }
}
