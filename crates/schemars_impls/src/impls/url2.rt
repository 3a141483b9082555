//! Addresses of the web.
ghost use Rattle.std.specs.Prelude.{codes, true};
ghost use Rattle.schemars_shapes.specs.Shape.{Shape as shape, in_place};
ghost use Rattle.schemars_impls.specs.Dictionary.{alone};

use crate::law::{JsonSchema, entry};
use schemars_types::{Shape, TypeEntry, Types, TypesError};
use std::alloc::{AllocError, Global};
use std::borrow::CowStr;
use url::Url;

impl JsonSchema for Url {
    ghost says = { alone (codes "url::Url") (codes "Url") true
        (in_place (shape.formatted (codes "uri"))) };

    fn inline_schema() -> bool {
        true
    }

    fn schema_name(_alloc: Global) -> Result<CowStr<'static>, AllocError> {
        Ok(CowStr::Borrowed("Url"))
    }

    fn schema_id(_alloc: Global) -> Result<CowStr<'static>, AllocError> {
        Ok(CowStr::Borrowed("url::Url"))
    }

    fn json_schema(alloc: Global, _types: &mut Types) -> Result<TypeEntry, TypesError> {
        let format = String::from_str(alloc, "uri")?;
        Ok(entry(alloc, true, Shape::Formatted(format)))
    }
}
