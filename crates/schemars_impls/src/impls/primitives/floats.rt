//! Floats.
ghost use Rattle.std.specs.Prelude.{◌≡◌, codes, IfOk, true};
ghost use Rattle.schemars_impls.specs.Words.{in_place, alone, float_schema};
ghost use Rattle.schemars_shapes.specs.Shape.{Shape as shape};

use crate::impls::literals::insert_text;
use crate::law::{JsonSchema, entry};
use schemars_schema::Schema;
use schemars_types::{Shape, TypeEntry, Types, TypesError};
use std::alloc::{AllocError, Global};
use std::borrow::CowStr;

impl JsonSchema for f32 {
    ghost says = { alone (codes "float") (codes "float") true
        (in_place (shape.literal (float_schema (codes "float")))) };

    fn inline_schema() -> bool {
        true
    }

    fn schema_name(_alloc: Global) -> Result<CowStr<'static>, AllocError> {
        Ok(CowStr::Borrowed("float"))
    }

    fn schema_id(alloc: Global) -> Result<CowStr<'static>, AllocError> {
        Self::schema_name(alloc)
    }

    fn json_schema(alloc: Global, _types: &mut Types) -> Result<TypeEntry, TypesError> {
        let schema = float_schema(alloc, "float")?;
        Ok(entry(alloc, true, Shape::Literal(schema)))
    }
}

impl JsonSchema for f64 {
    ghost says = { alone (codes "double") (codes "double") true
        (in_place (shape.literal (float_schema (codes "double")))) };

    fn inline_schema() -> bool {
        true
    }

    fn schema_name(_alloc: Global) -> Result<CowStr<'static>, AllocError> {
        Ok(CowStr::Borrowed("double"))
    }

    fn schema_id(alloc: Global) -> Result<CowStr<'static>, AllocError> {
        Self::schema_name(alloc)
    }

    fn json_schema(alloc: Global, _types: &mut Types) -> Result<TypeEntry, TypesError> {
        let schema = float_schema(alloc, "double")?;
        Ok(entry(alloc, true, Shape::Literal(schema)))
    }
}

fn float_schema(alloc: Global, format: &str) -> Result<Schema, AllocError>
    ensures { IfOk result (λ s. s ≡ float_schema format.now) }
{
    let mut schema = Schema::default(alloc);
    insert_text(alloc, &mut schema, "type", "number")?;
    insert_text(alloc, &mut schema, "format", format)?;
    Ok(schema)
}
