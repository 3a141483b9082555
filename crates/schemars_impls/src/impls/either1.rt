//! One of two types.
ghost use Rattle.std.specs.Prelude.{true};
ghost use Rattle.schemars_impls.specs.Words.{in_place, either_id, either_name, of_two};
ghost use Rattle.schemars_shapes.specs.Shape.{Shape as shape};

use crate::impls::tuple::parts::register_two;
use crate::law::{JsonSchema, entry};
use either::Either;
use schemars_types::{Shape, TypeEntry, Types, TypesError};
use std::alloc::{AllocError, Global};
use std::borrow::CowStr;

impl<L: JsonSchema, R: JsonSchema> JsonSchema for Either<L, R> {
    ghost says = { of_two (either_id L.says.id R.says.id) (either_name L.says.name R.says.name)
        true (λ n m. in_place (shape.either n m)) L.says R.says };

    fn inline_schema() -> bool {
        true
    }

    fn schema_name(alloc: Global) -> Result<CowStr<'static>, AllocError> {
        let (left, right) = (L::schema_name(alloc)?, R::schema_name(alloc)?);
        Ok(CowStr::Owned(format!(in alloc; "Either_{left}_or_{right}")?))
    }

    fn schema_id(alloc: Global) -> Result<CowStr<'static>, AllocError> {
        let (left, right) = (L::schema_id(alloc)?, R::schema_id(alloc)?);
        Ok(CowStr::Owned(format!(in alloc; "either::Either<{left}, {right}>")?))
    }

    fn json_schema(alloc: Global, types: &mut Types) -> Result<TypeEntry, TypesError> {
        let (left, right) = register_two::<L, R>(alloc, types)?;
        Ok(entry(alloc, true, Shape::Either(left, right)))
    }
}
