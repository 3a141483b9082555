//! Options, results, bounds and ranges.
ghost use Rattle.std.specs.Prelude.{codes, false, true};
ghost use Rattle.schemars_impls.specs.Words.{in_place, without_notes, result_id, result_name, bound_id, bound_name, range_id, range_name, alone, of_one, of_two, option_row};
ghost use Rattle.schemars_shapes.specs.Shape.{Shape as shape};

use crate::impls::tuple::parts::register_two;
use crate::law::{JsonSchema, entry, register};
use schemars_types::{Shape, TypeEntry, Types, TypesError};
use std::alloc::{AllocError, Global};
use std::borrow::CowStr;
use std::marker::PhantomData;
use std::ops::{Bound, Range, RangeInclusive};

impl<T: JsonSchema> JsonSchema for Option<T> {
    ghost says = { option_row T.says };

    fn inline_schema() -> bool {
        true
    }

    fn schema_name(alloc: Global) -> Result<CowStr<'static>, AllocError> {
        let name = T::schema_name(alloc)?;
        Ok(CowStr::Owned(format!(in alloc; "Nullable_{name}")?))
    }

    fn schema_id(alloc: Global) -> Result<CowStr<'static>, AllocError> {
        let id = T::schema_id(alloc)?;
        Ok(CowStr::Owned(format!(in alloc; "Option<{id}>")?))
    }

    fn json_schema(alloc: Global, types: &mut Types) -> Result<TypeEntry, TypesError> {
        let n = register::<T>(alloc, types)?;
        Ok(entry(alloc, true, Shape::Option(n)))
    }
}

impl<T: JsonSchema, E: JsonSchema> JsonSchema for Result<T, E> {
    ghost says = { of_two (result_id T.says.id E.says.id) (result_name T.says.name E.says.name)
        false (λ n m. without_notes false (shape.result n m)) T.says E.says };

    fn inline_schema() -> bool {
        false
    }

    fn schema_name(alloc: Global) -> Result<CowStr<'static>, AllocError> {
        let (value, error) = (T::schema_name(alloc)?, E::schema_name(alloc)?);
        Ok(CowStr::Owned(format!(in alloc; "Result_of_{value}_or_{error}")?))
    }

    fn schema_id(alloc: Global) -> Result<CowStr<'static>, AllocError> {
        let (value, error) = (T::schema_id(alloc)?, E::schema_id(alloc)?);
        Ok(CowStr::Owned(format!(in alloc; "Result<{value}, {error}>")?))
    }

    fn json_schema(alloc: Global, types: &mut Types) -> Result<TypeEntry, TypesError> {
        let (value, error) = register_two::<T, E>(alloc, types)?;
        Ok(entry(alloc, false, Shape::Result(value, error)))
    }
}

impl<T: JsonSchema> JsonSchema for Bound<T> {
    ghost says = { of_one (bound_id T.says.id) (bound_name T.says.name) false
        (λ n. without_notes false (shape.bound n)) T.says };

    fn inline_schema() -> bool {
        false
    }

    fn schema_name(alloc: Global) -> Result<CowStr<'static>, AllocError> {
        let name = T::schema_name(alloc)?;
        Ok(CowStr::Owned(format!(in alloc; "Bound_of_{name}")?))
    }

    fn schema_id(alloc: Global) -> Result<CowStr<'static>, AllocError> {
        let id = T::schema_id(alloc)?;
        Ok(CowStr::Owned(format!(in alloc; "Bound<{id}>")?))
    }

    fn json_schema(alloc: Global, types: &mut Types) -> Result<TypeEntry, TypesError> {
        let n = register::<T>(alloc, types)?;
        Ok(entry(alloc, false, Shape::Bound(n)))
    }
}

impl<T: JsonSchema> JsonSchema for Range<T> {
    ghost says = { of_one (range_id T.says.id) (range_name T.says.name) false
        (λ n. without_notes false (shape.range n)) T.says };

    fn inline_schema() -> bool {
        false
    }

    fn schema_name(alloc: Global) -> Result<CowStr<'static>, AllocError> {
        let name = T::schema_name(alloc)?;
        Ok(CowStr::Owned(format!(in alloc; "Range_of_{name}")?))
    }

    fn schema_id(alloc: Global) -> Result<CowStr<'static>, AllocError> {
        let id = T::schema_id(alloc)?;
        Ok(CowStr::Owned(format!(in alloc; "Range<{id}>")?))
    }

    fn json_schema(alloc: Global, types: &mut Types) -> Result<TypeEntry, TypesError> {
        let n = register::<T>(alloc, types)?;
        Ok(entry(alloc, false, Shape::Range(n)))
    }
}

/// The same as `Range`, for which the end is one of the values.
impl<T: JsonSchema> JsonSchema for RangeInclusive<T> {
    ghost says = { of_one (range_id T.says.id) (range_name T.says.name) false
        (λ n. without_notes false (shape.range n)) T.says };

    fn inline_schema() -> bool {
        Range::<T>::inline_schema()
    }

    fn schema_name(alloc: Global) -> Result<CowStr<'static>, AllocError> {
        Range::<T>::schema_name(alloc)
    }

    fn schema_id(alloc: Global) -> Result<CowStr<'static>, AllocError> {
        Range::<T>::schema_id(alloc)
    }

    fn json_schema(alloc: Global, types: &mut Types) -> Result<TypeEntry, TypesError> {
        Range::<T>::json_schema(alloc, types)
    }
}

/// The same as the unit.
impl<T> JsonSchema for PhantomData<T> {
    ghost says = { alone (codes "null") (codes "null") true (in_place shape.null) };

    fn inline_schema() -> bool {
        <()>::inline_schema()
    }

    fn schema_name(alloc: Global) -> Result<CowStr<'static>, AllocError> {
        <()>::schema_name(alloc)
    }

    fn schema_id(alloc: Global) -> Result<CowStr<'static>, AllocError> {
        <()>::schema_id(alloc)
    }

    fn json_schema(alloc: Global, types: &mut Types) -> Result<TypeEntry, TypesError> {
        <()>::json_schema(alloc, types)
    }
}
