//! Integers that are not 0.
ghost use Rattle.std.specs.Prelude.{true};
ghost use Rattle.schemars_shapes.specs.declared.shape.IntKind.TheVariants.{I8, I16, I32, I64, I128, Isize, U8, U16, U32, U64, U128, Usize};
ghost use Rattle.schemars_impls.specs.Words.{non_zero_name, in_place, non_zero_id, alone};
ghost use Rattle.schemars_shapes.specs.Shape.{Shape as shape};

use crate::law::{JsonSchema, entry};
use schemars_types::{IntKind, Shape, TypeEntry, Types, TypesError};
use std::alloc::{AllocError, Global};
use std::borrow::CowStr;
use std::num::{
    NonZeroI8, NonZeroI16, NonZeroI32, NonZeroI64, NonZeroI128, NonZeroIsize, NonZeroU8,
    NonZeroU16, NonZeroU32, NonZeroU64, NonZeroU128, NonZeroUsize,
};

impl JsonSchema for NonZeroI8 {
    ghost says = { alone (non_zero_id I8) (non_zero_name I8) true (in_place (shape.non_zero I8)) };

    fn inline_schema() -> bool {
        true
    }

    fn schema_name(_alloc: Global) -> Result<CowStr<'static>, AllocError> {
        Ok(CowStr::Borrowed("NonZeroI8"))
    }

    fn schema_id(_alloc: Global) -> Result<CowStr<'static>, AllocError> {
        Ok(CowStr::Borrowed("std::num::NonZeroI8"))
    }

    fn json_schema(alloc: Global, _types: &mut Types) -> Result<TypeEntry, TypesError> {
        Ok(entry(alloc, true, Shape::NonZero(IntKind::I8)))
    }
}

impl JsonSchema for NonZeroI16 {
    ghost says = { alone (non_zero_id I16) (non_zero_name I16) true
        (in_place (shape.non_zero I16)) };

    fn inline_schema() -> bool {
        true
    }

    fn schema_name(_alloc: Global) -> Result<CowStr<'static>, AllocError> {
        Ok(CowStr::Borrowed("NonZeroI16"))
    }

    fn schema_id(_alloc: Global) -> Result<CowStr<'static>, AllocError> {
        Ok(CowStr::Borrowed("std::num::NonZeroI16"))
    }

    fn json_schema(alloc: Global, _types: &mut Types) -> Result<TypeEntry, TypesError> {
        Ok(entry(alloc, true, Shape::NonZero(IntKind::I16)))
    }
}

impl JsonSchema for NonZeroI32 {
    ghost says = { alone (non_zero_id I32) (non_zero_name I32) true
        (in_place (shape.non_zero I32)) };

    fn inline_schema() -> bool {
        true
    }

    fn schema_name(_alloc: Global) -> Result<CowStr<'static>, AllocError> {
        Ok(CowStr::Borrowed("NonZeroI32"))
    }

    fn schema_id(_alloc: Global) -> Result<CowStr<'static>, AllocError> {
        Ok(CowStr::Borrowed("std::num::NonZeroI32"))
    }

    fn json_schema(alloc: Global, _types: &mut Types) -> Result<TypeEntry, TypesError> {
        Ok(entry(alloc, true, Shape::NonZero(IntKind::I32)))
    }
}

impl JsonSchema for NonZeroI64 {
    ghost says = { alone (non_zero_id I64) (non_zero_name I64) true
        (in_place (shape.non_zero I64)) };

    fn inline_schema() -> bool {
        true
    }

    fn schema_name(_alloc: Global) -> Result<CowStr<'static>, AllocError> {
        Ok(CowStr::Borrowed("NonZeroI64"))
    }

    fn schema_id(_alloc: Global) -> Result<CowStr<'static>, AllocError> {
        Ok(CowStr::Borrowed("std::num::NonZeroI64"))
    }

    fn json_schema(alloc: Global, _types: &mut Types) -> Result<TypeEntry, TypesError> {
        Ok(entry(alloc, true, Shape::NonZero(IntKind::I64)))
    }
}

impl JsonSchema for NonZeroI128 {
    ghost says = { alone (non_zero_id I128) (non_zero_name I128) true
        (in_place (shape.non_zero I128)) };

    fn inline_schema() -> bool {
        true
    }

    fn schema_name(_alloc: Global) -> Result<CowStr<'static>, AllocError> {
        Ok(CowStr::Borrowed("NonZeroI128"))
    }

    fn schema_id(_alloc: Global) -> Result<CowStr<'static>, AllocError> {
        Ok(CowStr::Borrowed("std::num::NonZeroI128"))
    }

    fn json_schema(alloc: Global, _types: &mut Types) -> Result<TypeEntry, TypesError> {
        Ok(entry(alloc, true, Shape::NonZero(IntKind::I128)))
    }
}

impl JsonSchema for NonZeroIsize {
    ghost says = { alone (non_zero_id Isize) (non_zero_name Isize) true
        (in_place (shape.non_zero Isize)) };

    fn inline_schema() -> bool {
        true
    }

    fn schema_name(_alloc: Global) -> Result<CowStr<'static>, AllocError> {
        Ok(CowStr::Borrowed("NonZeroIsize"))
    }

    fn schema_id(_alloc: Global) -> Result<CowStr<'static>, AllocError> {
        Ok(CowStr::Borrowed("std::num::NonZeroIsize"))
    }

    fn json_schema(alloc: Global, _types: &mut Types) -> Result<TypeEntry, TypesError> {
        Ok(entry(alloc, true, Shape::NonZero(IntKind::Isize)))
    }
}

impl JsonSchema for NonZeroU8 {
    ghost says = { alone (non_zero_id U8) (non_zero_name U8) true (in_place (shape.non_zero U8)) };

    fn inline_schema() -> bool {
        true
    }

    fn schema_name(_alloc: Global) -> Result<CowStr<'static>, AllocError> {
        Ok(CowStr::Borrowed("NonZeroU8"))
    }

    fn schema_id(_alloc: Global) -> Result<CowStr<'static>, AllocError> {
        Ok(CowStr::Borrowed("std::num::NonZeroU8"))
    }

    fn json_schema(alloc: Global, _types: &mut Types) -> Result<TypeEntry, TypesError> {
        Ok(entry(alloc, true, Shape::NonZero(IntKind::U8)))
    }
}

impl JsonSchema for NonZeroU16 {
    ghost says = { alone (non_zero_id U16) (non_zero_name U16) true
        (in_place (shape.non_zero U16)) };

    fn inline_schema() -> bool {
        true
    }

    fn schema_name(_alloc: Global) -> Result<CowStr<'static>, AllocError> {
        Ok(CowStr::Borrowed("NonZeroU16"))
    }

    fn schema_id(_alloc: Global) -> Result<CowStr<'static>, AllocError> {
        Ok(CowStr::Borrowed("std::num::NonZeroU16"))
    }

    fn json_schema(alloc: Global, _types: &mut Types) -> Result<TypeEntry, TypesError> {
        Ok(entry(alloc, true, Shape::NonZero(IntKind::U16)))
    }
}

impl JsonSchema for NonZeroU32 {
    ghost says = { alone (non_zero_id U32) (non_zero_name U32) true
        (in_place (shape.non_zero U32)) };

    fn inline_schema() -> bool {
        true
    }

    fn schema_name(_alloc: Global) -> Result<CowStr<'static>, AllocError> {
        Ok(CowStr::Borrowed("NonZeroU32"))
    }

    fn schema_id(_alloc: Global) -> Result<CowStr<'static>, AllocError> {
        Ok(CowStr::Borrowed("std::num::NonZeroU32"))
    }

    fn json_schema(alloc: Global, _types: &mut Types) -> Result<TypeEntry, TypesError> {
        Ok(entry(alloc, true, Shape::NonZero(IntKind::U32)))
    }
}

impl JsonSchema for NonZeroU64 {
    ghost says = { alone (non_zero_id U64) (non_zero_name U64) true
        (in_place (shape.non_zero U64)) };

    fn inline_schema() -> bool {
        true
    }

    fn schema_name(_alloc: Global) -> Result<CowStr<'static>, AllocError> {
        Ok(CowStr::Borrowed("NonZeroU64"))
    }

    fn schema_id(_alloc: Global) -> Result<CowStr<'static>, AllocError> {
        Ok(CowStr::Borrowed("std::num::NonZeroU64"))
    }

    fn json_schema(alloc: Global, _types: &mut Types) -> Result<TypeEntry, TypesError> {
        Ok(entry(alloc, true, Shape::NonZero(IntKind::U64)))
    }
}

impl JsonSchema for NonZeroU128 {
    ghost says = { alone (non_zero_id U128) (non_zero_name U128) true
        (in_place (shape.non_zero U128)) };

    fn inline_schema() -> bool {
        true
    }

    fn schema_name(_alloc: Global) -> Result<CowStr<'static>, AllocError> {
        Ok(CowStr::Borrowed("NonZeroU128"))
    }

    fn schema_id(_alloc: Global) -> Result<CowStr<'static>, AllocError> {
        Ok(CowStr::Borrowed("std::num::NonZeroU128"))
    }

    fn json_schema(alloc: Global, _types: &mut Types) -> Result<TypeEntry, TypesError> {
        Ok(entry(alloc, true, Shape::NonZero(IntKind::U128)))
    }
}

impl JsonSchema for NonZeroUsize {
    ghost says = { alone (non_zero_id Usize) (non_zero_name Usize) true
        (in_place (shape.non_zero Usize)) };

    fn inline_schema() -> bool {
        true
    }

    fn schema_name(_alloc: Global) -> Result<CowStr<'static>, AllocError> {
        Ok(CowStr::Borrowed("NonZeroUsize"))
    }

    fn schema_id(_alloc: Global) -> Result<CowStr<'static>, AllocError> {
        Ok(CowStr::Borrowed("std::num::NonZeroUsize"))
    }

    fn json_schema(alloc: Global, _types: &mut Types) -> Result<TypeEntry, TypesError> {
        Ok(entry(alloc, true, Shape::NonZero(IntKind::Usize)))
    }
}
