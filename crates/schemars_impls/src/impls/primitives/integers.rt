//! Integers, also those whose operations wrap around.
ghost use Rattle.std.specs.Prelude.{true};
ghost use Rattle.schemars_shapes.specs.declared.shape.IntKind.TheVariants.{I8, I16, I32, I64, I128, Isize, U8, U16, U32, U64, U128, Usize};
ghost use Rattle.schemars_impls.specs.Words.{format_of, in_place, alone};
ghost use Rattle.schemars_shapes.specs.Shape.{Shape as shape};

use crate::law::{JsonSchema, entry};
use schemars_types::{IntKind, Shape, TypeEntry, Types, TypesError};
use std::alloc::{AllocError, Global};
use std::borrow::CowStr;
use std::num::Wrapping;

impl JsonSchema for i8 {
    ghost says = { alone (format_of I8) (format_of I8) true (in_place (shape.int I8)) };

    fn inline_schema() -> bool {
        true
    }

    fn schema_name(_alloc: Global) -> Result<CowStr<'static>, AllocError> {
        Ok(CowStr::Borrowed("int8"))
    }

    fn schema_id(alloc: Global) -> Result<CowStr<'static>, AllocError> {
        Self::schema_name(alloc)
    }

    fn json_schema(alloc: Global, _types: &mut Types) -> Result<TypeEntry, TypesError> {
        Ok(entry(alloc, true, Shape::Int(IntKind::I8)))
    }
}

impl JsonSchema for i16 {
    ghost says = { alone (format_of I16) (format_of I16) true (in_place (shape.int I16)) };

    fn inline_schema() -> bool {
        true
    }

    fn schema_name(_alloc: Global) -> Result<CowStr<'static>, AllocError> {
        Ok(CowStr::Borrowed("int16"))
    }

    fn schema_id(alloc: Global) -> Result<CowStr<'static>, AllocError> {
        Self::schema_name(alloc)
    }

    fn json_schema(alloc: Global, _types: &mut Types) -> Result<TypeEntry, TypesError> {
        Ok(entry(alloc, true, Shape::Int(IntKind::I16)))
    }
}

impl JsonSchema for i32 {
    ghost says = { alone (format_of I32) (format_of I32) true (in_place (shape.int I32)) };

    fn inline_schema() -> bool {
        true
    }

    fn schema_name(_alloc: Global) -> Result<CowStr<'static>, AllocError> {
        Ok(CowStr::Borrowed("int32"))
    }

    fn schema_id(alloc: Global) -> Result<CowStr<'static>, AllocError> {
        Self::schema_name(alloc)
    }

    fn json_schema(alloc: Global, _types: &mut Types) -> Result<TypeEntry, TypesError> {
        Ok(entry(alloc, true, Shape::Int(IntKind::I32)))
    }
}

impl JsonSchema for i64 {
    ghost says = { alone (format_of I64) (format_of I64) true (in_place (shape.int I64)) };

    fn inline_schema() -> bool {
        true
    }

    fn schema_name(_alloc: Global) -> Result<CowStr<'static>, AllocError> {
        Ok(CowStr::Borrowed("int64"))
    }

    fn schema_id(alloc: Global) -> Result<CowStr<'static>, AllocError> {
        Self::schema_name(alloc)
    }

    fn json_schema(alloc: Global, _types: &mut Types) -> Result<TypeEntry, TypesError> {
        Ok(entry(alloc, true, Shape::Int(IntKind::I64)))
    }
}

impl JsonSchema for i128 {
    ghost says = { alone (format_of I128) (format_of I128) true (in_place (shape.int I128)) };

    fn inline_schema() -> bool {
        true
    }

    fn schema_name(_alloc: Global) -> Result<CowStr<'static>, AllocError> {
        Ok(CowStr::Borrowed("int128"))
    }

    fn schema_id(alloc: Global) -> Result<CowStr<'static>, AllocError> {
        Self::schema_name(alloc)
    }

    fn json_schema(alloc: Global, _types: &mut Types) -> Result<TypeEntry, TypesError> {
        Ok(entry(alloc, true, Shape::Int(IntKind::I128)))
    }
}

impl JsonSchema for isize {
    ghost says = { alone (format_of Isize) (format_of Isize) true (in_place (shape.int Isize)) };

    fn inline_schema() -> bool {
        true
    }

    fn schema_name(_alloc: Global) -> Result<CowStr<'static>, AllocError> {
        Ok(CowStr::Borrowed("int"))
    }

    fn schema_id(alloc: Global) -> Result<CowStr<'static>, AllocError> {
        Self::schema_name(alloc)
    }

    fn json_schema(alloc: Global, _types: &mut Types) -> Result<TypeEntry, TypesError> {
        Ok(entry(alloc, true, Shape::Int(IntKind::Isize)))
    }
}

impl JsonSchema for u8 {
    ghost says = { alone (format_of U8) (format_of U8) true (in_place (shape.int U8)) };

    fn inline_schema() -> bool {
        true
    }

    fn schema_name(_alloc: Global) -> Result<CowStr<'static>, AllocError> {
        Ok(CowStr::Borrowed("uint8"))
    }

    fn schema_id(alloc: Global) -> Result<CowStr<'static>, AllocError> {
        Self::schema_name(alloc)
    }

    fn json_schema(alloc: Global, _types: &mut Types) -> Result<TypeEntry, TypesError> {
        Ok(entry(alloc, true, Shape::Int(IntKind::U8)))
    }
}

impl JsonSchema for u16 {
    ghost says = { alone (format_of U16) (format_of U16) true (in_place (shape.int U16)) };

    fn inline_schema() -> bool {
        true
    }

    fn schema_name(_alloc: Global) -> Result<CowStr<'static>, AllocError> {
        Ok(CowStr::Borrowed("uint16"))
    }

    fn schema_id(alloc: Global) -> Result<CowStr<'static>, AllocError> {
        Self::schema_name(alloc)
    }

    fn json_schema(alloc: Global, _types: &mut Types) -> Result<TypeEntry, TypesError> {
        Ok(entry(alloc, true, Shape::Int(IntKind::U16)))
    }
}

impl JsonSchema for u32 {
    ghost says = { alone (format_of U32) (format_of U32) true (in_place (shape.int U32)) };

    fn inline_schema() -> bool {
        true
    }

    fn schema_name(_alloc: Global) -> Result<CowStr<'static>, AllocError> {
        Ok(CowStr::Borrowed("uint32"))
    }

    fn schema_id(alloc: Global) -> Result<CowStr<'static>, AllocError> {
        Self::schema_name(alloc)
    }

    fn json_schema(alloc: Global, _types: &mut Types) -> Result<TypeEntry, TypesError> {
        Ok(entry(alloc, true, Shape::Int(IntKind::U32)))
    }
}

impl JsonSchema for u64 {
    ghost says = { alone (format_of U64) (format_of U64) true (in_place (shape.int U64)) };

    fn inline_schema() -> bool {
        true
    }

    fn schema_name(_alloc: Global) -> Result<CowStr<'static>, AllocError> {
        Ok(CowStr::Borrowed("uint64"))
    }

    fn schema_id(alloc: Global) -> Result<CowStr<'static>, AllocError> {
        Self::schema_name(alloc)
    }

    fn json_schema(alloc: Global, _types: &mut Types) -> Result<TypeEntry, TypesError> {
        Ok(entry(alloc, true, Shape::Int(IntKind::U64)))
    }
}

impl JsonSchema for u128 {
    ghost says = { alone (format_of U128) (format_of U128) true (in_place (shape.int U128)) };

    fn inline_schema() -> bool {
        true
    }

    fn schema_name(_alloc: Global) -> Result<CowStr<'static>, AllocError> {
        Ok(CowStr::Borrowed("uint128"))
    }

    fn schema_id(alloc: Global) -> Result<CowStr<'static>, AllocError> {
        Self::schema_name(alloc)
    }

    fn json_schema(alloc: Global, _types: &mut Types) -> Result<TypeEntry, TypesError> {
        Ok(entry(alloc, true, Shape::Int(IntKind::U128)))
    }
}

impl JsonSchema for usize {
    ghost says = { alone (format_of Usize) (format_of Usize) true (in_place (shape.int Usize)) };

    fn inline_schema() -> bool {
        true
    }

    fn schema_name(_alloc: Global) -> Result<CowStr<'static>, AllocError> {
        Ok(CowStr::Borrowed("uint"))
    }

    fn schema_id(alloc: Global) -> Result<CowStr<'static>, AllocError> {
        Self::schema_name(alloc)
    }

    fn json_schema(alloc: Global, _types: &mut Types) -> Result<TypeEntry, TypesError> {
        Ok(entry(alloc, true, Shape::Int(IntKind::Usize)))
    }
}

/// The same as the integer.
impl<T: JsonSchema> JsonSchema for Wrapping<T> {
    ghost says = { T.says };

    fn inline_schema() -> bool {
        T::inline_schema()
    }

    fn schema_name(alloc: Global) -> Result<CowStr<'static>, AllocError> {
        T::schema_name(alloc)
    }

    fn schema_id(alloc: Global) -> Result<CowStr<'static>, AllocError> {
        T::schema_id(alloc)
    }

    fn json_schema(alloc: Global, types: &mut Types) -> Result<TypeEntry, TypesError> {
        T::json_schema(alloc, types)
    }
}
