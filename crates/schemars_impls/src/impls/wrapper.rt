//! Values behind something, which are described as they are without it.

use crate::law::JsonSchema;
use schemars_types::{TypeEntry, Types, TypesError};
use std::alloc::{AllocError, Global};
use std::borrow::{Cow, CowStr};
use std::cell::{Cell, RefCell};
use std::cmp::Reverse;
use std::rc::Rc;

impl<T: JsonSchema> JsonSchema for Box<T> {
    ghost says = { T.says };

    fn inline_schema() -> bool {
        T::inline_schema()
    }

    fn schema_name(alloc: Global) -> Result<CowStr<'static>, AllocError> {
        T::schema_name(alloc)
    }

    fn schema_id(alloc: Global) -> Result<CowStr<'static>, AllocError> {
        T::schema_id(alloc)
    }

    fn json_schema(alloc: Global, types: &mut Types) -> Result<TypeEntry, TypesError> {
        T::json_schema(alloc, types)
    }
}

impl<T: JsonSchema> JsonSchema for Rc<T> {
    ghost says = { T.says };

    fn inline_schema() -> bool {
        T::inline_schema()
    }

    fn schema_name(alloc: Global) -> Result<CowStr<'static>, AllocError> {
        T::schema_name(alloc)
    }

    fn schema_id(alloc: Global) -> Result<CowStr<'static>, AllocError> {
        T::schema_id(alloc)
    }

    fn json_schema(alloc: Global, types: &mut Types) -> Result<TypeEntry, TypesError> {
        T::json_schema(alloc, types)
    }
}

impl<T: JsonSchema> JsonSchema for Cell<T> {
    ghost says = { T.says };

    fn inline_schema() -> bool {
        T::inline_schema()
    }

    fn schema_name(alloc: Global) -> Result<CowStr<'static>, AllocError> {
        T::schema_name(alloc)
    }

    fn schema_id(alloc: Global) -> Result<CowStr<'static>, AllocError> {
        T::schema_id(alloc)
    }

    fn json_schema(alloc: Global, types: &mut Types) -> Result<TypeEntry, TypesError> {
        T::json_schema(alloc, types)
    }
}

impl<T: JsonSchema> JsonSchema for RefCell<T> {
    ghost says = { T.says };

    fn inline_schema() -> bool {
        T::inline_schema()
    }

    fn schema_name(alloc: Global) -> Result<CowStr<'static>, AllocError> {
        T::schema_name(alloc)
    }

    fn schema_id(alloc: Global) -> Result<CowStr<'static>, AllocError> {
        T::schema_id(alloc)
    }

    fn json_schema(alloc: Global, types: &mut Types) -> Result<TypeEntry, TypesError> {
        T::json_schema(alloc, types)
    }
}

impl<T: JsonSchema> JsonSchema for Cow<'_, T> {
    ghost says = { T.says };

    fn inline_schema() -> bool {
        T::inline_schema()
    }

    fn schema_name(alloc: Global) -> Result<CowStr<'static>, AllocError> {
        T::schema_name(alloc)
    }

    fn schema_id(alloc: Global) -> Result<CowStr<'static>, AllocError> {
        T::schema_id(alloc)
    }

    fn json_schema(alloc: Global, types: &mut Types) -> Result<TypeEntry, TypesError> {
        T::json_schema(alloc, types)
    }
}

impl<T: JsonSchema> JsonSchema for Reverse<T> {
    ghost says = { T.says };

    fn inline_schema() -> bool {
        T::inline_schema()
    }

    fn schema_name(alloc: Global) -> Result<CowStr<'static>, AllocError> {
        T::schema_name(alloc)
    }

    fn schema_id(alloc: Global) -> Result<CowStr<'static>, AllocError> {
        T::schema_id(alloc)
    }

    fn json_schema(alloc: Global, types: &mut Types) -> Result<TypeEntry, TypesError> {
        T::json_schema(alloc, types)
    }
}

impl<T: JsonSchema> JsonSchema for &T {
    ghost says = { T.says };

    fn inline_schema() -> bool {
        T::inline_schema()
    }

    fn schema_name(alloc: Global) -> Result<CowStr<'static>, AllocError> {
        T::schema_name(alloc)
    }

    fn schema_id(alloc: Global) -> Result<CowStr<'static>, AllocError> {
        T::schema_id(alloc)
    }

    fn json_schema(alloc: Global, types: &mut Types) -> Result<TypeEntry, TypesError> {
        T::json_schema(alloc, types)
    }
}

impl<T: JsonSchema> JsonSchema for &mut T {
    ghost says = { T.says };

    fn inline_schema() -> bool {
        T::inline_schema()
    }

    fn schema_name(alloc: Global) -> Result<CowStr<'static>, AllocError> {
        T::schema_name(alloc)
    }

    fn schema_id(alloc: Global) -> Result<CowStr<'static>, AllocError> {
        T::schema_id(alloc)
    }

    fn json_schema(alloc: Global, types: &mut Types) -> Result<TypeEntry, TypesError> {
        T::json_schema(alloc, types)
    }
}
