//! Macros for the bodies of functions.

/// The root document of a type that implements `JsonSchema`, by a generator with the default
/// settings: `schema_for!(in alloc; T)` answers what `SchemaGenerator::into_root_schema_for::<T>`
/// answers.
#[macro_export]
macro_rules! schema_for {
    (in $alloc:expr; $type:ty) => {{
        let alloc = $alloc;
        let generator =
            $crate::generate::SchemaGenerator::<$crate::transform::NoTransform>::default(alloc);
        generator.into_root_schema_for::<$type>(alloc)
    }};
}

/// The root document of an example value, a `Sample`, by a generator with the default settings:
/// `schema_for_value!(in alloc; sample)` answers what `SchemaGenerator::into_root_schema_for_value`
/// answers.
#[macro_export]
macro_rules! schema_for_value {
    (in $alloc:expr; $value:expr) => {{
        let alloc = $alloc;
        let generator =
            $crate::generate::SchemaGenerator::<$crate::transform::NoTransform>::default(alloc);
        generator.into_root_schema_for_value(alloc, &$value)
    }};
}

/// A schema that is written as JSON: `json_schema!(in alloc; {"type": "null"})`, or with `true` or
/// `false` in place of the object. What is inside the object is written as for `serde_json::json!`,
/// also with the values of expressions. It answers a `Result<Schema, AllocError>`.
#[macro_export]
macro_rules! json_schema {
    (in $alloc:expr; true) => {{
        let _alloc = $alloc;
        let schema: std::result::Result<$crate::Schema, std::alloc::AllocError> =
            Ok($crate::Schema::from(true));
        schema
    }};
    (in $alloc:expr; false) => {{
        let _alloc = $alloc;
        let schema: std::result::Result<$crate::Schema, std::alloc::AllocError> =
            Ok($crate::Schema::from(false));
        schema
    }};
    (in $alloc:expr; {$($members:tt)*}) => {{
        let alloc = $alloc;
        let schema: std::result::Result<$crate::Schema, std::alloc::AllocError> = 'schema: {
            let mut members = serde_json::Map::new(alloc);
            serde_json::json_internal!(@object alloc 'schema members $($members)*);
            Ok($crate::Schema::from(members))
        };
        schema
    }};
}
