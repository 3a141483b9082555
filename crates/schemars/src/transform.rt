//! Transforms: changes of schemas, at one or at each of the schemas inside.
pub use schemars_transform::{
    AddNullable, GenTransform, NoTransform, RemoveRefSiblings, ReplaceBoolSchemas,
    ReplaceConstValue, ReplacePrefixItems, ReplaceUnevaluatedProperties, RestrictFormats,
    SetSingleExample,
};
pub use schemars_walk::{
    DEPTH_LIMIT, FnTransform, RecursiveTransform, Transform, TransformError, on_value,
    transform_subschemas,
};
