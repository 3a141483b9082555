//! Builders: rewrites of finished schemas, what rows are in the documents of others, and what is
//! read in documentation.
pub use schemars_builders::{
    allow_null, apply_internal_enum_variant_tag, escape, get_title_and_description,
    insert_metadata_property_if_nonempty, insert_object_property, insert_validation_property,
    must_contain, new_externally_tagged_enum_variant, new_unit_enum_variant,
};
pub use schemars_flatten::flatten;
pub use schemars_generate::builders::{
    json_schema_for_flatten, json_schema_for_internally_tagged_enum_newtype_variant,
};
pub use schemars_transform::apply_inner_validation;
