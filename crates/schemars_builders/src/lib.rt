//! Builders: functions that make a schema, or add to one.
#![tactic(auto)]

mod documentation;
mod keywords;
mod null;
mod pattern;
mod properties;
mod variants;

pub use documentation::get_title_and_description;
pub use keywords::{
    insert_metadata_property_if_nonempty, insert_validation_property, must_contain,
};
pub use null::allow_null;
pub use pattern::escape;
pub use properties::{apply_internal_enum_variant_tag, insert_object_property};
pub use variants::{new_externally_tagged_enum_variant, new_unit_enum_variant};
