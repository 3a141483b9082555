//! The built-in transforms, and the list of transforms that settings hold.
#![tactic(auto)]

mod apply;
mod built_in;
mod copies;
mod error;
mod gen_transform;
mod needs;
mod no_transform;

pub use apply::{apply_all, apply_needed, apply_to_members, are_idle};
pub use built_in::bool_schemas::ReplaceBoolSchemas;
pub use built_in::const_value::ReplaceConstValue;
pub use built_in::formats::RestrictFormats;
pub use built_in::inner::apply_inner_validation;
pub use built_in::nullable::AddNullable;
pub use built_in::prefix_items::ReplacePrefixItems;
pub use built_in::ref_siblings::RemoveRefSiblings;
pub use built_in::single_example::SetSingleExample;
pub use built_in::unevaluated::ReplaceUnevaluatedProperties;
pub use copies::try_clone_all;
pub use error::CloneError;
pub use gen_transform::GenTransform;
pub use needs::{Keyword, Needs, needs_of};
pub use no_transform::NoTransform;
