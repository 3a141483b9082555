//! What the attributes of serde and schemars say of a type, a field or a variant.
#![tactic(auto)]

mod case;
mod container;
mod context;
mod docs;
mod field;
mod lists;
mod names;
mod notes;
mod shared;
mod validation;
mod values;
mod variant;

pub use case::Case;
pub use container::{ContainerOptions, container_options};
pub use context::{Context, Contract};
pub use field::{FieldOptions, field_options};
pub use lists::{UNDECIDED, derives};
pub use names::{Cases, Names, name_of};
pub use notes::{Note, Notes};
pub use shared::{DefaultValue, Presence, is_present};
pub use validation::{Rule, RuleKind, Validation};
pub use values::push_quoted;
pub use variant::{VariantOptions, variant_options};
