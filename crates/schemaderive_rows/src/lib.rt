//! The rows of types as a source has them: those that it declares, and what is made of others.
#![tactic(auto)]

mod builder;
mod containers;
mod foreign;
mod instances;
mod parameters;
mod resolving;
mod types;

pub use builder::{Binding, Builder, Instance, Item, Scope, Value};
pub use instances::Standing;
pub use parameters::{CLOSING, OPENING, one_field, used_parameters};
pub use resolving::Resolved;
