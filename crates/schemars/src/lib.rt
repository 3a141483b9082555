//! Generates JSON Schema documents from tables of types.
//!
//! A table says which JSON values each type has, and the root document of a type accepts exactly
//! those: that is the contract of `SchemaGenerator::root_schema_for_type`, and of
//! `root_schema_for`, which adds a type to the table first.
#![tactic(auto)]

pub mod builders;
pub mod impls;
mod macros;
pub mod schema;
pub mod transform;
pub mod types;
pub mod validate;

pub use impls::JsonSchema;
pub use schema::Schema;
pub use schemars_generate::{GenerateError, generate};
pub use schemars_sample::sample;
pub use schemars_schema::{consts, encoding};
pub use schemars_types::Contract;
use transform::Transform;

/// A generator with boxed user-defined transforms of any type.
///
/// `generate::SchemaGenerator<O>` is one with user-defined transforms of type `O`.
pub type SchemaGenerator = generate::SchemaGenerator<Box<dyn Transform + Drop>>;

/// The settings of a generator with boxed user-defined transforms of any type.
///
/// `generate::SchemaSettings<O>` are those with user-defined transforms of type `O`.
pub type SchemaSettings = generate::SchemaSettings<Box<dyn Transform + Drop>>;
