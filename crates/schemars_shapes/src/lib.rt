//! The shapes of types, when two are equal, and which rows of a table a shape refers to.
#![tactic(auto)]

mod any_variant;
mod clone;
mod edges;
mod shape;
mod variant;

pub use any_variant::{AnyPayload, AnyVariant};
pub use edges::names::first_repeated;
pub use edges::rows::Rows;
pub use edges::shape::{first_unknown, repeated_name, rows};
pub use edges::unknown::first_unknown_among;
pub use shape::{
    Field, Fields, Flattened, IntKind, IntegerKeys, Required, Shape, TypeEntry, TypeNo,
};
pub use variant::{
    Adjacent, Internal, InternalPayload, InternalVariant, Payload, Variant, is_bare_unit,
};
