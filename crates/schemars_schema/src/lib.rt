//! Schemas as JSON values: their members, JSON Pointers into them, their equality and their text.
#![tactic(auto)]

pub mod consts;
pub mod edits;
pub mod encoding;
mod equality;
mod error;
pub mod keywords;
mod numbers;
pub mod schema;

pub use equality::{json_eq, json_same, json_same_members};
pub use error::NotASchema;
pub use numbers::numbers_eq;
pub use schema::Schema;
pub use schemars_text::{Failed, OrderedError, Sink, SinkOf};
