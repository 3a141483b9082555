//! Schemas from example values.
#![tactic(auto)]

mod json;
pub mod sample;
mod schema;

pub use json::json_of;
pub use sample::Sample;
pub use schema::root_document;
