//! JSON Schema documents and the schemas inside them.
pub use schemars_schema::schema::{
    Schema, definitions_to_ordered_string, write_ordered_definitions,
};
pub use schemars_schema::{Failed, NotASchema, OrderedError, Sink, SinkOf, json_eq};
