//! Templates, and what the documents of rows are made from.
pub mod basis;

pub use schemars_templates::template::{
    Ask, Scalar, SchemaNode, SchemaTemplate, Tag, ValueTemplate, fill, nodes,
};
