//! A schema in parts, which are borrowed from a template and its answers.

use serde_json::Value;

/// JSON, part by part.
#[derive(Drop)]
pub enum Assembled<'t> {
    /// A JSON value.
    Value(&'t Value),
    /// Null.
    Null,
    /// A truth value.
    Bool(bool),
    /// A whole number.
    Integer(i64),
    /// A text.
    Text(&'t str),
    /// A schema that is a reference to this target.
    Reference(&'t str),
    /// A list.
    List(Vec<Assembled<'t>>),
    /// Members in the order of their names. Where one is out of order no text is made.
    Object(Vec<(&'t str, Assembled<'t>)>),
}
