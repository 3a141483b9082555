//! Labels, priorities and the values of fields that a tracker defines itself.

/// A word that issues are found by.
// derive(JsonSchema)
pub struct Label(pub String);

/// How soon an issue is to be worked on.
// derive(JsonSchema)
// serde(rename_all = "snake_case")
pub enum Priority {
    /// when there is time
    Low,
    /// in its turn
    Normal,
    /// before all others
    Urgent,
}

/// # The value of a field
///
/// A tracker defines such fields itself. The value is not tagged.
// derive(JsonSchema)
// serde(untagged)
pub enum FieldValue {
    /// a truth value
    Flag(bool),
    /// a whole number
    Number(i64),
    /// a text
    Text(String),
    /// several values
    List(Vec<FieldValue>),
}
