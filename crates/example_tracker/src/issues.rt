//! Issues, and what happens to them.
use crate::people::Actor;
use crate::values::Label;
use jiff::Timestamp;
use uuid::Uuid;

/// What an issue is referred to by.
// derive(JsonSchema)
pub struct IssueId {
    pub id: Uuid,
    pub number: u32,
}

/// When something was written, and when it was last changed.
// derive(JsonSchema)
pub struct Audit {
    pub created: Timestamp,
    // serde(skip_serializing_if = "Option::is_none")
    pub updated: Option<Timestamp>,
}

/// Whether an issue is open. The variants are tagged by the member `state`.
// derive(JsonSchema)
// serde(tag = "state", rename_all = "snake_case")
pub enum State {
    /// to be worked on
    Open,
    /// done, or given up for this reason
    Closed {
        // serde(flatten)
        audit: Audit,
        reason: Option<String>,
    },
    /// the same as another issue
    Duplicate(IssueId),
}

/// What has happened to an issue. Its name is under `kind`, and the rest under `value`.
// derive(JsonSchema)
// serde(tag = "kind", content = "value", rename_all = "snake_case")
pub enum Change {
    /// it was opened again
    Reopened,
    /// it has another title
    Renamed(String),
    /// it is worked on by the second in place of the first
    Handed(Actor, Actor),
}

/// A note on an issue, and the notes on it. The members of its audit are among its own.
// derive(JsonSchema)
pub struct Note {
    pub by: Actor,
    pub text: String,
    pub notes: Vec<Note>,
    // serde(flatten)
    pub audit: Audit,
}

/// An issue. The members of its id are among its own.
// derive(JsonSchema)
pub struct Issue {
    pub title: String,
    pub state: State,
    pub labels: Vec<Label>,
    pub notes: Vec<Note>,
    pub history: Vec<Change>,
    // serde(flatten)
    pub id: IssueId,
}
