//! A tracker with its areas.
use crate::issues::Issue;
use crate::people::User;
use crate::values::{FieldValue, Priority};
use std::collections::BTreeMap;
use url::Url;

/// An area with its issues, and the areas that are parts of it by their names.
// derive(JsonSchema)
pub struct Area {
    pub page: Url,
    pub priority: Priority,
    pub issues: Vec<Issue>,
    // serde(default, skip_serializing_if = "BTreeMap::is_empty")
    pub parts: BTreeMap<String, Area>,
}

/// # An issue tracker
///
/// All that it keeps.
// derive(JsonSchema)
pub struct Tracker {
    pub users: Vec<User>,
    /// the areas by their names
    pub areas: BTreeMap<String, Area>,
    /// the values of the fields that it defines itself
    // serde(default)
    pub settings: BTreeMap<String, FieldValue>,
}
