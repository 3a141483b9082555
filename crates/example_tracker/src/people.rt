//! Who uses a tracker.
use url::Url;
use uuid::Uuid;

/// Somebody with an account.
// derive(JsonSchema)
pub struct User {
    pub id: Uuid,
    pub name: String,
    /// a page of their own
    // serde(skip_serializing_if = "Option::is_none")
    pub page: Option<Url>,
}

/// Who has done something. The variants are tagged by their names.
// derive(JsonSchema)
// serde(rename_all = "snake_case")
pub enum Actor {
    /// the tracker itself
    System,
    /// somebody with an account
    User(User),
    /// a program, by its name and its version
    Program(String, u32),
    /// somebody without an account
    Guest {
        name: String,
        // serde(skip_serializing_if = "Option::is_none")
        mail: Option<String>,
    },
}
