//! The configuration of the tracker, which is a small server.

/// The configuration of a small server.
// derive(JsonSchema)
#[derive(Debug, Drop)]
pub struct Configuration {
    /// where it listens
    pub listen: String,
    /// how many requests it works at a time
    pub workers: u16,
    /// what it is labelled with
    pub tags: Vec<String>,
    /// how much a client may ask for
    // serde(skip_serializing_if = "Option::is_none")
    pub limits: Option<Limits>,
}

/// How much a client may ask for.
// derive(JsonSchema)
#[derive(Clone, Copy, Debug)]
pub struct Limits {
    /// how many requests
    pub requests: u16,
    /// in how many seconds; in none, at a time
    // serde(skip_serializing_if = "Option::is_none")
    pub seconds: Option<u16>,
}
