//! Types of many parts with documentation each, and one that contains itself in three ways.
use std::collections::{BTreeMap, BTreeSet};

/// A figure in a drawing.
// derive(JsonSchema)
pub enum Figure {
    /// nothing at all
    Empty,
    /// a figure of another drawing, by its name
    Named(String),
    /// a line between two points
    Line(i32, i32),
    /// a circle
    Circle {
        /// where it is
        at: i32,
        /// how big it is
        radius: Option<u32>,
    },
}

/// The settings of a mail server.
// derive(JsonSchema)
pub struct Settings {
    /// where it listens
    listen: String,
    /// how many connections it takes
    connections: u32,
    /// how many seconds it waits
    // serde(default)
    timeout: u16,
    /// for whom it takes mail
    domains: Vec<String>,
    /// where it sends the rest
    relay: Option<String>,
    /// how many bytes a letter has at most
    bytes: u64,
    /// whether it wants a password
    is_closed: bool,
    /// what it calls itself
    // serde(rename = "hello")
    greeting: String,
    /// how many letters a client may send in a minute
    rate: f64,
    /// who has another limit
    limits: BTreeMap<String, u32>,
    /// what it writes down
    logs: BTreeSet<String>,
    /// the figure on its pages
    figure: Option<Figure>,
}

/// A tree whose branches have three forms.
// derive(JsonSchema)
pub struct Branching<T> {
    value: T,
    left: Option<Box<Branching<T>>>,
    more: Vec<Branching<T>>,
    named: BTreeMap<String, Branching<T>>,
}

/// All of them.
// derive(JsonSchema)
pub struct All {
    figure: Figure,
    settings: Settings,
    numbers: Branching<u8>,
    texts: Branching<String>,
}
