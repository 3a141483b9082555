//! Notes: the annotations of rows, fields and variants.
ghost use Rattle.std.specs.Prelude.{◌≡◌, ◌↔◌, IsTrue};
ghost use Rattle.schemars_plain.specs.Words.{members_view, is_annotation, AreNotes, is_none};

use schemars_schema::edits::is_listed;
use serde_json::{Map, Value};

const ANNOTATIONS: [&str; 8] = [
    "title",
    "description",
    "format",
    "default",
    "examples",
    "deprecated",
    "readOnly",
    "writeOnly",
];

/// Returns whether a keyword is an annotation, which says nothing of a value.
pub fn is_annotation(key: &str) -> bool
    ensures { result ≡ is_annotation key.now }
{
    is_listed(key, &ANNOTATIONS) || key.starts_with("x-")
}

/// Returns whether all members are annotations.
pub fn are_notes(notes: &Map<String, Value>) -> bool
    ensures { IsTrue result ↔ AreNotes (members_view notes.now.entries) }
{
    for (key, _) in notes.iter() {
        if !is_annotation(key.as_str()) {
            return false;
        }
    }
    true
}

/// Whether there are no notes.
pub fn has_no_notes(notes: &Map<String, Value>) -> bool
    ensures { result ≡ is_none (members_view notes.now.entries) }
{
    notes.is_empty()
}
