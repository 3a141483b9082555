//! Whether a schema in parts is JSON of 64-bit whole numbers.
ghost use Rattle.std.specs.Prelude.{IsTrue, IsUtf8};
ghost use Rattle.schemars_schema.specs.Json.{IsWholeJson, AreWholeJson, AreWholeJsonMembers};
ghost use Rattle.schemars_parts.specs.Assembled.{assembled_view, items_assembled, members_assembled};

use crate::assembled::Assembled;
use crate::members::is_ascending;
use schemars_definitions::is_json;
use serde_json::Value;

/// Whether the part is JSON of 64-bit whole numbers. `false` says nothing.
#[cycle(is_whole)]
pub fn is_whole(part: &Assembled<'_>) -> bool
    ensures { IsTrue result → IsWholeJson (assembled_view part.now) }
{
    match part {
        Assembled::Value(value) => is_json(value),
        Assembled::Null | Assembled::Bool(_) => true,
        Assembled::Integer(number) => is_json(&Value::from(*number)),
        Assembled::Text(text) => is_text(text),
        Assembled::Reference(target) => is_text(target),
        Assembled::List(parts) => are_whole(parts),
        Assembled::Object(members) => members_are_whole(members),
    }
}

// The bytes of a `str` are UTF-8.
fn is_text(text: &str) -> bool
    ensures { IsTrue result → IsUtf8 text.now }
{
    let _text = text;
    true
}

#[cycle(is_whole)]
fn are_whole(parts: &Vec<Assembled<'_>>) -> bool
    ensures { IsTrue result → AreWholeJson (items_assembled parts.now.items) }
{
    for part in parts {
        if !is_whole(part) {
            return false;
        }
    }
    true
}

#[cycle(is_whole)]
fn members_are_whole<'t>(members: &Vec<(&'t str, Assembled<'t>)>) -> bool
    ensures { IsTrue result → AreWholeJsonMembers (members_assembled members.now.items) }
{
    if !is_ascending(members) {
        return false;
    }
    for (name, part) in members {
        if !(is_text(name) && is_whole(part)) {
            return false;
        }
    }
    true
}
