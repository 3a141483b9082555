//! Texts among parts.
ghost use Rattle.std.specs.Prelude.{◌≡◌};
ghost use Rattle.schemars_parts.specs.Words.{as_str, holds_text, is_text, assembled_view, items_assembled};

use crate::assembled::Assembled;
use schemars_schema::edits::is_text;

/// Whether the part is this text.
pub fn is_text_part(part: &Assembled<'_>, text: &str) -> bool
    ensures { result ≡ is_text text.now (as_str (assembled_view part.now)) }
{
    match part {
        Assembled::Text(found) => *found == text,
        Assembled::Value(value) => is_text(value, text),
        _ => false,
    }
}

/// Whether one of the parts is this text.
pub fn holds_text(parts: &[Assembled<'_>], text: &str) -> bool
    ensures { result ≡ holds_text text.now (items_assembled parts.now) }
{
    for part in parts {
        if is_text_part(part, text) {
            return true;
        }
    }
    false
}
