//! Texts as JSON strings.
ghost use Rattle.std.specs.Prelude.{◌≡◌, ◌++◌, string_bytes, OnOk, OnErr};
ghost use Rattle.json.specs.Print.{quoted};

use crate::gathered::plain_len;
use crate::output::Output;
use json::Token;
use std::alloc::{AllocError, Global};

/// Adds a text as a JSON string (RFC 8259, section 7), with the shortest escapes.
///
/// # Errors
///
/// `AllocError` if memory is exhausted: nothing was added.
pub fn push_quoted(out: &mut String, alloc: Global, text: &str) -> Result<(), AllocError>
    ensures ok { OnOk result (string_bytes out.new ≡ string_bytes out.old ++ quoted text.now) }
    ensures err { OnErr result (string_bytes out.new ≡ string_bytes out.old) }
{
    if plain_len(text.as_bytes()) < text.len() {
        let mut escaped = Output::with_capacity(alloc, text.len())?;
        escaped.token(Token::String(text))?;
        return out.push_str(escaped.into_string().as_str());
    }
    out.reserve(text.len().saturating_add(2))?;
    out.push('"')?;
    out.push_str(text)?;
    out.push('"')
}
