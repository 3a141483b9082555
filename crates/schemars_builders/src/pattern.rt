//! Texts in regular expressions.
ghost use Rattle.std.specs.Prelude.{◌≡◌, ◌++◌, IfOk, OnOk, string_bytes};
ghost use Rattle.std.specs.Char.{encode_utf8};
ghost use Rattle.schemars_builders.specs.Pattern.{is_special, escaped, unescaped};

use std::alloc::{AllocError, Global};

/// Returns the text with a backslash before each character that has a meaning in a regular
/// expression: `\ . + * ? ( ) | [ ] { } ^ $ # & - ~`.
pub fn escape(alloc: Global, text: &str) -> Result<String, AllocError>
    ensures escaped { IfOk result (λ pattern. string_bytes pattern ≡ escaped text.now) }
    ensures law { IfOk result (λ pattern. unescaped (string_bytes pattern) ≡ text.now) }
{
    let mut pattern = String::new(alloc);
    for character in text.chars() {
        push_escaped(&mut pattern, character)?;
    }
    Ok(pattern)
}

fn push_escaped(pattern: &mut String, character: char) -> Result<(), AllocError>
    ensures { OnOk result (string_bytes pattern.new
        ≡ string_bytes pattern.old ++ escaped (encode_utf8 character)) }
{
    if is_special(character) {
        pattern.push('\\')?;
    }
    pattern.push(character)
}

fn is_special(character: char) -> bool
    ensures { result ≡ is_special character }
{
    [
        '\\', '.', '+', '*', '?', '(', ')', '|', '[', ']', '{', '}', '^', '$', '#', '&', '-', '~',
    ]
    .contains(&character)
}
