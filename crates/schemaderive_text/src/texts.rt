//! Texts and JSON values, as they are written in Rattle.
use std::alloc::{AllocError, Global};

/// Adds texts, one behind the other.
pub fn push_all(out: &mut String, texts: &[&str]) -> Result<(), AllocError> {
    for text in texts {
        out.push_str(text)?;
    }
    Ok(())
}

/// Texts, one behind the other.
pub fn joined(alloc: Global, texts: &[&str]) -> Result<String, AllocError> {
    let mut out = String::new(alloc);
    push_all(&mut out, texts)?;
    Ok(out)
}

/// A text as a literal.
pub fn literal(alloc: Global, text: &str) -> Result<String, AllocError> {
    let mut out = String::new(alloc);
    push_literal(alloc, &mut out, text)?;
    Ok(out)
}

/// Adds a text as a literal.
pub fn push_literal(alloc: Global, out: &mut String, text: &str) -> Result<(), AllocError> {
    out.push('"')?;
    for c in text.chars() {
        match c {
            '"' => out.push_str("\\\"")?,
            '\\' => out.push_str("\\\\")?,
            '\n' => out.push_str("\\n")?,
            '\r' => out.push_str("\\r")?,
            '\t' => out.push_str("\\t")?,
            c if c < ' ' => push_code(alloc, out, c)?,
            c => out.push(c)?,
        }
    }
    out.push('"')
}

fn push_code(alloc: Global, out: &mut String, c: char) -> Result<(), AllocError> {
    let code = u32::from(c);
    let escape = format!(in alloc; "\\u{{{code:x}}}")?;
    out.push_str(escape.as_str())
}

/// Adds a text to a pattern, in which braces stand for what is put in.
pub fn push_escaped(pattern: &mut String, text: &str) -> Result<(), AllocError> {
    for c in text.chars() {
        if c == '{' || c == '}' {
            pattern.push(c)?;
        }
        pattern.push(c)?;
    }
    Ok(())
}

// How far JSON is written.
#[derive(Clone, Copy)]
enum Reached {
    // between texts and numbers
    Between,
    // in a text
    Text,
    // behind a backslash
    Escape,
    // in an escape of so many digits more
    Code(u8),
    // in a number of so many digits, and whether it is a whole one and below 0
    Number(usize, bool, bool),
}

/// A JSON value as the argument of `json!`, and a JSON text as a literal.
pub fn json_argument(alloc: Global, json: &str) -> Result<String, AllocError> {
    let mut out = String::new(alloc);
    push_json(&mut out, json)?;
    Ok(out)
}

fn push_json(out: &mut String, json: &str) -> Result<(), AllocError> {
    let mut reached = Reached::Between;
    for c in json.chars() {
        let before = reached;
        reached = reached.behind(c);
        out.push_str(before.end(reached))?;
        out.push(c)?;
        out.push_str(before.filler(c))?;
    }
    out.push_str(reached.end(Reached::Between))
}

impl Reached {
    // How far it is behind the next character.
    fn behind(self, c: char) -> Reached {
        match self {
            Reached::Text => match c {
                '\\' => Reached::Escape,
                '"' => Reached::Between,
                _ => Reached::Text,
            },
            Reached::Escape if c == 'u' => Reached::Code(4),
            Reached::Escape | Reached::Code(1) => Reached::Text,
            Reached::Code(digits) => Reached::Code(digits.saturating_sub(1)),
            Reached::Number(digits, is_whole, is_below) if c.is_ascii_digit() => {
                Reached::Number(digits.saturating_add(1), is_whole, is_below)
            }
            Reached::Number(digits, _, is_below) if is_in_number(c) => {
                Reached::Number(digits, false, is_below)
            }
            Reached::Between | Reached::Number(..) => match c {
                '"' => Reached::Text,
                '-' => Reached::Number(0, true, true),
                c if c.is_ascii_digit() => Reached::Number(1, true, false),
                _ => Reached::Between,
            },
        }
    }

    // The type of a number that is none of 32 bits, if it ends before this.
    fn end(self, next: Reached) -> &'static str {
        match (self, next) {
            (_, Reached::Number(..)) => "",
            (Reached::Number(digits, true, true), _) if digits > 9 => "i64",
            (Reached::Number(digits, true, false), _) if digits > 9 => "u64",
            _ => "",
        }
    }

    // What is written behind the next character.
    fn filler(self, c: char) -> &'static str {
        match (self, c) {
            (Reached::Escape, 'u') => "{",
            (Reached::Code(1), _) => "}",
            (Reached::Between | Reached::Number(..), ',' | ':') => " ",
            _ => "",
        }
    }
}

// Whether a number has this behind its first digits, besides digits.
fn is_in_number(c: char) -> bool {
    matches!(c, '.' | 'e' | 'E' | '+' | '-')
}
