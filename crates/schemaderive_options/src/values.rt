//! Values that attributes give, as JSON text.
use crate::context::Context;
use schemaderive_syntax::{Cursor, Fault, Meta, MetaValue, TokenKind};
use std::alloc::{AllocError, Global};

// How deep values may nest.
const MAX_DEPTH: usize = 64;

// The words that are values.
const CONSTANTS: [&str; 3] = ["true", "false", "null"];

/// Writes a text as a JSON string.
pub fn push_quoted(alloc: Global, out: &mut String, text: &str) -> Result<(), AllocError> {
    out.push('"')?;
    for c in text.chars() {
        match letter_of(c) {
            Some(letter) => {
                out.push('\\')?;
                out.push(letter)?;
            }
            None if c < ' ' => push_code(alloc, out, c)?,
            None => out.push(c)?,
        }
    }
    out.push('"')
}

// What is behind the backslash of a character that has an escape of its own.
fn letter_of(c: char) -> Option<char> {
    match c {
        '"' | '\\' => Some(c),
        '\n' => Some('n'),
        '\r' => Some('r'),
        '\t' => Some('t'),
        _ => None,
    }
}

// Writes the escape of a control character.
fn push_code(alloc: Global, out: &mut String, c: char) -> Result<(), AllocError> {
    let code = u32::from(c);
    let escape = format!(in alloc; "\\u{code:04x}")?;
    out.push_str(escape.as_str())
}

/// The text that an attribute has behind `=`.
///
/// # Errors
///
/// It has none, or the text is computed.
pub fn text_of(context: &Context, meta: &Meta<'_>) -> Result<String, Fault> {
    let found = match meta.value {
        MetaValue::Doc(text) => Some(String::from_str(context.alloc, text)?),
        MetaValue::Equals(cursor) => literal_text(context, cursor)?,
        _ => return Err(context.refused_meta(meta, "a text is wanted here")),
    };
    wanted_text(context, meta, found)
}

/// The text that was found.
///
/// # Errors
///
/// None was.
pub fn wanted_text(
    context: &Context,
    meta: &Meta<'_>,
    found: Option<String>,
) -> Result<String, Fault> {
    match found {
        Some(text) => Ok(text),
        None => Err(context.refused_meta(meta, "a literal text is wanted here")),
    }
}

/// The text of a literal, or of literals in `concat!`.
pub fn literal_text(context: &Context, tokens: Cursor<'_>) -> Result<Option<String>, Fault> {
    let mut cursor = tokens;
    if cursor.is_word("concat") && cursor.is_symbol(1, '!') {
        let _ = cursor.advance();
        let _ = cursor.advance();
        let inside = cursor.group();
        return Ok(joined_text(context, inside)?);
    }
    let _ = cursor.take_symbol('&');
    match cursor.advance() {
        Some(token) if token.kind == TokenKind::Text && cursor.is_empty() => Ok(Some(
            String::from_str(context.alloc, token.text.as_str())?,
        )),
        _ => Ok(None),
    }
}

// The texts in a list, one behind the other.
fn joined_text(context: &Context, list: Cursor<'_>) -> Result<Option<String>, AllocError> {
    let mut text = String::new(context.alloc);
    let are_texts = push_texts(list, &mut text)?;
    Ok(if are_texts { Some(text) } else { None })
}

// Writes the texts in a list; false if one of its items is none.
fn push_texts(list: Cursor<'_>, out: &mut String) -> Result<bool, AllocError> {
    let mut cursor = list;
    for _ in 0..list.len() {
        match cursor.advance() {
            None => break,
            Some(token) if token.kind == TokenKind::Text => out.push_str(token.text.as_str())?,
            Some(_) => return Ok(false),
        }
        let _ = cursor.take_symbol(',');
    }
    Ok(true)
}

/// The value that an attribute has behind `=`, as JSON.
///
/// # Errors
///
/// It has none, or the value is computed.
pub fn json_of(context: &Context, meta: &Meta<'_>) -> Result<String, Fault> {
    let MetaValue::Equals(value) = meta.value else {
        return Err(context.refused_meta(meta, "a value is wanted here"));
    };
    let mut cursor = value;
    let mut json = String::new(context.alloc);
    let is_read = push_value(context, &mut cursor, &mut json, MAX_DEPTH)?;
    if is_read && cursor.is_empty() {
        return Ok(json);
    }
    let reason = "a literal is wanted here, since what an expression gives is not known";
    Err(context.refused_meta(meta, reason))
}

// Writes the value that comes next; false if it is computed.
#[cycle(values)]
fn push_value(
    context: &Context,
    cursor: &mut Cursor<'_>,
    out: &mut String,
    depth: usize,
) -> Result<bool, Fault> {
    let Some(token) = cursor.peek(0) else {
        return Ok(false);
    };
    if depth == 0 {
        return Err(context.refused(token.place, "nested too deeply"));
    }
    match token.kind {
        TokenKind::Text | TokenKind::Character => {
            let _ = cursor.advance();
            push_quoted(context.alloc, out, token.text.as_str())?;
            Ok(true)
        }
        TokenKind::Number => push_number(context, cursor, out, ""),
        TokenKind::Symbol('-') => {
            let _ = cursor.advance();
            push_number(context, cursor, out, "-")
        }
        TokenKind::Symbol('&') => {
            let _ = cursor.advance();
            push_value(context, cursor, out, depth - 1)
        }
        TokenKind::Symbol('[') => push_group(context, cursor, out, false, depth - 1),
        TokenKind::Symbol('{') => push_group(context, cursor, out, true, depth - 1),
        TokenKind::Word if CONSTANTS.contains(&token.text.as_str()) => {
            let _ = cursor.advance();
            out.push_str(token.text.as_str())?;
            Ok(true)
        }
        TokenKind::Word => push_macro(context, cursor, out, depth - 1),
        _ => Ok(false),
    }
}

// Writes the value in `json!`.
#[cycle(values)]
fn push_macro(
    context: &Context,
    cursor: &mut Cursor<'_>,
    out: &mut String,
    depth: usize,
) -> Result<bool, Fault> {
    if cursor.take_word("serde_json") && !cursor.take_colons() {
        return Ok(false);
    }
    if depth == 0 || !cursor.is_word("json") || !cursor.is_symbol(1, '!') {
        return Ok(false);
    }
    let _ = cursor.advance();
    let _ = cursor.advance();
    let mut inside = cursor.group();
    let is_read = push_value(context, &mut inside, out, depth - 1)?;
    Ok(is_read && inside.is_empty())
}

// Writes a list, or an object, whose values have keys; false if one of them is computed.
#[cycle(values)]
fn push_group(
    context: &Context,
    cursor: &mut Cursor<'_>,
    out: &mut String,
    is_object: bool,
    depth: usize,
) -> Result<bool, Fault> {
    let mut inside = cursor.group();
    out.push(if is_object { '{' } else { '[' })?;
    for number in 0..inside.len() {
        if inside.is_empty() {
            break;
        }
        if number > 0 {
            out.push(',')?;
        }
        if is_object && !push_key(context, &mut inside, out)? {
            return Ok(false);
        }
        if depth == 0 || !push_value(context, &mut inside, out, depth - 1)? {
            return Ok(false);
        }
        if !inside.take_symbol(',') && !inside.is_empty() {
            return Ok(false);
        }
    }
    out.push(if is_object { '}' } else { ']' })?;
    Ok(true)
}

// Writes the key that comes next; false if there is none.
fn push_key(context: &Context, cursor: &mut Cursor<'_>, out: &mut String) -> Result<bool, Fault> {
    match cursor.advance() {
        Some(token) if token.kind == TokenKind::Text && cursor.take_symbol(':') => {
            push_quoted(context.alloc, out, token.text.as_str())?;
            out.push(':')?;
            Ok(true)
        }
        _ => Ok(false),
    }
}

// Writes the number that comes next in decimal digits behind its sign; false if there is none, or one
// that is written otherwise.
fn push_number(
    context: &Context,
    cursor: &mut Cursor<'_>,
    out: &mut String,
    sign: &str,
) -> Result<bool, Fault> {
    let place = cursor.place();
    let mut digits = String::from_str(context.alloc, sign)?;
    let is_read = match cursor.advance() {
        Some(token) if token.kind == TokenKind::Number => {
            push_digits(&mut digits, token.text.as_str())?
        }
        _ => false,
    };
    if is_read && !is_in_json(digits.as_str()) {
        return Err(context.refused(place, "a document has no such number"));
    }
    out.push_str(digits.as_str())?;
    Ok(is_read)
}

// Whether a document has this number: a whole one of 64 bits, or one that is finite.
fn is_in_json(digits: &str) -> bool {
    if digits.contains(|c: char| c == '.' || c == 'e' || c == 'E') {
        return match digits.parse::<f64>() {
            Ok(number) => number.is_finite(),
            Err(_) => false,
        };
    }
    digits.parse::<u64>().is_ok() || digits.parse::<i64>().is_ok()
}

fn push_digits(out: &mut String, text: &str) -> Result<bool, AllocError> {
    if text.starts_with("0x") || text.starts_with("0b") || text.starts_with("0o") {
        return Ok(false);
    }
    let mut has_digit = false;
    let mut is_zero = false;
    for c in text.chars() {
        match c {
            'u' | 'i' | 'f' => break,
            '_' => {}
            '0' if !has_digit => is_zero = true,
            c => {
                if !has_digit && !c.is_ascii_digit() && is_zero {
                    out.push('0')?;
                }
                has_digit = true;
                out.push(c)?;
            }
        }
    }
    if !has_digit {
        out.push('0')?;
    }
    Ok(true)
}
