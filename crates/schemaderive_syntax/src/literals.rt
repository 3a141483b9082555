//! Texts, characters and numbers.
use crate::fault::{Fault, Place};
use crate::scanner::Scanner;
use std::alloc::AllocError;

/// The text up to the next quotation mark, with its escapes read. The first mark is behind.
///
/// # Errors
///
/// The text has no end, or an escape is none.
pub fn read_text(scanner: &mut Scanner, place: Place) -> Result<String, Fault> {
    let mut text = String::new(scanner.alloc);
    for _ in 0..scanner.len() {
        let at = scanner.place();
        match scanner.advance() {
            None => break,
            Some('"') => return Ok(text),
            Some('\\') => {
                if let Some(c) = read_escape(scanner, at)? {
                    text.push(c)?;
                }
            }
            Some('\r') if scanner.is_at('\n') => {}
            Some(c) => text.push(c)?,
        }
    }
    Err(scanner.refused(place, "this text has no end"))
}

/// The text of a raw literal, whose `r` is behind.
///
/// # Errors
///
/// The text has no end.
pub fn read_raw_text(scanner: &mut Scanner, place: Place) -> Result<String, Fault> {
    let mut hashes = 0usize;
    for _ in 0..scanner.len() {
        if !scanner.take('#') {
            break;
        }
        hashes = hashes.saturating_add(1);
    }
    if !scanner.take('"') {
        return Err(scanner.refused(place, "a raw text begins with a quotation mark"));
    }
    let mut text = String::new(scanner.alloc);
    for _ in 0..scanner.len() {
        match scanner.advance() {
            None => break,
            Some('"') if are_hashes(scanner, hashes) => {
                scanner.skip(hashes);
                return Ok(text);
            }
            Some(c) => text.push(c)?,
        }
    }
    Err(scanner.refused(place, "this text has no end"))
}

fn are_hashes(scanner: &Scanner, count: usize) -> bool {
    for ahead in 0..count {
        if scanner.peek(ahead) != Some('#') {
            return false;
        }
    }
    true
}

/// The character of an escape whose backslash is behind; none for a line break that is escaped.
///
/// # Errors
///
/// It is no escape of Rust.
pub fn read_escape(scanner: &mut Scanner, place: Place) -> Result<Option<char>, Fault> {
    match scanner.advance() {
        Some('n') => Ok(Some('\n')),
        Some('r') => Ok(Some('\r')),
        Some('t') => Ok(Some('\t')),
        Some('0') => Ok(Some('\0')),
        Some('\\') => Ok(Some('\\')),
        Some('\'') => Ok(Some('\'')),
        Some('"') => Ok(Some('"')),
        Some('x') => read_byte_escape(scanner, place),
        Some('u') => read_unicode_escape(scanner, place),
        Some('\n') | Some('\r') => {
            skip_blanks(scanner);
            Ok(None)
        }
        _ => Err(scanner.refused(place, "this is no escape")),
    }
}

fn skip_blanks(scanner: &mut Scanner) {
    for _ in 0..scanner.len() {
        match scanner.peek(0) {
            Some(' ' | '\t' | '\n' | '\r') => {
                let _ = scanner.advance();
            }
            _ => break,
        }
    }
}

fn read_byte_escape(scanner: &mut Scanner, place: Place) -> Result<Option<char>, Fault> {
    let mut code = 0u32;
    for _ in 0..2 {
        match digit_of(scanner.advance()) {
            Some(digit) => code = code.saturating_mul(16).saturating_add(digit),
            None => return Err(scanner.refused(place, "this is no escape")),
        }
    }
    match char::from_u32(code) {
        Some(c) => Ok(Some(c)),
        None => Err(scanner.refused(place, "this is no escape")),
    }
}

fn read_unicode_escape(scanner: &mut Scanner, place: Place) -> Result<Option<char>, Fault> {
    if !scanner.take('{') {
        return Err(scanner.refused(place, "this is no escape"));
    }
    let mut code = 0u32;
    for _ in 0..16 {
        match scanner.advance() {
            Some('}') => break,
            Some('_') => {}
            c => match digit_of(c) {
                Some(digit) => code = code.saturating_mul(16).saturating_add(digit),
                None => return Err(scanner.refused(place, "this is no escape")),
            },
        }
    }
    match char::from_u32(code) {
        Some(c) => Ok(Some(c)),
        None => Err(scanner.refused(place, "this is no escape")),
    }
}

fn digit_of(character: Option<char>) -> Option<u32> {
    character?.to_digit(16)
}

/// A number, as it is written.
pub fn read_number(scanner: &mut Scanner) -> Result<String, AllocError> {
    let mut text = String::new(scanner.alloc);
    let hexadecimal = scanner.is_at('0') && scanner.peek(1) == Some('x');
    for _ in 0..scanner.len() {
        match scanner.peek(0) {
            Some(c) if c.is_ascii_alphanumeric() || c == '_' => {
                let _ = scanner.advance();
                text.push(c)?;
                if !hexadecimal && (c == 'e' || c == 'E') {
                    push_sign(scanner, &mut text)?;
                }
            }
            Some('.') if is_digit(scanner.peek(1)) => {
                let _ = scanner.advance();
                text.push('.')?;
            }
            _ => break,
        }
    }
    Ok(text)
}

// The sign of an exponent.
fn push_sign(scanner: &mut Scanner, text: &mut String) -> Result<(), AllocError> {
    match scanner.peek(0) {
        Some(c) if (c == '-' || c == '+') && is_digit(scanner.peek(1)) => {
            let _ = scanner.advance();
            text.push(c)
        }
        _ => Ok(()),
    }
}

fn is_digit(character: Option<char>) -> bool {
    match character {
        Some(c) => c.is_ascii_digit(),
        None => false,
    }
}
