//! Conditions of compilation.
use crate::cursor::Cursor;
use crate::token::TokenKind;

// How deep conditions may nest.
const MAX_DEPTH: usize = 64;

/// Whether the condition that comes next holds where these names and values are given; none if that is
/// not known. Where none are given, nothing is known of any.
pub fn holds(given: &[String], cursor: &mut Cursor<'_>) -> Option<bool> {
    one_holds(given, cursor, MAX_DEPTH)
}

#[cycle(conditions)]
fn one_holds(given: &[String], cursor: &mut Cursor<'_>, depth: usize) -> Option<bool> {
    let name = cursor.take_name()?;
    if cursor.take_symbol('=') {
        let token = cursor.advance()?;
        return match token.kind {
            TokenKind::Text => is_given(given, name, token.text.as_str()),
            _ => None,
        };
    }
    if !cursor.is_symbol(0, '(') {
        return match name {
            "true" => Some(true),
            "false" => Some(false),
            _ => is_given(given, name, ""),
        };
    }
    if depth == 0 {
        return None;
    }
    group_holds(given, name, cursor.group(), depth - 1)
}

// Whether `all`, `any` or `not` of these conditions holds.
#[cycle(conditions)]
fn group_holds(given: &[String], name: &str, list: Cursor<'_>, depth: usize) -> Option<bool> {
    let mut cursor = list;
    let mut all = Some(true);
    let mut any = Some(false);
    for _ in 0..list.len() {
        if cursor.is_empty() {
            break;
        }
        if depth == 0 {
            return None;
        }
        let one = one_holds(given, &mut cursor, depth - 1);
        all = both(all, one, false);
        any = both(any, one, true);
        if !cursor.take_symbol(',') && !cursor.is_empty() {
            return None;
        }
    }
    match name {
        "all" => all,
        "any" => any,
        "not" => Some(!any?),
        _ => None,
    }
}

// What two outcomes are together, of which this one decides.
fn both(first: Option<bool>, second: Option<bool>, deciding: bool) -> Option<bool> {
    if first == Some(deciding) || second == Some(deciding) {
        return Some(deciding);
    }
    first?;
    second
}

fn is_given(given: &[String], name: &str, value: &str) -> Option<bool> {
    for word in given {
        let (key, text) = word.as_str().split_once('=').unwrap_or((word.as_str(), ""));
        if key == name && text.trim_matches('"') == value {
            return Some(true);
        }
    }
    if given.is_empty() { None } else { Some(false) }
}
