//! Types as they are written.
use crate::cursor::Cursor;
use crate::fault::{Fault, Place, refused};
use crate::token::{Token, TokenKind};
use std::alloc::{AllocError, Global};

/// How deep types may nest.
const MAX_DEPTH: usize = 64;

/// A type as it is written.
#[derive(Debug, Drop)]
pub enum TypeExpr {
    /// a path, with the arguments of its last segment
    Path {
        /// its segments; the first is empty if two colons begin it
        segments: Vec<String>,
        /// the arguments of the last segment, without lifetimes
        arguments: Vec<TypeExpr>,
        /// where it begins
        place: Place,
    },
    /// a tuple, and `()` if it has no parts
    Tuple(Vec<TypeExpr>),
    /// an array, and its length as it is written, without what separates digits
    Array(Box<TypeExpr>, String),
    /// a slice
    Slice(Box<TypeExpr>),
    /// a reference
    Reference(Box<TypeExpr>),
    /// a constant argument
    Constant(String),
    /// a type of another form, or one that nests too deeply, and where it begins
    Other(Place),
}

/// Reads a type from all the tokens.
///
/// # Errors
///
/// Memory runs out.
pub fn read_type(alloc: Global, tokens: Cursor<'_>) -> Result<TypeExpr, Fault> {
    let mut cursor = tokens;
    let place = cursor.place();
    let ty = type_at(alloc, &mut cursor, MAX_DEPTH)?;
    if cursor.is_empty() {
        return Ok(ty);
    }
    Ok(TypeExpr::Other(place))
}

/// Reads the type of a field from all the tokens up to the next comma.
///
/// # Errors
///
/// There is another field behind it.
pub fn read_field_type(alloc: Global, tokens: Cursor<'_>) -> Result<TypeExpr, Fault> {
    let mut cursor = tokens;
    let place = cursor.place();
    let ty = type_at(alloc, &mut cursor, MAX_DEPTH)?;
    let reason = match (cursor.peek(0), &ty) {
        (None, _) => return Ok(ty),
        (Some(token), TypeExpr::Other(_)) if token.is_symbol(':') => {
            "an angle bracket is not closed before this"
        }
        (Some(_), TypeExpr::Other(_)) => return Ok(ty),
        (Some(token), _) if begins_field(token) => {
            "a comma or the end of the fields is missing here"
        }
        _ => return Ok(TypeExpr::Other(place)),
    };
    Err(refused(alloc, cursor.place(), reason))
}

fn begins_field(token: &Token) -> bool {
    token.kind == TokenKind::Word || token.kind == TokenKind::Doc || token.is_symbol('#')
}

/// Reads the traits behind the colon of a parameter, and its default. Lifetimes are no traits.
///
/// # Errors
///
/// Memory runs out.
pub fn read_bounds(
    alloc: Global,
    tokens: Cursor<'_>,
) -> Result<(Vec<TypeExpr>, Option<TypeExpr>), Fault> {
    let mut cursor = tokens;
    let mut bounds = Vec::new(alloc);
    let _ = cursor.take_symbol(':');
    for _ in 0..tokens.len() {
        if cursor.take_symbol('=') {
            let default = match constant_at(alloc, &mut cursor)? {
                Some(constant) => constant,
                None => read_type(alloc, cursor)?,
            };
            return Ok((bounds, Some(default)));
        }
        if cursor.is_empty() {
            break;
        }
        if cursor.take_lifetime() || cursor.take_symbol('+') {
            continue;
        }
        let place = cursor.place();
        let bound = type_at(alloc, &mut cursor, MAX_DEPTH)?;
        if cursor.place() == place {
            let _ = cursor.advance();
        }
        bounds.push(bound)?;
    }
    Ok((bounds, None))
}

// The number or the character that comes next.
fn constant_at(alloc: Global, cursor: &mut Cursor<'_>) -> Result<Option<TypeExpr>, AllocError> {
    match cursor.peek(0) {
        Some(token) if [TokenKind::Number, TokenKind::Character].contains(&token.kind) => {
            let _ = cursor.advance();
            Ok(Some(TypeExpr::Constant(number_text(alloc, token.text.as_str())?)))
        }
        _ => Ok(None),
    }
}

// The type that comes next.
#[cycle(types)]
fn type_at(alloc: Global, cursor: &mut Cursor<'_>, depth: usize) -> Result<TypeExpr, Fault> {
    let place = cursor.place();
    let Some(token) = cursor.peek(0) else {
        return Ok(TypeExpr::Other(place));
    };
    if depth == 0 {
        return Ok(TypeExpr::Other(place));
    }
    match token.kind {
        TokenKind::Symbol('&') => {
            skip_reference(cursor);
            let inner = type_at(alloc, cursor, depth - 1)?;
            Ok(TypeExpr::Reference(Box::new(alloc, inner)?))
        }
        TokenKind::Symbol('(') => tuple_at(alloc, cursor, depth - 1),
        TokenKind::Symbol('[') => array_at(alloc, cursor, depth - 1),
        TokenKind::Symbol(':') => path_at(alloc, cursor, depth - 1),
        TokenKind::Word if !is_other_form(token.text.as_str()) => {
            path_at(alloc, cursor, depth - 1)
        }
        _ => Ok(TypeExpr::Other(place)),
    }
}

// Goes past what may stand before the type of a reference.
fn skip_reference(cursor: &mut Cursor<'_>) {
    let _ = cursor.take_symbol('&');
    let _ = cursor.take_lifetime();
    let _ = cursor.take_word("mut");
}

fn is_other_form(word: &str) -> bool {
    match word {
        "dyn" | "impl" | "fn" | "unsafe" | "extern" | "for" | "const" | "_" => true,
        _ => false,
    }
}

#[cycle(types)]
fn tuple_at(alloc: Global, cursor: &mut Cursor<'_>, depth: usize) -> Result<TypeExpr, Fault> {
    let place = cursor.place();
    let mut inside = cursor.group();
    let mut parts = Vec::new(alloc);
    let mut has_comma = false;
    for _ in 0..inside.len() {
        if inside.is_empty() {
            break;
        }
        if depth == 0 {
            return Ok(TypeExpr::Other(place));
        }
        let part = type_at(alloc, &mut inside, depth - 1)?;
        parts.push(part)?;
        has_comma = inside.take_symbol(',');
        if !has_comma && !inside.is_empty() {
            return Ok(TypeExpr::Other(place));
        }
    }
    if parts.len() == 1 && !has_comma {
        if let Some(part) = parts.pop() {
            return Ok(part);
        }
    }
    Ok(TypeExpr::Tuple(parts))
}

#[cycle(types)]
fn array_at(alloc: Global, cursor: &mut Cursor<'_>, depth: usize) -> Result<TypeExpr, Fault> {
    let place = cursor.place();
    let mut inside = cursor.group();
    if depth == 0 {
        return Ok(TypeExpr::Other(place));
    }
    let item = type_at(alloc, &mut inside, depth - 1)?;
    if inside.is_empty() {
        return Ok(TypeExpr::Slice(Box::new(alloc, item)?));
    }
    if !inside.take_symbol(';') {
        return Ok(TypeExpr::Other(place));
    }
    let length = read_length(alloc, inside)?;
    Ok(TypeExpr::Array(Box::new(alloc, item)?, length))
}

/// The length that all the tokens say: numbers and paths of constants, with `+` between them.
pub fn read_length(alloc: Global, tokens: Cursor<'_>) -> Result<String, AllocError> {
    let mut cursor = tokens;
    let mut text = String::new(alloc);
    let mut is_behind_word = false;
    for _ in 0..tokens.len() {
        let Some(token) = cursor.advance() else {
            break;
        };
        match token.kind {
            TokenKind::Symbol(c) => text.push(c)?,
            _ => {
                text.push_str(if is_behind_word { " " } else { "" })?;
                text.push_str(number_text(alloc, token.text.as_str())?.as_str())?;
            }
        }
        is_behind_word = token.text.as_str() != "";
    }
    Ok(text)
}

// A number without what separates its digits, and without the name of its type.
fn number_text(alloc: Global, text: &str) -> Result<String, AllocError> {
    let mut plain = String::new(alloc);
    let is_number = text.starts_with(|c: char| c.is_ascii_digit());
    for c in text.chars() {
        if is_number && (c == 'u' || c == 'i') {
            break;
        }
        if !is_number || c != '_' {
            plain.push(c)?;
        }
    }
    Ok(plain)
}

#[cycle(types)]
fn path_at(alloc: Global, cursor: &mut Cursor<'_>, depth: usize) -> Result<TypeExpr, Fault> {
    let place = cursor.place();
    let mut segments = Vec::new(alloc);
    let mut arguments = Vec::new(alloc);
    if cursor.take_colons() {
        segments.push(String::new(alloc))?;
    }
    for _ in 0..cursor.len() {
        let Some(name) = cursor.take_name() else {
            return Ok(TypeExpr::Other(place));
        };
        segments.push(String::from_str(alloc, name)?)?;
        if cursor.is_symbol(2, '<') {
            let _ = cursor.take_colons();
        }
        if cursor.take_symbol('<') {
            if depth == 0 {
                return Ok(TypeExpr::Other(place));
            }
            match arguments_at(alloc, cursor, depth - 1)? {
                Some(found) => arguments = found,
                None => return Ok(TypeExpr::Other(place)),
            }
        }
        if !cursor.take_colons() {
            break;
        }
    }
    Ok(TypeExpr::Path {
        segments,
        arguments,
        place,
    })
}

// The arguments up to the closing bracket; none if one of them is no type and no constant.
#[cycle(types)]
fn arguments_at(
    alloc: Global,
    cursor: &mut Cursor<'_>,
    depth: usize,
) -> Result<Option<Vec<TypeExpr>>, Fault> {
    let mut arguments = Vec::new(alloc);
    for _ in 0..cursor.len() {
        if cursor.take_symbol('>') {
            return Ok(Some(arguments));
        }
        if cursor.is_empty() {
            break;
        }
        if !cursor.take_lifetime() {
            if depth == 0 {
                return Ok(None);
            }
            let argument = match constant_at(alloc, cursor)? {
                Some(constant) => constant,
                None => type_at(alloc, cursor, depth - 1)?,
            };
            arguments.push(argument)?;
        }
        if !cursor.take_symbol(',') && !cursor.is_symbol(0, '>') {
            return Ok(None);
        }
    }
    Ok(None)
}
