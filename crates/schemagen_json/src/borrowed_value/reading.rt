//! From a text to a value, in one pass over its tokens.
ghost use Rattle.std.specs.Prelude.{◌≡◌, ◌<◌, ◌≤◌, ◌∷◌, Some, None, Err, IfOk, OnOk, length};
ghost use Rattle.schemagen_json.specs.Words.{value, items, members, token_of, no_members, of_json, of_items, of_members, converted, data_of, items_data, members_data};
ghost use Rattle.serde_json.specs.Read.{read as read_text};

use crate::borrowed_value::BorrowedValue;
use crate::borrowed_value::number::parse_number;
use crate::error::ParseError;
use json::{Reader, Scratch, Token};
use std::alloc::Global;

/// How deep lists and objects may nest, as in `serde_json`.
pub const MAX_DEPTH: usize = 127;

impl<'a> BorrowedValue<'a> {
    /// The value that a text says. Texts with escapes are written to the scratch.
    ///
    /// # Errors
    ///
    /// `NotJson` if and only if `serde_json` reads no value, and `OutOfMemory`.
    pub fn from_str(
        alloc: Global,
        text: &'a str,
        scratch: &'a mut Scratch,
    ) -> Result<BorrowedValue<'a>, ParseError>
        ensures ok { IfOk result (λ v. read_text text.now ≡ Some (data_of v)) }
        ensures not_json { result ≡ Err ParseError.NotJson → read_text text.now ≡ None }
    {
        let mut reader = Reader::new(text, scratch)?;
        let value = read_value(alloc, &mut reader, MAX_DEPTH)?;
        if reader.next().is_some() {
            return Err(ParseError::NotJson);
        }
        Ok(value)
    }
}

/// The next value, in which lists and objects nest at most this deep.
///
/// # Errors
///
/// `NotJson` if and only if there is none, and `OutOfMemory`.
#[cycle(read)]
pub fn read_value<'a>(
    alloc: Global,
    reader: &mut Reader<'a>,
    depth: usize,
) -> Result<BorrowedValue<'a>, ParseError>
    ensures ok { IfOk result
        (λ v. converted of_json (value depth reader.old) ≡ Some (data_of v, reader.new)) }
    ensures shorter { OnOk result (length reader.new < length reader.old) }
    ensures not_json { result ≡ Err ParseError.NotJson
        → converted of_json (value depth reader.old) ≡ None }
{
    let token = reader.next().ok_or(ParseError::NotJson)?;
    read_value_from(alloc, token, reader, depth)
}

/// The value that begins with a token, which the reader has just given.
///
/// # Errors
///
/// Those of `read_value`.
#[cycle(read)]
pub fn read_value_from<'a>(
    alloc: Global,
    token: Token<'a>,
    reader: &mut Reader<'a>,
    depth: usize,
) -> Result<BorrowedValue<'a>, ParseError>
    ensures ok { IfOk result (λ v. converted of_json (value depth (token_of token.entry ∷ reader.old))
        ≡ Some (data_of v, reader.new)) }
    ensures shorter { OnOk result (length reader.new ≤ length reader.old) }
    ensures not_json { result ≡ Err ParseError.NotJson
        → converted of_json (value depth (token_of token.entry ∷ reader.old)) ≡ None }
{
    match token {
        Token::String(text) => Ok(BorrowedValue::String(text)),
        Token::Number(text) => match parse_number(text) {
            Some(number) => Ok(BorrowedValue::Number(number)),
            None => Err(ParseError::NotJson),
        },
        Token::Bool(b) => Ok(BorrowedValue::Bool(b)),
        Token::Null => Ok(BorrowedValue::Null),
        Token::EndObject | Token::EndArray | Token::Key(_) | Token::Bad => Err(ParseError::NotJson),
        Token::BeginArray => {
            if depth == 0 {
                return Err(ParseError::NotJson);
            }
            Ok(BorrowedValue::Array(read_items(alloc, reader, depth - 1)?))
        }
        Token::BeginObject => {
            if depth == 0 {
                return Err(ParseError::NotJson);
            }
            Ok(BorrowedValue::Object(read_members(alloc, reader, depth - 1)?))
        }
    }
}

// The items of a list up to its end.
#[cycle(read)]
fn read_items<'a>(
    alloc: Global,
    reader: &mut Reader<'a>,
    depth: usize,
) -> Result<Vec<BorrowedValue<'a>>, ParseError>
    ensures ok { IfOk result
        (λ v. converted of_items (items (value depth) (length reader.old) reader.old)
        ≡ Some (items_data v.items, reader.new)) }
    ensures shorter { OnOk result (length reader.new < length reader.old) }
    ensures not_json { result ≡ Err ParseError.NotJson
        → converted of_items (items (value depth) (length reader.old) reader.old) ≡ None }
{
    let mut found = Vec::new(alloc);
    'items: while !reader.take_end_array() {
        let item = read_value(alloc, reader, depth)?;
        found.push(item)?;
    }
    Ok(found)
}

// The members of an object up to its end.
#[cycle(read)]
fn read_members<'a>(
    alloc: Global,
    reader: &mut Reader<'a>,
    depth: usize,
) -> Result<Vec<(&'a str, BorrowedValue<'a>)>, ParseError>
    ensures ok { IfOk result
        (λ v. converted (λ ms. of_members ms no_members)
        (members (value depth) (length reader.old) reader.old)
        ≡ Some (members_data v.items, reader.new)) }
    ensures shorter { OnOk result (length reader.new < length reader.old) }
    ensures not_json { result ≡ Err ParseError.NotJson
        → converted (λ ms. of_members ms no_members)
        (members (value depth) (length reader.old) reader.old) ≡ None }
{
    let mut found = Vec::new(alloc);
    'members: while let Some(name) = reader.next_key()? {
        let member = read_value(alloc, reader, depth)?;
        found.push((name, member))?;
    }
    Ok(found)
}
