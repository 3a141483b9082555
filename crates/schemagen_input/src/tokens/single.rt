//! Texts, numbers, lists of numbers, truth values and notes.
ghost use Rattle.std.specs.Prelude.{◌≡◌, ◌<◌, ℕ, Err, IfOk, OnOk, length, option_map, string_bytes};
ghost use Rattle.schemagen_input.specs.Words.{Data, as_bool, as_object, as_str, members_view, number_in, parts_from, IsNext, IsNoValue};

use crate::tokens::said::{Said, read_list};
use json::{Reader, Token};
use schemagen_json::{ParseError, copy_members, read_value, read_value_from};
use schemagen_shapes::number_in;
use schemars_types::TypeNo;
use serde_json::{Map, Value};
use std::alloc::Global;

/// The text that the next value is.
pub fn read_text(
    alloc: Global,
    reader: &mut Reader<'_>,
    depth: usize,
) -> Result<Option<String>, ParseError>
    ensures ok { IfOk result (λ t. (d : Data) × IsNext depth reader.old d reader.new
        × (option_map string_bytes t ≡ as_str d)) }
    ensures shorter { OnOk result (length reader.new < length reader.old) }
    ensures not_json { result ≡ Err ParseError.NotJson → IsNoValue depth reader.old }
{
    let token = reader.next().ok_or(ParseError::NotJson)?;
    match token {
        Token::String(text) => Ok(Some(String::from_str(alloc, text)?)),
        token => {
            drop(read_value_from(alloc, token, reader, depth)?);
            Ok(None)
        }
    }
}

/// The number of a row that the next value is.
pub fn read_number(
    alloc: Global,
    reader: &mut Reader<'_>,
    depth: usize,
) -> Result<Option<TypeNo>, ParseError>
    ensures ok { IfOk result (λ n. (d : Data) × IsNext depth reader.old d reader.new
        × (n ≡ number_in d)) }
    ensures shorter { OnOk result (length reader.new < length reader.old) }
    ensures not_json { result ≡ Err ParseError.NotJson → IsNoValue depth reader.old }
{
    let value = read_value(alloc, reader, depth)?;
    Ok(number_in(&value))
}

impl Said for TypeNo {
    ghost Value = { ℕ };

    ghost value_of = { λ n. n };

    ghost said = { number_in };

    fn read(
        alloc: Global,
        reader: &mut Reader<'_>,
        depth: usize,
    ) -> Result<Option<TypeNo>, ParseError> {
        read_number(alloc, reader, depth)
    }
}

/// The numbers of rows in the list that the next value is.
pub fn read_parts(
    alloc: Global,
    reader: &mut Reader<'_>,
    depth: usize,
) -> Result<Option<Vec<TypeNo>>, ParseError>
    ensures ok { IfOk result (λ v. (d : Data) × IsNext depth reader.old d reader.new
        × (option_map (λ parts. parts.items) v ≡ parts_from d)) }
    ensures shorter { OnOk result (length reader.new < length reader.old) }
    ensures not_json { result ≡ Err ParseError.NotJson → IsNoValue depth reader.old }
{
    read_list(alloc, reader, depth)
}

/// The truth value that the next value is.
pub fn read_flag(
    alloc: Global,
    reader: &mut Reader<'_>,
    depth: usize,
) -> Result<Option<bool>, ParseError>
    ensures ok { IfOk result (λ b. (d : Data) × IsNext depth reader.old d reader.new
        × (b ≡ as_bool d)) }
    ensures shorter { OnOk result (length reader.new < length reader.old) }
    ensures not_json { result ≡ Err ParseError.NotJson → IsNoValue depth reader.old }
{
    let token = reader.next().ok_or(ParseError::NotJson)?;
    match token {
        Token::Bool(flag) => Ok(Some(flag)),
        token => {
            drop(read_value_from(alloc, token, reader, depth)?);
            Ok(None)
        }
    }
}

/// The notes that the next value is.
pub fn read_notes(
    alloc: Global,
    reader: &mut Reader<'_>,
    depth: usize,
) -> Result<Option<Map<String, Value>>, ParseError>
    ensures ok { IfOk result (λ n. (d : Data) × IsNext depth reader.old d reader.new
        × (option_map (λ m. members_view m.entries) n ≡ as_object d)) }
    ensures shorter { OnOk result (length reader.new < length reader.old) }
    ensures not_json { result ≡ Err ParseError.NotJson → IsNoValue depth reader.old }
{
    let value = read_value(alloc, reader, depth)?;
    match value.as_object() {
        Some(members) => Ok(Some(copy_members(alloc, members)?)),
        None => Ok(None),
    }
}
