//! What a value says, and lists of such values.
ghost use Rattle.std.specs.Prelude.{◌≡◌, ◌<◌, List, Some, None, Option, Err, IfOk, OnOk, length, map, option_map};
ghost use Rattle.schemagen_input.specs.Words.{items, value, Data, of_items, converted, items_of, read_each, IsNext, IsNoValue, listed, with_last};

use json::{Reader, Token};
use schemagen_json::{ParseError, read_value_from};
use std::alloc::{AllocError, Global};

/// What a value says, if it says anything.
pub trait Said: Sized + Drop {
    /// What that is in the specification.
    ghost Value: { Type 0 };

    ghost value_of: { Self → Value };
    /// What is said by a value.
    ghost said: { Data → Option Value };

    /// What the next value says.
    fn read(
        alloc: Global,
        reader: &mut Reader<'_>,
        depth: usize,
    ) -> Result<Option<Self>, ParseError>
        ensures ok { IfOk result (λ x. (d : Data) × IsNext depth reader.old d reader.new
            × (option_map value_of x ≡ said d)) }
        ensures shorter { OnOk result (length reader.new < length reader.old) }
        ensures not_json { result ≡ Err ParseError.NotJson → IsNoValue depth reader.old };
}

/// What the items say of the list that the next value is.
pub fn read_list<T: Said>(
    alloc: Global,
    reader: &mut Reader<'_>,
    depth: usize,
) -> Result<Option<Vec<T>>, ParseError>
    ensures ok { IfOk result (λ v. (d : Data) × IsNext depth reader.old d reader.new
        × (option_map (λ xs. map T.value_of xs.items) v ≡ listed T.said d)) }
    ensures shorter { OnOk result (length reader.new < length reader.old) }
    ensures not_json { result ≡ Err ParseError.NotJson → IsNoValue depth reader.old }
{
    let token = reader.next().ok_or(ParseError::NotJson)?;
    match token {
        Token::BeginArray => {
            if depth == 0 {
                return Err(ParseError::NotJson);
            }
            read_items(alloc, reader, depth - 1)
        }
        token => {
            drop(read_value_from(alloc, token, reader, depth)?);
            Ok(None)
        }
    }
}

// What the items up to the end of a list say.
fn read_items<T: Said>(
    alloc: Global,
    reader: &mut Reader<'_>,
    depth: usize,
) -> Result<Option<Vec<T>>, ParseError>
    ensures ok { IfOk result (λ v. (ds : List Data)
        × (converted of_items (items (value depth) (length reader.old) reader.old)
        ≡ Some (items_of ds, reader.new))
        × (option_map (λ xs. map T.value_of xs.items) v ≡ read_each T.said (items_of ds))) }
    ensures shorter { OnOk result (length reader.new < length reader.old) }
    ensures not_json { result ≡ Err ParseError.NotJson
        → converted of_items (items (value depth) (length reader.old) reader.old) ≡ None }
{
    let mut found = Some(Vec::new(alloc));
    'items: while !reader.take_end_array() {
        let item = T::read(alloc, reader, depth)?;
        found = with_item(found, item)?;
    }
    Ok(fitted(found))
}

// The list, with no room to spare.
fn fitted<T: Said>(found: Option<Vec<T>>) -> Option<Vec<T>>
    ensures { option_map (λ xs. map T.value_of xs.items) result
        ≡ option_map (λ xs. map T.value_of xs.items) found }
{
    let mut list = found?;
    list.shrink_to_fit();
    Some(list)
}

// What is found so far with one item more, if each says something.
fn with_item<T: Said>(found: Option<Vec<T>>, item: Option<T>) -> Result<Option<Vec<T>>, AllocError>
    ensures { IfOk result (λ v. option_map (λ xs. map T.value_of xs.items) v
        ≡ with_last (option_map (λ xs. map T.value_of xs.items) found)
        (option_map T.value_of item)) }
{
    let Some(mut found) = found else {
        return Ok(None);
    };
    let Some(item) = item else {
        return Ok(None);
    };
    found.push(item)?;
    Ok(Some(found))
}
