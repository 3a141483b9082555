//! The members of a table's object, of which a text is read row by row.
ghost use Rattle.std.specs.Prelude.{◌≡◌, ◌<◌, Some, None, Err, IfOk, IfErr, OnOk, List, length, true};
ghost use Rattle.schemagen_input.specs.Words.{value, items, Data, object, of_items, converted, items_of, data_of, table_in, is_complete, AreBegun, IsListIn, AreMembersOf, IsNext, IsNoValue};
ghost use Rattle.serde_json.specs.Read.{read as read_text};

use crate::listing::{Listing, list_rows, with_row};
use crate::tokens::{ObjectMembers, read_members, read_number, read_row};
use json::{Reader, Scratch, Token};
use schemagen_json::{BorrowedValue, MAX_DEPTH, ParseError, read_value, read_value_from};
use schemagen_shapes::{InputError, number_of};
use schemars_types::{TypeNo, Types};
use std::alloc::{AllocError, Global};

/// What the members of a table's object say. Of a name that comes twice, the last one counts.
#[derive(Drop)]
pub struct TableMembers {
    /// No member has another name.
    pub only: bool,
    /// The rows, unless the list is missing or not that of a table.
    pub listing: Option<Listing>,
    pub root: Option<TypeNo>,
}

impl<'a> ObjectMembers<'a> for TableMembers {
    ghost are_of = { λ m ms. AreMembersOf m (object ms) };

    fn none(_alloc: Global) -> TableMembers {
        TableMembers {
            only: true,
            listing: None,
            root: None,
        }
    }

    fn read_member(
        &mut self,
        alloc: Global,
        name: &'a str,
        reader: &mut Reader<'a>,
        depth: usize,
    ) -> Result<(), ParseError> {
        match name {
            "types" => self.listing = read_rows(alloc, reader, depth)?,
            "root" => self.root = read_number(alloc, reader, depth)?,
            "$schema" => drop(read_value(alloc, reader, depth)?),
            _ => {
                drop(read_value(alloc, reader, depth)?);
                self.only = false;
            }
        }
        Ok(())
    }
}

impl TableMembers {
    /// Those of a value.
    pub fn of_value(alloc: Global, value: &BorrowedValue<'_>) -> Result<TableMembers, AllocError>
        ensures { IfOk result (λ f. AreMembersOf f (data_of value.now)) }
    {
        let listing = match value.get("types") {
            Some(rows) => listing_in(alloc, rows)?,
            None => None,
        };
        Ok(TableMembers {
            only: value.has_only(&["types", "root", "$schema"]),
            listing,
            root: number_of(value, "root"),
        })
    }

    /// The table and the number of its root.
    ///
    /// # Errors
    ///
    /// `BadTable` if the value with these members is no table.
    pub fn into_table(self) -> Result<(Types, TypeNo), InputError>
        ensures ok { IfOk result (λ t. (d : Data) → AreMembersOf self d
            → (table_in d ≡ Some (t.0, t.1)) × (is_complete t.0 ≡ true)) }
        ensures bad { IfErr result (λ e. e ≡ InputError.BadTable → (d : Data) → AreMembersOf self d
            → table_in d ≡ None) }
    {
        if !self.only {
            return Err(InputError::BadTable);
        }
        let Some(root) = self.root else {
            return Err(InputError::BadTable);
        };
        let Some(listing) = self.listing else {
            return Err(InputError::BadTable);
        };
        let types = listing.into_types()?;
        Ok((types, root))
    }
}

// The rows that a value says.
fn listing_in(alloc: Global, value: &BorrowedValue<'_>) -> Result<Option<Listing>, AllocError>
    ensures { IfOk result (λ listing. IsListIn listing (Some (data_of value.now))) }
{
    match value.as_array() {
        Some(rows) => list_rows(alloc, rows),
        None => Ok(None),
    }
}

/// The members of the value that a text says.
///
/// # Errors
///
/// `NotJson` if and only if `serde_json` reads no value, and `OutOfMemory`.
pub fn read_text_members(
    alloc: Global,
    text: &str,
    scratch: &mut Scratch,
) -> Result<TableMembers, ParseError>
    ensures ok { IfOk result (λ f. (d : Data) × (read_text text.now ≡ Some d) × AreMembersOf f d) }
    ensures not_json { result ≡ Err ParseError.NotJson → read_text text.now ≡ None }
{
    let mut reader = Reader::new(text, scratch)?;
    let members = read_document(alloc, &mut reader)?;
    if reader.next().is_some() {
        return Err(ParseError::NotJson);
    }
    Ok(members)
}

// Those of the next value.
fn read_document(alloc: Global, reader: &mut Reader<'_>) -> Result<TableMembers, ParseError>
    ensures ok { IfOk result (λ f. (d : Data) × IsNext 127 reader.old d reader.new
        × AreMembersOf f d) }
    ensures not_json { result ≡ Err ParseError.NotJson → IsNoValue 127 reader.old }
{
    let token = reader.next().ok_or(ParseError::NotJson)?;
    match token {
        Token::BeginObject => read_members(alloc, reader, MAX_DEPTH - 1),
        token => {
            let value = read_value_from(alloc, token, reader, MAX_DEPTH)?;
            Ok(TableMembers::of_value(alloc, &value)?)
        }
    }
}

// The rows that the next value says.
fn read_rows(
    alloc: Global,
    reader: &mut Reader<'_>,
    depth: usize,
) -> Result<Option<Listing>, ParseError>
    ensures ok { IfOk result (λ listing. (d : Data) × IsNext depth reader.old d reader.new
        × IsListIn listing (Some d)) }
    ensures shorter { OnOk result (length reader.new < length reader.old) }
    ensures not_json { result ≡ Err ParseError.NotJson → IsNoValue depth reader.old }
{
    let token = reader.next().ok_or(ParseError::NotJson)?;
    match token {
        Token::BeginArray => {
            if depth == 0 {
                return Err(ParseError::NotJson);
            }
            read_items(alloc, reader, depth - 1)
        }
        token => {
            drop(read_value_from(alloc, token, reader, depth)?);
            Ok(None)
        }
    }
}

// The rows of a list, up to its end.
fn read_items(
    alloc: Global,
    reader: &mut Reader<'_>,
    depth: usize,
) -> Result<Option<Listing>, ParseError>
    ensures ok { IfOk result (λ listing. (ds : List Data)
        × (converted of_items (items (value depth) (length reader.old) reader.old)
        ≡ Some (items_of ds, reader.new)) × AreBegun listing ds) }
    ensures shorter { OnOk result (length reader.new < length reader.old) }
    ensures not_json { result ≡ Err ParseError.NotJson
        → converted of_items (items (value depth) (length reader.old) reader.old) ≡ None }
{
    let mut listing = Some(Listing::new(alloc));
    'items: while !reader.take_end_array() {
        let row = read_row(alloc, reader, depth)?;
        listing = with_row(listing, row)?;
    }
    Ok(listing)
}
