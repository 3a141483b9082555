//! The rows of a table, read one after another.
ghost use Rattle.std.specs.Prelude.{◌≡◌, ◌++◌, ◌∷◌, [], List, Some, Err, OnOk, IfOk, IfErr, option_map, map};
ghost use Rattle.schemagen_input.specs.Words.{Data, data_of, heading_in, unentered, entry_of, AreListed, IsListing, AreBegun, IsRowIn, BeginsNoTable, IsTableOf, IsNoTable};

use schemagen_json::BorrowedValue;
use schemagen_shapes::{InputError, entry_in, if_said, text_in};
use schemars_types::{TypeEntry, Types};
use std::alloc::{AllocError, Global};

const ROW_NAMES: [&str; 5] = ["id", "name", "inline", "notes", "shape"];

/// The rows so far: their ids and names as a table, and their entries, which may refer to rows that
/// come later.
#[derive(Drop)]
pub struct Listing {
    pub types: Types,
    pub entries: Vec<TypeEntry>,
}

/// A row that is not in the table yet.
#[derive(Drop)]
pub struct NewRow {
    pub id: String,
    pub name: String,
    pub entry: TypeEntry,
}

impl Listing {
    /// No rows.
    pub fn new(alloc: Global) -> Listing
        ensures { IsListing [] result }
    {
        Listing {
            types: Types::new(alloc),
            entries: Vec::new(alloc),
        }
    }

    /// Adds a row.
    ///
    /// # Errors
    ///
    /// `BadTable` if its id is there already, and `OutOfMemory`.
    pub fn add(&mut self, row: NewRow) -> Result<(), InputError>
        ensures ok { OnOk result ((ds : List Data) (d : Data) → IsRowIn (Some row) d
            → IsListing ds self.old → IsListing (ds ++ d ∷ []) self.new) }
        ensures bad { result ≡ Err InputError.BadTable → (ds : List Data) (d : Data)
            → IsRowIn (Some row) d → IsListing ds self.old → BeginsNoTable (ds ++ d ∷ []) }
    {
        let NewRow { id, name, entry } = row;
        if self.types.find(id.as_str()).is_some() {
            return Err(InputError::BadTable);
        }
        self.entries.push(entry)?;
        self.types.reserve(id, name)?;
        Ok(())
    }

    /// The table of the rows.
    ///
    /// # Errors
    ///
    /// `BadTable` if an entry refers to no row.
    pub fn into_types(self) -> Result<Types, InputError>
        ensures ok { IfOk result (λ t. (ds : List Data) → IsListing ds self → IsTableOf ds t) }
        ensures bad { IfErr result (λ e. e ≡ InputError.BadTable → (ds : List Data) → IsListing ds self → IsNoTable ds) }
    {
        define_rows(self.types, self.entries)
    }
}

// The id and the name of a row.
fn heading_in<'a>(value: &BorrowedValue<'a>) -> Option<(&'a str, &'a str)>
    ensures { option_map (λ h. unentered h.0.now h.1.now) result ≡ heading_in (data_of value.now) }
{
    if !value.has_only(&ROW_NAMES) {
        return None;
    }
    let id = text_in(value, "id")?;
    let name = text_in(value, "name")?;
    Some((id, name))
}

// The row that a value says.
fn row_in(alloc: Global, value: &BorrowedValue<'_>) -> Result<Option<NewRow>, AllocError>
    ensures { IfOk result (λ row. IsRowIn row (data_of value.now)) }
{
    let Some((id, name)) = heading_in(value) else {
        return Ok(None);
    };
    let Some(entry) = if_said(entry_in(alloc, value))? else {
        return Ok(None);
    };
    let id = String::from_str(alloc, id)?;
    let name = String::from_str(alloc, name)?;
    Ok(Some(NewRow { id, name, entry }))
}

// Defines the rows in their order.
fn define_rows(mut types: Types, entries: Vec<TypeEntry>) -> Result<Types, InputError>
    ensures ok { IfOk result (λ t. (ds : List Data)
        → AreListed ds types (map entry_of entries.items) → IsTableOf ds t) }
    ensures bad { IfErr result (λ e. e ≡ InputError.BadTable → (ds : List Data)
        → AreListed ds types (map entry_of entries.items) → IsNoTable ds) }
{
    let mut n = 0;
    for entry in entries {
        types.define(n, entry)?;
        n += 1;
    }
    Ok(types)
}

/// The rows of a list: none if the list is not that of a table.
pub fn list_rows(alloc: Global, rows: &[BorrowedValue<'_>]) -> Result<Option<Listing>, AllocError>
    ensures { IfOk result (λ listing. AreBegun listing (map data_of rows.now)) }
{
    let mut listing = Some(Listing::new(alloc));
    for value in rows {
        let row = row_in(alloc, value)?;
        listing = with_row(listing, row)?;
    }
    Ok(listing)
}

/// The rows so far with one more: none if no list that begins so is that of a table.
pub fn with_row(
    listing: Option<Listing>,
    row: Option<NewRow>,
) -> Result<Option<Listing>, AllocError>
    ensures { IfOk result (λ more. (ds : List Data) (d : Data) → IsRowIn row d
        → AreBegun listing ds → AreBegun more (ds ++ d ∷ [])) }
{
    let Some(mut listing) = listing else {
        return Ok(None);
    };
    let Some(row) = row else {
        return Ok(None);
    };
    match listing.add(row) {
        Ok(()) => Ok(Some(listing)),
        Err(InputError::BadTable) => Ok(None),
        Err(InputError::OutOfMemory) => Err(AllocError),
    }
}
