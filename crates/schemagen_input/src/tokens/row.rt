//! Rows.
ghost use Rattle.std.specs.Prelude.{◌≡◌, ◌<◌, Err, IfOk, OnOk, length};
ghost use Rattle.schemagen_input.specs.Words.{Data, Members, object, AreOfRow, IsRowIn, IsNext, IsNoValue};

use crate::listing::NewRow;
use crate::tokens::object::{ObjectMembers, read_object};
use crate::tokens::single::{read_flag, read_notes, read_text};
use crate::tokens::tagged::read_tagged;
use json::Reader;
use schemagen_json::{ParseError, read_value};
use schemars_types::{Shape, TypeEntry};
use serde_json::{Map, Value};
use std::alloc::Global;

/// What the members of a row say.
#[derive(Drop)]
pub struct RowMembers {
    /// No member has another name.
    pub only: bool,
    pub id: Option<String>,
    pub name: Option<String>,
    pub inline: Option<bool>,
    pub notes: Option<Map<String, Value>>,
    pub shape: Option<Shape>,
}

impl<'a> ObjectMembers<'a> for RowMembers {
    ghost are_of = { λ m ms. AreOfRow m (object ms) };

    fn none(alloc: Global) -> RowMembers {
        RowMembers {
            only: true,
            id: None,
            name: None,
            inline: Some(false),
            notes: Some(Map::new(alloc)),
            shape: None,
        }
    }

    fn read_member(
        &mut self,
        alloc: Global,
        name: &'a str,
        reader: &mut Reader<'a>,
        depth: usize,
    ) -> Result<(), ParseError> {
        match name {
            "id" => self.id = read_text(alloc, reader, depth)?,
            "name" => self.name = read_text(alloc, reader, depth)?,
            "inline" => self.inline = read_flag(alloc, reader, depth)?,
            "notes" => self.notes = read_notes(alloc, reader, depth)?,
            "shape" => self.shape = read_tagged(alloc, reader, depth)?,
            _ => {
                drop(read_value(alloc, reader, depth)?);
                self.only = false;
            }
        }
        Ok(())
    }
}

impl RowMembers {
    // The row with these members.
    fn into_row(self) -> Option<NewRow>
        ensures { (ms : Members) → AreOfRow self (object ms) → IsRowIn result (object ms) }
    {
        if !self.only {
            return None;
        }
        let entry = TypeEntry {
            inline: self.inline?,
            notes: self.notes?,
            shape: self.shape?,
        };
        Some(NewRow {
            id: self.id?,
            name: self.name?,
            entry,
        })
    }
}

/// The row that the next value says.
pub fn read_row(
    alloc: Global,
    reader: &mut Reader<'_>,
    depth: usize,
) -> Result<Option<NewRow>, ParseError>
    ensures ok { IfOk result (λ r. (d : Data) × IsNext depth reader.old d reader.new
        × IsRowIn r d) }
    ensures shorter { OnOk result (length reader.new < length reader.old) }
    ensures not_json { result ≡ Err ParseError.NotJson → IsNoValue depth reader.old }
{
    match read_object::<RowMembers>(alloc, reader, depth)? {
        Some(members) => Ok(members.into_row()),
        None => Ok(None),
    }
}
