//! Structs: their fields, the rows flattened into them, and whether other keys are excluded.
ghost use Rattle.std.specs.Prelude.{◌≡◌, ◌<◌, Err, IfOk, OnOk, length, map, option_map};
ghost use Rattle.schemagen_input.specs.Words.{Data, Members, object, fields_of, flattened_of, fields_said, flattened_from, AreOfStruct, IsNext, IsNoValue, listed};

use crate::tokens::object::{ObjectMembers, read_object};
use crate::tokens::said::read_list;
use crate::tokens::single::read_flag;
use json::Reader;
use schemagen_json::{ParseError, read_value};
use schemagen_shapes::{flattened_each, if_said};
use schemars_types::{Field, Fields, Flattened};
use std::alloc::Global;

/// What the members of a struct say.
#[derive(Drop)]
pub struct StructMembers {
    /// No member has another name.
    pub only: bool,
    pub list: Option<Vec<Field>>,
    pub flatten: Option<Vec<Flattened>>,
    pub closed: Option<bool>,
}

impl<'a> ObjectMembers<'a> for StructMembers {
    ghost are_of = { λ m ms. AreOfStruct m (object ms) };

    fn none(alloc: Global) -> StructMembers {
        StructMembers {
            only: true,
            list: Some(Vec::new(alloc)),
            flatten: Some(Vec::new(alloc)),
            closed: Some(false),
        }
    }

    fn read_member(
        &mut self,
        alloc: Global,
        name: &'a str,
        reader: &mut Reader<'a>,
        depth: usize,
    ) -> Result<(), ParseError> {
        match name {
            "fields" => self.list = read_list(alloc, reader, depth)?,
            "flatten" => self.flatten = read_flattened(alloc, reader, depth)?,
            "closed" => self.closed = read_flag(alloc, reader, depth)?,
            _ => {
                drop(read_value(alloc, reader, depth)?);
                self.only = false;
            }
        }
        Ok(())
    }
}

impl StructMembers {
    // The fields of the struct with these members.
    fn into_fields(self) -> Option<Fields>
        ensures { (ms : Members) → AreOfStruct self (object ms)
            → option_map fields_of result ≡ fields_said (object ms) }
    {
        if !self.only {
            return None;
        }
        Some(Fields {
            list: self.list?,
            flatten: self.flatten?,
            closed: self.closed?,
        })
    }
}

/// The fields of the struct that the next value says.
pub fn read_fields(
    alloc: Global,
    reader: &mut Reader<'_>,
    depth: usize,
) -> Result<Option<Fields>, ParseError>
    ensures ok { IfOk result (λ f. (d : Data) × IsNext depth reader.old d reader.new
        × (option_map fields_of f ≡ fields_said d)) }
    ensures shorter { OnOk result (length reader.new < length reader.old) }
    ensures not_json { result ≡ Err ParseError.NotJson → IsNoValue depth reader.old }
{
    match read_object::<StructMembers>(alloc, reader, depth)? {
        Some(members) => Ok(members.into_fields()),
        None => Ok(None),
    }
}

// The rows flattened into the struct, in the list that the next value is.
fn read_flattened(
    alloc: Global,
    reader: &mut Reader<'_>,
    depth: usize,
) -> Result<Option<Vec<Flattened>>, ParseError>
    ensures ok { IfOk result (λ v. (d : Data) × IsNext depth reader.old d reader.new
        × (option_map (λ rows. map flattened_of rows.items) v ≡ listed flattened_from d)) }
    ensures shorter { OnOk result (length reader.new < length reader.old) }
    ensures not_json { result ≡ Err ParseError.NotJson → IsNoValue depth reader.old }
{
    let value = read_value(alloc, reader, depth)?;
    match value.as_array() {
        Some(items) => Ok(if_said(flattened_each(alloc, items))?),
        None => Ok(None),
    }
}
