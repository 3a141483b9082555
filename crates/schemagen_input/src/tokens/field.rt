//! Fields of structs.
ghost use Rattle.std.specs.Prelude.{◌≡◌, ◌<◌, Err, IfOk, OnOk, length, option_map};
ghost use Rattle.schemagen_input.specs.Words.{Data, Members, object, field_of, required_of, field_in, required_in, AreOfField, IsNext, IsNoValue};
ghost use Rattle.schemars_shapes.specs.Shape as shapes;

use crate::tokens::object::{ObjectMembers, read_object};
use crate::tokens::said::Said;
use crate::tokens::single::{read_notes, read_number, read_text};
use json::Reader;
use schemagen_json::{ParseError, read_value};
use schemagen_shapes::required_in;
use schemars_types::{Field, Required, TypeNo};
use serde_json::{Map, Value};
use std::alloc::Global;

/// What the members of a field say.
#[derive(Drop)]
pub struct FieldMembers {
    /// No member has another name.
    pub only: bool,
    pub name: Option<String>,
    pub ty: Option<TypeNo>,
    pub required: Option<Required>,
    pub notes: Option<Map<String, Value>>,
}

impl<'a> ObjectMembers<'a> for FieldMembers {
    ghost are_of = { λ m ms. AreOfField m (object ms) };

    fn none(alloc: Global) -> FieldMembers {
        FieldMembers {
            only: true,
            name: None,
            ty: None,
            required: Some(Required {
                deserialize: true,
                serialize: true,
            }),
            notes: Some(Map::new(alloc)),
        }
    }

    fn read_member(
        &mut self,
        alloc: Global,
        name: &'a str,
        reader: &mut Reader<'a>,
        depth: usize,
    ) -> Result<(), ParseError> {
        match name {
            "name" => self.name = read_text(alloc, reader, depth)?,
            "type" => self.ty = read_number(alloc, reader, depth)?,
            "required" => self.required = read_required(alloc, reader, depth)?,
            "notes" => self.notes = read_notes(alloc, reader, depth)?,
            _ => {
                drop(read_value(alloc, reader, depth)?);
                self.only = false;
            }
        }
        Ok(())
    }
}

impl FieldMembers {
    // The field with these members.
    fn into_field(self) -> Option<Field>
        ensures { (ms : Members) → AreOfField self (object ms)
            → option_map field_of result ≡ field_in (object ms) }
    {
        if !self.only {
            return None;
        }
        Some(Field {
            name: self.name?,
            ty: self.ty?,
            required: self.required?,
            notes: self.notes?,
        })
    }
}

// Whether a field has to be there.
fn read_required(
    alloc: Global,
    reader: &mut Reader<'_>,
    depth: usize,
) -> Result<Option<Required>, ParseError>
    ensures ok { IfOk result (λ r. (d : Data) × IsNext depth reader.old d reader.new
        × (option_map required_of r ≡ required_in d)) }
    ensures shorter { OnOk result (length reader.new < length reader.old) }
    ensures not_json { result ≡ Err ParseError.NotJson → IsNoValue depth reader.old }
{
    let value = read_value(alloc, reader, depth)?;
    Ok(required_in(&value))
}

impl Said for Field {
    ghost Value = { shapes.Field };

    ghost value_of = { field_of };

    ghost said = { field_in };

    fn read(
        alloc: Global,
        reader: &mut Reader<'_>,
        depth: usize,
    ) -> Result<Option<Field>, ParseError> {
        match read_object::<FieldMembers>(alloc, reader, depth)? {
            Some(members) => Ok(members.into_field()),
            None => Ok(None),
        }
    }
}
