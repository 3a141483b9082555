//! Variants of enums.
ghost use Rattle.std.specs.Prelude.{◌≡◌, option_map};
ghost use Rattle.schemagen_input.specs.Words.{Members, object, AreOfVariant};
ghost use Rattle.schemars_shapes.specs.Shape as shapes;
ghost use Rattle.schemagen_shapes.specs.Forms as forms;

use crate::tokens::fields::read_fields;
use crate::tokens::object::{ObjectMembers, read_object};
use crate::tokens::said::Said;
use crate::tokens::single::{read_notes, read_number, read_parts, read_text};
use crate::tokens::tagged::{Tagged, read_tagged};
use json::Reader;
use schemagen_json::{ParseError, read_value};
use schemagen_shapes::{payload_named, variant_inside};
use schemars_types::{InternalVariant, Payload, Variant};
use serde_json::{Map, Value};
use std::alloc::Global;

impl Tagged for Payload {
    ghost Value = { shapes.Payload };

    ghost value_of = { shapes.payload_of };

    ghost said_by = { forms.payload_named };

    ghost said_under = { forms.payload_under };

    fn of_text(text: &str) -> Option<Payload> {
        payload_named(text)
    }

    fn read_under(
        alloc: Global,
        name: &str,
        reader: &mut Reader<'_>,
        depth: usize,
    ) -> Result<Option<Payload>, ParseError> {
        match name {
            "newtype" => Ok(read_number(alloc, reader, depth)?.map(Payload::Newtype)),
            "tuple" => Ok(read_parts(alloc, reader, depth)?.map(Payload::Tuple)),
            "struct" => Ok(read_fields(alloc, reader, depth)?.map(Payload::Struct)),
            _ => {
                drop(read_value(alloc, reader, depth)?);
                Ok(None)
            }
        }
    }
}

/// What the members of a variant say.
#[derive(Drop)]
pub struct VariantMembers {
    /// No member has another name.
    pub only: bool,
    pub name: Option<String>,
    pub notes: Option<Map<String, Value>>,
    pub payload: Option<Payload>,
}

impl<'a> ObjectMembers<'a> for VariantMembers {
    ghost are_of = { λ m ms. AreOfVariant m (object ms) };

    fn none(alloc: Global) -> VariantMembers {
        VariantMembers {
            only: true,
            name: None,
            notes: Some(Map::new(alloc)),
            payload: Some(Payload::Unit),
        }
    }

    fn read_member(
        &mut self,
        alloc: Global,
        name: &'a str,
        reader: &mut Reader<'a>,
        depth: usize,
    ) -> Result<(), ParseError> {
        match name {
            "name" => self.name = read_text(alloc, reader, depth)?,
            "notes" => self.notes = read_notes(alloc, reader, depth)?,
            "payload" => self.payload = read_tagged(alloc, reader, depth)?,
            _ => {
                drop(read_value(alloc, reader, depth)?);
                self.only = false;
            }
        }
        Ok(())
    }
}

impl VariantMembers {
    // The variant with these members.
    fn into_variant(self) -> Option<Variant>
        ensures { (ms : Members) → AreOfVariant self (object ms)
            → option_map shapes.variant_of result ≡ forms.variant_in (object ms) }
    {
        if !self.only {
            return None;
        }
        Some(Variant {
            name: self.name?,
            payload: self.payload?,
            notes: self.notes?,
        })
    }
}

impl Said for Variant {
    ghost Value = { shapes.Variant };

    ghost value_of = { shapes.variant_of };

    ghost said = { forms.variant_in };

    fn read(
        alloc: Global,
        reader: &mut Reader<'_>,
        depth: usize,
    ) -> Result<Option<Variant>, ParseError> {
        match read_object::<VariantMembers>(alloc, reader, depth)? {
            Some(members) => Ok(members.into_variant()),
            None => Ok(None),
        }
    }
}

impl Said for InternalVariant {
    ghost Value = { shapes.Variant };

    ghost value_of = { shapes.internal_variant_of };

    ghost said = { forms.internal_variant_in };

    fn read(
        alloc: Global,
        reader: &mut Reader<'_>,
        depth: usize,
    ) -> Result<Option<InternalVariant>, ParseError> {
        match Variant::read(alloc, reader, depth)? {
            Some(variant) => Ok(variant_inside(variant)),
            None => Ok(None),
        }
    }
}
