//! A struct with a set, and with another struct's fields in its map.
ghost use Rattle.example_agreement.specs.Notes.{card_writes, IsCard, IsCardRow};
ghost use Rattle.example_agreement.specs.NoteLaws.{card_law};

use crate::note::Note;
use schemars_agreement::{Agrees, flattened_at, is_field};
use schemars_types::{TypeNo, Types};
use serde::{Described, Serialize, Serializer};
use std::collections::BTreeSet;

/// A card of a file.
#[derive(Drop)]
pub struct Card {
    pub id: u32,
    pub tags: BTreeSet<String>,
    /// flattened: its fields stand beside those above
    pub note: Note,
}

impl Described for Card {
    ghost writes = { card_writes };
}

impl Serialize for Card {
    fn serialize<S: Serializer>(&self, out: &mut S) -> Result<(), S::Error> {
        out.begin_map(Some(4))?;
        out.key("id")?;
        self.id.serialize(out)?;
        out.key("tags")?;
        self.tags.serialize(out)?;
        self.note.write_fields(out)?;
        out.end_map()
    }
}

impl Agrees for Card {
    ghost valid = { IsCard };

    ghost is_row = { IsCardRow };

    ghost agrees = { card_law };

    fn has_row(types: &Types, n: TypeNo) -> bool {
        match flattened_at(types, n) {
            Some(([id, tags], m)) => {
                if !is_field::<u32>(types, id, "id") {
                    return false;
                }
                if !is_field::<BTreeSet<String>>(types, tags, "tags") {
                    return false;
                }
                Note::has_row(types, m)
            }
            _ => false,
        }
    }

    fn is_valid(&self) -> bool {
        self.id.is_valid() && self.tags.is_valid() && self.note.is_valid()
    }
}
