//! A struct whose fields also stand in the maps of other types.
ghost use Rattle.std.specs.Prelude.{OnOk};
ghost use Rattle.schemars_written.specs.Gives.{Struct};
ghost use Rattle.schemars_written.specs.Fits.{HasFields};
ghost use Rattle.example_agreement.specs.Notes.{note_fields, IsNote, NoteFields};
ghost use Rattle.example_agreement.specs.NoteLaws.{note_law};

use schemars_agreement::{Agrees, fields_at, is_field};
use schemars_types::{TypeNo, Types};
use serde::{Described, Serialize, Serializer};

/// What somebody thinks of something.
#[derive(Drop)]
pub struct Note {
    pub words: String,
    pub stars: u8,
}

impl Note {
    /// Sends the fields into the map that is open.
    pub fn write_fields<S: Serializer>(&self, out: &mut S) -> Result<(), S::Error>
        ensures { OnOk result (note_fields self.now (S.written out.old) (S.written out.new)) }
    {
        out.key("words")?;
        self.words.serialize(out)?;
        out.key("stars")?;
        self.stars.serialize(out)
    }
}

impl Described for Note {
    ghost writes = { λ x. Struct 2 (note_fields x) };
}

impl Serialize for Note {
    fn serialize<S: Serializer>(&self, out: &mut S) -> Result<(), S::Error> {
        out.begin_map(Some(2))?;
        self.write_fields(out)?;
        out.end_map()
    }
}

impl Agrees for Note {
    ghost valid = { IsNote };

    ghost is_row = { λ rows n. HasFields rows n (NoteFields rows) };

    ghost agrees = { note_law };

    fn has_row(types: &Types, n: TypeNo) -> bool {
        match fields_at(types, n) {
            Some([words, stars]) => {
                is_field::<String>(types, words, "words") && is_field::<u8>(types, stars, "stars")
            }
            _ => false,
        }
    }

    fn is_valid(&self) -> bool {
        self.stars.is_valid()
    }
}
