//! A struct with a field that is written under another name, and one that may be left out.
ghost use Rattle.std.specs.Prelude.{◌≡◌, codes, false, if◌then◌else◌, is_some, OnOk, string_bytes, true};
ghost use Rattle.serde.specs.Event.{Logs, text, WritesOption};
ghost use Rattle.schemars_written.specs.Gives.{Struct, Field, FieldIf, Done};
ghost use Rattle.schemars_written.specs.Fits.{HasFields, NextField, NextOptional, LastField};
ghost use Rattle.schemars_written.proofs.Laws.{struct_law, next_field, next_field_if, last_field, option_law};
ghost use Rattle.schemars_agreement.specs.contracts.impls.primitives.StringAgrees.TheImpl.Laws as string;

use schemars_agreement::{Agrees, fields_at, is_field, is_optional_field};
use schemars_types::{TypeNo, Types};
use serde::{Described, Serialize, Serializer};

/// A page.
#[derive(Drop)]
pub struct Page {
    /// serde's name of this field is `pageTitle`
    pub title: String,
    /// left out if there is none
    pub note: Option<String>,
}

impl Described for Page {
    ghost writes = { λ p. Struct (if is_some p.note then 2 else 1)
        (Field (codes "pageTitle") (⟦<String as Described>⟧.writes p.title)
        (FieldIf (is_some p.note) (codes "note") (⟦<Option<String> as Described>⟧.writes p.note) Done)) };
}

impl Serialize for Page {
    fn serialize<S: Serializer>(&self, out: &mut S) -> Result<(), S::Error> {
        out.begin_map(Some(if self.note.is_some() { 2 } else { 1 }))?;
        out.key("pageTitle")?;
        self.title.serialize(out)?;
        write_note(&self.note, out)?;
        out.end_map()
    }
}

fn write_note<S: Serializer>(note: &Option<String>, out: &mut S) -> Result<(), S::Error>
    ensures { OnOk result (FieldIf (is_some note.now) (codes "note")
        (WritesOption (λ s old new. Logs old new (text (string_bytes s))) note.now) Done
        (S.written out.old) (S.written out.new)) }
{
    if note.is_none() {
        return Ok(());
    }
    out.key("note")?;
    note.serialize(out)
}

impl Agrees for Page {
    ghost valid = { λ p. ⟦<String as Agrees>⟧.valid p.title
        × ⟦<Option<String> as Agrees>⟧.valid p.note };

    ghost is_row = { λ rows n. HasFields rows n
        (NextField (codes "pageTitle") (⟦<String as Agrees>⟧.is_row rows)
        (NextOptional (codes "note") (⟦<Option<String> as Agrees>⟧.is_row rows) LastField)) };

    ghost agrees = { λ rows n p checked row valid. struct_law rows checked n _ _ _ row
        (next_field rows (codes "pageTitle") _ _ _ _
        (λ m r. string.agrees-law rows m p.title checked r valid.0)
        (next_field_if rows (is_some p.note) (codes "note") _ _ _ _
        (λ m r. option_law rows checked m ⟦<String as Described>⟧.writes ⟦<String as Agrees>⟧.valid
        ⟦<String as Agrees>⟧.is_row (λ k x row valid. string.agrees-law rows k x checked row valid)
        r p.note valid.1)
        (last_field rows))) };

    fn has_row(types: &Types, n: TypeNo) -> bool {
        match fields_at(types, n) {
            Some([title, note]) => {
                is_field::<String>(types, title, "pageTitle")
                    && is_optional_field::<Option<String>>(types, note, "note")
            }
            _ => false,
        }
    }

    fn is_valid(&self) -> bool {
        self.title.is_valid() && self.note.is_valid()
    }
}
