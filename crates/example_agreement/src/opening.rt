//! A struct with maps, one by the variants of an enum and one by whole numbers.
ghost use Rattle.std.specs.Prelude.{⊤, codes};
ghost use Rattle.schemars_written.specs.Readings.{those, TakesWholeNumbers};
ghost use Rattle.schemars_written.specs.Fits.{HasFields};
ghost use Rattle.example_agreement.specs.Openings.{day_writes, IsDayRow, opening_writes, IsOpening, OpeningFields};
ghost use Rattle.example_agreement.specs.OpeningLaws.{day_law, day_key_law, opening_law};

use schemars_agreement::{Agrees, AgreesAsKey, external_variant, fields_at, is_field};
use schemars_types::{Payload, TypeNo, Types};
use serde::{Case, Described, Serialize, Serializer};
use std::collections::BTreeMap;

/// A kind of day.
#[derive(Drop, PartialEq, Eq, PartialOrd, Ord)]
pub enum Day {
    Weekday,
    Saturday,
    Sunday,
}

impl Described for Day {
    ghost writes = { day_writes };
}

impl Serialize for Day {
    fn serialize<S: Serializer>(&self, out: &mut S) -> Result<(), S::Error> {
        match self {
            Day::Weekday => out.str_cased("weekday", Case::AsIs),
            Day::Saturday => out.str_cased("saturday", Case::AsIs),
            Day::Sunday => out.str_cased("sunday", Case::AsIs),
        }
    }
}

impl Agrees for Day {
    ghost valid = { λ _. ⊤ };

    ghost is_row = { IsDayRow };

    ghost agrees = { λ rows n x checked row valid. day_law rows n x checked row };

    fn has_row(types: &Types, n: TypeNo) -> bool {
        matches!(external_variant(types, n, "weekday"), Some(Payload::Unit))
            && matches!(external_variant(types, n, "saturday"), Some(Payload::Unit))
            && matches!(external_variant(types, n, "sunday"), Some(Payload::Unit))
    }

    fn is_valid(&self) -> bool {
        true
    }
}

impl AgreesAsKey for Day {
    ghost agrees_as_key = { λ rows n x checked row valid. day_key_law rows n x checked row };
}

/// When a place is open, and a note on each floor.
#[derive(Drop)]
pub struct Opening {
    pub hours: BTreeMap<Day, u8>,
    pub notes: BTreeMap<i16, String>,
}

impl Described for Opening {
    ghost writes = { opening_writes };
}

impl Serialize for Opening {
    fn serialize<S: Serializer>(&self, out: &mut S) -> Result<(), S::Error> {
        out.begin_map(Some(2))?;
        out.key("hours")?;
        self.hours.serialize(out)?;
        out.key("notes")?;
        self.notes.serialize(out)?;
        out.end_map()
    }
}

impl Agrees for Opening {
    ghost valid = { IsOpening };

    ghost readings = { those (λ _. TakesWholeNumbers) };

    ghost is_row = { λ rows n. HasFields rows n (OpeningFields rows) };

    ghost agrees = { opening_law };

    fn has_row(types: &Types, n: TypeNo) -> bool {
        match fields_at(types, n) {
            Some([hours, notes]) => {
                is_field::<BTreeMap<Day, u8>>(types, hours, "hours")
                    && is_field::<BTreeMap<i16, String>>(types, notes, "notes")
            }
            _ => false,
        }
    }

    fn is_valid(&self) -> bool {
        self.hours.is_valid() && self.notes.is_valid()
    }
}
