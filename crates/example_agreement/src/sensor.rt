//! A struct of six fields, one of which is written under another name.
ghost use Rattle.std.specs.Prelude.{codes};
ghost use Rattle.schemars_written.specs.Gives.{Struct, Field, Done};
ghost use Rattle.schemars_written.specs.Fits.{HasFields, NextField, LastField};
ghost use Rattle.schemars_written.proofs.Laws.{struct_law, next_field, last_field, option_law, vec_law, pair_law};
ghost use Rattle.schemars_agreement.specs.contracts.impls.primitives.StringAgrees.TheImpl.Laws as string;
ghost use Rattle.schemars_agreement.specs.contracts.impls.primitives.BoolAgrees.TheImpl.Laws as bool_impl;
ghost use Rattle.schemars_agreement.specs.contracts.impls.integers.U8Agrees.TheImpl.Laws as u8_impl;
ghost use Rattle.schemars_agreement.specs.contracts.impls.integers.U32Agrees.TheImpl.Laws as u32_impl;
ghost use Rattle.schemars_agreement.specs.contracts.impls.integers.I16Agrees.TheImpl.Laws as i16_impl;

use schemars_agreement::{Agrees, fields_at, is_field};
use schemars_types::{TypeNo, Types};
use serde::{Described, Serialize, Serializer};

/// What measures.
#[derive(Drop)]
pub struct Sensor {
    pub id: u32,
    /// serde's name of this field is `sensorLabel`
    pub label: String,
    pub on: bool,
    pub tags: Vec<String>,
    pub range: (i16, i16),
    /// `null` if there is none
    pub limit: Option<u8>,
}

impl Described for Sensor {
    ghost writes = { λ s. Struct 6 (Field (codes "id") (⟦<u32 as Described>⟧.writes s.id)
        (Field (codes "sensorLabel") (⟦<String as Described>⟧.writes s.label)
        (Field (codes "on") (⟦<bool as Described>⟧.writes s.on)
        (Field (codes "tags") (⟦<Vec<String> as Described>⟧.writes s.tags)
        (Field (codes "range") (⟦<(i16, i16) as Described>⟧.writes s.range)
        (Field (codes "limit") (⟦<Option<u8> as Described>⟧.writes s.limit) Done)))))) };
}

impl Serialize for Sensor {
    fn serialize<S: Serializer>(&self, out: &mut S) -> Result<(), S::Error> {
        out.begin_map(Some(6))?;
        out.key("id")?;
        self.id.serialize(out)?;
        out.key("sensorLabel")?;
        self.label.serialize(out)?;
        out.key("on")?;
        self.on.serialize(out)?;
        out.key("tags")?;
        self.tags.serialize(out)?;
        out.key("range")?;
        self.range.serialize(out)?;
        out.key("limit")?;
        self.limit.serialize(out)?;
        out.end_map()
    }
}

impl Agrees for Sensor {
    ghost valid = { λ s. ⟦<u32 as Agrees>⟧.valid s.id × ⟦<String as Agrees>⟧.valid s.label
        × ⟦<bool as Agrees>⟧.valid s.on × ⟦<Vec<String> as Agrees>⟧.valid s.tags
        × ⟦<(i16, i16) as Agrees>⟧.valid s.range × ⟦<Option<u8> as Agrees>⟧.valid s.limit };

    ghost is_row = { λ rows n. HasFields rows n
        (NextField (codes "id") (⟦<u32 as Agrees>⟧.is_row rows)
        (NextField (codes "sensorLabel") (⟦<String as Agrees>⟧.is_row rows)
        (NextField (codes "on") (⟦<bool as Agrees>⟧.is_row rows)
        (NextField (codes "tags") (⟦<Vec<String> as Agrees>⟧.is_row rows)
        (NextField (codes "range") (⟦<(i16, i16) as Agrees>⟧.is_row rows)
        (NextField (codes "limit") (⟦<Option<u8> as Agrees>⟧.is_row rows) LastField)))))) };

    ghost agrees = { λ rows n p checked row valid. struct_law rows checked n 6 _ _ row
        (next_field rows (codes "id") _ _ _ _
        (λ m r. u32_impl.agrees-law rows m p.id checked r valid.0)
        (next_field rows (codes "sensorLabel") _ _ _ _
        (λ m r. string.agrees-law rows m p.label checked r valid.1)
        (next_field rows (codes "on") _ _ _ _
        (λ m r. bool_impl.agrees-law rows m p.on checked r valid.2)
        (next_field rows (codes "tags") _ _ _ _
        (λ m r. vec_law rows checked m ⟦<String as Described>⟧.writes ⟦<String as Agrees>⟧.valid
        ⟦<String as Agrees>⟧.is_row (λ k x row valid. string.agrees-law rows k x checked row valid)
        r p.tags.items valid.3)
        (next_field rows (codes "range") _ _ _ _
        (λ m r. pair_law rows checked m ⟦<i16 as Described>⟧.writes ⟦<i16 as Described>⟧.writes
        ⟦<i16 as Agrees>⟧.valid ⟦<i16 as Agrees>⟧.valid ⟦<i16 as Agrees>⟧.is_row ⟦<i16 as Agrees>⟧.is_row
        (λ k x row valid. i16_impl.agrees-law rows k x checked row valid)
        (λ k x row valid. i16_impl.agrees-law rows k x checked row valid) r p.range.0 p.range.1 valid.4)
        (next_field rows (codes "limit") _ _ _ _
        (λ m r. option_law rows checked m ⟦<u8 as Described>⟧.writes ⟦<u8 as Agrees>⟧.valid
        ⟦<u8 as Agrees>⟧.is_row (λ k x row valid. u8_impl.agrees-law rows k x checked row valid)
        r p.limit valid.5)
        (last_field rows))))))) };

    fn has_row(types: &Types, n: TypeNo) -> bool {
        match fields_at(types, n) {
            Some([id, label, on, tags, range, limit]) => {
                if !is_field::<u32>(types, id, "id") {
                    return false;
                }
                if !is_field::<String>(types, label, "sensorLabel") {
                    return false;
                }
                if !is_field::<bool>(types, on, "on") {
                    return false;
                }
                if !is_field::<Vec<String>>(types, tags, "tags") {
                    return false;
                }
                if !is_field::<(i16, i16)>(types, range, "range") {
                    return false;
                }
                is_field::<Option<u8>>(types, limit, "limit")
            }
            _ => false,
        }
    }

    fn is_valid(&self) -> bool {
        self.id.is_valid()
            && self.label.is_valid()
            && self.on.is_valid()
            && self.tags.is_valid()
            && self.range.is_valid()
            && self.limit.is_valid()
    }
}
