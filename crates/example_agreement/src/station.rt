//! A struct that holds other structs.
ghost use Rattle.std.specs.Prelude.{codes, string_bytes};
ghost use Rattle.schemars_written.specs.Gives.{Struct, Field, Done};
ghost use Rattle.schemars_written.specs.Fits.{HasFields, NextField, LastField};
ghost use Rattle.schemars_written.proofs.Laws.{struct_law, next_field, last_field, vec_law, map_law};
ghost use Rattle.schemars_agreement.specs.contracts.impls.integers.U64Agrees.TheImpl.Laws as u64_impl;
ghost use Rattle.example_agreement.specs.contracts.sensor.SensorAgrees.TheImpl.Laws as sensor;

use crate::sensor::Sensor;
use schemars_agreement::{Agrees, fields_at, is_field};
use schemars_types::{TypeNo, Types};
use serde::{Described, Serialize, Serializer};
use std::collections::BTreeMap;

/// Sensors of one place, and how often each has been read.
#[derive(Drop)]
pub struct Station {
    pub first: Sensor,
    pub others: Vec<Sensor>,
    pub counts: BTreeMap<String, u64>,
}

impl Described for Station {
    ghost writes = { λ s. Struct 3 (Field (codes "first") (⟦<Sensor as Described>⟧.writes s.first)
        (Field (codes "others") (⟦<Vec<Sensor> as Described>⟧.writes s.others)
        (Field (codes "counts") (⟦<BTreeMap<String, u64> as Described>⟧.writes s.counts) Done))) };
}

impl Serialize for Station {
    fn serialize<S: Serializer>(&self, out: &mut S) -> Result<(), S::Error> {
        out.begin_map(Some(3))?;
        out.key("first")?;
        self.first.serialize(out)?;
        out.key("others")?;
        self.others.serialize(out)?;
        out.key("counts")?;
        self.counts.serialize(out)?;
        out.end_map()
    }
}

impl Agrees for Station {
    ghost valid = { λ s. ⟦<Sensor as Agrees>⟧.valid s.first
        × ⟦<Vec<Sensor> as Agrees>⟧.valid s.others
        × ⟦<BTreeMap<String, u64> as Agrees>⟧.valid s.counts };

    ghost is_row = { λ rows n. HasFields rows n
        (NextField (codes "first") (⟦<Sensor as Agrees>⟧.is_row rows)
        (NextField (codes "others") (⟦<Vec<Sensor> as Agrees>⟧.is_row rows)
        (NextField (codes "counts") (⟦<BTreeMap<String, u64> as Agrees>⟧.is_row rows) LastField))) };

    ghost agrees = { λ rows n s checked row valid. struct_law rows checked n 3 _ _ row
        (next_field rows (codes "first") _ _ _ _
        (λ m r. sensor.agrees-law rows m s.first checked r valid.0)
        (next_field rows (codes "others") _ _ _ _
        (λ m r. vec_law rows checked m ⟦<Sensor as Described>⟧.writes ⟦<Sensor as Agrees>⟧.valid
        ⟦<Sensor as Agrees>⟧.is_row (λ k x row valid. sensor.agrees-law rows k x checked row valid)
        r s.others.items valid.1)
        (next_field rows (codes "counts") _ _ _ _
        (λ m r. map_law rows checked m string_bytes ⟦<u64 as Described>⟧.writes
        ⟦<u64 as Agrees>⟧.valid ⟦<u64 as Agrees>⟧.is_row
        (λ k x row valid. u64_impl.agrees-law rows k x checked row valid) r s.counts.entries valid.2)
        (last_field rows)))) };

    fn has_row(types: &Types, n: TypeNo) -> bool {
        match fields_at(types, n) {
            Some([first, others, counts]) => {
                if !is_field::<Sensor>(types, first, "first") {
                    return false;
                }
                if !is_field::<Vec<Sensor>>(types, others, "others") {
                    return false;
                }
                is_field::<BTreeMap<String, u64>>(types, counts, "counts")
            }
            _ => false,
        }
    }

    fn is_valid(&self) -> bool {
        self.first.is_valid() && self.others.is_valid() && self.counts.is_valid()
    }
}
