//! How the types with maps describe themselves in tables of types.
#![tactic(auto, using(schemars_impls::proofs::OwnTypes::own_types))]

ghost use Rattle.std.specs.Prelude.{⊤, codes};
ghost use Rattle.schemars_impls.specs.Dictionary.{IsIn, own};

use crate::opening::{Day, Opening};
use crate::sensor::Sensor;
use crate::station::Station;
use schemars_impls::{JsonSchema, REQUIRED, add_field, add_unit, external_entry, struct_entry};
use schemars_types::{TypeEntry, Types, TypesError};
use std::alloc::{AllocError, Global};
use std::borrow::CowStr;
use std::collections::BTreeMap;

impl JsonSchema for Day {
    ghost says = { own (codes "Day") (λ d. ⊤) };

    fn inline_schema() -> bool {
        false
    }

    fn schema_name(_alloc: Global) -> Result<CowStr<'static>, AllocError> {
        Ok(CowStr::Borrowed("Day"))
    }

    fn schema_id(alloc: Global) -> Result<CowStr<'static>, AllocError> {
        Self::schema_name(alloc)
    }

    fn json_schema(alloc: Global, _types: &mut Types) -> Result<TypeEntry, TypesError> {
        let mut variants = Vec::new(alloc);
        add_unit(alloc, &mut variants, "weekday")?;
        add_unit(alloc, &mut variants, "saturday")?;
        add_unit(alloc, &mut variants, "sunday")?;
        Ok(external_entry(alloc, variants))
    }
}

impl JsonSchema for Opening {
    ghost says = { own (codes "Opening") (λ d. IsIn ⟦<BTreeMap<Day, u8> as JsonSchema>⟧.says d
        × IsIn ⟦<BTreeMap<i16, String> as JsonSchema>⟧.says d) };

    fn inline_schema() -> bool {
        false
    }

    fn schema_name(_alloc: Global) -> Result<CowStr<'static>, AllocError> {
        Ok(CowStr::Borrowed("Opening"))
    }

    fn schema_id(alloc: Global) -> Result<CowStr<'static>, AllocError> {
        Self::schema_name(alloc)
    }

    fn json_schema(alloc: Global, types: &mut Types) -> Result<TypeEntry, TypesError> {
        let mut fields = Vec::new(alloc);
        add_field::<BTreeMap<Day, u8>>(alloc, types, &mut fields, "hours", REQUIRED)?;
        add_field::<BTreeMap<i16, String>>(alloc, types, &mut fields, "notes", REQUIRED)?;
        Ok(struct_entry(alloc, fields, true))
    }
}

impl JsonSchema for Station {
    ghost says = { own (codes "Station") (λ d. IsIn ⟦<Sensor as JsonSchema>⟧.says d
        × IsIn ⟦<Vec<Sensor> as JsonSchema>⟧.says d
        × IsIn ⟦<BTreeMap<String, u64> as JsonSchema>⟧.says d) };

    fn inline_schema() -> bool {
        false
    }

    fn schema_name(_alloc: Global) -> Result<CowStr<'static>, AllocError> {
        Ok(CowStr::Borrowed("Station"))
    }

    fn schema_id(alloc: Global) -> Result<CowStr<'static>, AllocError> {
        Self::schema_name(alloc)
    }

    fn json_schema(alloc: Global, types: &mut Types) -> Result<TypeEntry, TypesError> {
        let mut fields = Vec::new(alloc);
        add_field::<Sensor>(alloc, types, &mut fields, "first", REQUIRED)?;
        add_field::<Vec<Sensor>>(alloc, types, &mut fields, "others", REQUIRED)?;
        add_field::<BTreeMap<String, u64>>(alloc, types, &mut fields, "counts", REQUIRED)?;
        Ok(struct_entry(alloc, fields, true))
    }
}
