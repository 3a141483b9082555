//! How the struct of six fields describes itself, and that its values agree with that.
#![tactic(auto, using(schemars_impls::proofs::OwnTypes::own_types))]

ghost use Rattle.std.specs.Prelude.{codes, true, refl, ◌++◌, ◌∷◌};
ghost use Rattle.schemars_accepted.specs.Told.{tell, TellsWith};
ghost use Rattle.schemars_accepted.specs.Laws.{tells_in, option_in, option_at, seq_in, seq_at, tuple_in, pair_at};
ghost use Rattle.schemars_accepted.specs.Numbered.{fields_row, and_field, no_field, required};
ghost use Rattle.schemars_accepted.specs.OwnLaws.{fields_row_at};
ghost use Rattle.schemars_accepted.specs.contracts.impls.primitives.StringAgreesAsDescribed.TheImpl.Laws as string;
ghost use Rattle.schemars_accepted.specs.contracts.impls.primitives.BoolAgreesAsDescribed.TheImpl.Laws as bool_impl;
ghost use Rattle.schemars_accepted.specs.contracts.impls.primitives.U8AgreesAsDescribed.TheImpl.Laws as u8_impl;
ghost use Rattle.schemars_accepted.specs.contracts.impls.primitives.U32AgreesAsDescribed.TheImpl.Laws as u32_impl;
ghost use Rattle.schemars_accepted.specs.contracts.impls.primitives.I16AgreesAsDescribed.TheImpl.Laws as i16_impl;

use crate::sensor::Sensor;
use schemars_accepted::AgreesAsDescribed;
use schemars_agreement::Agrees;
use schemars_impls::{JsonSchema, REQUIRED, add_field, struct_entry};
use schemars_types::{TypeEntry, Types, TypesError};
use std::alloc::{AllocError, Global};
use std::borrow::CowStr;

impl JsonSchema for Sensor {
    ghost says = { fields_row (codes "Sensor") true
        (and_field (codes "id") required ⟦<u32 as JsonSchema>⟧.says
        (and_field (codes "sensorLabel") required ⟦<String as JsonSchema>⟧.says
        (and_field (codes "on") required ⟦<bool as JsonSchema>⟧.says
        (and_field (codes "tags") required ⟦<Vec<String> as JsonSchema>⟧.says
        (and_field (codes "range") required ⟦<(i16, i16) as JsonSchema>⟧.says
        (and_field (codes "limit") required ⟦<Option<u8> as JsonSchema>⟧.says no_field)))))) };

    fn inline_schema() -> bool {
        false
    }

    fn schema_name(_alloc: Global) -> Result<CowStr<'static>, AllocError> {
        Ok(CowStr::Borrowed("Sensor"))
    }

    fn schema_id(alloc: Global) -> Result<CowStr<'static>, AllocError> {
        Self::schema_name(alloc)
    }

    fn json_schema(alloc: Global, types: &mut Types) -> Result<TypeEntry, TypesError> {
        let mut fields = Vec::new(alloc);
        add_field::<u32>(alloc, types, &mut fields, "id", REQUIRED)?;
        add_field::<String>(alloc, types, &mut fields, "sensorLabel", REQUIRED)?;
        add_field::<bool>(alloc, types, &mut fields, "on", REQUIRED)?;
        add_field::<Vec<String>>(alloc, types, &mut fields, "tags", REQUIRED)?;
        add_field::<(i16, i16)>(alloc, types, &mut fields, "range", REQUIRED)?;
        add_field::<Option<u8>>(alloc, types, &mut fields, "limit", REQUIRED)?;
        Ok(struct_entry(alloc, fields, true))
    }
}

impl AgreesAsDescribed for Sensor {
    ghost tells = { tell ⟦<Sensor as JsonSchema>⟧.says ∷ (⟦<u32 as AgreesAsDescribed>⟧.tells
        ++ ⟦<bool as AgreesAsDescribed>⟧.tells ++ ⟦<Vec<String> as AgreesAsDescribed>⟧.tells
        ++ ⟦<(i16, i16) as AgreesAsDescribed>⟧.tells ++ ⟦<Option<u8> as AgreesAsDescribed>⟧.tells) };

    ghost is_told = { TellsWith ⟦<Sensor as JsonSchema>⟧.says
        (λ d. ⟦<u32 as AgreesAsDescribed>⟧.is_told d × ⟦<String as AgreesAsDescribed>⟧.is_told d
        × ⟦<bool as AgreesAsDescribed>⟧.is_told d × ⟦<Vec<String> as AgreesAsDescribed>⟧.is_told d
        × ⟦<(i16, i16) as AgreesAsDescribed>⟧.is_told d × ⟦<Option<u8> as AgreesAsDescribed>⟧.is_told d) };

    ghost is_in = { λ d told. tells_in _ d told.0 (
      u32_impl.is_in-law _ told.1.0,
      (
        string.is_in-law _ told.1.1,
        (
          bool_impl.is_in-law _ told.1.2,
          (
            seq_in _ _ told.1.3.0 (string.is_in-law _ told.1.3.1),
            (
              tuple_in _ _ told.1.4.0 (i16_impl.is_in-law _ told.1.4.1.0, (i16_impl.is_in-law _ told.1.4.1.1, tt)),
              (option_in _ _ told.1.5.0 (u8_impl.is_in-law _ told.1.5.1), tt),
            ),
          ),
        ),
      ),
    ) };

    ghost described = { λ d rows n told are checked there. fields_row_at _ _ _ _ _
        d rows n told.0 are checked there (λ number at. (
          refl,
          u32_impl.described-law _ rows _ told.1.0 are checked at.0,
          (
            refl,
            string.described-law _ rows _ told.1.1 are checked at.1.0,
            (
              refl,
              bool_impl.described-law _ rows _ told.1.2 are checked at.1.1.0,
              (
                refl,
                seq_at _ ⟦<String as Agrees>⟧.is_row _ rows _ told.1.3.0 are checked at.1.1.1.0
                    (λ m at. string.described-law _ rows m told.1.3.1 are checked at),
                (
                  refl,
                  pair_at _ _ ⟦<i16 as Agrees>⟧.is_row ⟦<i16 as Agrees>⟧.is_row _ rows _ told.1.4.0 are checked
                      at.1.1.1.1.0 (λ m at. i16_impl.described-law _ rows m told.1.4.1.0 are checked at)
                      (λ m at. i16_impl.described-law _ rows m told.1.4.1.1 are checked at),
                  (
                    refl,
                    option_at _ ⟦<u8 as Agrees>⟧.is_row _ rows _ told.1.5.0 are checked at.1.1.1.1.1.0
                        (λ m at. u8_impl.described-law _ rows m told.1.5.1 are checked at),
                    tt,
                  ),
                ),
              ),
            ),
          ),
        )) };
}
