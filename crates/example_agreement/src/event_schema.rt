//! How the enum describes itself, and that its values agree with that.
#![tactic(auto, using(schemars_impls::proofs::OwnTypes::own_types))]

ghost use Rattle.std.specs.Prelude.{codes, false, refl, ◌++◌, ◌∷◌};
ghost use Rattle.std.proofs.Common.{inl, inr};
ghost use Rattle.schemars_shapes.specs.Shape.{by_name};
ghost use Rattle.schemars_impls.specs.Containers.{and_parts, no_parts};
ghost use Rattle.schemars_accepted.specs.Told.{tell, TellsWith};
ghost use Rattle.schemars_accepted.specs.Laws.{tells_in, option_in, option_at};
ghost use Rattle.schemars_accepted.specs.Numbered.{variants_row, and_unit, and_newtype, and_tuple, and_struct, no_variant, and_field, no_field, required};
ghost use Rattle.schemars_accepted.specs.contracts.impls.primitives.StringAgreesAsDescribed.TheImpl.Laws as string;
ghost use Rattle.schemars_accepted.specs.contracts.impls.primitives.U8AgreesAsDescribed.TheImpl.Laws as u8_impl;
ghost use Rattle.schemars_accepted.specs.contracts.impls.primitives.I8AgreesAsDescribed.TheImpl.Laws as i8_impl;
ghost use Rattle.schemars_accepted.specs.OwnLaws.{variants_row_at};

use crate::event::Event;
use schemars_accepted::AgreesAsDescribed;
use schemars_agreement::Agrees;
use schemars_impls::{
    JsonSchema, REQUIRED, add_field, add_newtype, add_one, add_struct, add_tuple, add_unit,
    external_entry,
};
use schemars_types::{TypeEntry, Types, TypesError};
use std::alloc::{AllocError, Global};
use std::borrow::CowStr;

impl JsonSchema for Event {
    ghost says = { variants_row (codes "Event") by_name
        (and_unit (codes "started")
        (and_newtype (codes "renamed") ⟦<String as JsonSchema>⟧.says
        (and_tuple (codes "moved")
        (and_parts ⟦<i8 as JsonSchema>⟧.says (and_parts ⟦<i8 as JsonSchema>⟧.says no_parts))
        (and_struct (codes "joined") false
        (and_field (codes "name") required ⟦<String as JsonSchema>⟧.says
        (and_field (codes "age") required ⟦<Option<u8> as JsonSchema>⟧.says no_field)) no_variant)))) };

    fn inline_schema() -> bool {
        false
    }

    fn schema_name(_alloc: Global) -> Result<CowStr<'static>, AllocError> {
        Ok(CowStr::Borrowed("Event"))
    }

    fn schema_id(alloc: Global) -> Result<CowStr<'static>, AllocError> {
        Self::schema_name(alloc)
    }

    fn json_schema(alloc: Global, types: &mut Types) -> Result<TypeEntry, TypesError> {
        let mut variants = Vec::new(alloc);
        add_unit(alloc, &mut variants, "started")?;
        add_newtype::<String>(alloc, types, &mut variants, "renamed")?;
        let mut moved = Vec::new(alloc);
        add_one::<i8>(alloc, types, &mut moved)?;
        add_one::<i8>(alloc, types, &mut moved)?;
        add_tuple(alloc, &mut variants, "moved", moved)?;
        let mut joined = Vec::new(alloc);
        add_field::<String>(alloc, types, &mut joined, "name", REQUIRED)?;
        add_field::<Option<u8>>(alloc, types, &mut joined, "age", REQUIRED)?;
        add_struct(alloc, &mut variants, "joined", joined, false)?;
        Ok(external_entry(alloc, variants))
    }
}

impl AgreesAsDescribed for Event {
    ghost tells = { tell ⟦<Event as JsonSchema>⟧.says ∷ (⟦<String as AgreesAsDescribed>⟧.tells
        ++ ⟦<i8 as AgreesAsDescribed>⟧.tells ++ ⟦<Option<u8> as AgreesAsDescribed>⟧.tells) };

    ghost is_told = { TellsWith ⟦<Event as JsonSchema>⟧.says
        (λ d. ⟦<String as AgreesAsDescribed>⟧.is_told d × ⟦<i8 as AgreesAsDescribed>⟧.is_told d
        × ⟦<Option<u8> as AgreesAsDescribed>⟧.is_told d) };

    ghost is_in = { λ d told. tells_in _ d told.0 (
      string.is_in-law _ told.1.0,
      (
        (i8_impl.is_in-law _ told.1.1, (i8_impl.is_in-law _ told.1.1, tt)),
        (
          (string.is_in-law _ told.1.0, (option_in _ _ told.1.2.0 (u8_impl.is_in-law _ told.1.2.1), tt)),
          tt,
        ),
      ),
    ) };

    ghost described = { λ d rows n told are checked there.
        let v = variants_row_at _ _ _ _ d rows n told.0 are checked there in (
          (_, v.1, inl (refl, refl)),
          (_, (_, v.1, inr (inl (refl, refl))), string.described-law _ rows _ told.1.0 are checked v.2.0),
          (
            _,
            (_, v.1, inr (inr (inl (refl, refl)))),
            (
              i8_impl.described-law _ rows _ told.1.1 are checked v.2.1.0,
              (i8_impl.described-law _ rows _ told.1.1 are checked v.2.1.1.0, tt),
            ),
          ),
          (
            _,
            _,
            (_, v.1, inr (inr (inr (inl (refl, refl))))),
            (
              refl,
              string.described-law _ rows _ told.1.0 are checked v.2.1.1.1.0,
              (
                refl,
                option_at _ ⟦<u8 as Agrees>⟧.is_row _ rows _ told.1.2.0 are checked v.2.1.1.1.1.0
                    (λ k at. u8_impl.described-law _ rows k told.1.2.1 are checked at),
                tt,
              ),
            ),
          ),
        ) };
}
