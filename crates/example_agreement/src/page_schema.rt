//! How the struct with a field that may be left out describes itself, and that its values agree with
//! that.
#![tactic(auto, using(schemars_impls::proofs::OwnTypes::own_types))]

ghost use Rattle.std.specs.Prelude.{codes, false, refl, ◌++◌, ◌∷◌};
ghost use Rattle.schemars_accepted.specs.Told.{tell, TellsWith};
ghost use Rattle.schemars_accepted.specs.Laws.{tells_in, option_in, option_at};
ghost use Rattle.schemars_accepted.specs.Numbered.{fields_row, and_field, no_field, required, optional};
ghost use Rattle.schemars_accepted.specs.OwnLaws.{fields_row_at};
ghost use Rattle.schemars_accepted.specs.contracts.impls.primitives.StringAgreesAsDescribed.TheImpl.Laws as string;

use crate::page::Page;
use schemars_accepted::AgreesAsDescribed;
use schemars_agreement::Agrees;
use schemars_impls::{JsonSchema, OPTIONAL, REQUIRED, add_field, struct_entry};
use schemars_types::{TypeEntry, Types, TypesError};
use std::alloc::{AllocError, Global};
use std::borrow::CowStr;

impl JsonSchema for Page {
    ghost says = { fields_row (codes "Page") false
        (and_field (codes "pageTitle") required ⟦<String as JsonSchema>⟧.says
        (and_field (codes "note") optional ⟦<Option<String> as JsonSchema>⟧.says no_field)) };

    fn inline_schema() -> bool {
        false
    }

    fn schema_name(_alloc: Global) -> Result<CowStr<'static>, AllocError> {
        Ok(CowStr::Borrowed("Page"))
    }

    fn schema_id(alloc: Global) -> Result<CowStr<'static>, AllocError> {
        Self::schema_name(alloc)
    }

    fn json_schema(alloc: Global, types: &mut Types) -> Result<TypeEntry, TypesError> {
        let mut fields = Vec::new(alloc);
        add_field::<String>(alloc, types, &mut fields, "pageTitle", REQUIRED)?;
        add_field::<Option<String>>(alloc, types, &mut fields, "note", OPTIONAL)?;
        Ok(struct_entry(alloc, fields, false))
    }
}

impl AgreesAsDescribed for Page {
    ghost tells = { tell ⟦<Page as JsonSchema>⟧.says
        ∷ (⟦<String as AgreesAsDescribed>⟧.tells ++ ⟦<Option<String> as AgreesAsDescribed>⟧.tells) };

    ghost is_told = { TellsWith ⟦<Page as JsonSchema>⟧.says
        (λ d. ⟦<String as AgreesAsDescribed>⟧.is_told d × ⟦<Option<String> as AgreesAsDescribed>⟧.is_told d) };

    ghost is_in = { λ d told. tells_in _ d told.0 (
      string.is_in-law _ told.1.0,
      (option_in _ _ told.1.1.0 (string.is_in-law _ told.1.1.1), tt),
    ) };

    ghost described = { λ d rows n told are checked there. fields_row_at _ _ _ _ _
        d rows n told.0 are checked there (λ number at. (
          refl,
          string.described-law _ rows _ told.1.0 are checked at.0,
          (
            refl,
            option_at _ ⟦<String as Agrees>⟧.is_row _ rows _ told.1.1.0 are checked at.1.0
                (λ m at. string.described-law _ rows m told.1.1.1 are checked at),
            refl,
            tt,
          ),
        )) };
}
