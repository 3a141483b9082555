//! Enums of one's own, variants of which have the members of another type beside their own.
#![tactic(auto, using(schemars_impls::proofs::OwnTypes::own_types))]

ghost use Rattle.std.specs.Prelude.{codes};
ghost use Rattle.schemars_impls.specs.Dictionary.{IsIn, own};

use crate::types::line::line_of;
use crate::types::own_actor::Actor;
use schemars::GenerateError;
use schemars::impls::{
    JsonSchema, REQUIRED, add_field, add_flat_struct, add_flattened, add_internal_flat_struct,
    add_internal_newtype_of, add_unit, external_entry, internal_entry, register, struct_entry,
};
use schemars::types::{TypeEntry, Types, TypesError};
use std::alloc::{AllocError, Global};
use std::borrow::CowStr;

// Who did it.
struct Audit {
    by: String,
}

impl JsonSchema for Audit {
    ghost says = { own (codes "Audit") (λ d. IsIn ⟦<String as JsonSchema>⟧.says d) };

    fn inline_schema() -> bool {
        false
    }

    fn schema_name(_alloc: Global) -> Result<CowStr<'static>, AllocError> {
        Ok(CowStr::Borrowed("Audit"))
    }

    fn schema_id(alloc: Global) -> Result<CowStr<'static>, AllocError> {
        Self::schema_name(alloc)
    }

    fn json_schema(alloc: Global, types: &mut Types) -> Result<TypeEntry, TypesError> {
        let mut fields = Vec::new(alloc);
        add_field::<String>(alloc, types, &mut fields, "by", REQUIRED)?;
        Ok(struct_entry(alloc, fields, false))
    }
}

// The names are the keys, and a variant has the members of another struct.
enum Change {
    Opened,
    Renamed { to: u8, audit: Audit },
}

impl JsonSchema for Change {
    ghost says = { own (codes "Change") (λ d. IsIn ⟦<u8 as JsonSchema>⟧.says d
        × IsIn ⟦<Audit as JsonSchema>⟧.says d) };

    fn inline_schema() -> bool {
        false
    }

    fn schema_name(_alloc: Global) -> Result<CowStr<'static>, AllocError> {
        Ok(CowStr::Borrowed("Change"))
    }

    fn schema_id(alloc: Global) -> Result<CowStr<'static>, AllocError> {
        Self::schema_name(alloc)
    }

    fn json_schema(alloc: Global, types: &mut Types) -> Result<TypeEntry, TypesError> {
        let mut renamed = Vec::new(alloc);
        add_field::<u8>(alloc, types, &mut renamed, "to", REQUIRED)?;
        let mut audit = Vec::new(alloc);
        add_flattened::<Audit>(alloc, types, &mut audit, REQUIRED)?;
        let mut variants = Vec::new(alloc);
        add_unit(alloc, &mut variants, "opened")?;
        add_flat_struct(alloc, &mut variants, "renamed", renamed, audit, false)?;
        Ok(external_entry(alloc, variants))
    }
}

// The names are under a tag, beside the members of another struct.
enum Step {
    Seen(Audit),
    Done { at: u8, audit: Audit },
}

impl JsonSchema for Step {
    ghost says = { own (codes "Step") (λ d. IsIn ⟦<u8 as JsonSchema>⟧.says d
        × IsIn ⟦<Audit as JsonSchema>⟧.says d × IsIn ⟦<Audit as JsonSchema>⟧.says d) };

    fn inline_schema() -> bool {
        false
    }

    fn schema_name(_alloc: Global) -> Result<CowStr<'static>, AllocError> {
        Ok(CowStr::Borrowed("Step"))
    }

    fn schema_id(alloc: Global) -> Result<CowStr<'static>, AllocError> {
        Self::schema_name(alloc)
    }

    fn json_schema(alloc: Global, types: &mut Types) -> Result<TypeEntry, TypesError> {
        let mut done = Vec::new(alloc);
        add_field::<u8>(alloc, types, &mut done, "at", REQUIRED)?;
        let mut audit = Vec::new(alloc);
        add_flattened::<Audit>(alloc, types, &mut audit, REQUIRED)?;
        let mut variants = Vec::new(alloc);
        let seen = register::<Audit>(alloc, types)?;
        add_internal_newtype_of(alloc, types, &mut variants, "seen", seen)?;
        add_internal_flat_struct(alloc, &mut variants, "done", done, audit, false)?;
        let tag = String::from_str(alloc, "step")?;
        Ok(internal_entry(alloc, tag, false, variants))
    }
}

/// Returns the line of one of these enums, or of `Actor`.
pub(crate) fn own_enum(alloc: Global, of: &str) -> Result<String, GenerateError> {
    match of {
        "Actor" => line_of::<Actor>(alloc),
        "Change" => line_of::<Change>(alloc),
        "Step" => line_of::<Step>(alloc),
        _ => Ok(String::from_str(alloc, "no such type")?),
    }
}
