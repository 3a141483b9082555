//! Written by `schemaderive --impls crate::settings`, which writes it anew: edit the declarations.
#![tactic(auto, using(schemars::proofs::OwnTypes::own_types))]

ghost use Rattle.schemars.specs.Words.{codes, IsIn, own};

use crate::settings::{Configuration, Limits};
use schemars::impls::{
    JsonSchema, OPTIONAL, REQUIRED, add_field, note_entry, note_field, struct_entry,
};
use schemars::types::{TypeEntry, Types, TypesError};
use serde_json::Value;
use std::alloc::{AllocError, Global};
use std::borrow::CowStr;

impl JsonSchema for Configuration {
    ghost says = { own (codes "Configuration") (λ d. IsIn ⟦<String as JsonSchema>⟧.says d × IsIn ⟦<u16 as JsonSchema>⟧.says d × IsIn ⟦<Vec<String> as JsonSchema>⟧.says d × IsIn ⟦<Option<Limits> as JsonSchema>⟧.says d) };

    fn inline_schema() -> bool {
        false
    }

    fn schema_name(_alloc: Global) -> Result<CowStr<'static>, AllocError> {
        Ok(CowStr::Borrowed("Configuration"))
    }

    fn schema_id(alloc: Global) -> Result<CowStr<'static>, AllocError> {
        Self::schema_name(alloc)
    }

    fn json_schema(alloc: Global, types: &mut Types) -> Result<TypeEntry, TypesError> {
        let mut fields = Vec::new(alloc);
        add_field::<String>(alloc, types, &mut fields, "listen", REQUIRED)?;
        let description = Value::try_from_str(alloc, "where it listens")?;
        note_field(alloc, &mut fields, "description", description)?;
        add_field::<u16>(alloc, types, &mut fields, "workers", REQUIRED)?;
        let description = Value::try_from_str(alloc, "how many requests it works at a time")?;
        note_field(alloc, &mut fields, "description", description)?;
        add_field::<Vec<String>>(alloc, types, &mut fields, "tags", REQUIRED)?;
        let description = Value::try_from_str(alloc, "what it is labelled with")?;
        note_field(alloc, &mut fields, "description", description)?;
        add_field::<Option<Limits>>(alloc, types, &mut fields, "limits", OPTIONAL)?;
        let description = Value::try_from_str(alloc, "how much a client may ask for")?;
        note_field(alloc, &mut fields, "description", description)?;
        let mut entry = struct_entry(alloc, fields, false);
        let description = Value::try_from_str(alloc, "The configuration of a small server.")?;
        note_entry(alloc, &mut entry, "description", description)?;
        Ok(entry)
    }
}

impl JsonSchema for Limits {
    ghost says = { own (codes "Limits") (λ d. IsIn ⟦<u16 as JsonSchema>⟧.says d × IsIn ⟦<Option<u16> as JsonSchema>⟧.says d) };

    fn inline_schema() -> bool {
        false
    }

    fn schema_name(_alloc: Global) -> Result<CowStr<'static>, AllocError> {
        Ok(CowStr::Borrowed("Limits"))
    }

    fn schema_id(alloc: Global) -> Result<CowStr<'static>, AllocError> {
        Self::schema_name(alloc)
    }

    fn json_schema(alloc: Global, types: &mut Types) -> Result<TypeEntry, TypesError> {
        let mut fields = Vec::new(alloc);
        add_field::<u16>(alloc, types, &mut fields, "requests", REQUIRED)?;
        let description = Value::try_from_str(alloc, "how many requests")?;
        note_field(alloc, &mut fields, "description", description)?;
        add_field::<Option<u16>>(alloc, types, &mut fields, "seconds", OPTIONAL)?;
        let description = Value::try_from_str(alloc, "in how many seconds; in none, at a time")?;
        note_field(alloc, &mut fields, "description", description)?;
        let mut entry = struct_entry(alloc, fields, false);
        let description = Value::try_from_str(alloc, "How much a client may ask for.")?;
        note_entry(alloc, &mut entry, "description", description)?;
        Ok(entry)
    }
}
