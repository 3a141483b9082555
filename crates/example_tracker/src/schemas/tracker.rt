//! Written by `schemaderive --impls crate::tracker`, which writes it anew: edit the declarations.
#![tactic(auto, using(schemars::proofs::OwnTypes::own_types))]

ghost use Rattle.schemars.specs.Words.{codes, IsIn, IsMapOf, own};

use crate::issues::Issue;
use crate::people::User;
use crate::tracker::{Area, Tracker};
use crate::values::{FieldValue, Priority};
use schemars::impls::{
    JsonSchema, OPTIONAL, READ_OPTIONAL, REQUIRED, add_field, add_map_of, note_entry, note_field,
    struct_entry,
};
use schemars::types::{TypeEntry, Types, TypesError};
use serde_json::{Value, json};
use std::alloc::{AllocError, Global};
use std::borrow::CowStr;
use std::collections::BTreeMap;
use url::Url;

impl JsonSchema for Area {
    ghost says = { own (codes "Area") (λ d. IsIn ⟦<Url as JsonSchema>⟧.says d × IsIn ⟦<Priority as JsonSchema>⟧.says d × IsIn ⟦<Vec<Issue> as JsonSchema>⟧.says d × IsMapOf ⟦<String as JsonSchema>⟧.says (codes "Area") (codes "Area") d) };

    fn inline_schema() -> bool {
        false
    }

    fn schema_name(_alloc: Global) -> Result<CowStr<'static>, AllocError> {
        Ok(CowStr::Borrowed("Area"))
    }

    fn schema_id(alloc: Global) -> Result<CowStr<'static>, AllocError> {
        Self::schema_name(alloc)
    }

    fn json_schema(alloc: Global, types: &mut Types) -> Result<TypeEntry, TypesError> {
        let mut fields = Vec::new(alloc);
        add_field::<Url>(alloc, types, &mut fields, "page", REQUIRED)?;
        add_field::<Priority>(alloc, types, &mut fields, "priority", REQUIRED)?;
        add_field::<Vec<Issue>>(alloc, types, &mut fields, "issues", REQUIRED)?;
        add_map_of::<String>(alloc, types, &mut fields, "parts", "Area", "Area", OPTIONAL)?;
        let mut entry = struct_entry(alloc, fields, false);
        let description = Value::try_from_str(
            alloc,
            "An area with its issues, and the areas that are parts of it by their names.",
        )?;
        note_entry(alloc, &mut entry, "description", description)?;
        Ok(entry)
    }
}

impl JsonSchema for Tracker {
    ghost says = { own (codes "Tracker") (λ d. IsIn ⟦<Vec<User> as JsonSchema>⟧.says d × IsIn ⟦<BTreeMap<String, Area> as JsonSchema>⟧.says d × IsIn ⟦<BTreeMap<String, FieldValue> as JsonSchema>⟧.says d) };

    fn inline_schema() -> bool {
        false
    }

    fn schema_name(_alloc: Global) -> Result<CowStr<'static>, AllocError> {
        Ok(CowStr::Borrowed("Tracker"))
    }

    fn schema_id(alloc: Global) -> Result<CowStr<'static>, AllocError> {
        Self::schema_name(alloc)
    }

    fn json_schema(alloc: Global, types: &mut Types) -> Result<TypeEntry, TypesError> {
        let mut fields = Vec::new(alloc);
        add_field::<Vec<User>>(alloc, types, &mut fields, "users", REQUIRED)?;
        add_field::<BTreeMap<String, Area>>(alloc, types, &mut fields, "areas", REQUIRED)?;
        let description = Value::try_from_str(alloc, "the areas by their names")?;
        note_field(alloc, &mut fields, "description", description)?;
        add_field::<BTreeMap<String, FieldValue>>(
            alloc,
            types,
            &mut fields,
            "settings",
            READ_OPTIONAL,
        )?;
        let default = json!(in alloc; {})?;
        note_field(alloc, &mut fields, "default", default)?;
        let description = Value::try_from_str(
            alloc,
            "the values of the fields that it defines itself",
        )?;
        note_field(alloc, &mut fields, "description", description)?;
        let mut entry = struct_entry(alloc, fields, false);
        let title = Value::try_from_str(alloc, "An issue tracker")?;
        note_entry(alloc, &mut entry, "title", title)?;
        let description = Value::try_from_str(alloc, "All that it keeps.")?;
        note_entry(alloc, &mut entry, "description", description)?;
        Ok(entry)
    }
}
