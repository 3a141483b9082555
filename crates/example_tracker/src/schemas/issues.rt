//! Written by `schemaderive --impls crate::issues`, which writes it anew: edit the declarations.
#![tactic(auto, using(schemars::proofs::OwnTypes::own_types))]

ghost use Rattle.std.specs.Prelude.{IfErr, OnOk, map};
ghost use Rattle.schemars.specs.Words.{codes, Describes, internal_variant_of, IsIn, IsSeqOf, KeepsRows, own, RefusesPart, variant_of, VariantsAreKnown};

use crate::issues::{Audit, Change, Issue, IssueId, Note, State};
use crate::people::Actor;
use crate::values::Label;
use jiff::Timestamp;
use schemars::impls::{
    JsonSchema, OPTIONAL, READ_OPTIONAL, REQUIRED, add_field, add_flattened,
    add_internal_flat_struct, add_internal_newtype, add_internal_unit, add_newtype, add_one,
    add_seq_of, add_tuple, add_unit, adjacent_entry, flat_entry, internal_entry, note_entry,
    note_internal_variant, note_variant, struct_entry,
};
use schemars::types::{InternalVariant, TypeEntry, Types, TypesError, Variant};
use serde_json::Value;
use std::alloc::{AllocError, Global};
use std::borrow::CowStr;
use uuid::Uuid;

impl JsonSchema for IssueId {
    ghost says = { own (codes "IssueId") (λ d. IsIn ⟦<Uuid as JsonSchema>⟧.says d × IsIn ⟦<u32 as JsonSchema>⟧.says d) };

    fn inline_schema() -> bool {
        false
    }

    fn schema_name(_alloc: Global) -> Result<CowStr<'static>, AllocError> {
        Ok(CowStr::Borrowed("IssueId"))
    }

    fn schema_id(alloc: Global) -> Result<CowStr<'static>, AllocError> {
        Self::schema_name(alloc)
    }

    fn json_schema(alloc: Global, types: &mut Types) -> Result<TypeEntry, TypesError> {
        let mut fields = Vec::new(alloc);
        add_field::<Uuid>(alloc, types, &mut fields, "id", REQUIRED)?;
        add_field::<u32>(alloc, types, &mut fields, "number", REQUIRED)?;
        let mut entry = struct_entry(alloc, fields, false);
        let description = Value::try_from_str(alloc, "What an issue is referred to by.")?;
        note_entry(alloc, &mut entry, "description", description)?;
        Ok(entry)
    }
}

impl JsonSchema for Audit {
    ghost says = { own (codes "Audit") (λ d. IsIn ⟦<Timestamp as JsonSchema>⟧.says d × IsIn ⟦<Option<Timestamp> as JsonSchema>⟧.says d) };

    fn inline_schema() -> bool {
        false
    }

    fn schema_name(_alloc: Global) -> Result<CowStr<'static>, AllocError> {
        Ok(CowStr::Borrowed("Audit"))
    }

    fn schema_id(alloc: Global) -> Result<CowStr<'static>, AllocError> {
        Self::schema_name(alloc)
    }

    fn json_schema(alloc: Global, types: &mut Types) -> Result<TypeEntry, TypesError> {
        let mut fields = Vec::new(alloc);
        add_field::<Timestamp>(alloc, types, &mut fields, "created", REQUIRED)?;
        add_field::<Option<Timestamp>>(alloc, types, &mut fields, "updated", OPTIONAL)?;
        let mut entry = struct_entry(alloc, fields, false);
        let description = Value::try_from_str(
            alloc,
            "When something was written, and when it was last changed.",
        )?;
        note_entry(alloc, &mut entry, "description", description)?;
        Ok(entry)
    }
}

impl JsonSchema for State {
    ghost says = { own (codes "State") (λ d. IsIn ⟦<Audit as JsonSchema>⟧.says d × IsIn ⟦<Option<String> as JsonSchema>⟧.says d × IsIn ⟦<IssueId as JsonSchema>⟧.says d) };

    fn inline_schema() -> bool {
        false
    }

    fn schema_name(_alloc: Global) -> Result<CowStr<'static>, AllocError> {
        Ok(CowStr::Borrowed("State"))
    }

    fn schema_id(alloc: Global) -> Result<CowStr<'static>, AllocError> {
        Self::schema_name(alloc)
    }

    fn json_schema(alloc: Global, types: &mut Types) -> Result<TypeEntry, TypesError> {
        let mut variants = Vec::new(alloc);
        state_part_1(alloc, types, &mut variants)?;
        state_part_2(alloc, types, &mut variants)?;
        let tag = String::from_str(alloc, "state")?;
        let mut entry = internal_entry(alloc, tag, false, variants);
        let description = Value::try_from_str(
            alloc,
            "Whether an issue is open. The variants are tagged by the member `state`.",
        )?;
        note_entry(alloc, &mut entry, "description", description)?;
        Ok(entry)
    }
}

// Adds some of the variants of `State`.
fn state_part_1(
    alloc: Global,
    types: &mut Types,
    variants: &mut Vec<InternalVariant>,
) -> Result<(), TypesError>
    ensures keeps { KeepsRows types.old types.new }
    ensures known { OnOk result (VariantsAreKnown types.old (map internal_variant_of variants.old.items)
        → VariantsAreKnown types.new (map internal_variant_of variants.new.items)) }
    ensures follows { OnOk result (Describes ⟦<State as JsonSchema>⟧.says types.old types.new) }
    ensures refused { IfErr result (RefusesPart ⟦<State as JsonSchema>⟧.says types.old) }
{
    add_internal_unit(alloc, variants, "open")?;
    let description = Value::try_from_str(alloc, "to be worked on")?;
    note_internal_variant(alloc, variants, "description", description)?;
    let mut fields = Vec::new(alloc);
    let mut parts = Vec::new(alloc);
    add_flattened::<Audit>(alloc, types, &mut parts, REQUIRED)?;
    add_field::<Option<String>>(alloc, types, &mut fields, "reason", READ_OPTIONAL)?;
    add_internal_flat_struct(alloc, variants, "closed", fields, parts, false)?;
    let description = Value::try_from_str(alloc, "done, or given up for this reason")?;
    note_internal_variant(alloc, variants, "description", description)?;
    Ok(())
}

// Adds some of the variants of `State`.
fn state_part_2(
    alloc: Global,
    types: &mut Types,
    variants: &mut Vec<InternalVariant>,
) -> Result<(), TypesError>
    ensures keeps { KeepsRows types.old types.new }
    ensures known { OnOk result (VariantsAreKnown types.old (map internal_variant_of variants.old.items)
        → VariantsAreKnown types.new (map internal_variant_of variants.new.items)) }
    ensures follows { OnOk result (Describes ⟦<State as JsonSchema>⟧.says types.old types.new) }
    ensures refused { IfErr result (RefusesPart ⟦<State as JsonSchema>⟧.says types.old) }
{
    add_internal_newtype::<IssueId>(alloc, types, variants, "duplicate")?;
    let description = Value::try_from_str(alloc, "the same as another issue")?;
    note_internal_variant(alloc, variants, "description", description)?;
    Ok(())
}

impl JsonSchema for Change {
    ghost says = { own (codes "Change") (λ d. IsIn ⟦<String as JsonSchema>⟧.says d × IsIn ⟦<Actor as JsonSchema>⟧.says d × IsIn ⟦<Actor as JsonSchema>⟧.says d) };

    fn inline_schema() -> bool {
        false
    }

    fn schema_name(_alloc: Global) -> Result<CowStr<'static>, AllocError> {
        Ok(CowStr::Borrowed("Change"))
    }

    fn schema_id(alloc: Global) -> Result<CowStr<'static>, AllocError> {
        Self::schema_name(alloc)
    }

    fn json_schema(alloc: Global, types: &mut Types) -> Result<TypeEntry, TypesError> {
        let mut variants = Vec::new(alloc);
        change_part_1(alloc, types, &mut variants)?;
        let tag = String::from_str(alloc, "kind")?;
        let content = String::from_str(alloc, "value")?;
        let mut entry = adjacent_entry(alloc, tag, content, false, variants);
        let description = Value::try_from_str(
            alloc,
            "What has happened to an issue. Its name is under `kind`, and the rest under `value`.",
        )?;
        note_entry(alloc, &mut entry, "description", description)?;
        Ok(entry)
    }
}

// Adds some of the variants of `Change`.
fn change_part_1(
    alloc: Global,
    types: &mut Types,
    variants: &mut Vec<Variant>,
) -> Result<(), TypesError>
    ensures keeps { KeepsRows types.old types.new }
    ensures known { OnOk result (VariantsAreKnown types.old (map variant_of variants.old.items)
        → VariantsAreKnown types.new (map variant_of variants.new.items)) }
    ensures follows { OnOk result (Describes ⟦<Change as JsonSchema>⟧.says types.old types.new) }
    ensures refused { IfErr result (RefusesPart ⟦<Change as JsonSchema>⟧.says types.old) }
{
    add_unit(alloc, variants, "reopened")?;
    let description = Value::try_from_str(alloc, "it was opened again")?;
    note_variant(alloc, variants, "description", description)?;
    add_newtype::<String>(alloc, types, variants, "renamed")?;
    let description = Value::try_from_str(alloc, "it has another title")?;
    note_variant(alloc, variants, "description", description)?;
    let mut numbers = Vec::new(alloc);
    add_one::<Actor>(alloc, types, &mut numbers)?;
    add_one::<Actor>(alloc, types, &mut numbers)?;
    add_tuple(alloc, variants, "handed", numbers)?;
    let description = Value::try_from_str(
        alloc,
        "it is worked on by the second in place of the first",
    )?;
    note_variant(alloc, variants, "description", description)?;
    Ok(())
}

impl JsonSchema for Note {
    ghost says = { own (codes "Note") (λ d. IsIn ⟦<Actor as JsonSchema>⟧.says d × IsIn ⟦<String as JsonSchema>⟧.says d × IsSeqOf (codes "Note") (codes "Note") d × IsIn ⟦<Audit as JsonSchema>⟧.says d) };

    fn inline_schema() -> bool {
        false
    }

    fn schema_name(_alloc: Global) -> Result<CowStr<'static>, AllocError> {
        Ok(CowStr::Borrowed("Note"))
    }

    fn schema_id(alloc: Global) -> Result<CowStr<'static>, AllocError> {
        Self::schema_name(alloc)
    }

    fn json_schema(alloc: Global, types: &mut Types) -> Result<TypeEntry, TypesError> {
        let mut fields = Vec::new(alloc);
        let mut parts = Vec::new(alloc);
        add_field::<Actor>(alloc, types, &mut fields, "by", REQUIRED)?;
        add_field::<String>(alloc, types, &mut fields, "text", REQUIRED)?;
        add_seq_of(alloc, types, &mut fields, "notes", "Note", "Note", REQUIRED)?;
        add_flattened::<Audit>(alloc, types, &mut parts, REQUIRED)?;
        let mut entry = flat_entry(alloc, fields, parts, false);
        let description = Value::try_from_str(
            alloc,
            "A note on an issue, and the notes on it. The members of its audit are among its own.",
        )?;
        note_entry(alloc, &mut entry, "description", description)?;
        Ok(entry)
    }
}

impl JsonSchema for Issue {
    ghost says = { own (codes "Issue") (λ d. IsIn ⟦<String as JsonSchema>⟧.says d × IsIn ⟦<State as JsonSchema>⟧.says d × IsIn ⟦<Vec<Label> as JsonSchema>⟧.says d × IsIn ⟦<Vec<Note> as JsonSchema>⟧.says d × IsIn ⟦<Vec<Change> as JsonSchema>⟧.says d × IsIn ⟦<IssueId as JsonSchema>⟧.says d) };

    fn inline_schema() -> bool {
        false
    }

    fn schema_name(_alloc: Global) -> Result<CowStr<'static>, AllocError> {
        Ok(CowStr::Borrowed("Issue"))
    }

    fn schema_id(alloc: Global) -> Result<CowStr<'static>, AllocError> {
        Self::schema_name(alloc)
    }

    fn json_schema(alloc: Global, types: &mut Types) -> Result<TypeEntry, TypesError> {
        let mut fields = Vec::new(alloc);
        let mut parts = Vec::new(alloc);
        add_field::<String>(alloc, types, &mut fields, "title", REQUIRED)?;
        add_field::<State>(alloc, types, &mut fields, "state", REQUIRED)?;
        add_field::<Vec<Label>>(alloc, types, &mut fields, "labels", REQUIRED)?;
        add_field::<Vec<Note>>(alloc, types, &mut fields, "notes", REQUIRED)?;
        add_field::<Vec<Change>>(alloc, types, &mut fields, "history", REQUIRED)?;
        add_flattened::<IssueId>(alloc, types, &mut parts, REQUIRED)?;
        let mut entry = flat_entry(alloc, fields, parts, false);
        let description = Value::try_from_str(
            alloc,
            "An issue. The members of its id are among its own.",
        )?;
        note_entry(alloc, &mut entry, "description", description)?;
        Ok(entry)
    }
}
