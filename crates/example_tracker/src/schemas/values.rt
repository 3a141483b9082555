//! Written by `schemaderive --impls crate::values`, which writes it anew: edit the declarations.
#![tactic(auto, using(schemars::proofs::OwnTypes::own_types))]

ghost use Rattle.std.specs.Prelude.{IfErr, OnOk, map};
ghost use Rattle.schemars.specs.Words.{codes, Describes, IsIn, IsSeqOf, KeepsRows, own, RefusesPart, variant_of, VariantsAreKnown};

use crate::values::{FieldValue, Label, Priority};
use schemars::impls::{
    JsonSchema, add_newtype, add_newtype_of, add_unit, external_entry, newtype_entry, note_entry,
    note_variant, seq_of, untagged_entry,
};
use schemars::types::{TypeEntry, Types, TypesError, Variant};
use serde_json::Value;
use std::alloc::{AllocError, Global};
use std::borrow::CowStr;

impl JsonSchema for Label {
    ghost says = { own (codes "Label") (λ d. IsIn ⟦<String as JsonSchema>⟧.says d) };

    fn inline_schema() -> bool {
        false
    }

    fn schema_name(_alloc: Global) -> Result<CowStr<'static>, AllocError> {
        Ok(CowStr::Borrowed("Label"))
    }

    fn schema_id(alloc: Global) -> Result<CowStr<'static>, AllocError> {
        Self::schema_name(alloc)
    }

    fn json_schema(alloc: Global, types: &mut Types) -> Result<TypeEntry, TypesError> {
        let mut entry = newtype_entry::<String>(alloc, types)?;
        let description = Value::try_from_str(alloc, "A word that issues are found by.")?;
        note_entry(alloc, &mut entry, "description", description)?;
        Ok(entry)
    }
}

impl JsonSchema for Priority {
    ghost says = { own (codes "Priority") (λ d. Unit {0}) };

    fn inline_schema() -> bool {
        false
    }

    fn schema_name(_alloc: Global) -> Result<CowStr<'static>, AllocError> {
        Ok(CowStr::Borrowed("Priority"))
    }

    fn schema_id(alloc: Global) -> Result<CowStr<'static>, AllocError> {
        Self::schema_name(alloc)
    }

    fn json_schema(alloc: Global, types: &mut Types) -> Result<TypeEntry, TypesError> {
        let mut variants = Vec::new(alloc);
        priority_part_1(alloc, types, &mut variants)?;
        let mut entry = external_entry(alloc, variants);
        let description = Value::try_from_str(alloc, "How soon an issue is to be worked on.")?;
        note_entry(alloc, &mut entry, "description", description)?;
        Ok(entry)
    }
}

// Adds some of the variants of `Priority`.
fn priority_part_1(
    alloc: Global,
    types: &mut Types,
    variants: &mut Vec<Variant>,
) -> Result<(), TypesError>
    ensures keeps { KeepsRows types.old types.new }
    ensures known { OnOk result (VariantsAreKnown types.old (map variant_of variants.old.items)
        → VariantsAreKnown types.new (map variant_of variants.new.items)) }
    ensures follows { OnOk result (Describes ⟦<Priority as JsonSchema>⟧.says types.old types.new) }
    ensures refused { IfErr result (RefusesPart ⟦<Priority as JsonSchema>⟧.says types.old) }
{
    add_unit(alloc, variants, "low")?;
    let description = Value::try_from_str(alloc, "when there is time")?;
    note_variant(alloc, variants, "description", description)?;
    add_unit(alloc, variants, "normal")?;
    let description = Value::try_from_str(alloc, "in its turn")?;
    note_variant(alloc, variants, "description", description)?;
    add_unit(alloc, variants, "urgent")?;
    let description = Value::try_from_str(alloc, "before all others")?;
    note_variant(alloc, variants, "description", description)?;
    Ok(())
}

impl JsonSchema for FieldValue {
    ghost says = { own (codes "FieldValue") (λ d. IsIn ⟦<bool as JsonSchema>⟧.says d × IsIn ⟦<i64 as JsonSchema>⟧.says d × IsIn ⟦<String as JsonSchema>⟧.says d × IsSeqOf (codes "FieldValue") (codes "FieldValue") d) };

    fn inline_schema() -> bool {
        false
    }

    fn schema_name(_alloc: Global) -> Result<CowStr<'static>, AllocError> {
        Ok(CowStr::Borrowed("FieldValue"))
    }

    fn schema_id(alloc: Global) -> Result<CowStr<'static>, AllocError> {
        Self::schema_name(alloc)
    }

    fn json_schema(alloc: Global, types: &mut Types) -> Result<TypeEntry, TypesError> {
        let mut variants = Vec::new(alloc);
        field_value_part_1(alloc, types, &mut variants)?;
        field_value_part_2(alloc, types, &mut variants)?;
        let mut entry = untagged_entry(alloc, variants);
        let title = Value::try_from_str(alloc, "The value of a field")?;
        note_entry(alloc, &mut entry, "title", title)?;
        let description = Value::try_from_str(
            alloc,
            "A tracker defines such fields itself. The value is not tagged.",
        )?;
        note_entry(alloc, &mut entry, "description", description)?;
        Ok(entry)
    }
}

// Adds some of the variants of `FieldValue`.
fn field_value_part_1(
    alloc: Global,
    types: &mut Types,
    variants: &mut Vec<Variant>,
) -> Result<(), TypesError>
    ensures keeps { KeepsRows types.old types.new }
    ensures known { OnOk result (VariantsAreKnown types.old (map variant_of variants.old.items)
        → VariantsAreKnown types.new (map variant_of variants.new.items)) }
    ensures follows { OnOk result (Describes ⟦<FieldValue as JsonSchema>⟧.says types.old types.new) }
    ensures refused { IfErr result (RefusesPart ⟦<FieldValue as JsonSchema>⟧.says types.old) }
{
    add_newtype::<bool>(alloc, types, variants, "Flag")?;
    let description = Value::try_from_str(alloc, "a truth value")?;
    note_variant(alloc, variants, "description", description)?;
    add_newtype::<i64>(alloc, types, variants, "Number")?;
    let description = Value::try_from_str(alloc, "a whole number")?;
    note_variant(alloc, variants, "description", description)?;
    add_newtype::<String>(alloc, types, variants, "Text")?;
    let description = Value::try_from_str(alloc, "a text")?;
    note_variant(alloc, variants, "description", description)?;
    Ok(())
}

// Adds some of the variants of `FieldValue`.
fn field_value_part_2(
    alloc: Global,
    types: &mut Types,
    variants: &mut Vec<Variant>,
) -> Result<(), TypesError>
    ensures keeps { KeepsRows types.old types.new }
    ensures known { OnOk result (VariantsAreKnown types.old (map variant_of variants.old.items)
        → VariantsAreKnown types.new (map variant_of variants.new.items)) }
    ensures follows { OnOk result (Describes ⟦<FieldValue as JsonSchema>⟧.says types.old types.new) }
    ensures refused { IfErr result (RefusesPart ⟦<FieldValue as JsonSchema>⟧.says types.old) }
{
    let number = seq_of(alloc, types, "FieldValue", "FieldValue")?;
    add_newtype_of(alloc, types, variants, "List", number)?;
    let description = Value::try_from_str(alloc, "several values")?;
    note_variant(alloc, variants, "description", description)?;
    Ok(())
}
