//! Written by `schemaderive --impls crate::many`, which writes it anew: edit the declarations.
#![tactic(auto, using(schemars::proofs::OwnTypes::own_types))]

ghost use Rattle.std.specs.Prelude.{IfErr, IfOk, OnOk, false, map, string_bytes, ◌++◌, ◌≡◌};
ghost use Rattle.schemars.specs.Words.{codes, Describes, field_of, FieldsAreKnown, IsIn, IsMapOf, IsNumber, IsOptionOf, IsSeqOf, KeepsRows, KeepsTo, own, RefusesAs, RefusesPart, Unsaid, variant_of, VariantsAreKnown};

use crate::many::{All, Branching, Figure, Settings};
use schemars::impls::{
    JsonSchema, READ_OPTIONAL, REQUIRED, add_field, add_field_of, add_newtype, add_one, add_struct,
    add_tuple, add_unit, external_entry, map_of, note_entry, note_field, note_variant, option_of,
    seq_of, struct_entry,
};
use schemars::types::{Field, TypeEntry, TypeNo, Types, TypesError, Variant};
use serde_json::{Value, json};
use std::alloc::{AllocError, Global};
use std::borrow::CowStr;
use std::collections::{BTreeMap, BTreeSet};

impl JsonSchema for Figure {
    ghost says = { own (codes "Figure") (λ d. IsIn ⟦<String as JsonSchema>⟧.says d × IsIn ⟦<i32 as JsonSchema>⟧.says d × IsIn ⟦<i32 as JsonSchema>⟧.says d × IsIn ⟦<i32 as JsonSchema>⟧.says d × IsIn ⟦<Option<u32> as JsonSchema>⟧.says d) };

    fn inline_schema() -> bool {
        false
    }

    fn schema_name(_alloc: Global) -> Result<CowStr<'static>, AllocError> {
        Ok(CowStr::Borrowed("Figure"))
    }

    fn schema_id(alloc: Global) -> Result<CowStr<'static>, AllocError> {
        Self::schema_name(alloc)
    }

    fn json_schema(alloc: Global, types: &mut Types) -> Result<TypeEntry, TypesError> {
        let mut variants = Vec::new(alloc);
        figure_part_1(alloc, types, &mut variants)?;
        figure_part_2(alloc, types, &mut variants)?;
        let mut entry = external_entry(alloc, variants);
        let description = Value::try_from_str(alloc, "A figure in a drawing.")?;
        note_entry(alloc, &mut entry, "description", description)?;
        Ok(entry)
    }
}

// Adds some of the variants of `Figure`.
fn figure_part_1(
    alloc: Global,
    types: &mut Types,
    variants: &mut Vec<Variant>,
) -> Result<(), TypesError>
    ensures keeps { KeepsRows types.old types.new }
    ensures known { OnOk result (VariantsAreKnown types.old (map variant_of variants.old.items)
        → VariantsAreKnown types.new (map variant_of variants.new.items)) }
    ensures follows { OnOk result (Describes ⟦<Figure as JsonSchema>⟧.says types.old types.new) }
    ensures refused { IfErr result (RefusesPart ⟦<Figure as JsonSchema>⟧.says types.old) }
{
    add_unit(alloc, variants, "Empty")?;
    let description = Value::try_from_str(alloc, "nothing at all")?;
    note_variant(alloc, variants, "description", description)?;
    add_newtype::<String>(alloc, types, variants, "Named")?;
    let description = Value::try_from_str(alloc, "a figure of another drawing, by its name")?;
    note_variant(alloc, variants, "description", description)?;
    let mut numbers = Vec::new(alloc);
    add_one::<i32>(alloc, types, &mut numbers)?;
    add_one::<i32>(alloc, types, &mut numbers)?;
    add_tuple(alloc, variants, "Line", numbers)?;
    let description = Value::try_from_str(alloc, "a line between two points")?;
    note_variant(alloc, variants, "description", description)?;
    Ok(())
}

// Adds some of the variants of `Figure`.
fn figure_part_2(
    alloc: Global,
    types: &mut Types,
    variants: &mut Vec<Variant>,
) -> Result<(), TypesError>
    ensures keeps { KeepsRows types.old types.new }
    ensures known { OnOk result (VariantsAreKnown types.old (map variant_of variants.old.items)
        → VariantsAreKnown types.new (map variant_of variants.new.items)) }
    ensures follows { OnOk result (Describes ⟦<Figure as JsonSchema>⟧.says types.old types.new) }
    ensures refused { IfErr result (RefusesPart ⟦<Figure as JsonSchema>⟧.says types.old) }
{
    let mut fields = Vec::new(alloc);
    add_field::<i32>(alloc, types, &mut fields, "at", REQUIRED)?;
    let description = Value::try_from_str(alloc, "where it is")?;
    note_field(alloc, &mut fields, "description", description)?;
    add_field::<Option<u32>>(alloc, types, &mut fields, "radius", READ_OPTIONAL)?;
    let description = Value::try_from_str(alloc, "how big it is")?;
    note_field(alloc, &mut fields, "description", description)?;
    add_struct(alloc, variants, "Circle", fields, false)?;
    let description = Value::try_from_str(alloc, "a circle")?;
    note_variant(alloc, variants, "description", description)?;
    Ok(())
}

impl JsonSchema for Settings {
    ghost says = { own (codes "Settings") (λ d. (IsIn ⟦<String as JsonSchema>⟧.says d × IsIn ⟦<u32 as JsonSchema>⟧.says d × IsIn ⟦<u16 as JsonSchema>⟧.says d × IsIn ⟦<Vec<String> as JsonSchema>⟧.says d) × (IsIn ⟦<Option<String> as JsonSchema>⟧.says d × IsIn ⟦<u64 as JsonSchema>⟧.says d × IsIn ⟦<bool as JsonSchema>⟧.says d × IsIn ⟦<String as JsonSchema>⟧.says d) × (IsIn ⟦<f64 as JsonSchema>⟧.says d × IsIn ⟦<BTreeMap<String, u32> as JsonSchema>⟧.says d × IsIn ⟦<BTreeSet<String> as JsonSchema>⟧.says d × IsIn ⟦<Option<Figure> as JsonSchema>⟧.says d)) };

    fn inline_schema() -> bool {
        false
    }

    fn schema_name(_alloc: Global) -> Result<CowStr<'static>, AllocError> {
        Ok(CowStr::Borrowed("Settings"))
    }

    fn schema_id(alloc: Global) -> Result<CowStr<'static>, AllocError> {
        Self::schema_name(alloc)
    }

    fn json_schema(alloc: Global, types: &mut Types) -> Result<TypeEntry, TypesError> {
        let mut fields = Vec::new(alloc);
        settings_part_1(alloc, types, &mut fields)?;
        settings_part_2(alloc, types, &mut fields)?;
        settings_part_3(alloc, types, &mut fields)?;
        settings_part_4(alloc, types, &mut fields)?;
        let mut entry = struct_entry(alloc, fields, false);
        let description = Value::try_from_str(alloc, "The settings of a mail server.")?;
        note_entry(alloc, &mut entry, "description", description)?;
        Ok(entry)
    }
}

// Adds some of the fields of `Settings`.
fn settings_part_1(
    alloc: Global,
    types: &mut Types,
    fields: &mut Vec<Field>,
) -> Result<(), TypesError>
    ensures keeps { KeepsRows types.old types.new }
    ensures known { OnOk result (FieldsAreKnown types.old (map field_of fields.old.items)
        → FieldsAreKnown types.new (map field_of fields.new.items)) }
    ensures follows { OnOk result (Describes ⟦<Settings as JsonSchema>⟧.says types.old types.new) }
    ensures refused { IfErr result (RefusesPart ⟦<Settings as JsonSchema>⟧.says types.old) }
{
    add_field::<String>(alloc, types, fields, "listen", REQUIRED)?;
    let description = Value::try_from_str(alloc, "where it listens")?;
    note_field(alloc, fields, "description", description)?;
    add_field::<u32>(alloc, types, fields, "connections", REQUIRED)?;
    let description = Value::try_from_str(alloc, "how many connections it takes")?;
    note_field(alloc, fields, "description", description)?;
    add_field::<u16>(alloc, types, fields, "timeout", READ_OPTIONAL)?;
    let default = json!(in alloc; 0)?;
    note_field(alloc, fields, "default", default)?;
    let description = Value::try_from_str(alloc, "how many seconds it waits")?;
    note_field(alloc, fields, "description", description)?;
    Ok(())
}

// Adds some of the fields of `Settings`.
fn settings_part_2(
    alloc: Global,
    types: &mut Types,
    fields: &mut Vec<Field>,
) -> Result<(), TypesError>
    ensures keeps { KeepsRows types.old types.new }
    ensures known { OnOk result (FieldsAreKnown types.old (map field_of fields.old.items)
        → FieldsAreKnown types.new (map field_of fields.new.items)) }
    ensures follows { OnOk result (Describes ⟦<Settings as JsonSchema>⟧.says types.old types.new) }
    ensures refused { IfErr result (RefusesPart ⟦<Settings as JsonSchema>⟧.says types.old) }
{
    add_field::<Vec<String>>(alloc, types, fields, "domains", REQUIRED)?;
    let description = Value::try_from_str(alloc, "for whom it takes mail")?;
    note_field(alloc, fields, "description", description)?;
    add_field::<Option<String>>(alloc, types, fields, "relay", READ_OPTIONAL)?;
    let description = Value::try_from_str(alloc, "where it sends the rest")?;
    note_field(alloc, fields, "description", description)?;
    add_field::<u64>(alloc, types, fields, "bytes", REQUIRED)?;
    let description = Value::try_from_str(alloc, "how many bytes a letter has at most")?;
    note_field(alloc, fields, "description", description)?;
    Ok(())
}

// Adds some of the fields of `Settings`.
fn settings_part_3(
    alloc: Global,
    types: &mut Types,
    fields: &mut Vec<Field>,
) -> Result<(), TypesError>
    ensures keeps { KeepsRows types.old types.new }
    ensures known { OnOk result (FieldsAreKnown types.old (map field_of fields.old.items)
        → FieldsAreKnown types.new (map field_of fields.new.items)) }
    ensures follows { OnOk result (Describes ⟦<Settings as JsonSchema>⟧.says types.old types.new) }
    ensures refused { IfErr result (RefusesPart ⟦<Settings as JsonSchema>⟧.says types.old) }
{
    add_field::<bool>(alloc, types, fields, "is_closed", REQUIRED)?;
    let description = Value::try_from_str(alloc, "whether it wants a password")?;
    note_field(alloc, fields, "description", description)?;
    add_field::<String>(alloc, types, fields, "hello", REQUIRED)?;
    let description = Value::try_from_str(alloc, "what it calls itself")?;
    note_field(alloc, fields, "description", description)?;
    add_field::<f64>(alloc, types, fields, "rate", REQUIRED)?;
    let description = Value::try_from_str(alloc, "how many letters a client may send in a minute")?;
    note_field(alloc, fields, "description", description)?;
    Ok(())
}

// Adds some of the fields of `Settings`.
fn settings_part_4(
    alloc: Global,
    types: &mut Types,
    fields: &mut Vec<Field>,
) -> Result<(), TypesError>
    ensures keeps { KeepsRows types.old types.new }
    ensures known { OnOk result (FieldsAreKnown types.old (map field_of fields.old.items)
        → FieldsAreKnown types.new (map field_of fields.new.items)) }
    ensures follows { OnOk result (Describes ⟦<Settings as JsonSchema>⟧.says types.old types.new) }
    ensures refused { IfErr result (RefusesPart ⟦<Settings as JsonSchema>⟧.says types.old) }
{
    add_field::<BTreeMap<String, u32>>(alloc, types, fields, "limits", REQUIRED)?;
    let description = Value::try_from_str(alloc, "who has another limit")?;
    note_field(alloc, fields, "description", description)?;
    add_field::<BTreeSet<String>>(alloc, types, fields, "logs", REQUIRED)?;
    let description = Value::try_from_str(alloc, "what it writes down")?;
    note_field(alloc, fields, "description", description)?;
    add_field::<Option<Figure>>(alloc, types, fields, "figure", READ_OPTIONAL)?;
    let description = Value::try_from_str(alloc, "the figure on its pages")?;
    note_field(alloc, fields, "description", description)?;
    Ok(())
}

impl<T: JsonSchema> JsonSchema for Branching<T> {
    ghost says = { record { id = codes "Branching<" ++ (T.says.id ++ codes ">"); name = codes "Branching_for_" ++ T.says.name; inline = false; making = Unsaid; parts = λ d. IsIn ⟦<T as JsonSchema>⟧.says d × IsOptionOf (codes "Branching<" ++ (T.says.id ++ codes ">")) (codes "Branching_for_" ++ T.says.name) d × IsSeqOf (codes "Branching<" ++ (T.says.id ++ codes ">")) (codes "Branching_for_" ++ T.says.name) d × IsMapOf ⟦<String as JsonSchema>⟧.says (codes "Branching<" ++ (T.says.id ++ codes ">")) (codes "Branching_for_" ++ T.says.name) d } };

    fn inline_schema() -> bool {
        false
    }

    fn schema_name(alloc: Global) -> Result<CowStr<'static>, AllocError> {
        let name = T::schema_name(alloc)?;
        Ok(CowStr::Owned(format!(in alloc; "Branching_for_{name}")?))
    }

    fn schema_id(alloc: Global) -> Result<CowStr<'static>, AllocError> {
        let id = T::schema_id(alloc)?;
        Ok(CowStr::Owned(format!(in alloc; "Branching<{id}>")?))
    }

    fn json_schema(alloc: Global, types: &mut Types) -> Result<TypeEntry, TypesError> {
        let mut fields = Vec::new(alloc);
        branching_part_1::<T>(alloc, types, &mut fields)?;
        branching_part_2::<T>(alloc, types, &mut fields)?;
        branching_part_3::<T>(alloc, types, &mut fields)?;
        let mut entry = struct_entry(alloc, fields, false);
        let description = Value::try_from_str(alloc, "A tree whose branches have three forms.")?;
        note_entry(alloc, &mut entry, "description", description)?;
        Ok(entry)
    }
}

// The id of what a row is made of.
fn branching_id_1<T: JsonSchema>(alloc: Global) -> Result<String, AllocError>
    ensures { IfOk result (λ t. string_bytes t ≡ codes "Branching<" ++ (T.says.id ++ codes ">")) }
{
    let id = T::schema_id(alloc)?;
    format!(in alloc; "Branching<{id}>")
}

// The name of what a row is made of.
fn branching_name_1<T: JsonSchema>(alloc: Global) -> Result<String, AllocError>
    ensures { IfOk result (λ t. string_bytes t ≡ codes "Branching_for_" ++ T.says.name) }
{
    let name = T::schema_name(alloc)?;
    format!(in alloc; "Branching_for_{name}")
}

// The number of a row that names the type by its id.
fn branching_row_1<T: JsonSchema>(alloc: Global, types: &mut Types) -> Result<TypeNo, TypesError>
    ensures keeps { KeepsRows types.old types.new }
    ensures known { IfOk result (IsNumber types.new) }
    ensures follows { OnOk result (KeepsTo (λ d. IsOptionOf (codes "Branching<" ++ (T.says.id ++ codes ">")) (codes "Branching_for_" ++ T.says.name) d) types.old types.new) }
    ensures refused { IfErr result (RefusesAs (λ d. IsOptionOf (codes "Branching<" ++ (T.says.id ++ codes ">")) (codes "Branching_for_" ++ T.says.name) d) types.old) }
{
    let id = branching_id_1::<T>(alloc)?;
    let name = branching_name_1::<T>(alloc)?;
    option_of(alloc, types, id.as_str(), name.as_str())
}

// Adds some of the fields of `Branching<T>`.
fn branching_part_1<T: JsonSchema>(
    alloc: Global,
    types: &mut Types,
    fields: &mut Vec<Field>,
) -> Result<(), TypesError>
    ensures keeps { KeepsRows types.old types.new }
    ensures known { OnOk result (FieldsAreKnown types.old (map field_of fields.old.items)
        → FieldsAreKnown types.new (map field_of fields.new.items)) }
    ensures follows { OnOk result (Describes ⟦<Branching<T> as JsonSchema>⟧.says types.old types.new) }
    ensures refused { IfErr result (RefusesPart ⟦<Branching<T> as JsonSchema>⟧.says types.old) }
{
    add_field::<T>(alloc, types, fields, "value", REQUIRED)?;
    let number = branching_row_1::<T>(alloc, types)?;
    add_field_of(alloc, types, fields, "left", number, READ_OPTIONAL)?;
    Ok(())
}

// The number of a row that names the type by its id.
fn branching_row_2<T: JsonSchema>(alloc: Global, types: &mut Types) -> Result<TypeNo, TypesError>
    ensures keeps { KeepsRows types.old types.new }
    ensures known { IfOk result (IsNumber types.new) }
    ensures follows { OnOk result (KeepsTo (λ d. IsSeqOf (codes "Branching<" ++ (T.says.id ++ codes ">")) (codes "Branching_for_" ++ T.says.name) d) types.old types.new) }
    ensures refused { IfErr result (RefusesAs (λ d. IsSeqOf (codes "Branching<" ++ (T.says.id ++ codes ">")) (codes "Branching_for_" ++ T.says.name) d) types.old) }
{
    let id = branching_id_1::<T>(alloc)?;
    let name = branching_name_1::<T>(alloc)?;
    seq_of(alloc, types, id.as_str(), name.as_str())
}

// Adds some of the fields of `Branching<T>`.
fn branching_part_2<T: JsonSchema>(
    alloc: Global,
    types: &mut Types,
    fields: &mut Vec<Field>,
) -> Result<(), TypesError>
    ensures keeps { KeepsRows types.old types.new }
    ensures known { OnOk result (FieldsAreKnown types.old (map field_of fields.old.items)
        → FieldsAreKnown types.new (map field_of fields.new.items)) }
    ensures follows { OnOk result (Describes ⟦<Branching<T> as JsonSchema>⟧.says types.old types.new) }
    ensures refused { IfErr result (RefusesPart ⟦<Branching<T> as JsonSchema>⟧.says types.old) }
{
    let number = branching_row_2::<T>(alloc, types)?;
    add_field_of(alloc, types, fields, "more", number, REQUIRED)?;
    Ok(())
}

// The number of a row that names the type by its id.
fn branching_row_3<T: JsonSchema>(alloc: Global, types: &mut Types) -> Result<TypeNo, TypesError>
    ensures keeps { KeepsRows types.old types.new }
    ensures known { IfOk result (IsNumber types.new) }
    ensures follows { OnOk result (KeepsTo (λ d. IsMapOf ⟦<String as JsonSchema>⟧.says (codes "Branching<" ++ (T.says.id ++ codes ">")) (codes "Branching_for_" ++ T.says.name) d) types.old types.new) }
    ensures refused { IfErr result (RefusesAs (λ d. IsMapOf ⟦<String as JsonSchema>⟧.says (codes "Branching<" ++ (T.says.id ++ codes ">")) (codes "Branching_for_" ++ T.says.name) d) types.old) }
{
    let id = branching_id_1::<T>(alloc)?;
    let name = branching_name_1::<T>(alloc)?;
    map_of::<String>(alloc, types, id.as_str(), name.as_str())
}

// Adds some of the fields of `Branching<T>`.
fn branching_part_3<T: JsonSchema>(
    alloc: Global,
    types: &mut Types,
    fields: &mut Vec<Field>,
) -> Result<(), TypesError>
    ensures keeps { KeepsRows types.old types.new }
    ensures known { OnOk result (FieldsAreKnown types.old (map field_of fields.old.items)
        → FieldsAreKnown types.new (map field_of fields.new.items)) }
    ensures follows { OnOk result (Describes ⟦<Branching<T> as JsonSchema>⟧.says types.old types.new) }
    ensures refused { IfErr result (RefusesPart ⟦<Branching<T> as JsonSchema>⟧.says types.old) }
{
    let number = branching_row_3::<T>(alloc, types)?;
    add_field_of(alloc, types, fields, "named", number, REQUIRED)?;
    Ok(())
}

impl JsonSchema for All {
    ghost says = { own (codes "All") (λ d. IsIn ⟦<Figure as JsonSchema>⟧.says d × IsIn ⟦<Settings as JsonSchema>⟧.says d × IsIn ⟦<Branching<u8> as JsonSchema>⟧.says d × IsIn ⟦<Branching<String> as JsonSchema>⟧.says d) };

    fn inline_schema() -> bool {
        false
    }

    fn schema_name(_alloc: Global) -> Result<CowStr<'static>, AllocError> {
        Ok(CowStr::Borrowed("All"))
    }

    fn schema_id(alloc: Global) -> Result<CowStr<'static>, AllocError> {
        Self::schema_name(alloc)
    }

    fn json_schema(alloc: Global, types: &mut Types) -> Result<TypeEntry, TypesError> {
        let mut fields = Vec::new(alloc);
        add_field::<Figure>(alloc, types, &mut fields, "figure", REQUIRED)?;
        add_field::<Settings>(alloc, types, &mut fields, "settings", REQUIRED)?;
        add_field::<Branching<u8>>(alloc, types, &mut fields, "numbers", REQUIRED)?;
        add_field::<Branching<String>>(alloc, types, &mut fields, "texts", REQUIRED)?;
        let mut entry = struct_entry(alloc, fields, false);
        let description = Value::try_from_str(alloc, "All of them.")?;
        note_entry(alloc, &mut entry, "description", description)?;
        Ok(entry)
    }
}
