//! Written by `schemaderive --impls crate::people`, which writes it anew: edit the declarations.
#![tactic(auto, using(schemars::proofs::OwnTypes::own_types))]

ghost use Rattle.std.specs.Prelude.{IfErr, OnOk, map};
ghost use Rattle.schemars.specs.Words.{codes, Describes, IsIn, KeepsRows, own, RefusesPart, variant_of, VariantsAreKnown};

use crate::people::{Actor, User};
use schemars::impls::{
    JsonSchema, OPTIONAL, REQUIRED, add_field, add_newtype, add_one, add_struct, add_tuple,
    add_unit, external_entry, note_entry, note_field, note_variant, struct_entry,
};
use schemars::types::{TypeEntry, Types, TypesError, Variant};
use serde_json::Value;
use std::alloc::{AllocError, Global};
use std::borrow::CowStr;
use url::Url;
use uuid::Uuid;

impl JsonSchema for User {
    ghost says = { own (codes "User") (λ d. IsIn ⟦<Uuid as JsonSchema>⟧.says d × IsIn ⟦<String as JsonSchema>⟧.says d × IsIn ⟦<Option<Url> as JsonSchema>⟧.says d) };

    fn inline_schema() -> bool {
        false
    }

    fn schema_name(_alloc: Global) -> Result<CowStr<'static>, AllocError> {
        Ok(CowStr::Borrowed("User"))
    }

    fn schema_id(alloc: Global) -> Result<CowStr<'static>, AllocError> {
        Self::schema_name(alloc)
    }

    fn json_schema(alloc: Global, types: &mut Types) -> Result<TypeEntry, TypesError> {
        let mut fields = Vec::new(alloc);
        add_field::<Uuid>(alloc, types, &mut fields, "id", REQUIRED)?;
        add_field::<String>(alloc, types, &mut fields, "name", REQUIRED)?;
        add_field::<Option<Url>>(alloc, types, &mut fields, "page", OPTIONAL)?;
        let description = Value::try_from_str(alloc, "a page of their own")?;
        note_field(alloc, &mut fields, "description", description)?;
        let mut entry = struct_entry(alloc, fields, false);
        let description = Value::try_from_str(alloc, "Somebody with an account.")?;
        note_entry(alloc, &mut entry, "description", description)?;
        Ok(entry)
    }
}

impl JsonSchema for Actor {
    ghost says = { own (codes "Actor") (λ d. IsIn ⟦<User as JsonSchema>⟧.says d × IsIn ⟦<String as JsonSchema>⟧.says d × IsIn ⟦<u32 as JsonSchema>⟧.says d × IsIn ⟦<String as JsonSchema>⟧.says d × IsIn ⟦<Option<String> as JsonSchema>⟧.says d) };

    fn inline_schema() -> bool {
        false
    }

    fn schema_name(_alloc: Global) -> Result<CowStr<'static>, AllocError> {
        Ok(CowStr::Borrowed("Actor"))
    }

    fn schema_id(alloc: Global) -> Result<CowStr<'static>, AllocError> {
        Self::schema_name(alloc)
    }

    fn json_schema(alloc: Global, types: &mut Types) -> Result<TypeEntry, TypesError> {
        let mut variants = Vec::new(alloc);
        actor_part_1(alloc, types, &mut variants)?;
        actor_part_2(alloc, types, &mut variants)?;
        let mut entry = external_entry(alloc, variants);
        let description = Value::try_from_str(
            alloc,
            "Who has done something. The variants are tagged by their names.",
        )?;
        note_entry(alloc, &mut entry, "description", description)?;
        Ok(entry)
    }
}

// Adds some of the variants of `Actor`.
fn actor_part_1(
    alloc: Global,
    types: &mut Types,
    variants: &mut Vec<Variant>,
) -> Result<(), TypesError>
    ensures keeps { KeepsRows types.old types.new }
    ensures known { OnOk result (VariantsAreKnown types.old (map variant_of variants.old.items)
        → VariantsAreKnown types.new (map variant_of variants.new.items)) }
    ensures follows { OnOk result (Describes ⟦<Actor as JsonSchema>⟧.says types.old types.new) }
    ensures refused { IfErr result (RefusesPart ⟦<Actor as JsonSchema>⟧.says types.old) }
{
    add_unit(alloc, variants, "system")?;
    let description = Value::try_from_str(alloc, "the tracker itself")?;
    note_variant(alloc, variants, "description", description)?;
    add_newtype::<User>(alloc, types, variants, "user")?;
    let description = Value::try_from_str(alloc, "somebody with an account")?;
    note_variant(alloc, variants, "description", description)?;
    let mut numbers = Vec::new(alloc);
    add_one::<String>(alloc, types, &mut numbers)?;
    add_one::<u32>(alloc, types, &mut numbers)?;
    add_tuple(alloc, variants, "program", numbers)?;
    let description = Value::try_from_str(alloc, "a program, by its name and its version")?;
    note_variant(alloc, variants, "description", description)?;
    Ok(())
}

// Adds some of the variants of `Actor`.
fn actor_part_2(
    alloc: Global,
    types: &mut Types,
    variants: &mut Vec<Variant>,
) -> Result<(), TypesError>
    ensures keeps { KeepsRows types.old types.new }
    ensures known { OnOk result (VariantsAreKnown types.old (map variant_of variants.old.items)
        → VariantsAreKnown types.new (map variant_of variants.new.items)) }
    ensures follows { OnOk result (Describes ⟦<Actor as JsonSchema>⟧.says types.old types.new) }
    ensures refused { IfErr result (RefusesPart ⟦<Actor as JsonSchema>⟧.says types.old) }
{
    let mut fields = Vec::new(alloc);
    add_field::<String>(alloc, types, &mut fields, "name", REQUIRED)?;
    add_field::<Option<String>>(alloc, types, &mut fields, "mail", OPTIONAL)?;
    add_struct(alloc, variants, "guest", fields, false)?;
    let description = Value::try_from_str(alloc, "somebody without an account")?;
    note_variant(alloc, variants, "description", description)?;
    Ok(())
}
