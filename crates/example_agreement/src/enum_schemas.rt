//! How the enums describe themselves in tables of types whose rows are not told.
#![tactic(auto, using(schemars_impls::proofs::OwnTypes::own_types))]

ghost use Rattle.std.specs.Prelude.{codes};
ghost use Rattle.schemars_impls.specs.Dictionary.{IsIn, own};

use crate::amount::Amount;
use crate::message::Message;
use crate::order::Order;
use schemars_impls::{
    JsonSchema, OPTIONAL, REQUIRED, add_field, add_internal_struct, add_internal_unit, add_newtype,
    add_one, add_struct, add_tuple, add_unit, adjacent_entry, external_entry, internal_entry,
    struct_entry, untagged_entry,
};
use schemars_types::{TypeEntry, Types, TypesError};
use std::alloc::{AllocError, Global};
use std::borrow::CowStr;

impl JsonSchema for Amount {
    ghost says = { own (codes "Amount") (λ d. IsIn ⟦<u64 as JsonSchema>⟧.says d
        × IsIn ⟦<String as JsonSchema>⟧.says d) };

    fn inline_schema() -> bool {
        false
    }

    fn schema_name(_alloc: Global) -> Result<CowStr<'static>, AllocError> {
        Ok(CowStr::Borrowed("Amount"))
    }

    fn schema_id(alloc: Global) -> Result<CowStr<'static>, AllocError> {
        Self::schema_name(alloc)
    }

    fn json_schema(alloc: Global, types: &mut Types) -> Result<TypeEntry, TypesError> {
        let (mut variants, mut between) = (Vec::new(alloc), Vec::new(alloc));
        add_unit(alloc, &mut variants, "unknown")?;
        add_newtype::<u64>(alloc, types, &mut variants, "count")?;
        add_one::<u64>(alloc, types, &mut between)?;
        add_one::<u64>(alloc, types, &mut between)?;
        add_tuple(alloc, &mut variants, "between", between)?;
        let mut named = Vec::new(alloc);
        add_field::<String>(alloc, types, &mut named, "name", REQUIRED)?;
        add_struct(alloc, &mut variants, "named", named, true)?;
        Ok(untagged_entry(alloc, variants))
    }
}

impl JsonSchema for Message {
    ghost says = { own (codes "Message") (λ d. IsIn ⟦<String as JsonSchema>⟧.says d
        × IsIn ⟦<Option<String> as JsonSchema>⟧.says d) };

    fn inline_schema() -> bool {
        false
    }

    fn schema_name(_alloc: Global) -> Result<CowStr<'static>, AllocError> {
        Ok(CowStr::Borrowed("Message"))
    }

    fn schema_id(alloc: Global) -> Result<CowStr<'static>, AllocError> {
        Self::schema_name(alloc)
    }

    fn json_schema(alloc: Global, types: &mut Types) -> Result<TypeEntry, TypesError> {
        let mut variants = Vec::new(alloc);
        add_internal_unit(alloc, &mut variants, "ping")?;
        let mut text = Vec::new(alloc);
        add_field::<String>(alloc, types, &mut text, "body", REQUIRED)?;
        add_field::<Option<String>>(alloc, types, &mut text, "to", OPTIONAL)?;
        add_internal_struct(alloc, &mut variants, "text", text, true)?;
        let tag = String::from_str(alloc, "type")?;
        Ok(internal_entry(alloc, tag, true, variants))
    }
}

impl JsonSchema for Order {
    ghost says = { own (codes "Order") (λ d. IsIn ⟦<u32 as JsonSchema>⟧.says d
        × IsIn ⟦<i8 as JsonSchema>⟧.says d
        × IsIn ⟦<String as JsonSchema>⟧.says d) };

    fn inline_schema() -> bool {
        false
    }

    fn schema_name(_alloc: Global) -> Result<CowStr<'static>, AllocError> {
        Ok(CowStr::Borrowed("Order"))
    }

    fn schema_id(alloc: Global) -> Result<CowStr<'static>, AllocError> {
        Self::schema_name(alloc)
    }

    fn json_schema(alloc: Global, types: &mut Types) -> Result<TypeEntry, TypesError> {
        let (mut variants, mut pair) = (Vec::new(alloc), Vec::new(alloc));
        add_unit(alloc, &mut variants, "stop")?;
        add_newtype::<u32>(alloc, types, &mut variants, "wait")?;
        add_one::<i8>(alloc, types, &mut pair)?;
        add_one::<i8>(alloc, types, &mut pair)?;
        add_tuple(alloc, &mut variants, "move", pair)?;
        let mut say = Vec::new(alloc);
        add_field::<String>(alloc, types, &mut say, "words", REQUIRED)?;
        add_struct(alloc, &mut variants, "say", say, true)?;
        let tag = String::from_str(alloc, "kind")?;
        let content = String::from_str(alloc, "with")?;
        Ok(adjacent_entry(alloc, tag, content, true, variants))
    }
}
