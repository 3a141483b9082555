//! How types describe themselves whose maps have the fields of another, and one that contains
//! itself.
#![tactic(auto, using(schemars_impls::proofs::OwnTypes::own_types))]

ghost use Rattle.std.specs.Prelude.{codes};
ghost use Rattle.schemars_impls.specs.Dictionary.{IsIn, own};
ghost use Rattle.schemars_impls.specs.OwnRows.{IsSeqOf};

use crate::card::Card;
use crate::note::Note;
use crate::review::Review;
use crate::tree::Tree;
use schemars_impls::{
    JsonSchema, REQUIRED, add_field, add_flattened, add_internal_newtype, add_internal_unit,
    add_seq_of, flat_entry, internal_entry, struct_entry,
};
use schemars_types::{TypeEntry, Types, TypesError};
use std::alloc::{AllocError, Global};
use std::borrow::CowStr;
use std::collections::BTreeSet;

impl JsonSchema for Note {
    ghost says = { own (codes "Note") (λ d. IsIn ⟦<String as JsonSchema>⟧.says d
        × IsIn ⟦<u8 as JsonSchema>⟧.says d) };

    fn inline_schema() -> bool {
        false
    }

    fn schema_name(_alloc: Global) -> Result<CowStr<'static>, AllocError> {
        Ok(CowStr::Borrowed("Note"))
    }

    fn schema_id(alloc: Global) -> Result<CowStr<'static>, AllocError> {
        Self::schema_name(alloc)
    }

    fn json_schema(alloc: Global, types: &mut Types) -> Result<TypeEntry, TypesError> {
        let mut fields = Vec::new(alloc);
        add_field::<String>(alloc, types, &mut fields, "words", REQUIRED)?;
        add_field::<u8>(alloc, types, &mut fields, "stars", REQUIRED)?;
        Ok(struct_entry(alloc, fields, false))
    }
}

impl JsonSchema for Review {
    ghost says = { own (codes "Review") (λ d. IsIn ⟦<Note as JsonSchema>⟧.says d) };

    fn inline_schema() -> bool {
        false
    }

    fn schema_name(_alloc: Global) -> Result<CowStr<'static>, AllocError> {
        Ok(CowStr::Borrowed("Review"))
    }

    fn schema_id(alloc: Global) -> Result<CowStr<'static>, AllocError> {
        Self::schema_name(alloc)
    }

    fn json_schema(alloc: Global, types: &mut Types) -> Result<TypeEntry, TypesError> {
        let mut variants = Vec::new(alloc);
        add_internal_unit(alloc, &mut variants, "missing")?;
        add_internal_newtype::<Note>(alloc, types, &mut variants, "given")?;
        let tag = String::from_str(alloc, "kind")?;
        Ok(internal_entry(alloc, tag, true, variants))
    }
}

impl JsonSchema for Card {
    ghost says = { own (codes "Card") (λ d. IsIn ⟦<u32 as JsonSchema>⟧.says d
        × IsIn ⟦<BTreeSet<String> as JsonSchema>⟧.says d
        × IsIn ⟦<Note as JsonSchema>⟧.says d) };

    fn inline_schema() -> bool {
        false
    }

    fn schema_name(_alloc: Global) -> Result<CowStr<'static>, AllocError> {
        Ok(CowStr::Borrowed("Card"))
    }

    fn schema_id(alloc: Global) -> Result<CowStr<'static>, AllocError> {
        Self::schema_name(alloc)
    }

    fn json_schema(alloc: Global, types: &mut Types) -> Result<TypeEntry, TypesError> {
        let (mut fields, mut flatten) = (Vec::new(alloc), Vec::new(alloc));
        add_field::<u32>(alloc, types, &mut fields, "id", REQUIRED)?;
        add_field::<BTreeSet<String>>(alloc, types, &mut fields, "tags", REQUIRED)?;
        add_flattened::<Note>(alloc, types, &mut flatten, REQUIRED)?;
        Ok(flat_entry(alloc, fields, flatten, true))
    }
}

impl JsonSchema for Tree {
    ghost says = { own (codes "Tree") (λ d. IsIn ⟦<String as JsonSchema>⟧.says d
        × IsSeqOf (codes "Tree") (codes "Tree") d) };

    fn inline_schema() -> bool {
        false
    }

    fn schema_name(_alloc: Global) -> Result<CowStr<'static>, AllocError> {
        Ok(CowStr::Borrowed("Tree"))
    }

    fn schema_id(alloc: Global) -> Result<CowStr<'static>, AllocError> {
        Self::schema_name(alloc)
    }

    fn json_schema(alloc: Global, types: &mut Types) -> Result<TypeEntry, TypesError> {
        let mut fields = Vec::new(alloc);
        add_field::<String>(alloc, types, &mut fields, "name", REQUIRED)?;
        add_seq_of(
            alloc,
            types,
            &mut fields,
            "children",
            "Tree",
            "Tree",
            REQUIRED,
        )?;
        Ok(struct_entry(alloc, fields, true))
    }
}
