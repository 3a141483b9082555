//! An enum of one's own with variants of all four forms.
#![tactic(auto, using(schemars::proofs::OwnTypes::own_types))]

ghost use Rattle.schemars.specs.Words.{codes, IsIn, own};

use schemars::impls::{
    JsonSchema, OPTIONAL, REQUIRED, add_field, add_newtype, add_one, add_struct, add_tuple,
    add_unit, external_entry, struct_entry,
};
use schemars::types::{TypeEntry, Types, TypesError};
use std::alloc::{AllocError, Global};
use std::borrow::CowStr;
use url::Url;
use uuid::Uuid;

/// Somebody with an account.
pub struct User {
    pub id: Uuid,
    pub name: String,
    pub page: Option<Url>,
}

impl JsonSchema for User {
    ghost says = { own (codes "User") (λ d. IsIn ⟦<Uuid as JsonSchema>⟧.says d × IsIn ⟦<String as JsonSchema>⟧.says d × IsIn ⟦<Option<Url> as JsonSchema>⟧.says d) };

    fn inline_schema() -> bool {
        false
    }

    fn schema_name(_alloc: Global) -> Result<CowStr<'static>, AllocError> {
        Ok(CowStr::Borrowed("User"))
    }

    fn schema_id(alloc: Global) -> Result<CowStr<'static>, AllocError> {
        Self::schema_name(alloc)
    }

    fn json_schema(alloc: Global, types: &mut Types) -> Result<TypeEntry, TypesError> {
        let mut fields = Vec::new(alloc);
        add_field::<Uuid>(alloc, types, &mut fields, "id", REQUIRED)?;
        add_field::<String>(alloc, types, &mut fields, "name", REQUIRED)?;
        add_field::<Option<Url>>(alloc, types, &mut fields, "page", OPTIONAL)?;
        Ok(struct_entry(alloc, fields, false))
    }
}

/// Who has done something. The variants are tagged by their names.
pub enum Actor {
    /// the tracker itself
    System,
    /// somebody with an account
    User(User),
    /// a program, by its name and its version
    Program(String, u32),
    /// somebody without an account
    Guest { name: String, mail: Option<String> },
}

impl JsonSchema for Actor {
    ghost says = { own (codes "Actor") (λ d. IsIn ⟦<User as JsonSchema>⟧.says d × IsIn ⟦<String as JsonSchema>⟧.says d × IsIn ⟦<u32 as JsonSchema>⟧.says d × IsIn ⟦<Option<String> as JsonSchema>⟧.says d) };

    fn inline_schema() -> bool {
        false
    }

    fn schema_name(_alloc: Global) -> Result<CowStr<'static>, AllocError> {
        Ok(CowStr::Borrowed("Actor"))
    }

    fn schema_id(alloc: Global) -> Result<CowStr<'static>, AllocError> {
        Self::schema_name(alloc)
    }

    fn json_schema(alloc: Global, types: &mut Types) -> Result<TypeEntry, TypesError> {
        let (mut variants, mut program) = (Vec::new(alloc), Vec::new(alloc));
        add_unit(alloc, &mut variants, "system")?;
        add_newtype::<User>(alloc, types, &mut variants, "user")?;
        add_one::<String>(alloc, types, &mut program)?;
        add_one::<u32>(alloc, types, &mut program)?;
        add_tuple(alloc, &mut variants, "program", program)?;
        let mut guest = Vec::new(alloc);
        add_field::<String>(alloc, types, &mut guest, "name", REQUIRED)?;
        add_field::<Option<String>>(alloc, types, &mut guest, "mail", OPTIONAL)?;
        add_struct(alloc, &mut variants, "guest", guest, false)?;
        Ok(external_entry(alloc, variants))
    }
}
