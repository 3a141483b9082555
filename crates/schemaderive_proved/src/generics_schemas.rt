//! Written by `schemaderive --impls crate::generics`, which writes it anew: edit the declarations.
#![tactic(auto, using(schemars::proofs::OwnTypes::own_types))]

ghost use Rattle.std.specs.Prelude.{false, ◌++◌};
ghost use Rattle.schemars.specs.Words.{codes, IsIn, IsOptionOf, own, Unsaid};

use crate::generics::{All, Author, Book, Message};
use schemars::impls::{
    JsonSchema, READ_OPTIONAL, REQUIRED, add_field, add_newtype, add_option_of, adjacent_entry,
    note_entry, struct_entry,
};
use schemars::types::{TypeEntry, Types, TypesError};
use serde_json::Value;
use std::alloc::{AllocError, Global};
use std::borrow::CowStr;

impl<T: JsonSchema, E: JsonSchema> JsonSchema for Message<T, E> {
    ghost says = { record { id = codes "Message<" ++ (T.says.id ++ (codes ", " ++ (E.says.id ++ codes ">"))); name = codes "Message_for_" ++ (T.says.name ++ (codes "_and_" ++ E.says.name)); inline = false; making = Unsaid; parts = λ d. IsIn ⟦<T as JsonSchema>⟧.says d × IsIn ⟦<E as JsonSchema>⟧.says d } };

    fn inline_schema() -> bool {
        false
    }

    fn schema_name(alloc: Global) -> Result<CowStr<'static>, AllocError> {
        let first = T::schema_name(alloc)?;
        let second = E::schema_name(alloc)?;
        Ok(CowStr::Owned(format!(in alloc; "Message_for_{first}_and_{second}")?))
    }

    fn schema_id(alloc: Global) -> Result<CowStr<'static>, AllocError> {
        let first = T::schema_id(alloc)?;
        let second = E::schema_id(alloc)?;
        Ok(CowStr::Owned(format!(in alloc; "Message<{first}, {second}>")?))
    }

    fn json_schema(alloc: Global, types: &mut Types) -> Result<TypeEntry, TypesError> {
        let mut variants = Vec::new(alloc);
        add_newtype::<T>(alloc, types, &mut variants, "Good")?;
        add_newtype::<E>(alloc, types, &mut variants, "Bad")?;
        let tag = String::from_str(alloc, "kind")?;
        let content = String::from_str(alloc, "data")?;
        Ok(adjacent_entry(alloc, tag, content, false, variants))
    }
}

impl JsonSchema for Author {
    ghost says = { own (codes "Author") (λ d. IsIn ⟦<String as JsonSchema>⟧.says d × IsIn ⟦<Vec<Book> as JsonSchema>⟧.says d) };

    fn inline_schema() -> bool {
        false
    }

    fn schema_name(_alloc: Global) -> Result<CowStr<'static>, AllocError> {
        Ok(CowStr::Borrowed("Author"))
    }

    fn schema_id(alloc: Global) -> Result<CowStr<'static>, AllocError> {
        Self::schema_name(alloc)
    }

    fn json_schema(alloc: Global, types: &mut Types) -> Result<TypeEntry, TypesError> {
        let mut fields = Vec::new(alloc);
        add_field::<String>(alloc, types, &mut fields, "name", REQUIRED)?;
        add_field::<Vec<Book>>(alloc, types, &mut fields, "books", REQUIRED)?;
        Ok(struct_entry(alloc, fields, false))
    }
}

impl JsonSchema for Book {
    ghost says = { own (codes "Book") (λ d. IsIn ⟦<String as JsonSchema>⟧.says d × IsOptionOf (codes "Author") (codes "Author") d) };

    fn inline_schema() -> bool {
        false
    }

    fn schema_name(_alloc: Global) -> Result<CowStr<'static>, AllocError> {
        Ok(CowStr::Borrowed("Book"))
    }

    fn schema_id(alloc: Global) -> Result<CowStr<'static>, AllocError> {
        Self::schema_name(alloc)
    }

    fn json_schema(alloc: Global, types: &mut Types) -> Result<TypeEntry, TypesError> {
        let mut fields = Vec::new(alloc);
        add_field::<String>(alloc, types, &mut fields, "title", REQUIRED)?;
        add_option_of(
            alloc,
            types,
            &mut fields,
            "author",
            "Author",
            "Author",
            READ_OPTIONAL,
        )?;
        Ok(struct_entry(alloc, fields, false))
    }
}

impl JsonSchema for All {
    ghost says = { own (codes "All") (λ d. IsIn ⟦<Message<u8, String> as JsonSchema>⟧.says d × IsIn ⟦<Message<Vec<u8>, ()> as JsonSchema>⟧.says d × IsIn ⟦<Author as JsonSchema>⟧.says d × IsIn ⟦<Book as JsonSchema>⟧.says d) };

    fn inline_schema() -> bool {
        false
    }

    fn schema_name(_alloc: Global) -> Result<CowStr<'static>, AllocError> {
        Ok(CowStr::Borrowed("All"))
    }

    fn schema_id(alloc: Global) -> Result<CowStr<'static>, AllocError> {
        Self::schema_name(alloc)
    }

    fn json_schema(alloc: Global, types: &mut Types) -> Result<TypeEntry, TypesError> {
        let mut fields = Vec::new(alloc);
        add_field::<Message<u8, String>>(alloc, types, &mut fields, "first", REQUIRED)?;
        add_field::<Message<Vec<u8>, ()>>(alloc, types, &mut fields, "second", REQUIRED)?;
        add_field::<Author>(alloc, types, &mut fields, "author", REQUIRED)?;
        add_field::<Book>(alloc, types, &mut fields, "book", REQUIRED)?;
        let mut entry = struct_entry(alloc, fields, false);
        let description = Value::try_from_str(alloc, "All of them.")?;
        note_entry(alloc, &mut entry, "description", description)?;
        Ok(entry)
    }
}
