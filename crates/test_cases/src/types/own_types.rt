//! Types of one's own: one of known parts, one that is inside itself, and two that are inside each
//! other.
#![tactic(auto, using(schemars_impls::proofs::OwnTypes::own_types))]

ghost use Rattle.std.specs.Prelude.{codes};
ghost use Rattle.schemars_impls.specs.Dictionary.{IsIn, own};
ghost use Rattle.schemars_impls.specs.OwnRows.{IsOptionOf, IsSeqOf};

use crate::types::line::line_of;
use crate::types::own_enums::own_enum;
use schemars::impls::{
    JsonSchema, OPTIONAL, REQUIRED, add_field, add_option_of, add_seq_of, register, struct_entry,
};
use schemars::types::{TypeEntry, Types, TypesError};
use schemars::{GenerateError, SchemaGenerator, SchemaSettings};
use std::alloc::{AllocError, Global};
use std::borrow::CowStr;

struct Person {
    name: String,
    age: Option<u8>,
}

impl JsonSchema for Person {
    ghost says = { own (codes "Person") (λ d. IsIn ⟦<String as JsonSchema>⟧.says d × IsIn ⟦<Option<u8> as JsonSchema>⟧.says d) };

    fn inline_schema() -> bool {
        false
    }

    fn schema_name(_alloc: Global) -> Result<CowStr<'static>, AllocError> {
        Ok(CowStr::Borrowed("Person"))
    }

    fn schema_id(alloc: Global) -> Result<CowStr<'static>, AllocError> {
        Self::schema_name(alloc)
    }

    fn json_schema(alloc: Global, types: &mut Types) -> Result<TypeEntry, TypesError> {
        let mut fields = Vec::new(alloc);
        add_field::<String>(alloc, types, &mut fields, "name", REQUIRED)?;
        add_field::<Option<u8>>(alloc, types, &mut fields, "age", OPTIONAL)?;
        Ok(struct_entry(alloc, fields, false))
    }
}

// A list of numbers.
pub(crate) struct Node {
    value: i32,
    next: Option<Box<Node>>,
}

impl JsonSchema for Node {
    ghost says = { own (codes "Node") (λ d. IsIn ⟦<i32 as JsonSchema>⟧.says d × IsOptionOf (codes "Node") (codes "Node") d) };

    fn inline_schema() -> bool {
        false
    }

    fn schema_name(_alloc: Global) -> Result<CowStr<'static>, AllocError> {
        Ok(CowStr::Borrowed("Node"))
    }

    fn schema_id(alloc: Global) -> Result<CowStr<'static>, AllocError> {
        Self::schema_name(alloc)
    }

    fn json_schema(alloc: Global, types: &mut Types) -> Result<TypeEntry, TypesError> {
        let mut fields = Vec::new(alloc);
        add_field::<i32>(alloc, types, &mut fields, "value", REQUIRED)?;
        add_option_of(alloc, types, &mut fields, "next", "Node", "Node", OPTIONAL)?;
        Ok(struct_entry(alloc, fields, false))
    }
}

#[cycle(books)]
pub(crate) struct Author {
    name: String,
    books: Vec<Book>,
}

impl JsonSchema for Author {
    ghost says = { own (codes "Author") (λ d. IsIn ⟦<String as JsonSchema>⟧.says d × IsSeqOf (codes "Book") (codes "Book") d) };

    fn inline_schema() -> bool {
        false
    }

    fn schema_name(_alloc: Global) -> Result<CowStr<'static>, AllocError> {
        Ok(CowStr::Borrowed("Author"))
    }

    fn schema_id(alloc: Global) -> Result<CowStr<'static>, AllocError> {
        Self::schema_name(alloc)
    }

    fn json_schema(alloc: Global, types: &mut Types) -> Result<TypeEntry, TypesError> {
        let mut fields = Vec::new(alloc);
        add_field::<String>(alloc, types, &mut fields, "name", REQUIRED)?;
        add_seq_of(alloc, types, &mut fields, "books", "Book", "Book", REQUIRED)?;
        Ok(struct_entry(alloc, fields, false))
    }
}

#[cycle(books)]
struct Book {
    title: String,
    author: Option<Box<Author>>,
}

impl JsonSchema for Book {
    ghost says = { own (codes "Book") (λ d. IsIn ⟦<String as JsonSchema>⟧.says d × IsOptionOf (codes "Author") (codes "Author") d) };

    fn inline_schema() -> bool {
        false
    }

    fn schema_name(_alloc: Global) -> Result<CowStr<'static>, AllocError> {
        Ok(CowStr::Borrowed("Book"))
    }

    fn schema_id(alloc: Global) -> Result<CowStr<'static>, AllocError> {
        Self::schema_name(alloc)
    }

    fn json_schema(alloc: Global, types: &mut Types) -> Result<TypeEntry, TypesError> {
        let mut fields = Vec::new(alloc);
        add_field::<String>(alloc, types, &mut fields, "title", REQUIRED)?;
        add_option_of(
            alloc,
            types,
            &mut fields,
            "author",
            "Author",
            "Author",
            OPTIONAL,
        )?;
        Ok(struct_entry(alloc, fields, false))
    }
}

// Types that are inside each other are registered each.
fn authors_and_books(alloc: Global) -> Result<Types, TypesError> {
    let mut types = Types::new(alloc);
    register_both(alloc, &mut types)?;
    Ok(types)
}

fn register_both(alloc: Global, types: &mut Types) -> Result<(), TypesError> {
    register::<Author>(alloc, types)?;
    register::<Book>(alloc, types)?;
    Ok(())
}

// The document of one of the two.
fn document_of<T: JsonSchema>(alloc: Global) -> Result<String, GenerateError> {
    let types = authors_and_books(alloc)?;
    let settings = SchemaSettings::draft2020_12(alloc);
    let generator = SchemaGenerator::with_types(alloc, settings, types)?;
    let schema = generator.into_root_schema_for::<T>(alloc)?;
    Ok(schema.to_ordered_string(alloc)?)
}

/// Returns the line of one of the types above, or the document of one of two that are registered.
pub(crate) fn own_type(alloc: Global, of: &str) -> Result<String, GenerateError> {
    match of {
        "Person" => line_of::<Person>(alloc),
        "Node" => line_of::<Node>(alloc),
        "Vec<Node>" => line_of::<Vec<Node>>(alloc),
        "Author" => line_of::<Author>(alloc),
        "Author beside Book" => document_of::<Author>(alloc),
        "Book beside Author" => document_of::<Book>(alloc),
        _ => own_enum(alloc, of),
    }
}
