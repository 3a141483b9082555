//! Tables of the types that a source declares.
use crate::content::{Content, Definition};
use crate::defining::definition_of;
use crate::shapes::shape_json;
use schemaderive_known::Row;
use schemaderive_options::{Context, Contract, Notes};
use schemaderive_rows::{Builder, Scope};
use schemaderive_syntax::{Cursor, Fault, Place, Refusal, Source, read_tokens, read_type};
use std::alloc::{AllocError, Global};
use std::mem;

// How deep types may nest.
const MAX_DEPTH: usize = 128;

// How many declarations with arguments a table may have.
const MAX_INSTANCES: usize = 10_000;

/// A table of types.
#[derive(Drop)]
pub struct Table {
    /// its rows
    pub rows: Vec<Row>,
    /// the number of the row whose document is wanted
    pub root: usize,
    /// what is to be said of the attributes
    pub warnings: Vec<Refusal>,
}

/// The table of the types that a type leads to.
///
/// # Errors
///
/// A type is not known, or an attribute says what a table can't say.
pub fn table_of<'a>(
    alloc: Global,
    source: &'a Source<'a>,
    root: &str,
    contract: Contract,
) -> Result<Table, Fault> {
    let context = Context::new(alloc, contract);
    let mut builder = Builder::new(context, source)?;
    let root = root_row(&mut builder, root)?;
    define_all(&mut builder)?;
    Ok(Table {
        rows: mem::replace(&mut builder.rows, Vec::new(alloc)),
        root,
        warnings: mem::replace(&mut builder.context.warnings, Vec::new(alloc)),
    })
}

// The row of the type that is written so.
fn root_row(builder: &mut Builder<'_>, root: &str) -> Result<usize, Fault> {
    let alloc = builder.alloc();
    let start = Place { line: 0, column: 0 };
    let tokens = read_tokens(alloc, root, start)?;
    let ty = read_type(alloc, Cursor::new(&tokens, start))?;
    let scope = Scope::new(alloc, "")?;
    builder.row_of(&ty, &scope, start, MAX_DEPTH)
}

// Defines the rows of the declarations that are reserved, and of those that they lead to.
fn define_all(builder: &mut Builder<'_>) -> Result<(), Fault> {
    for number in 0..MAX_INSTANCES {
        if number >= builder.instances.len() {
            return Ok(());
        }
        define(builder, number)?;
    }
    let place = Place { line: 0, column: 0 };
    Err(
        builder
            .context
            .refused(place, "these are more than 10000 types"),
    )
}

// Defines the row of a declaration that is reserved.
fn define(builder: &mut Builder<'_>, number: usize) -> Result<(), Fault> {
    let alloc = builder.alloc();
    let empty = Scope::new(alloc, "")?;
    let Some(instance) = builder.instances.get_mut(number) else {
        return Ok(());
    };
    let scope = mem::replace(&mut instance.scope, empty);
    let (row, index) = (instance.row, instance.declaration);
    let definition = definition_of(builder, index, &scope)?;
    Ok(set_definition(builder, row, &definition)?)
}

// Sets what a row is.
fn set_definition(
    builder: &mut Builder<'_>,
    row: usize,
    definition: &Definition,
) -> Result<(), AllocError> {
    let alloc = builder.alloc();
    let shape = shape_json(alloc, &definition.content)?;
    let notes = notes_of(alloc, definition)?;
    if let Some(row) = builder.rows.get_mut(row) {
        row.shape = shape;
        row.notes = notes;
    }
    Ok(())
}

// The keywords that the shape of a definition does not say.
fn notes_of(alloc: Global, definition: &Definition) -> Result<Notes, AllocError> {
    let mut notes = match &definition.content {
        Content::Newtype(part) => part.unsaid(alloc)?,
        _ => Notes::new(alloc),
    };
    notes.put_all(alloc, &definition.notes)?;
    Ok(notes)
}
