//! The implementations of the types of a source.
use crate::body::{Types, Writer};
use crate::headers::header_of;
use crate::items::Subject;
use crate::leading::{ancestors_of, mentions_of};
use schemaderive_definitions::{Definition, definition_of};
use schemaderive_options::{Context, Contract, derives};
use schemaderive_rows::{Builder, Scope, Standing, one_field};
use schemaderive_syntax::{Declaration, Fault, Parameter, Place, Refusal, Source};
use schemaderive_text::Lines;
use std::alloc::{AllocError, Global};
use std::mem;

// How deep types may nest.
const MAX_DEPTH: usize = 128;

// What is behind the first line of a file.
const HEAD: &str = "
#![tactic(auto, using(schemars::proofs::OwnTypes::own_types))]

";

/// A file of implementations.
#[derive(Drop)]
pub struct Implementations {
    /// its text
    pub text: String,
    /// what is to be said of the attributes
    pub warnings: Vec<Refusal>,
}

/// The implementations of `JsonSchema` for the types of a source, which have this module as the path
/// of theirs. The first line of the file is the one that is given.
///
/// # Errors
///
/// A type is not known, or an attribute says what an implementation can't say.
pub fn implementations_of<'a>(
    alloc: Global,
    source: &'a Source<'a>,
    module: &str,
    contract: Contract,
    first: &str,
) -> Result<Implementations, Fault> {
    let mut builder = Builder::new(Context::new(alloc, contract), source)?;
    builder.home = Some(String::from_str(alloc, module)?);
    let text = text_of(&mut builder, first)?;
    Ok(Implementations {
        text,
        warnings: mem::replace(&mut builder.context.warnings, Vec::new(alloc)),
    })
}

// The text of the file.
fn text_of(builder: &mut Builder<'_>, first: &str) -> Result<String, Fault> {
    let subjects = subjects_of(builder)?;
    if subjects.is_empty() {
        let place = Place { line: 0, column: 0 };
        let reason = "no type of the source derives JsonSchema";
        return Err(builder.context.refused(place, reason));
    }
    file_of(builder, &subjects, first)
}

// What is to be implemented.
fn subjects_of(builder: &mut Builder<'_>) -> Result<Vec<Subject>, Fault> {
    let alloc = builder.alloc();
    let source = builder.source;
    let mut subjects = Vec::new(alloc);
    for (number, declaration) in source.declarations.iter().enumerate() {
        if derives(&builder.context, &declaration.attributes)? {
            let subject = subject_of(builder, number, declaration)?;
            subjects.push(subject)?;
        }
    }
    Ok(subjects)
}

fn subject_of(
    builder: &mut Builder<'_>,
    number: usize,
    declaration: &Declaration<'_>,
) -> Result<Subject, Fault> {
    let header = header_of(builder, declaration)?;
    let mut scope = builder.parameter_scope(declaration)?;
    let (row, definition) = standing_of(builder, number, declaration, &mut scope)?;
    Ok(Subject {
        place: declaration.place,
        number,
        row,
        header,
        definition,
    })
}

// The row of a type, and what it is unless the row is that of another.
fn standing_of(
    builder: &mut Builder<'_>,
    number: usize,
    declaration: &Declaration<'_>,
    scope: &mut Scope,
) -> Result<(usize, Option<Definition>), Fault> {
    let place = declaration.place;
    match builder.standing(declaration)? {
        Standing::Itself => own_standing(builder, number, declaration, scope),
        Standing::Type(other) => Ok((builder.row_of(&other, scope, place, MAX_DEPTH)?, None)),
        Standing::Field => match one_field(&declaration.body) {
            Some(field) => Ok((builder.row_of(&field.ty, scope, place, MAX_DEPTH)?, None)),
            None => Err(builder.context.refused(place, "a field is wanted")),
        },
    }
}

// The row of a type with one of its own, and what it is.
fn own_standing(
    builder: &mut Builder<'_>,
    number: usize,
    declaration: &Declaration<'_>,
    scope: &mut Scope,
) -> Result<(usize, Option<Definition>), Fault> {
    let own = builder.parameter_scope(declaration)?;
    let row = builder.reserve(number, declaration, own)?;
    scope.this = Some(row);
    Ok((row, Some(definition_of(builder, number, scope)?)))
}

// The text of a file with these implementations.
fn file_of(builder: &Builder<'_>, subjects: &[Subject], first: &str) -> Result<String, Fault> {
    let alloc = builder.alloc();
    let count = builder.source.declarations.len();
    let mentions = mentions_of(alloc, &builder.rows)?;
    let ancestors = ancestors_of(alloc, count, subjects, &mentions)?;
    let mut writer = Writer::new(Types {
        context: &builder.context,
        rows: &builder.rows,
        mentions: &mentions,
    })?;
    add_items(builder, &mut writer, subjects, &ancestors)?;
    Ok(with_head(&writer, first)?)
}

fn add_items<'t>(
    builder: &Builder<'_>,
    writer: &mut Writer<'t>,
    subjects: &'t [Subject],
    ancestors: &'t [Vec<usize>],
) -> Result<(), Fault> {
    for subject in subjects {
        keep_parameters(builder, writer, subject)?;
    }
    for subject in subjects {
        let named = match ancestors.get(subject.number) {
            Some(named) => named.as_slice(),
            None => &[],
        };
        writer.add_item(subject, named)?;
    }
    Ok(())
}

// Keeps the names of a type's parameters from standing for something else in the file.
fn keep_parameters(
    builder: &Builder<'_>,
    writer: &mut Writer<'_>,
    subject: &Subject,
) -> Result<(), Fault> {
    let Some(declaration) = builder.source.declarations.get(subject.number) else {
        return Ok(());
    };
    for parameter in &declaration.parameters {
        if let Parameter::Type(name, _, _) = parameter {
            if !writer.imports.keep(name)? {
                let reason = "the file has this name for something else than a parameter";
                return Err(builder.context.refused_name(subject.place, name, reason));
            }
        }
    }
    Ok(())
}

// The text of a file with what is written.
fn with_head(writer: &Writer<'_>, first: &str) -> Result<String, AllocError> {
    let mut file = Lines::new(writer.alloc());
    push_file(&mut file, writer, first)?;
    Ok(file.text)
}

fn push_file(file: &mut Lines, writer: &Writer<'_>, first: &str) -> Result<(), AllocError> {
    file.push(&[first, HEAD])?;
    writer.imports.push_lines(file)?;
    file.text.push_str(writer.items.text.as_str())
}
