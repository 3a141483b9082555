//! What the program writes.
use crate::words::{Asked, Wanted};
use crate::writing::table_json;
use schemaderive_definitions::table_of;
use schemaderive_impls::implementations_of;
use schemaderive_options::Contract;
use schemaderive_syntax::{Fault, Place, Refusal, Source, Token, read_source, read_tokens};
use std::alloc::{AllocError, Global};

/// What the program writes.
#[derive(Drop)]
pub struct Output {
    /// what goes to standard output
    pub text: String,
    /// what goes to standard error, a line each
    pub warnings: Vec<Refusal>,
}

/// What is asked for, made of a source.
///
/// # Errors
///
/// The source is none of Rust, a type is not known, or an attribute says what can't be said.
pub fn derived(alloc: Global, text: &str, asked: &Asked) -> Result<Output, Fault> {
    let tokens = read_tokens(alloc, text, START)?;
    derived_of_tokens(alloc, &tokens, asked)
}

fn derived_of_tokens(alloc: Global, tokens: &[Token], asked: &Asked) -> Result<Output, Fault> {
    let source = read_source(alloc, tokens, end_of(tokens), &asked.given)?;
    match &asked.wanted {
        Wanted::Table(root) => table(alloc, &source, root.as_str(), asked.contract),
        Wanted::Implementations(module) => {
            implementations(alloc, &source, module.as_str(), asked)
        }
    }
}

// The table of the types that a type of a source leads to.
fn table(
    alloc: Global,
    source: &Source<'_>,
    root: &str,
    contract: Contract,
) -> Result<Output, Fault> {
    let table = table_of(alloc, &*source, root, contract)?;
    let text = table_json(alloc, &table)?;
    Ok(Output {
        text,
        warnings: table.warnings,
    })
}

// The implementations for the types of a source.
fn implementations(
    alloc: Global,
    source: &Source<'_>,
    module: &str,
    asked: &Asked,
) -> Result<Output, Fault> {
    let first = first_line(alloc, module, asked)?;
    let made = implementations_of(alloc, &*source, module, asked.contract, first.as_str())?;
    Ok(Output {
        text: made.text,
        warnings: made.warnings,
    })
}

// The first line of a file with implementations, which says how it was written.
fn first_line(alloc: Global, module: &str, asked: &Asked) -> Result<String, AllocError> {
    let mut line = format!(in alloc; "//! Written by `schemaderive --impls {module}")?;
    line.push_str(match asked.contract {
        Contract::Both => "",
        Contract::Deserialize => " --deserialize",
        Contract::Serialize => " --serialize",
    })?;
    for condition in &asked.given {
        line.push_str(" --cfg ")?;
        line.push_str(condition.as_str())?;
    }
    line.push_str("`, which writes it anew: edit the declarations.")?;
    Ok(line)
}

// Where a source begins.
const START: Place = Place { line: 1, column: 1 };

// The place of the last token.
fn end_of(tokens: &[Token]) -> Place {
    match tokens.last() {
        Some(token) => token.place,
        None => START,
    }
}

/// The line of what is said of a place in this file, or in standard input. Line 0 is what the words of
/// the run say.
pub fn place_line(
    alloc: Global,
    file: &Option<String>,
    kind: &str,
    said: &Refusal,
) -> Result<String, AllocError> {
    let line = said.place.line;
    let column = said.place.column;
    let reason = said.reason.as_str();
    match file {
        _ if line == 0 => format!(in alloc; "schemaderive: {kind}{reason}"),
        Some(file) => format!(in alloc; "{file}:{line}:{column}: {kind}{reason}"),
        None => format!(in alloc; "schemaderive: {kind}{line}:{column}: {reason}"),
    }
}
