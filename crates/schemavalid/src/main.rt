//! Tells of JSON values whether a JSON Schema accepts them, and why not.
#![tactic(auto)]

mod report;
mod sources;
mod values;
mod words;

use crate::report::{Report, Status};
use crate::sources::{document_of_table, schema_in};
use crate::values::{Entry, entries_in};
use crate::words::{Asked, Judge, Words, words_of};
use schemars_validator::{Draft, Validator};
use serde_json::Value;
use std::alloc::{Alloc, AllocError, Global};
use std::env::Env;
use std::io::{Eprint, Input, Print, Read};
use std::process::ExitCode;
use std::rt::Files;
use std::{fs, io};

const VERSION: &str = "1.0.0";

const HELP: &str = "\
usage: schemavalid [--json] DIALECT SCHEMA [FILE..]
       schemavalid [--json] [--serialize] --table TABLE [FILE..]

Reports whether JSON values are accepted by the document SCHEMA, or belong to the root of the table TABLE.
DIALECT is 2020-12, 2019-09, draft-07 or openapi3. A file has one value, or one value on each line. Standard input is read for `-` or without a file.

  --json       writes a line of JSON for each value
  --serialize  the table's values are those that are written, not those that are read
  --help       writes this text
  --version    writes the version

The status is 0 if each value is accepted, 1 if one is not, and 2 if the document cannot be used.
";

// Why values are not judged.
enum Stop {
    Usage(String),
    Failed(io::Error),
}

impl From<AllocError> for Stop {
    fn from(error: AllocError) -> Stop {
        Stop::Failed(error.into())
    }
}

impl From<io::Error> for Stop {
    fn from(error: io::Error) -> Stop {
        Stop::Failed(error)
    }
}

fn main(rt: HostRuntime) -> ExitCode {
    match run_program(&rt) {
        Ok(status) => ExitCode::from(status.code()),
        Err(Stop::Usage(fault)) => {
            let fault = fault.as_str();
            let _ = eprintln!(rt; "schemavalid: {fault}; --help tells how to call");
            ExitCode::from(2)
        }
        Err(Stop::Failed(error)) => {
            let _ = eprintln!(rt; "schemavalid: {error}");
            ExitCode::from(2)
        }
    }
}

fn run_program<R: Env + Alloc<A = Global> + Files + Input + Print + Eprint>(
    rt: &R,
) -> Result<Status, Stop> {
    match words_of(rt)? {
        Asked::Help => {
            print!(rt; "{HELP}")?;
            Ok(Status::AllValid)
        }
        Asked::Version => {
            println!(rt; "schemavalid {VERSION}")?;
            Ok(Status::AllValid)
        }
        Asked::Wrong(fault) => Err(Stop::Usage(fault)),
        Asked::Values(words) => judge_all(rt, &words),
    }
}

// Reads the document, and judges the values of each file.
fn judge_all<R: Alloc<A = Global> + Files + Input + Print + Eprint>(
    rt: &R,
    words: &Words,
) -> Result<Status, Stop> {
    let source = words.source.as_str();
    let (document, draft) = match document_in(rt, words)? {
        Ok(found) => found,
        Err(fault) => {
            let fault = fault.as_str();
            let _ = eprintln!(rt; "schemavalid: {source}: {fault}");
            return Ok(Status::Unusable);
        }
    };
    match Validator::new(rt.alloc(), draft, &document) {
        Ok(validator) => judge_files(rt, words, &validator),
        Err(refusal) => {
            let _ = eprintln!(rt; "schemavalid: {source}: {refusal}");
            Ok(Status::Unusable)
        }
    }
}

// The document that judges the values, and its dialect; or why there is none.
fn document_in<R: Alloc<A = Global> + Files>(
    rt: &R,
    words: &Words,
) -> Result<Result<(Value, Draft), String>, Stop> {
    let alloc = rt.alloc();
    let bytes = match fs::read(rt, words.source.as_str()) {
        Ok(bytes) => bytes,
        Err(error) => return Ok(Err(format!(in alloc; "{error}")?)),
    };
    let found = match words.judge {
        Judge::Schema(draft) => schema_in(alloc, &bytes, draft)?,
        Judge::Table(contract) => document_of_table(alloc, &bytes, contract)?,
    };
    Ok(found)
}

fn judge_files<R: Alloc<A = Global> + Files + Input + Print + Eprint>(
    rt: &R,
    words: &Words,
    validator: &Validator<'_>,
) -> Result<Status, Stop> {
    let mut status = Status::AllValid;
    let several = words.files.len() > 1;
    for file in &words.files {
        let name = file.as_str();
        match read(rt, name) {
            Ok(bytes) => {
                let shown = if several { Some(name) } else { None };
                let found = judge_file(rt, words, validator, shown, &bytes)?;
                status = status.and(found);
            }
            Err(error) => {
                let _ = eprintln!(rt; "schemavalid: {name}: {error}");
                status = Status::Unusable;
            }
        }
    }
    Ok(status)
}

fn judge_file<R: Alloc<A = Global> + Print>(
    rt: &R,
    words: &Words,
    validator: &Validator<'_>,
    file: Option<&str>,
    bytes: &[u8],
) -> Result<Status, Stop> {
    let mut status = Status::AllValid;
    for entry in &entries_in(rt.alloc(), bytes)? {
        let found = judge_entry(rt, words, validator, file, entry)?;
        status = status.and(found);
    }
    Ok(status)
}

fn judge_entry<R: Alloc<A = Global> + Print>(
    rt: &R,
    words: &Words,
    validator: &Validator<'_>,
    file: Option<&str>,
    entry: &Entry<'_>,
) -> Result<Status, Stop> {
    let report = Report::of(rt.alloc(), validator, file, entry)?;
    let text = report.text(rt.alloc(), words.json)?;
    let text = text.as_str();
    print!(rt; "{text}")?;
    Ok(report.status())
}

// The bytes of a file, or of standard input for `-`.
fn read<R: Alloc<A = Global> + Files + Input>(rt: &R, file: &str) -> io::Result<Vec<u8>> {
    if file != "-" {
        return fs::read(rt, file);
    }
    let mut bytes = Vec::new(rt.alloc());
    rt.reader().read_to_end(&mut bytes)?;
    Ok(bytes)
}
