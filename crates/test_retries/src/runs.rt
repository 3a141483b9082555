//! Runs of the program `schemagen`, and a text with decimals.
use crate::retry::{again, show};
use crate::stop::Stop;
use crate::tables::EXAMPLE;
use schemagen_run::run::run;
use schemagen_run::streams::{SinkOf, SourceOf};
use schemars::Schema;
use serde_json::Value;
use std::alloc::{Alloc, Global};
use std::io;
use std::io::Print;

/// Runs for a table under each dialect.
pub(crate) fn make_runs<R: Alloc<A = Global> + Print>(rt: &R, table: &str) -> Result<(), Stop> {
    for dialect in ["2020-12", "2019-09", "draft-07", "openapi3"] {
        again(|| write_line(rt, &["types", dialect], table))?;
    }
    Ok(())
}

/// Runs for an example.
pub(crate) fn make_sample_runs<R: Alloc<A = Global> + Print>(rt: &R) -> Result<(), Stop> {
    for dialect in ["2020-12", "draft-07", "openapi3"] {
        again(|| write_line(rt, &["sample", dialect], EXAMPLE))?;
    }
    Ok(())
}

// Nothing of the line is written where memory is refused.
fn write_line<R: Alloc<A = Global> + Print>(
    rt: &R,
    words: &[&str],
    input: &str,
) -> Result<(), Stop> {
    let words = words_of(rt.alloc(), words)?;
    let mut source = SourceOf::new(input.as_bytes());
    let mut sink = SinkOf::new(io::writer(rt));
    run(rt.alloc(), &words, &mut source, &mut sink)?;
    Ok(())
}

fn words_of(alloc: Global, words: &[&str]) -> Result<Vec<String>, Stop> {
    let mut all = Vec::new(alloc);
    for word in words {
        all.push(String::from_str(alloc, *word)?)?;
    }
    Ok(all)
}

const DECIMALS: &str = r#"{"minimum":-0.25,"enum":[1.5,1e300,0.1],"title":"decimals"}"#;

/// Writes a schema with decimals, whose texts take memory.
pub(crate) fn make_text<R: Alloc<A = Global> + Print>(rt: &R) -> Result<(), Stop> {
    show(rt, &again(|| decimals(rt.alloc()))?)
}

fn decimals(alloc: Global) -> Result<Schema, Stop> {
    match Value::from_str(alloc, DECIMALS)? {
        Value::Object(members) => Ok(Schema::from(members)),
        _ => Err(Stop::Refused),
    }
}
