//! Works the cases in the files beside it, and tells how many of each file are wrong.
//!
//! A case is a line, whose parts have a tab between them. One of the program or of a call of the
//! libraries has a name, the words, the input and the answer that is wanted. One of the linter has no
//! words, and a tab before each line of the report. One of a type has the type as it is written, its
//! name, its id, whether its document is written in place, and its root document. One of calls in
//! turn has a name, the settings, a table and steps; a step is a call and its answer, with ` => `
//! between.
//!
//! A wrong case is printed on a line of its own. A further case is a line in a file, and nothing to
//! prove; one of a further type is also a line of a `match`.
#![tactic(auto)]

mod calls;
mod cases;
mod lint;
mod runs;
mod samples;
mod steps;
mod types;

use crate::cases::{Asked, work_cases};
use std::{fs, io};

// The files, and whom their cases ask.
const FILES: [(&str, Asked); 25] = [
    ("tables.tsv", Asked::Program),
    ("examples.tsv", Asked::Program),
    ("rows.tsv", Asked::Program),
    ("structs.tsv", Asked::Program),
    ("enums.tsv", Asked::Program),
    ("adjacent.tsv", Asked::Program),
    ("inline.tsv", Asked::Program),
    ("literals.tsv", Asked::Program),
    ("flattened.tsv", Asked::Program),
    ("unevaluated.tsv", Asked::Program),
    ("corners.tsv", Asked::Program),
    ("upstream.tsv", Asked::Program),
    ("damaged.tsv", Asked::Program),
    ("hostile.tsv", Asked::Program),
    ("samples.tsv", Asked::Program),
    ("dialects.tsv", Asked::Program),
    ("calls.tsv", Asked::Libraries),
    ("transforms.tsv", Asked::Libraries),
    ("kinds.tsv", Asked::Libraries),
    ("lint.tsv", Asked::Linter),
    ("implementations.tsv", Asked::Type),
    ("own.tsv", Asked::Type),
    ("table_calls.tsv", Asked::Table),
    ("generators.tsv", Asked::Generator),
    ("belonging.tsv", Asked::Meaning),
];

fn main(rt: HostRuntime) -> io::Result<()> {
    for (name, asked) in FILES {
        let text = fs::read_to_string(&rt, name)?;
        let (cases, wrong) = work_cases(&rt, asked, text.as_str())?;
        println!(rt; "{name}: {cases} cases, {wrong} wrong")?;
    }
    Ok(())
}
