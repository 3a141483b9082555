//! Makes calls of the libraries, and makes each call again that has run out of memory.
//!
//! A refused call has to leave the generator and the table as they were, and is then to answer what
//! it would have answered at first. So the program writes the same whichever allocation is refused,
//! and ends with status 1 where a refused call has changed something. `tools/refused` refuses each
//! in turn. A word chooses a group of calls, and a second one a table; without words all are made.
#![tactic(auto)]

mod calls;
mod retry;
mod rows;
mod runs;
mod stop;
mod tables;

use crate::calls::make_calls;
use crate::retry::again;
use crate::rows::{make_registered, make_rows};
use crate::runs::{make_runs, make_sample_runs, make_text};
use crate::stop::Stop;
use crate::tables::TABLES;
use std::alloc::{Alloc, Global};
use std::env;
use std::env::Env;
use std::io::Print;
use std::process::ExitCode;

// The last four take a table.
const GROUPS: [&str; 8] = [
    "rows",
    "registered",
    "text",
    "example",
    "runs",
    "2020-12",
    "draft-07",
    "openapi3",
];

fn main(rt: HostRuntime) -> ExitCode {
    match make_asked(&rt) {
        Ok(()) => ExitCode::from(0),
        Err(stop) => {
            let _ = eprintln!(rt; "{stop:?}");
            ExitCode::from(1)
        }
    }
}

fn make_asked<R: Env + Alloc<A = Global> + Print>(rt: &R) -> Result<(), Stop> {
    let words = again(|| words(rt))?;
    let group = words.get(0).map(|word| word.as_str());
    let table = words.get(1).map(|word| word.as_str());
    for name in GROUPS {
        if is_asked(group, name) {
            make_group(rt, name, table)?;
        }
    }
    Ok(())
}

fn make_group<R: Alloc<A = Global> + Print>(
    rt: &R,
    group: &str,
    table: Option<&str>,
) -> Result<(), Stop> {
    match group {
        "rows" => make_rows(rt),
        "registered" => make_registered(rt),
        "text" => make_text(rt),
        "example" => make_sample_runs(rt),
        _ => make_tables(rt, group, table),
    }
}

// Makes the calls of a group for each table that is asked for.
fn make_tables<R: Alloc<A = Global> + Print>(
    rt: &R,
    group: &str,
    table: Option<&str>,
) -> Result<(), Stop> {
    for (name, text) in TABLES {
        if is_asked(table, name) && group == "runs" {
            make_runs(rt, text)?;
        } else if is_asked(table, name) {
            make_calls(rt, group, text)?;
        }
    }
    Ok(())
}

fn is_asked(word: Option<&str>, name: &str) -> bool {
    match word {
        Some(word) => word == name,
        None => true,
    }
}

// The arguments after the program's name.
fn words<R: Env + Alloc<A = Global>>(rt: &R) -> Result<Vec<String>, Stop> {
    Ok(env::args(rt)?.skip(1).collect(rt.alloc())?)
}
