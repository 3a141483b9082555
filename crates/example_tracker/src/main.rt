//! A program that describes its own data and its own configuration.
//!
//! `schema` prints the JSON Schema of an issue tracker's data, and `configuration` that of the
//! tracker's configuration. `read` reads a configuration from standard input, and prints what it has
//! read, or which member is missing or has the wrong type. Several words are done one after another.
//!
//! The types are structs and enums of all forms; some contain themselves, and some have members of
//! others. `schemaderive` wrote their implementations of `JsonSchema`, in `schemas`, from their
//! declarations, and nothing is proved by hand.
#![tactic(auto)]

mod issues;
mod people;
mod reading;
mod refusal;
mod schemas;
mod settings;
mod tracker;
mod values;

use crate::reading::read;
use crate::settings::Configuration;
use crate::tracker::Tracker;
use anyhow::{Result, bail};
use schemars::impls::JsonSchema;
use schemars::schema_for;
use std::alloc::{Alloc, Global};
use std::io::{Input, Print};
use std::{env, io};

fn main(rt: HostRuntime) -> Result<()> {
    let words: Vec<String> = env::args(&rt)?.skip(1).collect(rt.alloc())?;
    if words.is_empty() {
        bail!("usage: tracker schema|configuration|read ..");
    }
    for word in &words {
        answer(&rt, word.as_str())?;
    }
    Ok(())
}

// Does what a word asks for.
fn answer<R: Alloc<A = Global> + Input + Print>(rt: &R, word: &str) -> Result<()> {
    match word {
        "schema" => print_schema::<Tracker, R>(rt),
        "configuration" => print_schema::<Configuration, R>(rt),
        "read" => print_configuration(rt),
        _ => bail!("`{word}` is none of schema, configuration and read"),
    }
}

// Prints the JSON Schema of a type.
fn print_schema<T: JsonSchema, R: Alloc<A = Global> + Print>(rt: &R) -> Result<()> {
    let schema = schema_for!(in rt.alloc(); T)?;
    let text = schema.to_ordered_string(rt.alloc())?;
    println!(rt; "{text}")?;
    Ok(())
}

// Reads a configuration, and prints it.
fn print_configuration<R: Alloc<A = Global> + Input + Print>(rt: &R) -> Result<()> {
    let text = io::read_to_string(rt.alloc(), rt.reader())?;
    let configuration = read(rt.alloc(), text.as_str())?;
    println!(rt; "{configuration:?}")?;
    Ok(())
}
