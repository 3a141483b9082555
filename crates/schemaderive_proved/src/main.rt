//! Declarations with parameters, of types that contain themselves or each other, and of many parts,
//! whose implementations of `JsonSchema` are generated and proved without a proof file. The program
//! prints the documents, one a line.
#![tactic(auto)]

mod generics;
mod generics_schemas;
mod many;
mod many_schemas;

use schemars::{GenerateError, JsonSchema, schema_for};
use std::alloc::{Alloc, AllocError, Global};
use std::io;
use std::io::Print;
use std::process::ExitCode;
use thiserror::Error;

/// Why the program stops early.
#[derive(Debug, Drop, Error)]
enum Fault {
    /// No schema is made.
    #[error("{0}")]
    Generate(#[from] GenerateError),
    /// Standard output failed.
    #[error("{0}")]
    Io(#[from] io::Error),
    /// Out of memory.
    #[error("{0}")]
    Memory(#[from(alloc)] AllocError),
}

fn main(rt: HostRuntime) -> ExitCode {
    match print_all(&rt) {
        Ok(()) => ExitCode::from(0),
        Err(fault) => {
            let _ = eprintln!(rt; "schemaderive_proved: {fault}");
            ExitCode::from(1)
        }
    }
}

fn print_all<R: Alloc<A = Global> + Print>(rt: &R) -> Result<(), Fault> {
    print::<generics::All, R>(rt)?;
    print::<many::All, R>(rt)
}

// Prints the document of a type.
fn print<T: JsonSchema, R: Alloc<A = Global> + Print>(rt: &R) -> Result<(), Fault> {
    let schema = schema_for!(in rt.alloc(); T)?;
    let text = schema.to_ordered_string(rt.alloc())?;
    println!(rt; "{text}")?;
    Ok(())
}
