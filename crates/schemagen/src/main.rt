//! Reads a table of types from standard input, and writes the JSON Schema of its root.
#![tactic(auto)]

use schemagen_run::fault::{Fault, OUT_OF_MEMORY};
use schemagen_run::output::Output;
use schemagen_run::run::run;
use schemagen_run::streams::{SinkOf, SourceOf};
use std::alloc::{Alloc, Global};
use std::env::Env;
use std::io::{ErrorKind, Input, Print};
use std::mem::ManuallyDrop;
use std::process::ExitCode;
use std::{env, io};

fn main(rt: HostRuntime) -> ExitCode {
    match run_program(&rt) {
        Ok(output) => {
            leave(output);
            ExitCode::from(0)
        }
        Err(fault) => {
            let _ = eprintln!(rt; "{fault}");
            ExitCode::from(fault.status())
        }
    }
}

fn run_program<R: Env + Alloc<A = Global> + Input + Print>(rt: &R) -> Result<Output, Fault> {
    let words = words_of(rt)?;
    let mut source = SourceOf::new(rt.reader());
    let mut sink = SinkOf::new(io::writer(rt));
    run(rt.alloc(), &words, &mut source, &mut sink)
}

// Leaves an output where it is. The program ends, and the pages of its memory are then given back at
// once: that is much faster than each part by itself.
fn leave(output: Output) {
    let _kept = ManuallyDrop::new(output);
}

// The arguments after the program's name. An argument that is not UTF-8 is not a known word.
fn words_of<R: Env + Alloc<A = Global>>(rt: &R) -> Result<Vec<String>, Fault> {
    match env::args(rt) {
        Ok(args) => Ok(args.skip(1).collect(rt.alloc())?),
        Err(error) if error.kind() == ErrorKind::OutOfMemory => Err(Fault::Refused(OUT_OF_MEMORY)),
        Err(_) => Err(Fault::Usage),
    }
}
