//! Describes the types of a source by a table, or by implementations of `JsonSchema`.
#![tactic(auto)]

use schemaderive_run::{Command, HELP, Output, USAGE, VERSION, command_of, derived, place_line};
use schemaderive_syntax::{Fault, Refusal};
use std::alloc::{Alloc, AllocError, Global};
use std::env::Env;
use std::io::{Eprint, ErrorKind, Input, Print};
use std::process::ExitCode;
use std::rt::Files;
use std::{env, fs, io};

// Why nothing is written.
enum Stop {
    Usage,
    // in this file, or in standard input
    Refused(Option<String>, Refusal),
    Failed(io::Error),
}

impl From<io::Error> for Stop {
    fn from(error: io::Error) -> Stop {
        Stop::Failed(error)
    }
}

fn main(rt: HostRuntime) -> ExitCode {
    match run_program(&rt) {
        Ok(()) => ExitCode::from(0),
        Err(Stop::Usage) => {
            let _ = eprintln!(rt; "{}", USAGE);
            ExitCode::from(2)
        }
        Err(Stop::Refused(file, refusal)) => {
            if let Ok(line) = place_line(rt.alloc(), &file, "", &refusal) {
                let _ = eprintln!(rt; "{}", line.as_str());
            }
            ExitCode::from(1)
        }
        Err(Stop::Failed(error)) => {
            let _ = eprintln!(rt; "schemaderive: {error}");
            ExitCode::from(1)
        }
    }
}

// Does what the words ask for.
fn run_program<R: Env + Alloc<A = Global> + Files + Input + Print + Eprint>(
    rt: &R,
) -> Result<(), Stop> {
    let words = words_of(rt)?;
    let command = match command_of(rt.alloc(), &words) {
        Ok(command) => command,
        Err(error) => return Err(Stop::Failed(error.into())),
    };
    match command {
        Command::Derive(asked) => {
            let text = source_text(rt, &asked.file)?;
            write_output(rt, derived(rt.alloc(), text.as_str(), &asked), asked.file)
        }
        Command::Help => Ok(print!(rt; "{}", HELP)?),
        Command::Version => Ok(println!(rt; "{}", VERSION)?),
        Command::Unknown => Err(Stop::Usage),
    }
}

// Writes the warnings to standard error, and the rest to standard output.
fn write_output<R: Alloc<A = Global> + Print + Eprint>(
    rt: &R,
    came: Result<Output, Fault>,
    file: Option<String>,
) -> Result<(), Stop> {
    let output = match came {
        Ok(output) => output,
        Err(Fault::Refused(refusal)) => return Err(Stop::Refused(file, refusal)),
        Err(Fault::OutOfMemory) => return Err(Stop::Failed(AllocError.into())),
    };
    for warning in &output.warnings {
        match place_line(rt.alloc(), &file, "warning: ", warning) {
            Ok(line) => eprintln!(rt; "{}", line.as_str())?,
            Err(error) => return Err(Stop::Failed(error.into())),
        }
    }
    Ok(print!(rt; "{}", output.text.as_str())?)
}

// The source in the file that is named, or else in standard input.
fn source_text<R: Alloc<A = Global> + Files + Input>(
    rt: &R,
    file: &Option<String>,
) -> io::Result<String> {
    match file {
        Some(file) => fs::read_to_string(rt, file.as_str()),
        None => io::read_to_string(rt.alloc(), rt.reader()),
    }
}

// The arguments after the program's name. An argument that is not UTF-8 is no known word.
fn words_of<R: Env + Alloc<A = Global>>(rt: &R) -> Result<Vec<String>, Stop> {
    match env::args(rt) {
        Ok(args) => match args.skip(1).collect(rt.alloc()) {
            Ok(words) => Ok(words),
            Err(error) => Err(Stop::Failed(error.into())),
        },
        Err(error) if error.kind() == ErrorKind::OutOfMemory => Err(Stop::Failed(error)),
        Err(_) => Err(Stop::Usage),
    }
}
