//! Tells of tables of types which fault they have, what is seldom meant, and whether they are plain.
#![tactic(auto)]

mod words;

use crate::words::{Asked, Words, words_of};
use schemalint_run::{Report, VERSION, Verdict, lint};
use std::alloc::{Alloc, Global};
use std::env::Env;
use std::io::{Eprint, Input, Print, Read};
use std::process::ExitCode;
use std::rt::Files;
use std::{fs, io};

const HELP: &str = "\
usage: schemalint [--json] [--strict] [FILE..]

Reports whether tables of types have a fault, what is seldom meant, and whether they are plain.
A table is read from each file, and from standard input for `-` or without a file.

  --json     writes a report as an object of JSON on a line
  --strict   the status is 1 unless each table is plain
  --help     writes this text
  --version  writes the version
";

// Why there is no report on a table.
enum Stop {
    Usage(String),
    Failed(io::Error),
}

impl From<io::Error> for Stop {
    fn from(error: io::Error) -> Stop {
        Stop::Failed(error)
    }
}

fn main(rt: HostRuntime) -> ExitCode {
    match run_program(&rt) {
        Ok(code) => ExitCode::from(code),
        Err(Stop::Usage(word)) => {
            let word = word.as_str();
            let _ = eprintln!(rt; "schemalint: {word} is no option; --help tells which there are");
            ExitCode::from(2)
        }
        Err(Stop::Failed(error)) => {
            let _ = eprintln!(rt; "schemalint: {error}");
            ExitCode::from(1)
        }
    }
}

// Does what the words ask for, and returns the status.
fn run_program<R: Env + Alloc<A = Global> + Files + Input + Print + Eprint>(
    rt: &R,
) -> Result<u8, Stop> {
    match words_of(rt)? {
        Asked::Help => {
            print!(rt; "{HELP}")?;
            Ok(0)
        }
        Asked::Version => {
            println!(rt; "schemalint {VERSION}")?;
            Ok(0)
        }
        Asked::Unknown(word) => Err(Stop::Usage(word)),
        Asked::Tables(words) => lint_all(rt, &words),
    }
}

fn lint_all<R: Alloc<A = Global> + Files + Input + Print + Eprint>(
    rt: &R,
    words: &Words,
) -> Result<u8, Stop> {
    let mut status = 0;
    let one = words.files.len() == 1;
    for file in &words.files {
        let found = lint_file(rt, words, file.as_str(), one)?;
        if found > status {
            status = found;
        }
    }
    Ok(status)
}

// Reports on the table of a file. A file that cannot be read is named, and the others are read.
fn lint_file<R: Alloc<A = Global> + Files + Input + Print + Eprint>(
    rt: &R,
    words: &Words,
    file: &str,
    one: bool,
) -> Result<u8, Stop> {
    let bytes = match read(rt, file) {
        Ok(bytes) => bytes,
        Err(error) => {
            let _ = eprintln!(rt; "schemalint: {file}: {error}");
            return Ok(1);
        }
    };
    let report = match lint(rt.alloc(), &bytes) {
        Ok(report) => report,
        Err(error) => return Err(Stop::Failed(error.into())),
    };
    print_report(rt, words, file, one, &report)?;
    Ok(status(words, report.verdict))
}

fn print_report<R: Alloc<A = Global> + Print>(
    rt: &R,
    words: &Words,
    file: &str,
    one: bool,
    report: &Report,
) -> Result<(), Stop> {
    if words.json {
        let text = match report.to_json(rt.alloc(), file) {
            Ok(text) => text,
            Err(error) => return Err(Stop::Failed(error.into())),
        };
        let text = text.as_str();
        println!(rt; "{text}")?;
        return Ok(());
    }
    if one {
        let text = report.text.as_str();
        print!(rt; "{text}")?;
        return Ok(());
    }
    for line in report.text.as_str().lines() {
        println!(rt; "{file}: {line}")?;
    }
    Ok(())
}

fn status(words: &Words, verdict: Verdict) -> u8 {
    match verdict {
        Verdict::Refused => 1,
        Verdict::Plain => 0,
        Verdict::NotPlain => words.strict as u8,
        Verdict::PlainUnderReading | Verdict::PlainUnderWriting | Verdict::PlainUnderBoth => {
            words.strict as u8
        }
    }
}

// The bytes of a file, or of standard input for `-`.
fn read<R: Alloc<A = Global> + Files + Input>(rt: &R, file: &str) -> io::Result<Vec<u8>> {
    if file != "-" {
        return fs::read(rt, file);
    }
    let mut bytes = Vec::new(rt.alloc());
    rt.reader().read_to_end(&mut bytes)?;
    Ok(bytes)
}
