//! Cases, and how many of them are wrong.
use crate::{calls, lint, runs, steps, types};
use std::alloc::{AllocError, Global};
use std::io;
use std::io::Print;

/// Whom a case asks.
#[derive(Clone, Copy)]
pub enum Asked {
    /// The program, which is run over memory.
    Program,
    /// A call of the libraries.
    Libraries,
    /// The linter.
    Linter,
    /// A type, of what it says of itself.
    Type,
    /// A table, by calls in turn.
    Table,
    /// A generator, by calls in turn.
    Generator,
    /// The rows of a table, of values in turn.
    Meaning,
}

// A case, as one line has it: the name, the words, the input and the wanted answer.
type Case<'t> = (&'t str, &'t str, &'t str, &'t str);

// A case of the linter has no words, and the answer is all that stands behind the table.
fn lint_case_in<'t>(line: &'t str) -> Option<Case<'t>> {
    let (name, rest) = line.split_once('\t')?;
    let (table, wanted) = rest.split_once('\t')?;
    Some((name, "", table, wanted))
}

// A case of a type has its name as the input, and the answer is all that stands behind it.
fn type_case_in<'t>(line: &'t str) -> Option<Case<'t>> {
    let (of, wanted) = line.split_once('\t')?;
    Some((of, "", of, wanted))
}

fn case_in<'t>(alloc: Global, asked: Asked, line: &'t str) -> Result<Option<Case<'t>>, AllocError> {
    match asked {
        Asked::Linter => return Ok(lint_case_in(line)),
        Asked::Type => return Ok(type_case_in(line)),
        _ => {}
    }
    let parts: Vec<&str> = line.split('\t').collect(alloc)?;
    match parts.as_slice() {
        [name, words, input, wanted] => Ok(Some((*name, *words, *input, *wanted))),
        _ => Ok(None),
    }
}

fn answer(alloc: Global, asked: Asked, words: &str, input: &str) -> Result<String, AllocError> {
    match asked {
        Asked::Program => runs::answer(alloc, words, input),
        Asked::Linter => lint::answer(alloc, input),
        Asked::Type => types::answer(alloc, input),
        _ => calls::answer(alloc, words, input),
    }
}

// What is wrong with the case of this line.
fn fault_in(alloc: Global, asked: Asked, line: &str) -> Result<Option<String>, AllocError> {
    match asked {
        Asked::Table | Asked::Generator | Asked::Meaning => steps::fault_in(alloc, asked, line),
        _ => fault_in_answer(alloc, asked, line),
    }
}

fn fault_in_answer(alloc: Global, asked: Asked, line: &str) -> Result<Option<String>, AllocError> {
    let Some((name, words, input, wanted)) = case_in(alloc, asked, line)? else {
        return Ok(Some(format!(in alloc; "no case: {line}")?));
    };
    let answer = answer(alloc, asked, words, input)?;
    if answer.as_str() == wanted {
        return Ok(None);
    }
    Ok(Some(format!(in alloc; "{name}: wanted {wanted}, and came {answer}")?))
}

/// Works the cases, one a line, prints each that is wrong, and tells how many there were, and how
/// many of them wrong.
pub fn work_cases<R: AllocGlobal + Print>(
    rt: &R,
    asked: Asked,
    text: &str,
) -> io::Result<(u64, u64)> {
    let mut cases: u64 = 0;
    let mut wrong: u64 = 0;
    for line in text.lines() {
        cases = cases.saturating_add(1);
        if let Some(fault) = fault_in(rt.alloc(), asked, line)? {
            wrong = wrong.saturating_add(1);
            println!(rt; "{fault}")?;
        }
    }
    Ok((cases, wrong))
}
