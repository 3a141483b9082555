//! The words behind the program's name.
use schemars_types::Contract;
use schemars_validator::Draft;
use std::alloc::{Alloc, AllocError, Global};
use std::env::Env;
use std::{env, io};

/// What the words ask for.
#[derive(Drop)]
pub enum Asked {
    Help,
    Version,
    /// The words are not as they should be, and why.
    Wrong(String),
    Values(Words),
}

/// What judges the values.
#[derive(Clone, Copy, Debug, PartialEq, Eq)]
pub enum Judge {
    /// The document of a dialect that a file has.
    Schema(Draft),
    /// The root of the table that a file has, for the values of a contract.
    Table(Contract),
}

/// By what to judge which values.
#[derive(Drop)]
pub struct Words {
    pub json: bool,
    pub judge: Judge,
    /// The file of the document or the table.
    pub source: String,
    /// `-` is standard input.
    pub files: Vec<String>,
}

// The options that were read so far.
#[derive(Clone, Copy)]
struct Options {
    json: bool,
    table: bool,
    contract: Contract,
}

/// Reads the words. Behind `--` none is an option.
pub fn words_of<R: Env + Alloc<A = Global>>(rt: &R) -> io::Result<Asked> {
    let alloc = rt.alloc();
    let mut options = Options {
        json: false,
        table: false,
        contract: Contract::Deserialize,
    };
    let mut others = Vec::new(alloc);
    let mut others_alone = false;
    for word in env::args(rt)?.skip(1) {
        if others_alone || !word.as_str().starts_with("-") || word.as_str() == "-" {
            others.push(word)?;
            continue;
        }
        match word.as_str() {
            "--" => others_alone = true,
            "--json" => options.json = true,
            "--table" => options.table = true,
            "--serialize" => options.contract = Contract::Serialize,
            "--help" | "-h" => return Ok(Asked::Help),
            "--version" | "-V" => return Ok(Asked::Version),
            option => return Ok(wrong(alloc, option, "is no option")?),
        }
    }
    Ok(values_asked(alloc, options, others)?)
}

// What is asked for by the words that are no options.
fn values_asked(alloc: Global, options: Options, words: Vec<String>) -> Result<Asked, AllocError> {
    let mut words = words.into_iter();
    let judge = if options.table {
        Judge::Table(options.contract)
    } else {
        let Some(dialect) = words.next() else {
            return wrong(alloc, "DIALECT", "is missing");
        };
        let Some(draft) = Draft::named(dialect.as_str()) else {
            return wrong(alloc, dialect.as_str(), "is no dialect");
        };
        Judge::Schema(draft)
    };
    let Some(source) = words.next() else {
        let missing = if options.table { "TABLE" } else { "SCHEMA" };
        return wrong(alloc, missing, "is missing");
    };
    let mut files = Vec::new(alloc);
    for word in words {
        files.push(word)?;
    }
    if files.is_empty() {
        files.push(String::from_str(alloc, "-")?)?;
    }
    Ok(Asked::Values(Words {
        json: options.json,
        judge,
        source,
        files,
    }))
}

fn wrong(alloc: Global, word: &str, fault: &str) -> Result<Asked, AllocError> {
    Ok(Asked::Wrong(format!(in alloc; "{word} {fault}")?))
}
