//! The words behind the program's name.
use std::alloc::{Alloc, Global};
use std::env::Env;
use std::{env, io};

/// What the words ask for.
#[derive(Drop)]
pub enum Asked {
    Help,
    Version,
    /// This word is no option.
    Unknown(String),
    Tables(Words),
}

/// How to report on which tables.
#[derive(Drop)]
pub struct Words {
    pub json: bool,
    pub strict: bool,
    /// `-` is standard input.
    pub files: Vec<String>,
}

/// Reads the words. Behind `--` all are files.
pub fn words_of<R: Env + Alloc<A = Global>>(rt: &R) -> io::Result<Asked> {
    let alloc = rt.alloc();
    let mut words = Words {
        json: false,
        strict: false,
        files: Vec::new(alloc),
    };
    let mut files_alone = false;
    for word in env::args(rt)?.skip(1) {
        if files_alone || !word.as_str().starts_with("-") || word.as_str() == "-" {
            words.files.push(word)?;
            continue;
        }
        match word.as_str() {
            "--" => files_alone = true,
            "--json" => words.json = true,
            "--strict" => words.strict = true,
            "--help" | "-h" => return Ok(Asked::Help),
            "--version" | "-V" => return Ok(Asked::Version),
            _ => return Ok(Asked::Unknown(word)),
        }
    }
    if words.files.is_empty() {
        words.files.push(String::from_str(alloc, "-")?)?;
    }
    Ok(Asked::Tables(words))
}
