//! What the words of a run ask for.
use schemaderive_options::Contract;
use std::alloc::{AllocError, Global};

/// How the program is called.
pub const USAGE: &str =
    "usage: schemaderive --table ROOT|--impls MODULE [--deserialize|--serialize] [--cfg CONDITION].. [FILE]";

/// What the program says of itself.
pub const HELP: &str =
    "usage: schemaderive --table ROOT|--impls MODULE [--deserialize|--serialize] [--cfg CONDITION].. [FILE]

Reads the structs and enums of a Rust or Rattle source, from FILE or standard input,
that derive JsonSchema.

--table ROOT writes the table of the types that ROOT leads to:

    schemaderive --table Config < src/config.rs | schemagen types 2020-12

ROOT is a type as a field of the source may have it, such as Config or
Vec<config::Config>.

--impls MODULE writes a file of Rattle with an implementation of JsonSchema for each of
the types. MODULE is the path of the source in its crate:

    schemaderive --impls crate::data src/data.rt > src/schemas.rt

With --deserialize it is for the values that are read, and with --serialize for those
that are written; without, for both.

--cfg says which conditions of compilation hold, as --cfg unix --cfg 'feature=\"x\"'. Where
there is one, those that are not given do not hold; without, conditions are refused.

What can't be said is refused with its line and column, and what is
only left out is a warning. schemaderive(1) lists the attributes.
";

/// The version of the program.
pub const VERSION: &str = "schemaderive 1.0";

/// What the words of a run ask for.
#[derive(Drop)]
pub enum Command {
    /// what is made of a source
    Derive(Asked),
    /// what the program says of itself
    Help,
    /// the version
    Version,
    /// nothing that the program knows
    Unknown,
}

/// What is made of a source.
#[derive(Drop)]
pub enum Wanted {
    /// the table of the types to which this one leads
    Table(String),
    /// implementations for the types of the source, which is this module
    Implementations(String),
}

/// What is asked for.
#[derive(Drop)]
pub struct Asked {
    /// what is made
    pub wanted: Wanted,
    /// which values it is for
    pub contract: Contract,
    /// the conditions that hold; where there are none, nothing is known of any
    pub given: Vec<String>,
    /// the file of the source; none for standard input
    pub file: Option<String>,
}

// What the next word is.
#[derive(Clone, Copy, PartialEq, Eq)]
enum Next {
    Any,
    Root,
    Module,
    Condition,
}

/// What the words after the program's name ask for.
pub fn command_of(alloc: Global, words: &[String]) -> Result<Command, AllocError> {
    let mut wanted = None;
    let mut contract = Contract::Both;
    let mut file = None;
    let mut given = Vec::new(alloc);
    let mut next = Next::Any;
    for word in words {
        let word = word.as_str();
        let kind = next;
        next = Next::Any;
        match kind {
            Next::Root => wanted = Some(Wanted::Table(String::from_str(alloc, word)?)),
            Next::Module => {
                wanted = Some(Wanted::Implementations(String::from_str(alloc, word)?));
            }
            Next::Condition => given.push(String::from_str(alloc, word)?)?,
            Next::Any => {}
        }
        if kind != Next::Any {
            continue;
        }
        match word {
            "--help" => return Ok(Command::Help),
            "--version" => return Ok(Command::Version),
            "--table" if wanted.is_none() => next = Next::Root,
            "--impls" if wanted.is_none() => next = Next::Module,
            "--cfg" => next = Next::Condition,
            "--deserialize" if contract == Contract::Both => contract = Contract::Deserialize,
            "--serialize" if contract == Contract::Both => contract = Contract::Serialize,
            name if name.starts_with("--") || file.is_some() => return Ok(Command::Unknown),
            name => file = Some(String::from_str(alloc, name)?),
        }
    }
    match wanted {
        _ if next != Next::Any => Ok(Command::Unknown),
        Some(wanted) => Ok(Command::Derive(Asked {
            wanted,
            contract,
            given,
            file,
        })),
        None => Ok(Command::Unknown),
    }
}
