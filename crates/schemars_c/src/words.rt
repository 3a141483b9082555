//! The words for numbers.
ghost use Rattle.std.specs.Prelude.{◌≡◌, ◌⊎◌, ◌<◌, ◌≤◌, ◌∷◌, ◌++◌, [], map, string_bytes, IfOk, IfErr, OnOk, MatchOption};
ghost use Rattle.schemars_c.specs.Exports.{dialect_word, flag_words, table_words, example_words};

use schemagen_run::fault::{Fault, OUT_OF_MEMORY};
use std::alloc::{AllocError, Global};

/// Rows are written in place.
const INLINE: u32 = 1;

/// The document is for the values that are written.
const SERIALIZE: u32 = 2;

/// Both.
const INLINE_AND_SERIALIZE: u32 = 3;

// The word for a dialect's number.
fn word_for(dialect: u32) -> Option<&'static str>
    ensures { MatchOption result (4 ≤ dialect)
        (λ w. (dialect < 4) × (w.now ≡ dialect_word dialect)) }
{
    match dialect {
        0 => Some("2020-12"),
        1 => Some("2019-09"),
        2 => Some("draft-07"),
        3 => Some("openapi3"),
        _ => None,
    }
}

// Adds a word.
fn add(alloc: Global, words: &mut Vec<String>, word: &str) -> Result<(), AllocError>
    ensures { OnOk result (map string_bytes words.new.items
        ≡ map string_bytes words.old.items ++ word.now ∷ []) }
{
    words.push(String::from_str(alloc, word)?)?;
    Ok(())
}

// A command and a dialect.
fn command_words(alloc: Global, command: &str, dialect: &str) -> Result<Vec<String>, AllocError>
    ensures { IfOk result (λ w. map string_bytes w.items ≡ command.now ∷ dialect.now ∷ []) }
{
    let mut words = Vec::new(alloc);
    add(alloc, &mut words, command)?;
    add(alloc, &mut words, dialect)?;
    Ok(words)
}

/// The words for the document of an example.
pub(crate) fn example_words(alloc: Global, dialect: u32) -> Result<Vec<String>, Fault>
    ensures words { IfOk result (λ w. map string_bytes w.items ≡ example_words dialect) }
    ensures known { OnOk result (dialect < 4) }
    ensures refused { IfErr result (λ e. ((e ≡ Fault.Usage) × (4 ≤ dialect))
        ⊎ ((e ≡ Fault.Refused OUT_OF_MEMORY) × (dialect < 4))) }
{
    let Some(word) = word_for(dialect) else {
        return Err(Fault::Usage);
    };
    Ok(command_words(alloc, "sample", word)?)
}

/// The words for the document of a table's root.
pub(crate) fn table_words(alloc: Global, dialect: u32, flags: u32) -> Result<Vec<String>, Fault>
    ensures words { IfOk result (λ w. map string_bytes w.items ≡ table_words dialect flags) }
    ensures known { OnOk result ((dialect < 4) × (flags < 4)) }
    ensures refused { IfErr result (λ e. ((e ≡ Fault.Usage) × ((4 ≤ dialect) ⊎ (4 ≤ flags)))
        ⊎ ((e ≡ Fault.Refused OUT_OF_MEMORY) × (dialect < 4) × (flags < 4))) }
{
    let Some(word) = word_for(dialect) else {
        return Err(Fault::Usage);
    };
    if flags > INLINE_AND_SERIALIZE {
        return Err(Fault::Usage);
    }
    let mut words = command_words(alloc, "types", word)?;
    add_flags(alloc, &mut words, flags)?;
    Ok(words)
}

// Adds the words for flags.
fn add_flags(alloc: Global, words: &mut Vec<String>, flags: u32) -> Result<(), AllocError>
    requires { flags < 4 }
    ensures { OnOk result (map string_bytes words.new.items
        ≡ map string_bytes words.old.items ++ flag_words flags) }
{
    match flags {
        INLINE => add(alloc, words, "--inline"),
        SERIALIZE => add(alloc, words, "--serialize"),
        INLINE_AND_SERIALIZE => {
            add(alloc, words, "--inline")?;
            add(alloc, words, "--serialize")
        }
        _ => Ok(()),
    }
}
