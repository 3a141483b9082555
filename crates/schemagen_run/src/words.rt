//! What the words of a run ask for.
ghost use Rattle.std.specs.Prelude.{◌≡◌, ◌↔◌, IsTrue, MatchOption, bytes_eq, codes, [], ◌∷◌};
ghost use Rattle.schemagen_run.specs.CommandLine.{AskFor, AskForTypes, AskForExample, AskForSample, AreCommands, Asks, word_for, IsDialect, IsAskedBy, IsKnown};

use schemars::Contract;

/// A dialect of JSON Schema.
#[derive(Clone, Copy)]
pub(crate) enum Dialect {
    /// Draft 2020-12
    Draft2020_12,
    /// Draft 2019-09
    Draft2019_09,
    /// Draft 7
    Draft07,
    /// the schema objects of OpenAPI 3.0
    OpenApi3,
}

/// What the words ask for.
#[derive(Clone, Copy)]
pub(crate) enum Command {
    /// the document of a table's root, or its definitions
    Types(Asked),
    /// the document of an example, in this dialect
    Sample(Dialect),
}

/// How the document of a table's root is to be.
#[derive(Clone, Copy)]
pub(crate) struct Asked {
    pub(crate) dialect: Dialect,
    pub(crate) contract: Contract,
    pub(crate) inlines: bool,
}

// The dialect that a word names.
fn dialect_of(word: &str) -> Option<Dialect>
    ensures { MatchOption result (¬ (IsDialect word.now)) (λ dialect. word.now ≡ word_for dialect) }
{
    if word == "2020-12" {
        return Some(Dialect::Draft2020_12);
    }
    if word == "2019-09" {
        return Some(Dialect::Draft2019_09);
    }
    if word == "draft-07" {
        return Some(Dialect::Draft07);
    }
    if word == "openapi3" {
        return Some(Dialect::OpenApi3);
    }
    None
}

// What the words ask for.
pub(crate) fn command_in(words: &[String]) -> Option<Command>
    ensures { MatchOption result (¬ (AreCommands words.now)) (Asks words.now) }
{
    match asked_in(words) {
        Some(asked) => Some(Command::Types(asked)),
        None => match example_in(words) {
            Some(dialect) => Some(Command::Sample(dialect)),
            None => None,
        },
    }
}

// The dialect in which the document of an example is asked for.
fn example_in(words: &[String]) -> Option<Dialect>
    ensures { MatchOption result (¬ (AskForSample words.now)) (AskForExample words.now) }
{
    match words {
        [command, dialect] if command.as_str() == "sample" => dialect_of(dialect.as_str()),
        _ => None,
    }
}

// How the document of a table's root is asked for.
fn asked_in(words: &[String]) -> Option<Asked>
    ensures { MatchOption result (¬ (AskForTypes words.now)) (λ asked. AskFor words.now asked) }
{
    match words {
        [command, dialect] if command.as_str() == "types" => asked_plainly(dialect.as_str()),
        [command, dialect, flag] if command.as_str() == "types" => {
            asked_by_one(dialect.as_str(), flag.as_str())
        }
        [command, dialect, first, second] if command.as_str() == "types" => {
            asked_by_two(dialect.as_str(), first.as_str(), second.as_str())
        }
        _ => None,
    }
}

// What a dialect asks for without flags.
fn asked_plainly(dialect: &str) -> Option<Asked>
    ensures { MatchOption result (¬ (IsKnown dialect.now [])) (IsAskedBy dialect.now []) }
{
    let dialect = dialect_of(dialect)?;
    Some(Asked {
        dialect,
        contract: Contract::Deserialize,
        inlines: false,
    })
}

// What one flag asks for.
fn asked_by_one(dialect: &str, flag: &str) -> Option<Asked>
    ensures { MatchOption result (¬ (IsKnown dialect.now (flag.now
        ∷ []))) (IsAskedBy dialect.now (flag.now ∷ [])) }
{
    let dialect = dialect_of(dialect)?;
    if flag == "--serialize" {
        return Some(Asked {
            dialect,
            contract: Contract::Serialize,
            inlines: false,
        });
    }
    if flag == "--inline" {
        return Some(Asked {
            dialect,
            contract: Contract::Deserialize,
            inlines: true,
        });
    }
    None
}

// What two flags ask for, which may be in either order.
fn asked_by_two(dialect: &str, first: &str, second: &str) -> Option<Asked>
    ensures { MatchOption result (¬ (IsKnown dialect.now (first.now ∷ second.now ∷ [])))
        (IsAskedBy dialect.now (first.now ∷ second.now ∷ [])) }
{
    let dialect = dialect_of(dialect)?;
    let inline_first = first == "--inline" && second == "--serialize";
    let inline_last = first == "--serialize" && second == "--inline";
    if inline_first || inline_last {
        return Some(Asked {
            dialect,
            contract: Contract::Serialize,
            inlines: true,
        });
    }
    None
}
