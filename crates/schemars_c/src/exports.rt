//! What C calls for documents.
ghost use Rattle.std.specs.Prelude.{◌≡◌, ◌⊎◌, ◌<◌, IfOk, IfErr, OnOk};
ghost use Rattle.schemars_c.specs.Vocabulary.{IsAcceptedText, IsNotedText, IsSampleText, table_words, example_words, IsProgramLine, HandsOut, TellsOfTable, TellsOfExample, IsHandedOut, WantsMemory, IsTypesRefusal, IsSampleRefusal, fault_number};

use crate::handing::{USAGE, hand_out};
use crate::memory::answer;
use crate::words::{example_words, table_words};
use schemagen_run::fault::{DEFINITIONS_PATH, Fault};
use std::alloc::Global;

/// The document of a table's root, or, for OpenAPI, its definitions: what `schemagen types` writes.
///
/// Dialects are 0 for 2020-12, 1 for 2019-09, 2 for Draft 7 and 3 for OpenAPI. Flags are 1 for rows in
/// place and 2 for the values that are written. The answer is `DONE` where the text is in the buffer,
/// and otherwise why it is not.
#[unsafe(no_mangle)]
pub extern "C" fn schemars_types(
    alloc: Global,
    dialect: u32,
    flags: u32,
    table: &[u8],
    out: &mut [u8],
    needed: &mut usize,
) -> u32
    ensures handed { HandsOut (IsProgramLine (table_words dialect flags) table.now) IsTypesRefusal
        result needed.new out.old out.new }
    ensures told { TellsOfTable dialect flags table.now result }
    ensures accepted { dialect < 4 → flags < 4 → IsAcceptedText table.now
        → IsHandedOut result ⊎ WantsMemory result ⊎ (result ≡ DEFINITIONS_PATH) }
    ensures noted { dialect < 4 → flags < 4 → IsNotedText table.now
        → IsHandedOut result ⊎ WantsMemory result }
{
    match table_line(alloc, dialect, flags, table) {
        Ok(line) => hand_out(&line, out, needed),
        Err(number) => {
            *needed = 0;
            number
        }
    }
}

/// The document of a schema that is made from an example: what `schemagen sample` writes.
///
/// Dialects are those of `schemars_types`. The answer is `DONE` where the text is in the buffer, and
/// otherwise why it is not.
#[unsafe(no_mangle)]
pub extern "C" fn schemars_sample(
    alloc: Global,
    dialect: u32,
    example: &[u8],
    out: &mut [u8],
    needed: &mut usize,
) -> u32
    ensures handed { HandsOut (IsProgramLine (example_words dialect) example.now) IsSampleRefusal
        result needed.new out.old out.new }
    ensures told { TellsOfExample dialect example.now result }
    ensures whole { dialect < 4 → IsSampleText example.now
        → IsHandedOut result ⊎ WantsMemory result }
{
    match example_line(alloc, dialect, example) {
        Ok(line) => hand_out(&line, out, needed),
        Err(number) => {
            *needed = 0;
            number
        }
    }
}

// The line for a table, or the number of the refusal.
fn table_line(alloc: Global, dialect: u32, flags: u32, table: &[u8]) -> Result<Vec<u8>, u32>
    ensures done { IfOk result
        (λ line. IsProgramLine (table_words dialect flags) table.now line.items) }
    ensures known { OnOk result ((dialect < 4) × (flags < 4)) }
    ensures refused { IfErr result IsTypesRefusal }
    ensures told { IfErr result (TellsOfTable dialect flags table.now) }
    ensures accepted { dialect < 4 → flags < 4 → IsAcceptedText table.now
        → IfErr result (λ n. WantsMemory n ⊎ (n ≡ DEFINITIONS_PATH)) }
    ensures noted { dialect < 4 → flags < 4 → IsNotedText table.now → IfErr result WantsMemory }
{
    match table_words(alloc, dialect, flags) {
        Ok(words) => match answer(alloc, &words, table) {
            Ok(line) => Ok(line),
            Err(fault) => Err(number_of(fault)),
        },
        Err(fault) => Err(number_of(fault)),
    }
}

// The line for an example, or the number of the refusal.
fn example_line(alloc: Global, dialect: u32, example: &[u8]) -> Result<Vec<u8>, u32>
    ensures done { IfOk result
        (λ line. IsProgramLine (example_words dialect) example.now line.items) }
    ensures known { OnOk result (dialect < 4) }
    ensures refused { IfErr result IsSampleRefusal }
    ensures told { IfErr result (TellsOfExample dialect example.now) }
    ensures whole { dialect < 4 → IsSampleText example.now → IfErr result WantsMemory }
{
    match example_words(alloc, dialect) {
        Ok(words) => match answer(alloc, &words, example) {
            Ok(line) => Ok(line),
            Err(fault) => Err(number_of(fault)),
        },
        Err(fault) => Err(number_of(fault)),
    }
}

// The number of a fault.
fn number_of(fault: Fault) -> u32
    ensures { result ≡ fault_number fault }
{
    match fault {
        Fault::Usage => USAGE,
        Fault::Refused(code) => code,
    }
}
