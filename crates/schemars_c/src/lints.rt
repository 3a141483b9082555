//! What C calls to learn whether a table is plain.
ghost use Rattle.std.specs.Prelude.{◌≡◌, ◌≢◌, ◌⊎◌, ◌↔◌, ℕ, List, IsTrue};
ghost use Rattle.schemars_types.specs.declared.contract.Contract.{Contract as Which};
ghost use Rattle.schemagen_input.specs.Texts.{IsAcceptedText};
ghost use Rattle.schemalint_run.specs.declared.judging.Verdict.{Verdict as Told};
ghost use Rattle.schemars_c.specs.Vocabulary.{IsPlainText, IsTextPlainUnder, is_under, IsReport, Fills, LacksRoom, LeavesAll, verdict_number};

use crate::handing::{DONE, NO_ROOM, hand_out};
use schemagen_run::fault::OUT_OF_MEMORY;
use schemalint_run::{Verdict, lint};
use std::alloc::Global;

/// The table is refused.
pub(crate) const REFUSED: u32 = 0;

/// The table has no fault, and is not plain.
pub(crate) const NOT_PLAIN: u32 = 1;

/// The table has no fault, and is plain.
pub(crate) const PLAIN: u32 = 2;

/// The table has no fault, is not plain, and is plain under reading.
pub(crate) const PLAIN_UNDER_READING: u32 = 3;

/// The table has no fault, is not plain, and is plain under writing.
pub(crate) const PLAIN_UNDER_WRITING: u32 = 4;

/// The table has no fault, is not plain, and is plain under reading and under writing.
pub(crate) const PLAIN_UNDER_BOTH: u32 = 5;

/// What `schemalint` prints on a table, and its verdict.
///
/// The answer is `DONE` where the text is in the buffer, and otherwise why it is not. The verdict does
/// not depend on the room.
#[unsafe(no_mangle)]
pub extern "C" fn schemars_lint(
    alloc: Global,
    table: &[u8],
    verdict: &mut u32,
    out: &mut [u8],
    needed: &mut usize,
) -> u32
    ensures done { result ≡ DONE → (text : List ℕ) × IsReport verdict.new text
        × Fills text needed.new out.old out.new }
    ensures no_room { result ≡ NO_ROOM → (text : List ℕ) × IsReport verdict.new text
        × LacksRoom text needed.new out.old out.new }
    ensures refused { result ≢ DONE → result ≢ NO_ROOM → (result ≡ OUT_OF_MEMORY)
        × (verdict.new ≡ REFUSED) × LeavesAll needed.new out.old out.new }
    ensures accepted { result ≢ OUT_OF_MEMORY
        → (verdict.new ≢ REFUSED) ↔ IsAcceptedText table.now }
    ensures plain { result ≢ OUT_OF_MEMORY → (verdict.new ≡ PLAIN) ↔ IsPlainText table.now }
    ensures under { result ≢ OUT_OF_MEMORY → (told : Told) × (verdict.new ≡ verdict_number told)
        × ((contract : Which) → IsTrue (is_under contract told) ↔ IsTextPlainUnder contract table.now) }
{
    match lint(alloc, table) {
        Ok(report) => {
            *verdict = number_of(report.verdict);
            hand_out(report.text.as_bytes(), out, needed)
        }
        Err(_) => {
            *verdict = REFUSED;
            *needed = 0;
            OUT_OF_MEMORY
        }
    }
}

// The number of a verdict.
fn number_of(verdict: Verdict) -> u32
    ensures { result ≡ verdict_number verdict }
{
    match verdict {
        Verdict::Refused => REFUSED,
        Verdict::NotPlain => NOT_PLAIN,
        Verdict::Plain => PLAIN,
        Verdict::PlainUnderReading => PLAIN_UNDER_READING,
        Verdict::PlainUnderWriting => PLAIN_UNDER_WRITING,
        Verdict::PlainUnderBoth => PLAIN_UNDER_BOTH,
    }
}
