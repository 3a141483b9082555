//! The judgement of a text.
ghost use Rattle.std.specs.Prelude.{◌≡◌, ◌≢◌, ◌↔◌, ◌++◌, IfOk, IsTrue, string_bytes};
ghost use Rattle.schemalint_run.specs.Words.{Text, IsAccepted, IsAcceptedText, AreLines, IsPlainText, IsTextPlainUnder, Judges, IsVerdictOf, is_under, verdict_for, verdict_line, verdict_words};
ghost use Rattle.schemars_types.specs.declared.contract.Contract.{Contract as Which};

use crate::as_text::add_lines;
use crate::faults::{add_refusal, add_row_fault};
use crate::findings::Finding;
use crate::members::add_repeated_members;
use crate::reasons::add_reasons;
use crate::warnings::add_warnings;
use json::Scratch;
use schemagen_input::{TextError, read_table};
use schemagen_json::BorrowedValue;
use schemars_plain::{is_plain, is_plain_under};
use schemars_types::{Contract, Types, TypesError};
use std::alloc::{AllocError, Global};

/// What a table is.
#[derive(Clone, Copy, Debug, PartialEq, Eq)]
pub enum Verdict {
    /// No table, or one with a fault: `schemagen types` refuses it.
    Refused,
    /// A table without faults. What its documents mean is not promised.
    NotPlain,
    /// A table without faults that is plain under reading: in 2020-12 and 2019-09 the documents for
    /// values that are read are promised to accept exactly the values of the types.
    PlainUnderReading,
    /// The same of the documents for values that are written.
    PlainUnderWriting,
    /// The same of both.
    PlainUnderBoth,
    /// A table without faults that is plain: the documents of its types are promised to accept
    /// exactly the values of the types.
    Plain,
}

impl Verdict {
    /// The last line of a report, without its newline.
    pub fn words(self) -> &'static str
        ensures { result.now ≡ verdict_words self }
    {
        match self {
            Verdict::Refused => "refused",
            Verdict::NotPlain => "not plain",
            Verdict::PlainUnderReading => "plain under reading",
            Verdict::PlainUnderWriting => "plain under writing",
            Verdict::PlainUnderBoth => "plain under reading and writing",
            Verdict::Plain => "plain",
        }
    }
}

/// What is to be said of a table.
#[derive(Drop)]
pub struct Report {
    /// Its fault, or each warning and why it is not plain.
    pub findings: Vec<Finding>,
    /// A line for each finding, and then a line for the verdict.
    pub text: String,
    pub verdict: Verdict,
}

/// Judges the text of a table.
///
/// # Errors
///
/// Only where memory runs out.
pub fn lint(alloc: Global, bytes: &[u8]) -> Result<Report, AllocError>
    ensures fault { IfOk result (λ r. (r.verdict ≢ Verdict.Refused) ↔ IsAcceptedText bytes.now) }
    ensures plain { IfOk result (λ r. (r.verdict ≡ Verdict.Plain) ↔ IsPlainText bytes.now) }
    ensures under { IfOk result (λ r. (contract : Which)
        → IsTrue (is_under contract r.verdict) ↔ IsTextPlainUnder contract bytes.now) }
    ensures text { IfOk result (λ r. (lines : Text) × AreLines lines
        × (string_bytes r.text ≡ lines ++ verdict_line r.verdict)) }
{
    let mut findings = Vec::new(alloc);
    let verdict = judge(alloc, bytes, &mut findings)?;
    let text = text_of(alloc, &findings, verdict)?;
    Ok(Report {
        findings,
        text,
        verdict,
    })
}

// The lines of the findings, and that of the verdict.
fn text_of(alloc: Global, findings: &[Finding], verdict: Verdict) -> Result<String, AllocError>
    ensures { IfOk result (λ s. (lines : Text) × AreLines lines
        × (string_bytes s ≡ lines ++ verdict_line verdict)) }
{
    let mut lines = String::new(alloc);
    add_lines(alloc, findings, &mut lines)?;
    let lines = ended(lines)?;
    with_verdict(lines, verdict)
}

// The lines, with a newline behind the last one, so that the verdict begins a line.
fn ended(lines: String) -> Result<String, AllocError>
    ensures { IfOk result (λ s. AreLines (string_bytes s)) }
{
    if lines.is_empty() {
        return Ok(lines);
    }
    if lines.as_bytes().ends_with(b"\n") {
        return Ok(lines);
    }
    let mut text = lines;
    text.push('\n')?;
    Ok(text)
}

// Adds the line of the verdict.
fn with_verdict(lines: String, verdict: Verdict) -> Result<String, AllocError>
    ensures { IfOk result (λ s. string_bytes s ≡ string_bytes lines ++ verdict_line verdict) }
{
    let mut text = lines;
    text.push_str(verdict.words())?;
    text.push('\n')?;
    Ok(text)
}

// Judges a text, and adds what is found.
fn judge(alloc: Global, bytes: &[u8], findings: &mut Vec<Finding>) -> Result<Verdict, AllocError>
    ensures { IfOk result (λ v. Judges v bytes.now) }
{
    let (types, root) = match read_table(alloc, bytes) {
        Ok(table) => table,
        Err(TextError::OutOfMemory) => return Err(AllocError),
        Err(TextError::NotJson | TextError::BadTable) => {
            add_refusal(alloc, bytes, findings)?;
            return Ok(Verdict::Refused);
        }
    };
    if !is_accepted(alloc, &types, findings)? {
        return Ok(Verdict::Refused);
    }
    add_repeated(alloc, bytes, findings)?;
    add_warnings(alloc, &types, root, findings)?;
    let verdict = verdict_of(alloc, &types)?;
    if verdict != Verdict::Plain {
        add_reasons(alloc, &types, findings)?;
    }
    Ok(verdict)
}

// What a table without faults is.
fn verdict_of(alloc: Global, types: &Types) -> Result<Verdict, AllocError>
    ensures { IfOk result (λ v. IsVerdictOf v types.now) }
{
    if is_plain(alloc, types)? {
        return Ok(Verdict::Plain);
    }
    let reading = is_plain_under(alloc, Contract::Deserialize, types)?;
    let writing = is_plain_under(alloc, Contract::Serialize, types)?;
    Ok(verdict_for(reading, writing))
}

// What a table that is not plain is.
fn verdict_for(reading: bool, writing: bool) -> Verdict
    ensures { result ≡ verdict_for reading writing }
{
    match (reading, writing) {
        (true, true) => Verdict::PlainUnderBoth,
        (true, false) => Verdict::PlainUnderReading,
        (false, true) => Verdict::PlainUnderWriting,
        (false, false) => Verdict::NotPlain,
    }
}

// Adds the members that are there twice.
fn add_repeated(
    alloc: Global,
    bytes: &[u8],
    findings: &mut Vec<Finding>,
) -> Result<(), AllocError> {
    let Ok(text) = std::str::from_utf8(bytes) else {
        return Ok(());
    };
    let mut scratch = Scratch::new(alloc);
    match BorrowedValue::from_str(alloc, text, &mut scratch) {
        Ok(value) => add_repeated_members(alloc, "", &value, findings),
        Err(_) => Err(AllocError),
    }
}

// Whether the table has no fault; the first fault is added.
fn is_accepted(
    alloc: Global,
    types: &Types,
    findings: &mut Vec<Finding>,
) -> Result<bool, AllocError>
    ensures { IfOk result (λ b. IsTrue b ↔ IsAccepted types.now) }
{
    match types.check(alloc) {
        Ok(()) => Ok(true),
        Err(TypesError::OutOfMemory) => Err(AllocError),
        Err(error) => {
            add_row_fault(alloc, findings, types, &error)?;
            Ok(false)
        }
    }
}
