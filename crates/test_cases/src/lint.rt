//! What the linter reports of a table.
use schemalint_run::lint;
use std::alloc::{AllocError, Global};

/// The lines of the report, with a tab between.
pub fn answer(alloc: Global, input: &str) -> Result<String, AllocError> {
    let report = lint(alloc, input.as_bytes())?;
    let lines = report.text.trim_end_matches('\n');
    lines.replace(alloc, "\n", "\t")
}
