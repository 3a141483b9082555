//! A report as lines.
use crate::findings::Finding;
use std::alloc::{AllocError, Global};

/// Adds a line for each finding.
pub fn add_lines(
    alloc: Global,
    findings: &[Finding],
    lines: &mut String,
) -> Result<(), AllocError> {
    for finding in findings {
        let line = line_of(alloc, finding)?;
        lines.push_str(line.as_str())?;
    }
    Ok(())
}

fn line_of(alloc: Global, finding: &Finding) -> Result<String, AllocError> {
    let word = finding.kind.severity().word();
    let place = finding.place.as_str();
    let sentence = finding.sentence.as_str();
    match &finding.id {
        Some(id) => format!(in alloc; "{word}: {place} ({id:?}): {sentence}\n"),
        None if place.is_empty() => format!(in alloc; "{word}: {sentence}\n"),
        None => format!(in alloc; "{word}: {place}: {sentence}\n"),
    }
}
