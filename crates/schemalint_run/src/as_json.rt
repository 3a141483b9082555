//! A report as JSON.
use crate::findings::Finding;
use crate::judging::Report;
use serde_json::{Map, Value};
use std::alloc::{AllocError, Global};

impl Report {
    /// The report as an object of JSON, on one line: the file, the verdict, and each finding with
    /// its place, kind, severity and sentence.
    ///
    /// # Errors
    ///
    /// Only where memory runs out.
    pub fn to_json(&self, alloc: Global, file: &str) -> Result<String, AllocError> {
        let mut findings = Vec::with_capacity(alloc, self.findings.len())?;
        for finding in &self.findings {
            findings.push(Value::Object(members_of(alloc, finding)?))?;
        }
        let mut members = Map::new(alloc);
        put_text(alloc, &mut members, "file", file)?;
        put_text(alloc, &mut members, "verdict", self.verdict.words())?;
        put(alloc, &mut members, "findings", Value::Array(findings))?;
        Value::Object(members).to_string(alloc)
    }
}

fn members_of(alloc: Global, finding: &Finding) -> Result<Map<String, Value>, AllocError> {
    let mut members = Map::new(alloc);
    put_text(alloc, &mut members, "place", finding.place.as_str())?;
    if let Some(id) = &finding.id {
        put_text(alloc, &mut members, "id", id.as_str())?;
    }
    put_text(alloc, &mut members, "kind", finding.kind.name())?;
    let severity = finding.kind.severity().word();
    put_text(alloc, &mut members, "severity", severity)?;
    put_text(alloc, &mut members, "sentence", finding.sentence.as_str())?;
    Ok(members)
}

fn put_text(
    alloc: Global,
    members: &mut Map<String, Value>,
    name: &str,
    text: &str,
) -> Result<(), AllocError> {
    let value = Value::String(String::from_str(alloc, text)?);
    put(alloc, members, name, value)
}

fn put(
    alloc: Global,
    members: &mut Map<String, Value>,
    name: &str,
    value: Value,
) -> Result<(), AllocError> {
    drop(members.insert(String::from_str(alloc, name)?, value)?);
    Ok(())
}
