//! What is said of a value.
use crate::values::Entry;
use schemars_validator::{Failure, Validator, Verdict};
use serde_json::{Map, Value};
use std::alloc::{AllocError, Global};

/// What is said of all values together.
#[derive(Clone, Copy, Debug, PartialEq, Eq)]
pub enum Status {
    AllValid,
    SomeInvalid,
    /// The document, or a file, could not be read.
    Unusable,
}

impl Status {
    pub fn code(self) -> u8 {
        match self {
            Status::AllValid => 0,
            Status::SomeInvalid => 1,
            Status::Unusable => 2,
        }
    }

    /// The worse of two.
    pub fn and(self, other: Status) -> Status {
        if other.code() > self.code() {
            other
        } else {
            self
        }
    }
}

/// What is said of one value.
#[derive(Drop)]
pub struct Report {
    // the file and the line before each line of text
    head: String,
    valid: bool,
    failures: Vec<Failure>,
}

impl Report {
    pub fn of(
        alloc: Global,
        validator: &Validator<'_>,
        file: Option<&str>,
        entry: &Entry<'_>,
    ) -> Result<Report, AllocError> {
        let head = head_of(alloc, file, entry.line)?;
        let (valid, failures) = match &entry.value {
            Ok(value) => judged(alloc, validator, value)?,
            Err(unreadable) => {
                let error = &unreadable.error;
                let error = format!(in alloc; "is no JSON: {error}")?;
                (false, lone(alloc, error)?)
            }
        };
        Ok(Report {
            head,
            valid,
            failures,
        })
    }

    pub fn status(&self) -> Status {
        if self.valid {
            Status::AllValid
        } else {
            Status::SomeInvalid
        }
    }

    /// Lines, or one line of JSON: JSON Schema's basic output (core 2020-12, 12.4.2).
    pub fn text(&self, alloc: Global, json: bool) -> Result<String, AllocError> {
        if json {
            self.as_json(alloc)
        } else {
            self.as_lines(alloc)
        }
    }

    fn as_lines(&self, alloc: Global) -> Result<String, AllocError> {
        let head = self.head.as_str();
        if self.valid {
            return format!(in alloc; "{head}valid\n");
        }
        let mut lines = String::new(alloc);
        for failure in &self.failures {
            let line = line_of(alloc, head, failure)?;
            lines.push_str(line.as_str())?;
        }
        Ok(lines)
    }

    fn as_json(&self, alloc: Global) -> Result<String, AllocError> {
        let mut members = Map::new(alloc);
        put(alloc, &mut members, "valid", Value::Bool(self.valid))?;
        if !self.valid {
            let mut errors = Vec::with_capacity(alloc, self.failures.len())?;
            for failure in &self.failures {
                errors.push(unit_of(alloc, failure)?)?;
            }
            put(alloc, &mut members, "errors", Value::Array(errors))?;
        }
        let mut line = Value::Object(members).to_string(alloc)?;
        line.push('\n')?;
        Ok(line)
    }
}

const UNDECIDED: &str =
    "is not decided: references lead in a circle, or a number is too large for `multipleOf`";

// Whether the value is valid, and why not.
fn judged(
    alloc: Global,
    validator: &Validator<'_>,
    value: &Value,
) -> Result<(bool, Vec<Failure>), AllocError> {
    let examined = validator.examine(alloc, value)?;
    match examined.verdict {
        Verdict::Yes | Verdict::No => Ok((examined.verdict == Verdict::Yes, examined.failures)),
        Verdict::Open => {
            let error = String::from_str(alloc, UNDECIDED)?;
            Ok((false, lone(alloc, error)?))
        }
    }
}

// One failure of the whole.
fn lone(alloc: Global, error: String) -> Result<Vec<Failure>, AllocError> {
    let mut failures = Vec::new(alloc);
    failures.push(Failure {
        keyword_location: String::new(alloc),
        instance_location: String::new(alloc),
        error,
    })?;
    Ok(failures)
}

fn head_of(alloc: Global, file: Option<&str>, line: Option<usize>) -> Result<String, AllocError> {
    match (file, line) {
        (Some(file), Some(line)) => format!(in alloc; "{file}:{line}: "),
        (Some(file), None) => format!(in alloc; "{file}: "),
        (None, Some(line)) => format!(in alloc; "{line}: "),
        (None, None) => Ok(String::new(alloc)),
    }
}

fn line_of(alloc: Global, head: &str, failure: &Failure) -> Result<String, AllocError> {
    let error = failure.error.as_str();
    let keyword = failure.keyword_location.as_str();
    let place = match failure.instance_location.as_str() {
        "" => "the value",
        place => place,
    };
    if keyword.is_empty() {
        return format!(in alloc; "{head}{place} {error}\n");
    }
    format!(in alloc; "{head}{place} {error} ({keyword})\n")
}

fn unit_of(alloc: Global, failure: &Failure) -> Result<Value, AllocError> {
    let mut members = Map::new(alloc);
    put_text(
        alloc,
        &mut members,
        "keywordLocation",
        &failure.keyword_location,
    )?;
    put_text(
        alloc,
        &mut members,
        "instanceLocation",
        &failure.instance_location,
    )?;
    put_text(alloc, &mut members, "error", &failure.error)?;
    Ok(Value::Object(members))
}

fn put_text(
    alloc: Global,
    members: &mut Map<String, Value>,
    name: &str,
    text: &String,
) -> Result<(), AllocError> {
    let text = String::from_str(alloc, text.as_str())?;
    put(alloc, members, name, Value::String(text))
}

fn put(
    alloc: Global,
    members: &mut Map<String, Value>,
    name: &str,
    value: Value,
) -> Result<(), AllocError> {
    drop(members.insert(String::from_str(alloc, name)?, value)?);
    Ok(())
}
