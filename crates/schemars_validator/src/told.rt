//! What is found of a value that is denied, of which no more is kept than a reader can use.
ghost use Rattle.std.specs.Prelude.{IfOk, IsTrue};
ghost use Rattle.schemars_readable.specs.Refused.{has_some};

use crate::sentences::{sentence_of_key, sentence_of_more};
use std::alloc::{AllocError, Global};

/// A keyword that a value does not meet (JSON Schema core 2020-12, 12.4.2: the basic output).
#[derive(Debug, Drop)]
pub struct Failure {
    /// The way to the keyword through the document and its references, as a JSON Pointer.
    pub keyword_location: String,
    /// The place in the value, as a JSON Pointer.
    pub instance_location: String,
    /// What is wrong, for a reader.
    pub error: String,
}

// How many schemas that deny the value or its parts are explained.
const MOST_SCHEMAS: u64 = 1000;

// No failure is kept once those that are have so many bytes.
const MOST_BYTES: u64 = 65536;

/// The failures so far.
#[derive(Drop)]
pub struct Told {
    failures: Vec<Failure>,
    // the bytes of all failures that are kept, also of those beside these
    bytes: u64,
    // the schemas that were explained
    explained: u64,
    left_out: u64,
    // the schemas that were passed over
    not_asked: u64,
    // whether they are those of a key
    is_of_key: bool,
}

impl Told {
    pub fn new(alloc: Global) -> Told {
        Told {
            failures: Vec::new(alloc),
            bytes: 0,
            explained: 0,
            left_out: 0,
            not_asked: 0,
            is_of_key: false,
        }
    }

    /// How many failures were found, and schemas passed over.
    pub fn count(&self) -> u64 {
        let found = self.left_out.saturating_add(self.failures.len() as u64);
        found.saturating_add(self.not_asked)
    }

    /// Whether no further schema is explained.
    pub fn is_full(&self) -> bool {
        self.explained >= MOST_SCHEMAS
    }

    /// What is said of a failure with this sentence: that of a key is told of the value that has it.
    pub fn said(&self, alloc: Global, error: &str) -> Result<String, AllocError> {
        if self.is_of_key {
            sentence_of_key(alloc, error)
        } else {
            String::from_str(alloc, error)
        }
    }

    /// One schema more is explained.
    pub fn begin(&mut self) {
        self.explained = self.explained.saturating_add(1);
    }

    /// One schema more is passed over.
    pub fn pass_over(&mut self) {
        self.not_asked = self.not_asked.saturating_add(1);
    }

    /// Adds a failure, which is kept unless there are many.
    pub fn add(&mut self, failure: Failure) -> Result<(), AllocError> {
        if self.bytes >= MOST_BYTES {
            self.left_out = self.left_out.saturating_add(1);
            return Ok(());
        }
        self.bytes = self.bytes.saturating_add(size_of(&failure));
        self.failures.push(failure)?;
        Ok(())
    }

    /// What is found beside these failures, of which it is not yet known whether it is told, or which is
    /// found of a key.
    pub fn beside(&self, alloc: Global, is_of_key: bool) -> Told {
        Told {
            failures: Vec::new(alloc),
            bytes: self.bytes,
            explained: self.explained,
            left_out: 0,
            not_asked: self.not_asked,
            is_of_key: is_of_key || self.is_of_key,
        }
    }

    /// Leaves out what was found beside these.
    pub fn pass(&mut self, own: &Told) {
        self.explained = own.explained;
        self.not_asked = own.not_asked;
    }

    /// Adds what was found beside these.
    pub fn take(&mut self, own: Told) -> Result<(), AllocError> {
        self.pass(&own);
        self.bytes = own.bytes;
        self.left_out = self.left_out.saturating_add(own.left_out);
        let mut failures = own.failures;
        self.failures.append(&mut failures)?;
        Ok(())
    }

    /// Whether a failure is that the value at this place has another type.
    pub fn has_other_type(&self, instance: &str) -> bool {
        for failure in &self.failures {
            let keyword = failure.keyword_location.as_str();
            if failure.instance_location.as_str() == instance && keyword.ends_with("/type") {
                return true;
            }
        }
        false
    }

    /// The failures, and last how many more there are.
    pub fn into_failures(self, alloc: Global) -> Result<Vec<Failure>, AllocError>
        ensures { IfOk result (λ failures. IsTrue (has_some failures.items)) }
    {
        let mut failures = self.failures;
        if self.left_out > 0 || self.not_asked > 0 {
            let error = sentence_of_more(alloc, self.left_out, self.not_asked)?;
            failures.push(of_whole(alloc, error))?;
        } else if failures.is_empty() {
            let error = String::from_str(alloc, "is not accepted")?;
            failures.push(of_whole(alloc, error))?;
        }
        Ok(failures)
    }
}

// The bytes of a failure.
fn size_of(failure: &Failure) -> u64 {
    let keyword = failure.keyword_location.len() as u64;
    let instance = failure.instance_location.len() as u64;
    let error = failure.error.len() as u64;
    keyword.saturating_add(instance).saturating_add(error)
}

// A failure of the value by the document.
fn of_whole(alloc: Global, error: String) -> Failure {
    Failure {
        keyword_location: String::new(alloc),
        instance_location: String::new(alloc),
        error,
    }
}
