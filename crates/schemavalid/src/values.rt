//! The values of a file.
use serde_json::{Error, Value};
use std::alloc::{AllocError, Global};

/// A value of a file, or why it is none.
#[derive(Drop)]
pub struct Entry<'b> {
    /// The number of its line, where the file has a value on each line.
    pub line: Option<usize>,
    pub value: Result<Value, Unreadable<'b>>,
}

/// A text that is no JSON.
#[derive(Drop)]
pub struct Unreadable<'b> {
    pub text: &'b [u8],
    pub error: Error,
}

/// The values of a file: the whole is one, or each line that is not empty.
pub fn entries_in(alloc: Global, bytes: &[u8]) -> Result<Vec<Entry<'_>>, AllocError> {
    let mut entries = Vec::new(alloc);
    if let Ok(value) = read(alloc, bytes)? {
        entries.push(Entry {
            line: None,
            value: Ok(value),
        })?;
        return Ok(entries);
    }
    for (n, line) in bytes.split(|byte| *byte == b'\n').enumerate() {
        if !line.trim_ascii().is_empty() {
            let value = read(alloc, line)?;
            entries.push(Entry {
                line: Some(n + 1),
                value,
            })?;
        }
    }
    Ok(entries)
}

fn read(alloc: Global, bytes: &[u8]) -> Result<Result<Value, Unreadable<'_>>, AllocError> {
    match Value::from_slice(alloc, bytes) {
        Ok(value) => Ok(Ok(value)),
        Err(error) if error.is_memory() => Err(AllocError),
        Err(error) => Ok(Err(Unreadable { text: bytes, error })),
    }
}
