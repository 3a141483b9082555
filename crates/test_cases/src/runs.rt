//! What the program answers to a case, run over memory.
use schemagen_run::run::run;
use schemagen_run::streams::{SinkOf, SourceOf};
use std::alloc::{AllocError, Global};

fn words_in(alloc: Global, words: &str) -> Result<Vec<String>, AllocError> {
    let mut owned = Vec::new(alloc);
    for word in words.split_whitespace() {
        owned.push(String::from_str(alloc, word)?)?;
    }
    Ok(owned)
}

// What was written, without the newline at its end.
fn line_of(alloc: Global, written: &[u8]) -> Result<String, AllocError> {
    let Ok(text) = std::str::from_utf8(written) else {
        return String::from_str(alloc, "no text");
    };
    match text.strip_suffix('\n') {
        Some(line) => String::from_str(alloc, line),
        None => format!(in alloc; "{text}, without a newline"),
    }
}

/// The line that the program writes: to standard output, or to standard error where it refuses.
pub fn answer(alloc: Global, words: &str, input: &str) -> Result<String, AllocError> {
    let words = words_in(alloc, words)?;
    let mut source = SourceOf::new(input.as_bytes());
    let mut written = Vec::new(alloc);
    let mut sink = SinkOf::new(&mut written);
    match run(alloc, &words, &mut source, &mut sink) {
        Ok(_) => line_of(alloc, &written),
        Err(fault) => format!(in alloc; "{fault}"),
    }
}
