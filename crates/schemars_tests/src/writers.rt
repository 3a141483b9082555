//! Texts that are handed to sinks in parts.
use crate::narrow::Narrow;
use schemars::Schema;
use schemars::schema::{
    Failed, OrderedError, Sink, SinkOf, definitions_to_ordered_string, write_ordered_definitions,
};
use serde_json::{Map, Value};
use std::alloc::{AllocError, Global};
use std::process::Abort;
use std::test::Fail;

// Decimals, numbers of 64 bits, escapes, lists forty deep and definitions, in no order.
const SMALL: &str =
    r#"{"minimum":-0.25,"$defs":{"é":{"maximum":18446744073709551615,"type":"integer"},"A":{"not":{"minimum":-9223372036854775808}}},"enum":[1.5,1e300,null,true],"default":[[[[[[[[[[[[[[[[[[[[[[[[[[[[[[[[[[[[[[[[0.5]]]]]]]]]]]]]]]]]]]]]]]]]]]]]]]]]]]]]]]],"title":"a \"b\" \\ \u0001\u001f\n\t 😀","properties":{"é\r\/":false}}"#;

const SMALL_TEXT: &str =
    r#"{"title":"a \"b\" \\ \u0001\u001f\n\t 😀","properties":{"é\r/":false},"default":[[[[[[[[[[[[[[[[[[[[[[[[[[[[[[[[[[[[[[[[0.5]]]]]]]]]]]]]]]]]]]]]]]]]]]]]]]]]]]]]]]],"enum":[1.5,1e+300,null,true],"minimum":-0.25,"$defs":{"A":{"not":{"minimum":-9223372036854775808}},"é":{"type":"integer","maximum":18446744073709551615}}}"#;

// How deep the long schema is.
const LEVELS: u8 = 40;

// A text without escapes that is longer than a block.
fn digits(alloc: Global) -> Result<String, AllocError> {
    let mut text = String::new(alloc);
    for _ in 0..420u16 {
        text.push_str("0123456789")?;
    }
    Ok(text)
}

// Schemas in one another, each with a decimal and with definitions, in no order.
fn long(alloc: Global) -> Result<String, AllocError> {
    let digits = digits(alloc)?;
    let mut text = format!(in alloc; r#"{{"not":{SMALL},"description":"{digits}"}}"#)?;
    for level in 0..LEVELS {
        text = format!(in alloc;
            r#"{{"$defs":{{"é":{SMALL}}},"not":{text},"default":{level}.5,"title":"\"{level}\""}}"#
        )?;
    }
    Ok(text)
}

fn long_text(alloc: Global) -> Result<String, AllocError> {
    let digits = digits(alloc)?;
    let mut text = format!(in alloc; r#"{{"description":"{digits}","not":{SMALL_TEXT}}}"#)?;
    for level in 0..LEVELS {
        text = format!(in alloc;
            r#"{{"title":"\"{level}\"","default":{level}.5,"not":{text},"$defs":{{"é":{SMALL_TEXT}}}}}"#
        )?;
    }
    Ok(text)
}

// What is written: a schema, or definitions.
#[derive(Drop)]
enum Written {
    Schema(Schema),
    Definitions(Map<String, Value>),
}

impl Written {
    fn to_text(&self, alloc: Global) -> Result<String, AllocError> {
        match self {
            Written::Schema(schema) => schema.to_ordered_string(alloc),
            Written::Definitions(map) => definitions_to_ordered_string(alloc, map),
        }
    }

    fn write<K: Sink>(&self, sink: &mut K) -> Result<(), OrderedError> {
        match self {
            Written::Schema(schema) => schema.write_ordered(sink),
            Written::Definitions(map) => write_ordered_definitions(map, sink),
        }
    }
}

// What is written, and its text.
#[derive(Drop)]
struct Case {
    written: Written,
    text: String,
}

// The schema of a text.
fn schema_case(alloc: Global, source: &str, text: String) -> Result<Case, Fail> {
    match Value::from_str(alloc, source)? {
        Value::Object(map) => Ok(Case {
            written: Written::Schema(Schema::from(map)),
            text,
        }),
        _ => Err("no schema".into()),
    }
}

// The definitions that have this schema after a truth value.
fn definitions_case(alloc: Global, source: &str, text: &str) -> Result<Case, Fail> {
    let source = format!(in alloc; r#"{{"é":{source},"A":true}}"#)?;
    let text = format!(in alloc; r#"{{"A":true,"é":{text}}}"#)?;
    match Value::from_str(alloc, source.as_str())? {
        Value::Object(map) => Ok(Case {
            written: Written::Definitions(map),
            text,
        }),
        _ => Err("no definitions".into()),
    }
}

fn small_cases(alloc: Global) -> Result<[Case; 2], Fail> {
    let text = String::from_str(alloc, SMALL_TEXT)?;
    Ok([
        schema_case(alloc, SMALL, text)?,
        definitions_case(alloc, SMALL, SMALL_TEXT)?,
    ])
}

fn long_cases(alloc: Global) -> Result<[Case; 2], Fail> {
    let source = long(alloc)?;
    let text = long_text(alloc)?;
    let definitions = definitions_case(alloc, source.as_str(), text.as_str())?;
    Ok([schema_case(alloc, source.as_str(), text)?, definitions])
}

// Whether the text is the one written by hand.
fn is_text(alloc: Global, case: &Case) -> bool {
    match case.written.to_text(alloc) {
        Ok(text) => text == case.text,
        Err(_) => false,
    }
}

// How many bytes a sink takes a call; a block has 4,096.
const SIZES: [usize; 9] = [1, 2, 3, 5, 7, 64, 4095, 4096, 4097];

// Whether a sink that takes so many bytes a call gets the text.
fn arrives(alloc: Global, case: &Case, size: usize) -> bool {
    let mut narrow = Narrow::new(alloc, size, usize::MAX, true);
    let written = case.written.write(&mut SinkOf::new(&mut narrow));
    written.is_ok() && narrow.taken.as_slice() == case.text.as_bytes()
}

#[test]
fn sinks_that_take_a_part_get_the_text(rt: HostRuntime) -> Result<(), Fail> {
    let small = small_cases(rt.alloc())?;
    let long = long_cases(rt.alloc())?;
    for case in small.iter().chain(&long) {
        assert!(rt; is_text(rt.alloc(), case));
        for size in SIZES {
            assert!(rt; arrives(rt.alloc(), case, size), "{size} bytes a call");
        }
    }
    Ok(())
}

// A sink whose calls are counted.
#[derive(Drop)]
struct Counted<K> {
    sink: K,
    calls: usize,
}

impl<K: Sink> Sink for Counted<K> {
    ghost bytes = { λ s. K.bytes s.sink };

    ghost has_failed = { λ s. K.has_failed s.sink };

    fn write(&mut self, buf: &[u8]) -> Result<usize, Failed> {
        self.calls = self.calls.saturating_add(1);
        self.sink.write(buf)
    }
}

fn is_write_error(answer: Result<(), OrderedError>) -> bool {
    match answer {
        Ok(()) => false,
        Err(error) => error.code() == 13,
    }
}

// How a text is written to a sink that fails after some calls.
#[derive(Clone, Copy, Debug, PartialEq, Eq)]
enum End {
    // All of it was taken.
    Whole,
    // A beginning was, the failure was answered at once, and later writes add nothing.
    Refused,
    Otherwise,
}

fn end_of(alloc: Global, case: &Case, size: usize, calls: usize) -> End {
    let mut narrow = Narrow::new(alloc, size, calls, true);
    let mut sink = Counted {
        sink: SinkOf::new(&mut narrow),
        calls: 0,
    };
    let first = case.written.write(&mut sink);
    let counted = sink.calls;
    if first.is_ok() {
        let whole = narrow.taken.as_slice() == case.text.as_bytes() && narrow.refused == 0;
        return if whole { End::Whole } else { End::Otherwise };
    }
    let again = case.written.write(&mut sink);
    let refused = is_write_error(first) && is_write_error(again);
    let once = counted == calls.saturating_add(1) && narrow.refused == 1;
    if refused && once && is_part(&narrow, &case.text) {
        End::Refused
    } else {
        End::Otherwise
    }
}

// Whether what was taken is a beginning of the text, and not all of it.
fn is_part(narrow: &Narrow, text: &String) -> bool {
    narrow.taken.len() < text.len() && text.as_bytes().starts_with(&narrow.taken)
}

// Lets the sink fail at each of its calls, and tells how many calls take the whole text.
fn calls_for(rt: &impl Abort, alloc: Global, case: &Case, size: usize) -> usize {
    for calls in 0..case.text.len() {
        let end = end_of(alloc, case, size, calls);
        if end == End::Whole {
            return calls;
        }
        assert_eq!(rt;
            end,
            End::Refused,
            "{size} bytes a call, failure after {calls} calls"
        );
    }
    case.text.len()
}

// What is shorter than a block is handed over at once.
#[test]
fn sinks_that_fail_in_a_block_have_a_beginning(rt: HostRuntime) -> Result<(), Fail> {
    for case in &small_cases(rt.alloc())? {
        for size in [1, 2, 3, 5, 7, 64] {
            let calls = calls_for(&rt, rt.alloc(), case, size);
            assert_eq!(rt;
                calls,
                case.text.len().div_ceil(size),
                "{size} bytes a call"
            );
        }
    }
    Ok(())
}

// A longer text is handed over in several blocks, and a text without escapes that is longer than a block
// by itself.
#[test]
fn sinks_that_fail_between_blocks_have_a_beginning(rt: HostRuntime) -> Result<(), Fail> {
    for case in &long_cases(rt.alloc())? {
        assert!(rt; case.text.len() > 4 * 4096);
        for size in [4095, 4096, 4097] {
            let calls = calls_for(&rt, rt.alloc(), case, size);
            let least = case.text.len().div_ceil(size);
            assert!(rt;
                calls >= least && calls <= 2 * least,
                "{size} bytes a call, {calls} calls"
            );
        }
    }
    Ok(())
}
