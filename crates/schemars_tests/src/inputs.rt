//! Words and inputs that no line of a file can hold.
use crate::expect::words_of;
use schemagen_run::fault::Fault;
use schemagen_run::run::run;
use schemagen_run::streams::{SinkOf, SourceOf};
use std::alloc::Global;
use std::test::Fail;

// How a run over memory ends.
fn ended(alloc: Global, words: &[String], input: &[u8]) -> Result<(), Fault> {
    let mut source = SourceOf::new(input);
    let mut written = Vec::new(alloc);
    let mut sink = SinkOf::new(&mut written);
    run(alloc, words, &mut source, &mut sink)?;
    Ok(())
}

const OTHER_WORDS: [&[&str]; 4] = [
    &["types ", "2020-12"],
    &["types", "2020-12", "--serialize "],
    &["types", "2020-12", ""],
    &[""],
];

#[test]
fn words_have_no_spaces(rt: HostRuntime) -> Result<(), Fail> {
    for words in OTHER_WORDS {
        let words = words_of(rt.alloc(), words)?;
        assert_eq!(rt; ended(rt.alloc(), &words, b"{"), Err(Fault::Usage));
    }
    Ok(())
}

// The list of optional bytes.
const BYTES: &[u8] =
    br#"{"types":[{"id":"uint8","name":"uint8","inline":true,"shape":{"int":"u8"}},{"id":"Option<uint8>","name":"Nullable_uint8","inline":true,"shape":{"option":0}},{"id":"[Option<uint8>]","name":"Array_of_Nullable_uint8","inline":true,"shape":{"seq":1}}],"root":2}"#;

// Bytes that are no text are no input, nor is a beginning of one.
#[test]
fn inputs_are_whole_texts(rt: HostRuntime) -> Result<(), Fail> {
    let words = words_of(rt.alloc(), &["types", "2020-12"])?;
    let result = ended(rt.alloc(), &words, b"\"\xff\"");
    assert_eq!(rt; result, Err(Fault::Refused(20)));
    for end in 0..BYTES.len() {
        let result = ended(rt.alloc(), &words, &BYTES[..end]);
        assert_eq!(rt; result, Err(Fault::Refused(20)));
    }
    assert_eq!(rt; ended(rt.alloc(), &words, BYTES), Ok(()));
    Ok(())
}
