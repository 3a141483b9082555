//! The text of root documents, whose definitions are written as soon as they are finished.
use crate::expect::expect;
use schemagen_input::read_table;
use schemars::types::Types;
use schemars::{SchemaGenerator, SchemaSettings};
use std::alloc::{AllocError, Global};
use std::test::Fail;

// A root with definitions, whose names need escapes and which have fractions among their notes.
const APART: &str =
    r#"{"types":[{"id":"r","name":"R","shape":{"tuple":[1,2,3]}},{"id":"a","name":"T \"","notes":{"x-part":0.5},"shape":{"newtype":2}},{"id":"b","name":"T \"","shape":{"seq":1}},{"id":"c","name":"T \"","notes":{"x-n":[1,{"b":-1,"a":"é"}]},"shape":"bool"}],"root":0}"#;

const APART_TEXT: &str =
    r##"{"$schema":"https://json-schema.org/draft/2020-12/schema","title":"R","type":"array","maxItems":3,"minItems":3,"prefixItems":[{"$ref":"#/$defs/T%20%22"},{"$ref":"#/$defs/T%20%222"},{"$ref":"#/$defs/T%20%223"}],"$defs":{"T \"":{"$ref":"#/$defs/T%20%222","x-part":0.5},"T \"2":{"type":"array","items":{"$ref":"#/$defs/T%20%22"}},"T \"3":{"type":"boolean","x-n":[1,{"a":"é","b":-1}]}}}"##;

const APART_TEXT_2019_09: &str =
    r##"{"$schema":"https://json-schema.org/draft/2019-09/schema","title":"R","type":"array","items":[{"$ref":"#/$defs/T%20%22"},{"$ref":"#/$defs/T%20%222"},{"$ref":"#/$defs/T%20%223"}],"maxItems":3,"minItems":3,"$defs":{"T \"":{"$ref":"#/$defs/T%20%222","x-part":0.5},"T \"2":{"type":"array","items":{"$ref":"#/$defs/T%20%22"}},"T \"3":{"type":"boolean","x-n":[1,{"a":"é","b":-1}]}}}"##;

const APART_TEXT_07: &str =
    r##"{"$schema":"http://json-schema.org/draft-07/schema#","title":"R","type":"array","items":[{"$ref":"#/definitions/T%20%22"},{"$ref":"#/definitions/T%20%222"},{"$ref":"#/definitions/T%20%223"}],"maxItems":3,"minItems":3,"definitions":{"T \"":{"allOf":[{"$ref":"#/definitions/T%20%222"}],"x-part":0.5},"T \"2":{"type":"array","items":{"$ref":"#/definitions/T%20%22"}},"T \"3":{"type":"boolean","x-n":[1,{"a":"é","b":-1}]}}}"##;

// One that has definitions among its notes.
const OWN: &str =
    r#"{"types":[{"id":"r","name":"R","notes":{"$defs":{"C":true}},"shape":{"seq":1}},{"id":"a","name":"A","shape":"bool"}],"root":0}"#;

const OWN_TEXT: &str =
    r##"{"$schema":"https://json-schema.org/draft/2020-12/schema","title":"R","type":"array","items":{"$ref":"#/$defs/A"},"$defs":{"A":{"type":"boolean"},"C":true}}"##;

// A root that is in a definition, and is a reference itself.
const ROUND: &str =
    r#"{"types":[{"id":"r","name":"R","shape":{"newtype":1}},{"id":"a","name":"A","shape":{"tuple":[0,1]}}],"root":0}"#;

const ROUND_TEXT: &str =
    r##"{"$schema":"https://json-schema.org/draft/2020-12/schema","title":"R","$ref":"#/$defs/A","$defs":{"A":{"type":"array","maxItems":2,"minItems":2,"prefixItems":[{"$ref":"#"},{"$ref":"#/$defs/A"}]}}}"##;

const ROUND_TEXT_07: &str =
    r##"{"$schema":"http://json-schema.org/draft-07/schema#","title":"R","allOf":[{"$ref":"#/definitions/A"}],"definitions":{"A":{"type":"array","items":[{"$ref":"#"},{"$ref":"#/definitions/A"}],"maxItems":2,"minItems":2}}}"##;

fn settings(alloc: Global, draft: &str) -> Result<SchemaSettings, AllocError> {
    match draft {
        "2019-09" => SchemaSettings::draft2019_09(alloc),
        "07" => SchemaSettings::draft07(alloc),
        _ => Ok(SchemaSettings::draft2020_12(alloc)),
    }
}

fn text_of(alloc: Global, types: Types, draft: &str) -> Result<String, Fail> {
    let settings = settings(alloc, draft)?;
    let generator: SchemaGenerator = SchemaGenerator::with_types(alloc, settings, types)?;
    expect(generator.writes_early(), "definitions are written early")?;
    Ok(generator.into_root_text_for_type(alloc, 0)?)
}

#[test]
fn texts_are_those_of_documents(rt: HostRuntime) -> Result<(), Fail> {
    let alloc = rt.alloc();
    let cases = [
        (APART, "2020-12", APART_TEXT),
        (APART, "2019-09", APART_TEXT_2019_09),
        (APART, "07", APART_TEXT_07),
        (OWN, "2020-12", OWN_TEXT),
        (ROUND, "2020-12", ROUND_TEXT),
        (ROUND, "07", ROUND_TEXT_07),
    ];
    for (table, draft, wanted) in cases {
        let (types, _root) = read_table(alloc, table.as_bytes())?;
        let text = text_of(alloc, types, draft)?;
        assert_eq!(rt; text.as_str(), wanted, "{draft}");
    }
    Ok(())
}

// A generator for OpenAPI, where definitions are no keyword of the document.
fn openapi3(alloc: Global, table: &str) -> Result<SchemaGenerator, Fail> {
    let (types, _root) = read_table(alloc, table.as_bytes())?;
    let settings = SchemaSettings::openapi3(alloc)?;
    Ok(SchemaGenerator::with_types(alloc, settings, types)?)
}

#[test]
fn other_texts_are_made_of_documents(rt: HostRuntime) -> Result<(), Fail> {
    let alloc = rt.alloc();
    let generator = openapi3(alloc, APART)?;
    expect(
        !generator.writes_early(),
        "definitions that are not written early",
    )?;
    let text = generator.into_root_text_for_type(alloc, 0)?;
    let document = openapi3(alloc, APART)?.into_root_schema_for_type(alloc, 0)?;
    let wanted = document.to_ordered_string(alloc)?;
    assert_eq!(rt; text.as_str(), wanted.as_str());
    Ok(())
}
