//! Stores of definitions.
use crate::expect::expect;
use schemars::Schema;
use schemars::schema::definitions_to_ordered_string;
use schemars_definitions::{Definitions, Objects, Texts, Unchanged, has_no_definitions};
use serde_json::Value;
use std::alloc::Global;
use std::process::Abort;
use std::test::Fail;

// Names and schemas, in the order in which they are finished.
const FINISHED: [(&str, &str); 4] = [
    ("b", r#"{"type":"string","title":"B"}"#),
    ("a\"", r#"{"x-part":0.5}"#),
    ("gone", r#"{"type":"null"}"#),
    ("c", "true"),
];

const DEFINITIONS: &str =
    r#"{"a\"":{"x-part":0.5},"b":{"title":"B","type":"string"},"begun":false,"c":true}"#;

// Documents, and whether each is an object without definitions.
const APART: [(&str, bool); 5] = [
    ("{}", true),
    (r#"{"properties":{"$defs":true}}"#, true),
    (r#"{"$defs":{}}"#, false),
    (r#"{"definitions":1}"#, false),
    ("true", false),
];

fn schema_of(alloc: Global, text: &str) -> Result<Schema, Fail> {
    match Schema::try_from(Value::from_str(alloc, text)?) {
        Ok(schema) => Ok(schema),
        Err(_) => Err("no schema".into()),
    }
}

// Finishes the definitions, removes one, and begins one more.
fn add_all<D: Definitions>(alloc: Global, store: &mut D) -> Result<(), Fail> {
    for (name, text) in FINISHED {
        expect(store.begin(alloc, name)?, "a new name")?;
        let schema = schema_of(alloc, text)?;
        store.finish(alloc, name, schema)?;
        expect(!store.begin(alloc, name)?, "a name that is there")?;
    }
    store.remove("gone");
    expect(!store.contains_key("gone"), "a removed name")?;
    expect(store.contains_key("c"), "a name that stays")?;
    expect(store.begin(alloc, "begun")?, "one more name")
}

#[test]
fn definitions_are_kept_as_values(rt: HostRuntime) -> Result<(), Fail> {
    let alloc = rt.alloc();
    let mut store = Objects::new(alloc);
    add_all(alloc, &mut store)?;
    let text = definitions_to_ordered_string(alloc, store.as_object())?;
    assert_eq!(rt; text.as_str(), DEFINITIONS);
    Ok(())
}

#[test]
fn definitions_are_kept_as_text(rt: HostRuntime) -> Result<(), Fail> {
    let alloc = rt.alloc();
    let mut store = Texts::new(alloc, Unchanged);
    expect(store.is_empty(), "a new store")?;
    add_all(alloc, &mut store)?;
    expect(!store.is_empty(), "a store with definitions")?;
    let text = store.into_definitions_text(alloc)?;
    assert_eq!(rt; text.as_str(), DEFINITIONS);
    Ok(())
}

#[test]
fn documents_have_definitions(rt: HostRuntime) -> Result<(), Fail> {
    let alloc = rt.alloc();
    for (text, wanted) in APART {
        let document = schema_of(alloc, text)?;
        assert_eq!(rt; has_no_definitions(&document), wanted, "{text}");
    }
    Ok(())
}
