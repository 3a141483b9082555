//! The tables, and what is read.
use crate::stop::Stop;
use schemagen_input::{read_sample, read_table};
use schemars::sample::Sample;
use schemars::types::{TypeNo, Types};
use serde_json::Value;
use std::alloc::Global;

/// Tables by their names.
pub(crate) const TABLES: [(&str, &str); 6] = [
    (
        "optional-bytes",
        r#"{"types":[{"id":"uint8","name":"uint8","inline":true,"shape":{"int":"u8"}},{"id":"Option<uint8>","name":"Nullable_uint8","inline":true,"shape":{"option":0}},{"id":"[Option<uint8>]","name":"Array_of_Nullable_uint8","inline":true,"shape":{"seq":1}}],"root":2}"#,
    ),
    (
        "linked-list",
        r#"{"types":[{"id":"Node","name":"Node","shape":{"struct":{"fields":[{"name":"value","type":1},{"name":"next","type":2,"required":false}]}}},{"id":"int32","name":"int32","inline":true,"shape":{"int":"i32"}},{"id":"Option<Node>","name":"Nullable_Node","inline":true,"shape":{"option":0}}],"root":0}"#,
    ),
    (
        "equal-names",
        r#"{"types":[{"id":"a","name":"Config","shape":{"struct":{"fields":[{"name":"b","type":1}]}}},{"id":"b","name":"Config","shape":{"struct":{"fields":[{"name":"a","type":2,"required":false}]}}},{"id":"Option<a>","name":"Nullable_Config","inline":true,"shape":{"option":0}}],"root":0}"#,
    ),
    (
        "map",
        r#"{"types":[{"id":"S","name":"S","shape":{"struct":{"fields":[{"name":"m","type":1}]}}},{"id":"M","name":"M","inline":true,"shape":{"map":{"key":2,"value":3}}},{"id":"E","name":"E","shape":{"external":{"variants":[{"name":"U"},{"name":"V"}]}}},{"id":"int32","name":"int32","inline":true,"shape":{"int":"i32"}}],"root":0}"#,
    ),
    (
        "internal",
        r#"{"types":[{"id":"E","name":"E","shape":{"internal":{"tag":"t","variants":[{"name":"U"},{"name":"N","payload":{"newtype":1}}]}}},{"id":"S","name":"S","shape":{"struct":{"fields":[{"name":"e","type":2}],"closed":true}}},{"id":"[E]","name":"Array_of_E","inline":true,"shape":{"seq":0}}],"root":0}"#,
    ),
    (
        "flattened",
        r#"{"types":[{"id":"T","name":"T","notes":{"description":"d","examples":[{"a":true}]},"shape":{"struct":{"fields":[{"name":"a","type":3,"notes":{"default":true}}],"flatten":[{"type":1},{"type":2}],"closed":true}}},{"id":"S","name":"S","shape":{"struct":{"fields":[{"name":"x","type":3}]}}},{"id":"E","name":"E","shape":{"external":{"variants":[{"name":"V","payload":{"newtype":0}},{"name":"W","payload":{"newtype":3}}]}}},{"id":"bool","name":"boolean","inline":true,"shape":"bool"}],"root":0}"#,
    ),
];

pub(crate) const EXAMPLE: &str = r#"{"name":"Ada","tags":["a",1,null],"inner":{"":true}}"#;

/// The table of a text, and its root.
pub(crate) fn table_of(alloc: Global, text: &str) -> Result<(Types, TypeNo), Stop> {
    Ok(read_table(alloc, text.as_bytes())?)
}

/// An example value.
pub(crate) fn example(alloc: Global) -> Result<Sample, Stop> {
    let value = Value::from_str(alloc, EXAMPLE)?;
    Ok(read_sample(alloc, &value)?)
}
