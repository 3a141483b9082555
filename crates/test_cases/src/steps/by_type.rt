//! Calls of a generator by type.
use crate::steps::own_transforms::Own;
use crate::types::own_types::{Author, Node};
use indexmap::IndexMap;
use schemars::generate::SchemaGenerator;
use schemars::{GenerateError, Schema};
use std::alloc::Global;
use std::collections::{BTreeMap, HashMap};

/// The schema of the type that is written so.
pub(crate) fn part_of(
    alloc: Global,
    generator: &mut SchemaGenerator<Own>,
    of: &str,
) -> Result<Schema, GenerateError> {
    match of {
        "Option<u8>" => generator.subschema_for::<Option<u8>>(alloc),
        "BTreeMap<u8,bool>" => generator.subschema_for::<BTreeMap<u8, bool>>(alloc),
        "HashMap<u8,bool>" => generator.subschema_for::<HashMap<u8, bool>>(alloc),
        "IndexMap<u8,bool>" => generator.subschema_for::<IndexMap<u8, bool>>(alloc),
        "[bool;0]" => generator.subschema_for::<[bool; 0]>(alloc),
        "Node" => generator.subschema_for::<Node>(alloc),
        _ => generator.subschema_for::<Author>(alloc),
    }
}

/// The root document of the type that is written so.
pub(crate) fn root_of(
    alloc: Global,
    generator: &mut SchemaGenerator<Own>,
    of: &str,
) -> Result<Schema, GenerateError> {
    match of {
        "Vec<Option<u8>>" => generator.root_schema_for::<Vec<Option<u8>>>(alloc),
        _ => generator.root_schema_for::<Author>(alloc),
    }
}
