//! Rows that are made, and types that are added to a table.
use crate::retry::{again, expect_same, show};
use crate::stop::Stop;
use schemars::Schema;
use schemars::generate::{SchemaGenerator, SchemaSettings};
use schemars::impls::{
    OPTIONAL, REQUIRED, add_field, add_field_of, option_of, register, reserve, struct_entry,
};
use schemars::transform::NoTransform;
use schemars::types::{IntKind, TypeNo, Types, TypesError};
use std::alloc::{Alloc, Global};
use std::collections::BTreeMap;
use std::io::Print;
use std::time::Duration;

// Calls that make a row, in order, and whether a refused one may leave rows of its parts.
const ROWS: [(&str, bool); 14] = [
    ("text", false),
    ("date", false),
    ("int", false),
    ("option", false),
    ("seq", false),
    ("set", false),
    ("array", false),
    ("up_to", false),
    ("map", false),
    ("result", false),
    ("bound", false),
    ("either", false),
    ("duration", true),
    ("all", false),
];

const REGISTERED: [(&str, bool); 9] = [
    ("reserve", false),
    ("define", true),
    ("register a list", true),
    ("register a map", true),
    ("register a pair", true),
    ("register a result", true),
    ("register a duration", true),
    ("register a list", true),
    ("all", false),
];

/// Makes rows by the constructors.
pub(crate) fn make_rows<R: Alloc<A = Global> + Print>(rt: &R) -> Result<(), Stop> {
    let mut types = Types::new(rt.alloc());
    make_each(rt, &mut types, &ROWS)
}

/// Makes a row by its parts, and registers types.
pub(crate) fn make_registered<R: Alloc<A = Global> + Print>(rt: &R) -> Result<(), Stop> {
    let mut types = Types::new(rt.alloc());
    make_each(rt, &mut types, &REGISTERED)
}

// Makes each row, checks the table, and shows the document of the last row.
fn make_each<R: Alloc<A = Global> + Print>(
    rt: &R,
    types: &mut Types,
    calls: &[(&'static str, bool)],
) -> Result<(), Stop> {
    let mut last = 0;
    for (call, adds_parts) in calls {
        last = made_again(rt, types, *call, *adds_parts)?;
        println!(rt; "{call}: row {last}")?;
    }
    again(|| Ok(types.check(rt.alloc())?))?;
    show(rt, &again(|| document(rt.alloc(), types, last))?)
}

// Makes a row. Where that is refused for want of memory, the rows before have to be as they were,
// and the call is made again.
fn made_again<R: Alloc<A = Global> + Print>(
    rt: &R,
    types: &mut Types,
    call: &str,
    adds_parts: bool,
) -> Result<TypeNo, Stop> {
    let before = again(|| Ok(types.clone()?))?;
    match made(rt.alloc(), types, call) {
        Err(TypesError::OutOfMemory) => {
            let is_same = adds_parts || types.len() == before.len();
            expect_same(rt, is_same && types.begins_with(&before), call)?;
            Ok(made(rt.alloc(), types, call)?)
        }
        answer => Ok(answer?),
    }
}

fn made(alloc: Global, types: &mut Types, call: &str) -> Result<TypeNo, TypesError> {
    match call {
        "text" => types.text(alloc),
        "date" => date(alloc, types),
        "int" => types.int(alloc, IntKind::U8),
        "option" => types.option(alloc, 0),
        "seq" => types.seq(alloc, 0),
        "set" => types.set(alloc, 0),
        "array" => types.array(alloc, 0, 3),
        "up_to" => types.up_to(alloc, 0, 3),
        "map" => types.map(alloc, 0, 1),
        "result" => types.result(alloc, 0, 1),
        "bound" => types.bound(alloc, 0),
        "either" => types.either(alloc, 0, 1),
        "duration" => types.duration(alloc),
        "all" => all_rows(alloc, types),
        _ => registered(alloc, types, call),
    }
}

fn registered(alloc: Global, types: &mut Types, call: &str) -> Result<TypeNo, TypesError> {
    match call {
        "reserve" => reserve(alloc, types, "Node", "Node"),
        "register a list" => register::<Vec<Option<u8>>>(alloc, types),
        "register a map" => register::<BTreeMap<String, Vec<i32>>>(alloc, types),
        "register a pair" => register::<(bool, String)>(alloc, types),
        "register a result" => register::<Result<u64, String>>(alloc, types),
        "register a duration" => register::<Duration>(alloc, types),
        _ => define_node(alloc, types),
    }
}

fn date(alloc: Global, types: &mut Types) -> Result<TypeNo, TypesError> {
    let id = String::from_str(alloc, "Date")?;
    let name = String::from_str(alloc, "Date")?;
    types.formatted(alloc, id, name, String::from_str(alloc, "date")?)
}

// Defines row 0 as a list of numbers.
fn define_node(alloc: Global, types: &mut Types) -> Result<TypeNo, TypesError> {
    let next = option_of(alloc, types, "Node", "Node")?;
    let mut fields = Vec::new(alloc);
    add_field::<i32>(alloc, types, &mut fields, "value", REQUIRED)?;
    add_field_of(alloc, types, &mut fields, "next", next, OPTIONAL)?;
    types.define(0, struct_entry(alloc, fields, false))?;
    Ok(0)
}

// The row of tuples of all rows.
fn all_rows(alloc: Global, types: &mut Types) -> Result<TypeNo, TypesError> {
    let mut parts = Vec::new(alloc);
    for n in 0..types.len() {
        parts.push(n)?;
    }
    types.tuple(alloc, parts)
}

fn document(alloc: Global, types: &Types, row: TypeNo) -> Result<Schema, Stop> {
    let settings = SchemaSettings::<NoTransform>::draft2020_12(alloc);
    let generator = SchemaGenerator::with_types(alloc, settings, types.clone()?)?;
    Ok(generator.into_root_schema_for_type(alloc, row)?)
}
