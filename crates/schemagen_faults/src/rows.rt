//! Tables, rows and shapes.
use crate::enums::{check_adjacent, check_enum, check_fields, check_internal};
use crate::members::{
    check_count, check_flag, check_kind, check_names, check_notes, check_row, check_row_in,
    check_rows, check_text, missing,
};
use crate::stop::{Stop, fault_here, inside, inside_item, refuse};
use schemagen_input::text_in;
use schemagen_json::{BorrowedValue, lone_member};
use schemars_schema::edits::is_listed;
use std::alloc::Global;
use std::collections::BTreeMap;

const SHAPES: [&str; 8] = [
    "null", "bool", "number", "text", "char", "any", "bytes", "schema",
];

// These are written as objects with a member of this name.
const LARGER_SHAPES: [&str; 21] = [
    "int", "nonzero", "format", "option", "newtype", "seq", "set", "array", "up_to", "tuple",
    "struct", "result", "bound", "range", "either", "map", "external", "untagged", "internal",
    "adjacent", "literal",
];

/// Stops at the first place at which a value is not a table.
pub fn check_table(alloc: Global, value: &BorrowedValue<'_>) -> Result<(), Stop> {
    check_names(alloc, value, &["types", "root", "$schema"])?;
    check_count(alloc, value, "root")?;
    match value.get("types") {
        None => missing(alloc, "types"),
        Some(list) => match list.as_array() {
            Some(rows) => inside(alloc, "types", check_each_row(alloc, rows)),
            None => inside(alloc, "types", refuse(alloc, "a list is expected here")),
        },
    }
}

fn check_each_row(alloc: Global, rows: &[BorrowedValue<'_>]) -> Result<(), Stop> {
    let mut ids = BTreeMap::new(alloc);
    for (n, row) in rows.iter().enumerate() {
        inside_item(alloc, n, check_heading(alloc, row))?;
        inside_item(alloc, n, check_id(alloc, &mut ids, n, row))?;
    }
    for (n, row) in rows.iter().enumerate() {
        inside_item(alloc, n, check_entry(alloc, row, rows.len()))?;
    }
    Ok(())
}

fn check_heading(alloc: Global, row: &BorrowedValue<'_>) -> Result<(), Stop> {
    check_names(alloc, row, &["id", "name", "inline", "notes", "shape"])?;
    check_text(alloc, row, "id")?;
    check_text(alloc, row, "name")
}

// No row before has the id of row `n`.
fn check_id<'a>(
    alloc: Global,
    ids: &mut BTreeMap<&'a str, usize>,
    n: usize,
    row: &BorrowedValue<'a>,
) -> Result<(), Stop> {
    let Some(id) = text_in(row, "id") else {
        return Ok(());
    };
    if let Some(earlier) = ids.get(id) {
        let reason = format!(in alloc; "row {earlier} has this id too")?;
        return inside(alloc, "id", fault_here(alloc, reason));
    }
    ids.insert(id, n)?;
    Ok(())
}

fn check_entry(alloc: Global, row: &BorrowedValue<'_>, rows: usize) -> Result<(), Stop> {
    check_flag(alloc, row, "inline")?;
    check_notes(alloc, row)?;
    match row.get("shape") {
        None => missing(alloc, "shape"),
        Some(shape) => inside(alloc, "shape", check_shape(alloc, shape, rows)),
    }
}

fn check_shape(alloc: Global, value: &BorrowedValue<'_>, rows: usize) -> Result<(), Stop> {
    match value {
        BorrowedValue::String(name) if is_listed(name, &SHAPES) => Ok(()),
        BorrowedValue::String(name) if is_listed(name, &LARGER_SHAPES) => {
            let reason = format!(in alloc; "an object with a member {name:?} is expected here")?;
            fault_here(alloc, reason)
        }
        BorrowedValue::String(_) => refuse(alloc, "no shape has this name"),
        BorrowedValue::Object(members) => match lone_member(members) {
            Some((name, part)) => inside(alloc, name, check_shape_under(alloc, name, part, rows)),
            None => refuse(alloc, "an object of one member is expected here"),
        },
        _ => refuse(
            alloc,
            "a shape is expected here: a name, or an object of one member",
        ),
    }
}

fn check_shape_under(
    alloc: Global,
    name: &str,
    value: &BorrowedValue<'_>,
    rows: usize,
) -> Result<(), Stop> {
    match name {
        "struct" => check_fields(alloc, value, rows),
        "external" | "untagged" => check_enum(alloc, value, rows),
        "internal" => check_internal(alloc, value, rows),
        "adjacent" => check_adjacent(alloc, value, rows),
        "int" | "nonzero" => check_kind(alloc, value),
        "format" if value.as_str().is_some() => Ok(()),
        "format" => refuse(alloc, "a text is expected here"),
        "literal" if value.as_object().is_some() || value.as_bool().is_some() => Ok(()),
        "literal" => refuse(
            alloc,
            "a schema is expected here: an object, or a truth value",
        ),
        "tuple" => check_rows(alloc, value, rows),
        "array" => check_counted(alloc, value, "len", rows),
        "up_to" => check_counted(alloc, value, "cap", rows),
        "result" => check_two(alloc, value, "ok", "err", rows),
        "either" => check_two(alloc, value, "left", "right", rows),
        "map" => check_two(alloc, value, "key", "value", rows),
        _ if is_listed(name, &["option", "newtype", "seq", "set", "bound", "range"]) => {
            check_row(alloc, value, rows)
        }
        _ => refuse(alloc, "no shape has this name"),
    }
}

// The row of a list's items, and how many there are.
fn check_counted(
    alloc: Global,
    value: &BorrowedValue<'_>,
    count: &str,
    rows: usize,
) -> Result<(), Stop> {
    check_names(alloc, value, &["of", count])?;
    check_row_in(alloc, value, "of", rows)?;
    check_count(alloc, value, count)
}

fn check_two(
    alloc: Global,
    value: &BorrowedValue<'_>,
    first: &str,
    second: &str,
    rows: usize,
) -> Result<(), Stop> {
    check_names(alloc, value, &[first, second])?;
    check_row_in(alloc, value, first, rows)?;
    check_row_in(alloc, value, second, rows)
}
