//! Fields of structs and variants of enums.
use crate::members::{
    check_flag, check_names, check_notes, check_row, check_row_in, check_rows, check_text, missing,
};
use crate::stop::{Stop, inside, inside_item, refuse};
use schemagen_json::{BorrowedValue, lone_member};
use std::alloc::Global;

/// The fields of a struct, and the rows flattened into it.
pub fn check_fields(alloc: Global, value: &BorrowedValue<'_>, rows: usize) -> Result<(), Stop> {
    check_names(alloc, value, &["fields", "flatten", "closed"])?;
    check_flag(alloc, value, "closed")?;
    if let Some(fields) = value.get("fields") {
        inside(alloc, "fields", check_each_field(alloc, fields, rows))?;
    }
    match value.get("flatten") {
        None => Ok(()),
        Some(parts) => inside(alloc, "flatten", check_each_part(alloc, parts, rows)),
    }
}

fn check_each_field(alloc: Global, value: &BorrowedValue<'_>, rows: usize) -> Result<(), Stop> {
    let Some(fields) = value.as_array() else {
        return refuse(alloc, "a list is expected here");
    };
    for (n, field) in fields.iter().enumerate() {
        inside_item(alloc, n, check_field(alloc, field, rows))?;
    }
    Ok(())
}

fn check_field(alloc: Global, value: &BorrowedValue<'_>, rows: usize) -> Result<(), Stop> {
    check_names(alloc, value, &["name", "type", "required", "notes"])?;
    check_text(alloc, value, "name")?;
    check_row_in(alloc, value, "type", rows)?;
    check_need(alloc, value)?;
    check_notes(alloc, value)
}

fn check_each_part(alloc: Global, value: &BorrowedValue<'_>, rows: usize) -> Result<(), Stop> {
    let Some(parts) = value.as_array() else {
        return refuse(alloc, "a list is expected here");
    };
    for (n, part) in parts.iter().enumerate() {
        inside_item(alloc, n, check_part(alloc, part, rows))?;
    }
    Ok(())
}

fn check_part(alloc: Global, value: &BorrowedValue<'_>, rows: usize) -> Result<(), Stop> {
    check_names(alloc, value, &["type", "required"])?;
    check_row_in(alloc, value, "type", rows)?;
    check_need(alloc, value)
}

// Whether a member has to be there, if it is said.
fn check_need(alloc: Global, value: &BorrowedValue<'_>) -> Result<(), Stop> {
    match value.get("required") {
        Some(need) if need.as_bool().is_none() => {
            inside(alloc, "required", check_each_need(alloc, need))
        }
        _ => Ok(()),
    }
}

fn check_each_need(alloc: Global, value: &BorrowedValue<'_>) -> Result<(), Stop> {
    if value.as_object().is_none() {
        return refuse(alloc, "a truth value is expected here, or an object of two");
    }
    check_names(alloc, value, &["deserialize", "serialize"])?;
    check_said(alloc, value, "deserialize")?;
    check_said(alloc, value, "serialize")
}

// A truth value that has to be there.
fn check_said(alloc: Global, value: &BorrowedValue<'_>, name: &str) -> Result<(), Stop> {
    match value.get(name) {
        None => missing(alloc, name),
        Some(_) => check_flag(alloc, value, name),
    }
}

/// The variants of an enum that is tagged by names, or by nothing.
pub fn check_enum(alloc: Global, value: &BorrowedValue<'_>, rows: usize) -> Result<(), Stop> {
    check_names(alloc, value, &["variants"])?;
    check_variants(alloc, value, rows, false)
}

/// A tag, and the variants beside it.
pub fn check_internal(alloc: Global, value: &BorrowedValue<'_>, rows: usize) -> Result<(), Stop> {
    check_names(alloc, value, &["tag", "closed", "variants"])?;
    check_text(alloc, value, "tag")?;
    check_flag(alloc, value, "closed")?;
    check_variants(alloc, value, rows, true)
}

/// The keys of name and content, and the variants.
pub fn check_adjacent(alloc: Global, value: &BorrowedValue<'_>, rows: usize) -> Result<(), Stop> {
    check_names(alloc, value, &["tag", "content", "closed", "variants"])?;
    check_text(alloc, value, "tag")?;
    check_text(alloc, value, "content")?;
    check_flag(alloc, value, "closed")?;
    check_variants(alloc, value, rows, false)
}

fn check_variants(
    alloc: Global,
    value: &BorrowedValue<'_>,
    rows: usize,
    beside_tag: bool,
) -> Result<(), Stop> {
    match value.get("variants") {
        None => Ok(()),
        Some(list) => inside(
            alloc,
            "variants",
            check_each_variant(alloc, list, rows, beside_tag),
        ),
    }
}

fn check_each_variant(
    alloc: Global,
    value: &BorrowedValue<'_>,
    rows: usize,
    beside_tag: bool,
) -> Result<(), Stop> {
    let Some(variants) = value.as_array() else {
        return refuse(alloc, "a list is expected here");
    };
    for (n, variant) in variants.iter().enumerate() {
        inside_item(alloc, n, check_variant(alloc, variant, rows, beside_tag))?;
    }
    Ok(())
}

fn check_variant(
    alloc: Global,
    value: &BorrowedValue<'_>,
    rows: usize,
    beside_tag: bool,
) -> Result<(), Stop> {
    check_names(alloc, value, &["name", "notes", "payload"])?;
    check_text(alloc, value, "name")?;
    check_notes(alloc, value)?;
    match value.get("payload") {
        None => Ok(()),
        Some(payload) => inside(
            alloc,
            "payload",
            check_payload(alloc, payload, rows, beside_tag),
        ),
    }
}

fn check_payload(
    alloc: Global,
    value: &BorrowedValue<'_>,
    rows: usize,
    beside_tag: bool,
) -> Result<(), Stop> {
    match value {
        BorrowedValue::String(name) if *name == "unit" => Ok(()),
        BorrowedValue::Object(members) => match lone_member(members) {
            Some((name, part)) => inside(
                alloc,
                name,
                check_payload_under(alloc, name, part, rows, beside_tag),
            ),
            None => refuse(alloc, "an object of one member is expected here"),
        },
        _ => refuse(
            alloc,
            "`unit` is expected here, or an object with `newtype`, `tuple` or `struct`",
        ),
    }
}

fn check_payload_under(
    alloc: Global,
    name: &str,
    value: &BorrowedValue<'_>,
    rows: usize,
    beside_tag: bool,
) -> Result<(), Stop> {
    match name {
        "newtype" => check_row(alloc, value, rows),
        "tuple" if beside_tag => refuse(alloc, "no list can stand beside a tag"),
        "tuple" => check_rows(alloc, value, rows),
        "struct" => check_fields(alloc, value, rows),
        _ => refuse(alloc, "no variant has a payload of this name"),
    }
}
