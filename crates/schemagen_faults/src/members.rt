//! The members of objects, and what single values say.
use crate::stop::{Stop, fault_here, inside, inside_item, refuse};
use schemagen_input::kind_in;
use schemagen_json::BorrowedValue;
use schemars_schema::edits::is_listed;
use std::alloc::Global;

/// An object whose members all have one of these names.
pub fn check_names(alloc: Global, value: &BorrowedValue<'_>, names: &[&str]) -> Result<(), Stop> {
    let Some(members) = value.as_object() else {
        return refuse(alloc, "an object is expected here");
    };
    for (name, _) in members {
        if !is_listed(name, names) {
            return inside(
                alloc,
                name,
                refuse(alloc, "no member of this name is known here"),
            );
        }
    }
    Ok(())
}

/// The object has no member of this name.
pub fn missing(alloc: Global, name: &str) -> Result<(), Stop> {
    let reason = format!(in alloc; "the member `{name}` is missing")?;
    fault_here(alloc, reason)
}

/// A member that has to be there, with a text.
pub fn check_text(alloc: Global, value: &BorrowedValue<'_>, name: &str) -> Result<(), Stop> {
    match value.get(name) {
        None => missing(alloc, name),
        Some(text) if text.as_str().is_some() => Ok(()),
        Some(_) => inside(alloc, name, refuse(alloc, "a text is expected here")),
    }
}

/// A truth value, if the member is there.
pub fn check_flag(alloc: Global, value: &BorrowedValue<'_>, name: &str) -> Result<(), Stop> {
    match value.get(name) {
        Some(flag) if flag.as_bool().is_none() => {
            inside(alloc, name, refuse(alloc, "a truth value is expected here"))
        }
        _ => Ok(()),
    }
}

/// An object, if there are notes.
pub fn check_notes(alloc: Global, value: &BorrowedValue<'_>) -> Result<(), Stop> {
    match value.get("notes") {
        Some(notes) if notes.as_object().is_none() => {
            inside(alloc, "notes", refuse(alloc, "an object is expected here"))
        }
        _ => Ok(()),
    }
}

/// A whole number, not below 0.
pub fn check_count(alloc: Global, value: &BorrowedValue<'_>, name: &str) -> Result<(), Stop> {
    match value.get(name) {
        None => missing(alloc, name),
        Some(count) if count.as_u64().is_some() => Ok(()),
        Some(_) => inside(
            alloc,
            name,
            refuse(alloc, "a whole number from 0 is expected here"),
        ),
    }
}

/// The number of one of `rows` rows.
pub fn check_row(alloc: Global, value: &BorrowedValue<'_>, rows: usize) -> Result<(), Stop> {
    let Some(n) = value.as_u64() else {
        return refuse(alloc, "the number of a row is expected here");
    };
    if n < rows as u64 {
        return Ok(());
    }
    let reason = format!(in alloc; "{n} is no row of a table of {rows}")?;
    fault_here(alloc, reason)
}

/// A member that has to be there, with the number of a row.
pub fn check_row_in(
    alloc: Global,
    value: &BorrowedValue<'_>,
    name: &str,
    rows: usize,
) -> Result<(), Stop> {
    match value.get(name) {
        None => missing(alloc, name),
        Some(row) => inside(alloc, name, check_row(alloc, row, rows)),
    }
}

/// A list of the numbers of rows.
pub fn check_rows(alloc: Global, value: &BorrowedValue<'_>, rows: usize) -> Result<(), Stop> {
    let Some(values) = value.as_array() else {
        return refuse(alloc, "a list is expected here");
    };
    for (n, row) in values.iter().enumerate() {
        inside_item(alloc, n, check_row(alloc, row, rows))?;
    }
    Ok(())
}

/// The name of a kind of integers.
pub fn check_kind(alloc: Global, value: &BorrowedValue<'_>) -> Result<(), Stop> {
    match kind_in(value) {
        Some(_) => Ok(()),
        None => refuse(alloc, "a kind of integers is expected here, such as `i32`"),
    }
}
