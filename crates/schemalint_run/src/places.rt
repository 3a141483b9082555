//! Places in a table.
use schemars_types::TypeNo;
use std::alloc::{AllocError, Global};

/// The place of a row.
pub fn row_place(alloc: Global, n: TypeNo) -> Result<String, AllocError> {
    format!(in alloc; "/types/{n}")
}

/// The place of a member of what is at a place.
pub fn member_place(alloc: Global, place: &str, name: &str) -> Result<String, AllocError> {
    let mut whole = String::from_str(alloc, place)?;
    whole.push('/')?;
    for c in name.chars() {
        match c {
            '~' => whole.push_str("~0")?,
            '/' => whole.push_str("~1")?,
            _ => whole.push(c)?,
        }
    }
    Ok(whole)
}

/// The place of an item of what is at a place.
pub fn item_place(alloc: Global, place: &str, n: usize) -> Result<String, AllocError> {
    format!(in alloc; "{place}/{n}")
}
