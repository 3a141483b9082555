//! Tables as JSON.
use schemaderive_definitions::Table;
use schemaderive_known::Row;
use schemaderive_options::push_quoted;
use std::alloc::{AllocError, Global};

/// The JSON of a table, with a line for each row.
pub fn table_json(alloc: Global, table: &Table) -> Result<String, AllocError> {
    let mut text = String::from_str(alloc, "{\"types\":[")?;
    let mut is_first = true;
    for row in &table.rows {
        text.push_str(if is_first { "\n" } else { ",\n" })?;
        is_first = false;
        push_row(alloc, &mut text, row)?;
    }
    let root = format!(in alloc; "],\n\"root\":{}}}\n", table.root)?;
    text.push_str(root.as_str())?;
    Ok(text)
}

fn push_row(alloc: Global, text: &mut String, row: &Row) -> Result<(), AllocError> {
    text.push_str("{\"id\":")?;
    push_quoted(alloc, text, row.id.as_str())?;
    text.push_str(",\"name\":")?;
    push_quoted(alloc, text, row.name.as_str())?;
    if row.is_inline {
        text.push_str(",\"inline\":true")?;
    }
    text.push_str(",\"shape\":")?;
    text.push_str(row.shape.as_str())?;
    if !row.notes.is_empty() {
        text.push_str(",\"notes\":")?;
        row.notes.push_object(alloc, text)?;
    }
    text.push('}')
}
