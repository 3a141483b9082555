//! What documentation says.
use crate::context::Context;
use crate::notes::Notes;
use crate::values::text_of;
use schemaderive_syntax::{Fault, Meta, MetaValue};
use std::alloc::AllocError;

/// Adds the title and the description that documentation gives.
///
/// # Errors
///
/// The text of a documentation is computed.
pub fn add_docs(
    context: &Context,
    attributes: &[Meta<'_>],
    notes: &mut Notes,
) -> Result<(), Fault> {
    let mut doc = String::new(context.alloc);
    for attribute in attributes {
        if attribute.name == "doc" {
            push_doc(context, attribute, &mut doc)?;
        }
    }
    add_parts(context, doc.as_str(), notes)?;
    Ok(())
}

// Adds the lines of an attribute of documentation. One with a list, as `doc(hidden)`, has none.
fn push_doc(context: &Context, attribute: &Meta<'_>, doc: &mut String) -> Result<(), Fault> {
    match attribute.value {
        MetaValue::List(_) | MetaValue::Nothing => {}
        MetaValue::Doc(_) | MetaValue::Equals(_) => {
            let text = text_of(context, attribute)?;
            doc.push_str(without_space(text.as_str()))?;
            doc.push('\n')?;
        }
    }
    Ok(())
}

// A line without the space at its beginning.
fn without_space(line: &str) -> &str {
    line.strip_prefix(' ').unwrap_or(line)
}

fn trimmed(text: &str) -> &str {
    text.trim_matches(|c: char| c.is_ascii_whitespace())
}

// Adds the title of a text that begins as a heading, and the rest as the description.
fn add_parts(context: &Context, doc: &str, notes: &mut Notes) -> Result<(), AllocError> {
    let text = trimmed(doc);
    if !text.starts_with('#') {
        return add_text(context, notes, "description", text);
    }
    let (heading, rest) = text.split_once('\n').unwrap_or((text, ""));
    add_text(
        context,
        notes,
        "title",
        trimmed(heading.trim_start_matches('#')),
    )?;
    add_text(context, notes, "description", trimmed(rest))
}

fn add_text(context: &Context, notes: &mut Notes, key: &str, text: &str) -> Result<(), AllocError> {
    if text.is_empty() {
        return Ok(());
    }
    notes.put_text(context.alloc, key, text)
}
