//! Variants without a tag that an earlier one hides.
use crate::findings::{Finding, Kind, add_at_row};
use schemars_types::{Fields, Payload, Shape, TypeNo, Types, Variant};
use std::alloc::{AllocError, Global};
use std::collections::BTreeMap;

/// Adds a warning for each variant of an untagged enum that has the form of an earlier one: every
/// value that it has is read as the earlier one.
pub fn add_hidden(
    alloc: Global,
    types: &Types,
    n: TypeNo,
    shape: &Shape,
    findings: &mut Vec<Finding>,
) -> Result<(), AllocError> {
    let Shape::Untagged(variants) = shape else {
        return Ok(());
    };
    let mut first: BTreeMap<String, &str> = BTreeMap::new(alloc);
    for variant in variants {
        let name = variant.name.as_str();
        let form = form_of(alloc, variant)?;
        match first.get(form.as_str()) {
            None => {
                first.insert(form, name)?;
            }
            Some(earlier) => {
                let sentence = format!(in alloc;
                    "the variant {name:?} is never read: {earlier:?} has the same form"
                )?;
                add_at_row(alloc, findings, Kind::Hidden, types, n, sentence.as_str())?;
            }
        }
    }
    Ok(())
}

// A text that variants have in common if and only if their payloads have the same rows and fields.
fn form_of(alloc: Global, variant: &Variant) -> Result<String, AllocError> {
    match &variant.payload {
        Payload::Unit => String::from_str(alloc, "unit"),
        Payload::Newtype(n) => format!(in alloc; "{n}"),
        Payload::Tuple(items) => format!(in alloc; "{items:?}"),
        Payload::Struct(fields) => form_of_fields(alloc, fields),
    }
}

fn form_of_fields(alloc: Global, fields: &Fields) -> Result<String, AllocError> {
    let closed = fields.closed;
    let mut form = format!(in alloc; "closed {closed}")?;
    for field in &fields.list {
        let name = field.name.as_str();
        let row = field.ty;
        let required = field.required.deserialize;
        let part = format!(in alloc; " {name:?} {row} {required}")?;
        form.push_str(part.as_str())?;
    }
    for part in &fields.flatten {
        let row = part.ty;
        let required = part.required.deserialize;
        let part = format!(in alloc; " flattened {row} {required}")?;
        form.push_str(part.as_str())?;
    }
    Ok(form)
}
