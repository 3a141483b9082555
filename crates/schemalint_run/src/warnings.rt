//! What is not a fault, but seldom meant.
use crate::findings::{Finding, Kind, add_at_row};
use crate::forms::add_forms;
use crate::hidden::add_hidden;
use crate::keys::add_keys;
use crate::reach::reached;
use crate::values::add_without_values;
use crate::variants::{Named, named_in};
use schemars_shapes::AnyVariant;
use schemars_types::{Field, Shape, TypeEntry, TypeNo, Types};
use std::alloc::{AllocError, Global};
use std::collections::BTreeMap;

/// Adds what is no fault of a table, but seldom meant.
pub fn add_warnings(
    alloc: Global,
    types: &Types,
    root: TypeNo,
    findings: &mut Vec<Finding>,
) -> Result<(), AllocError> {
    let met = reached(alloc, types, root)?;
    for n in 0..types.len() {
        if let Some(entry) = types.entry(n) {
            if n != root {
                add_primitive(alloc, types, n, entry, findings)?;
            }
            add_of_row(alloc, types, n, entry, findings)?;
        }
        if met.get(n) == Some(&false) {
            let sentence = "the root leads to no value of this row";
            add_at_row(alloc, findings, Kind::Unused, types, n, sentence)?;
        }
    }
    add_without_values(alloc, types, findings)?;
    add_definitions(alloc, types, root, &met, findings)?;
    add_same_names(alloc, types, findings)
}

fn add_of_row(
    alloc: Global,
    types: &Types,
    n: TypeNo,
    entry: &TypeEntry,
    findings: &mut Vec<Finding>,
) -> Result<(), AllocError> {
    add_options(alloc, types, n, &entry.shape, findings)?;
    add_keys(alloc, types, n, &entry.shape, findings)?;
    add_hidden(alloc, types, n, &entry.shape, findings)?;
    add_forms(alloc, types, n, entry, findings)
}

fn add_primitive(
    alloc: Global,
    types: &Types,
    n: TypeNo,
    entry: &TypeEntry,
    findings: &mut Vec<Finding>,
) -> Result<(), AllocError> {
    if entry.inline || !is_primitive(&entry.shape) {
        return Ok(());
    }
    let sentence = "a primitive that is not `inline` becomes a definition";
    add_at_row(alloc, findings, Kind::Primitive, types, n, sentence)
}

// Notes of the root where definitions have to be, if there are some.
fn add_definitions(
    alloc: Global,
    types: &Types,
    root: TypeNo,
    met: &[bool],
    findings: &mut Vec<Finding>,
) -> Result<(), AllocError> {
    let Some(entry) = types.entry(root) else {
        return Ok(());
    };
    if !has_definitions(types, root, met) {
        return Ok(());
    }
    for key in &["$defs", "definitions"] {
        if let Some(note) = entry.notes.get(*key)
            && !note.is_object()
        {
            let sentence = format!(in alloc;
                "the note {key:?} of the root is no object: definitions have no place there"
            )?;
            add_at_row(
                alloc,
                findings,
                Kind::Definitions,
                types,
                root,
                sentence.as_str(),
            )?;
        }
    }
    Ok(())
}

// Whether the root leads to a row that is written as a definition.
fn has_definitions(types: &Types, root: TypeNo, met: &[bool]) -> bool {
    for n in 0..types.len() {
        if n != root
            && met.get(n) == Some(&true)
            && let Some(entry) = types.entry(n)
            && !entry.inline
        {
            return true;
        }
    }
    false
}

fn is_primitive(shape: &Shape) -> bool {
    match shape {
        Shape::Null | Shape::Bool | Shape::Int(_) | Shape::NonZero(_) => true,
        Shape::Number | Shape::Text | Shape::Char | Shape::Formatted(_) => true,
        Shape::Any | Shape::Bytes | Shape::SchemaItself => true,
        Shape::Option(_) | Shape::Newtype(_) | Shape::Seq(_) | Shape::Set(_) => false,
        Shape::Array(..) | Shape::UpTo(..) | Shape::Tuple(_) | Shape::Struct(_) => false,
        Shape::Result(..) | Shape::Either(..) => false,
        Shape::Bound(_) | Shape::Range(_) | Shape::Map(..) => false,
        Shape::External(_) | Shape::Untagged(_) | Shape::Internal(_) | Shape::Adjacent(_) => false,
        Shape::Literal(_) => false,
    }
}

// Two rows of one name: the definition of the second gets another.
fn add_same_names(
    alloc: Global,
    types: &Types,
    findings: &mut Vec<Finding>,
) -> Result<(), AllocError> {
    let mut first = BTreeMap::new(alloc);
    for n in 0..types.len() {
        let Some(name) = types.name(n) else {
            break;
        };
        match first.get(name) {
            None => {
                first.insert(name, n)?;
            }
            Some(m) => {
                let sentence = format!(in alloc; "row {m} has the name {name:?} too")?;
                add_at_row(alloc, findings, Kind::SameName, types, n, sentence.as_str())?;
            }
        }
    }
    Ok(())
}

// Fields with a row that is an Option, which have to be there when they are read.
fn add_options(
    alloc: Global,
    types: &Types,
    n: TypeNo,
    shape: &Shape,
    findings: &mut Vec<Finding>,
) -> Result<(), AllocError> {
    match named_in(shape) {
        Named::Fields(fields) => add_of_fields(alloc, types, n, &fields.list, findings),
        Named::Variants(variants) => add_of_variants(alloc, types, n, variants, findings),
        Named::Internal(internal) => {
            add_of_variants(alloc, types, n, &internal.variants, findings)
        }
        Named::Nothing => Ok(()),
    }
}

fn add_of_variants<V: AnyVariant>(
    alloc: Global,
    types: &Types,
    n: TypeNo,
    variants: &[V],
    findings: &mut Vec<Finding>,
) -> Result<(), AllocError> {
    for variant in variants {
        if let Some(fields) = variant.fields() {
            add_of_fields(alloc, types, n, &fields.list, findings)?;
        }
    }
    Ok(())
}

fn add_of_fields(
    alloc: Global,
    types: &Types,
    n: TypeNo,
    fields: &[Field],
    findings: &mut Vec<Finding>,
) -> Result<(), AllocError> {
    for field in fields {
        if field.required.deserialize && is_option(types, field.ty) {
            let name = field.name.as_str();
            let sentence = format!(in alloc; "the field {name:?} is an Option, and required")?;
            add_at_row(
                alloc,
                findings,
                Kind::RequiredOption,
                types,
                n,
                sentence.as_str(),
            )?;
        }
    }
    Ok(())
}

fn is_option(types: &Types, n: TypeNo) -> bool {
    match types.entry(n) {
        Some(entry) => entry.shape.option().is_some(),
        None => false,
    }
}
