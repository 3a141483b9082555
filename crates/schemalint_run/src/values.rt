//! Types to which no value belongs.
use crate::findings::{Finding, Kind, add_at_row};
use schemars_schema::Schema;
use schemars_shapes::{AnyPayload, AnyVariant, Rows, rows};
use schemars_types::{Fields, Flattened, Shape, TypeNo, Types, row_inside};
use serde_json::Value;
use std::alloc::{AllocError, Global};

/// Adds a warning for each row to which no value belongs when it is read.
pub fn add_without_values(
    alloc: Global,
    types: &Types,
    findings: &mut Vec<Finding>,
) -> Result<(), AllocError> {
    let known = rows_with_values(alloc, types)?;
    for n in 0..types.len() {
        if known.get(n) == Some(&false) {
            let sentence = "no value belongs to this row";
            add_at_row(alloc, findings, Kind::NoValue, types, n, sentence)?;
        }
    }
    Ok(())
}

// For each row whether a value belongs to it: the least solution, row by row, where a row that has
// been found to have one lets those that refer to it be looked at again.
fn rows_with_values(alloc: Global, types: &Types) -> Result<Vec<bool>, AllocError> {
    let mut known = vec![in alloc; false; types.len()]?;
    let (parents, edges) = parents_of(alloc, types)?;
    let mut waiting = Vec::with_capacity(alloc, types.len())?;
    for n in 0..types.len() {
        waiting.push(n)?;
    }
    for _ in 0..types.len().saturating_add(edges) {
        let Some(n) = waiting.pop() else {
            break;
        };
        if known.get(n) == Some(&false) && has_value(types, &known, n) {
            if let Some(place) = known.get_mut(n) {
                *place = true;
            }
            if let Some(above) = parents.get(n) {
                waiting.extend_from_slice(above)?;
            }
        }
    }
    Ok(known)
}

// For each row the rows that refer to it, and how many such pairs there are.
fn parents_of(alloc: Global, types: &Types) -> Result<(Vec<Vec<TypeNo>>, usize), AllocError> {
    let mut parents = Vec::with_capacity(alloc, types.len())?;
    for _ in 0..types.len() {
        parents.push(Vec::new(alloc))?;
    }
    let mut edges: usize = 0;
    for n in 0..types.len() {
        if let Some(entry) = types.entry(n) {
            for m in &rows(alloc, &entry.shape, Rows::All)? {
                if let Some(above) = parents.get_mut(*m) {
                    above.push(n)?;
                    edges = edges.saturating_add(1);
                }
            }
        }
    }
    Ok((parents, edges))
}

fn is_known(known: &[bool], n: TypeNo) -> bool {
    known.get(n) == Some(&true)
}

fn has_value(types: &Types, known: &[bool], n: TypeNo) -> bool {
    let Some(entry) = types.entry(n) else {
        return false;
    };
    match &entry.shape {
        Shape::Null | Shape::Bool | Shape::Int(_) | Shape::NonZero(_) => true,
        Shape::Number | Shape::Text | Shape::Char | Shape::Formatted(_) => true,
        Shape::Any | Shape::Bytes | Shape::SchemaItself => true,
        Shape::Option(_) | Shape::Seq(_) | Shape::Set(_) | Shape::UpTo(..) => true,
        Shape::Bound(_) | Shape::Map(..) => true,
        Shape::Array(item, len) => *len == 0 || is_known(known, *item),
        Shape::Tuple(items) => all_known(known, items),
        Shape::Newtype(inner) | Shape::Range(inner) => is_known(known, *inner),
        Shape::Result(a, b) | Shape::Either(a, b) => is_known(known, *a) || is_known(known, *b),
        Shape::Struct(fields) => fields_have_values(types, known, fields),
        Shape::External(variants) | Shape::Untagged(variants) => {
            some_has_value(types, known, variants)
        }
        Shape::Internal(internal) => some_has_value(types, known, &internal.variants),
        Shape::Adjacent(adjacent) => some_has_value(types, known, &adjacent.variants),
        Shape::Literal(schema) => literal_has_value(schema),
    }
}

fn all_known(known: &[bool], rows: &[TypeNo]) -> bool {
    for n in rows {
        if !is_known(known, *n) {
            return false;
        }
    }
    true
}

fn fields_have_values(types: &Types, known: &[bool], fields: &Fields) -> bool {
    for field in &fields.list {
        if field.required.deserialize && !is_known(known, field.ty) {
            return false;
        }
    }
    for part in &fields.flatten {
        if !part_has_value(types, known, part) {
            return false;
        }
    }
    true
}

// An Option that is flattened may add no member.
fn part_has_value(types: &Types, known: &[bool], part: &Flattened) -> bool {
    row_inside(types, part.ty).is_some() || is_known(known, part.ty)
}

fn some_has_value<V: AnyVariant>(types: &Types, known: &[bool], variants: &[V]) -> bool {
    for variant in variants {
        let has = match variant.payload() {
            AnyPayload::Unit => true,
            AnyPayload::Newtype(n) => is_known(known, n),
            AnyPayload::Tuple(items) => all_known(known, items),
            AnyPayload::Struct(fields) => fields_have_values(types, known, fields),
        };
        if has {
            return true;
        }
    }
    false
}

// Whether a value passes a literal, as far as single keywords tell.
fn literal_has_value(schema: &Schema) -> bool {
    let Some(members) = schema.as_object() else {
        return schema.as_bool() == Some(true);
    };
    match members.get("enum") {
        Some(Value::Array(values)) if values.is_empty() => return false,
        _ => {}
    }
    let kind = match members.get("type") {
        Some(Value::String(name)) => name.as_str(),
        _ => return true,
    };
    match kind {
        "integer" | "number" => are_in_order(members.get("minimum"), members.get("maximum")),
        "string" => are_in_order(members.get("minLength"), members.get("maxLength")),
        "array" => are_in_order(members.get("minItems"), members.get("maxItems")),
        _ => true,
    }
}

// Whether a number is between the bounds. Bounds that are no 64-bit whole numbers are not compared.
fn are_in_order(least: Option<&Value>, most: Option<&Value>) -> bool {
    let (Some(least), Some(most)) = (least, most) else {
        return true;
    };
    match (least.as_u64(), most.as_u64()) {
        (Some(a), Some(b)) => return a <= b,
        (Some(_), None) if most.as_i64().is_some() => return false,
        _ => {}
    }
    match (least.as_i64(), most.as_i64()) {
        (Some(a), Some(b)) => a <= b,
        _ => true,
    }
}
