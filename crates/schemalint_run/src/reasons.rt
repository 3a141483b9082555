//! Why a table is not plain.
use crate::findings::{Finding, Kind, add_at_row};
use crate::owners::owners_in;
use crate::variants::{Named, named_in};
use schemars_plain::{
    all_fields, are_notes, has_one_value, is_annotation, is_plain_member, is_plain_row,
};
use schemars_schema::Schema;
use schemars_shapes::AnyVariant;
use schemars_types::{
    Fields, Flattened, Internal, InternalPayload, Shape, TypeEntry, TypeNo, Types,
};
use std::alloc::{AllocError, Global};
use std::collections::BTreeSet;

// A row of a table, whose reasons are added.
#[derive(Clone, Copy)]
struct RowOf<'t> {
    alloc: Global,
    types: &'t Types,
    n: TypeNo,
}

impl RowOf<'_> {
    fn add(
        self,
        findings: &mut Vec<Finding>,
        kind: Kind,
        sentence: &str,
    ) -> Result<(), AllocError> {
        add_at_row(self.alloc, findings, kind, self.types, self.n, sentence)
    }
}

/// Adds why rows are not plain.
pub fn add_reasons(
    alloc: Global,
    types: &Types,
    findings: &mut Vec<Finding>,
) -> Result<(), AllocError> {
    for n in 0..types.len() {
        if !is_plain_row(alloc, types, n)?
            && let Some(entry) = types.entry(n)
        {
            add_reasons_of(RowOf { alloc, types, n }, entry, findings)?;
        }
    }
    Ok(())
}

// At least one reason for a row that is not plain.
fn add_reasons_of(
    row: RowOf<'_>,
    entry: &TypeEntry,
    findings: &mut Vec<Finding>,
) -> Result<(), AllocError> {
    let before = findings.len();
    add_notes(row, entry, findings)?;
    add_shape(row, &entry.shape, findings)?;
    if findings.len() == before {
        row.add(findings, Kind::Other, "the row is not plain")?;
    }
    Ok(())
}

// The notes that are not annotations.
fn add_notes(
    row: RowOf<'_>,
    entry: &TypeEntry,
    findings: &mut Vec<Finding>,
) -> Result<(), AllocError> {
    let alloc = row.alloc;
    for owner in &owners_in(alloc, entry)? {
        for (key, _) in owner.notes.iter() {
            let key = key.as_str();
            if !is_annotation(key) {
                let name = owner.name.as_str();
                let sentence = format!(in alloc; "the note {key:?} of {name} is no annotation")?;
                row.add(findings, Kind::Note, sentence.as_str())?;
            }
        }
    }
    Ok(())
}

fn add_shape(row: RowOf<'_>, shape: &Shape, findings: &mut Vec<Finding>) -> Result<(), AllocError> {
    if let Shape::Literal(schema) = shape {
        return add_literal(row, schema, findings);
    }
    match named_in(shape) {
        Named::Fields(fields) => add_fields(row, fields, findings),
        Named::Variants(variants) => add_variants(row, variants, findings),
        Named::Internal(internal) => add_internal(row, internal, findings),
        Named::Nothing => Ok(()),
    }
}

fn add_variants<V: AnyVariant>(
    row: RowOf<'_>,
    variants: &[V],
    findings: &mut Vec<Finding>,
) -> Result<(), AllocError> {
    for variant in variants {
        if let Some(fields) = variant.fields() {
            add_fields(row, fields, findings)?;
        }
    }
    Ok(())
}

fn add_fields(
    row: RowOf<'_>,
    fields: &Fields,
    findings: &mut Vec<Finding>,
) -> Result<(), AllocError> {
    for part in &fields.flatten {
        add_part(row, part, findings)?;
    }
    add_repeated(row, fields, findings)?;
    add_flattened_notes(row, fields, findings)
}

// Why a row may not be flattened in a plain table.
fn add_part(
    row: RowOf<'_>,
    part: &Flattened,
    findings: &mut Vec<Finding>,
) -> Result<(), AllocError> {
    let why = match row.types.entry(part.ty) {
        Some(entry) => match &entry.shape {
            Shape::Struct(fields) if fields.closed => "a struct that is closed to other keys",
            Shape::Struct(_) if !part.required.deserialize => "not required when it is read",
            Shape::Struct(_) if !part.required.serialize => "not required when it is written",
            Shape::Struct(_) => return Ok(()),
            Shape::Option(_) => "an Option",
            Shape::External(_) | Shape::Internal(_) => "an enum",
            _ => "no struct",
        },
        None => "not defined",
    };
    let alloc = row.alloc;
    let n = part.ty;
    let sentence = format!(in alloc; "row {n}, which is flattened, is {why}")?;
    row.add(findings, Kind::Flattened, sentence.as_str())
}

// The names of fields that are there before, own or flattened.
fn add_repeated(
    row: RowOf<'_>,
    fields: &Fields,
    findings: &mut Vec<Finding>,
) -> Result<(), AllocError> {
    let alloc = row.alloc;
    let mut names = BTreeSet::new(alloc);
    for field in &all_fields(alloc, row.types, fields)? {
        let name = field.name.as_str();
        if names.contains(&name) {
            let sentence = format!(in alloc;
                "the field {name:?} is there twice, its own or flattened"
            )?;
            row.add(findings, Kind::RepeatedField, sentence.as_str())?;
        } else {
            names.insert(name)?;
        }
    }
    Ok(())
}

// The notes of flattened fields that are not annotations.
fn add_flattened_notes(
    row: RowOf<'_>,
    fields: &Fields,
    findings: &mut Vec<Finding>,
) -> Result<(), AllocError> {
    let alloc = row.alloc;
    let own = fields.list.len();
    for field in all_fields(alloc, row.types, fields)?.iter().skip(own) {
        if !are_notes(&field.notes) {
            let name = field.name.as_str();
            let sentence = format!(in alloc;
                "the flattened field {name:?} has notes that are no annotations"
            )?;
            row.add(findings, Kind::Note, sentence.as_str())?;
        }
    }
    Ok(())
}

fn add_internal(
    row: RowOf<'_>,
    internal: &Internal,
    findings: &mut Vec<Finding>,
) -> Result<(), AllocError> {
    let alloc = row.alloc;
    let tag = internal.tag.as_str();
    for variant in &internal.variants {
        let name = variant.name.as_str();
        match &variant.payload {
            InternalPayload::Unit => {}
            InternalPayload::Newtype(n) => {
                let sentence = format!(in alloc;
                    "the variant {name:?} has the members of row {n} beside the tag"
                )?;
                row.add(findings, Kind::TaggedRow, sentence.as_str())?;
            }
            InternalPayload::Struct(fields) => {
                add_fields(row, fields, findings)?;
                if has_field(row, fields, tag)? {
                    let sentence = format!(in alloc;
                        "the variant {name:?} has a field {tag:?} beside the tag of that name"
                    )?;
                    row.add(findings, Kind::TagField, sentence.as_str())?;
                }
            }
        }
    }
    Ok(())
}

fn has_field(row: RowOf<'_>, fields: &Fields, name: &str) -> Result<bool, AllocError> {
    for field in &all_fields(row.alloc, row.types, fields)? {
        if field.name.as_str() == name {
            return Ok(true);
        }
    }
    Ok(false)
}

// What a literal has that is not promised to mean anything.
fn add_literal(
    row: RowOf<'_>,
    schema: &Schema,
    findings: &mut Vec<Finding>,
) -> Result<(), AllocError> {
    let Some(members) = schema.as_object() else {
        return Ok(());
    };
    let alloc = row.alloc;
    for (key, value) in members.iter() {
        let key = key.as_str();
        if !is_plain_member(key, value) {
            let sentence = format!(in alloc;
                "the keyword {key:?} of the literal is not promised in this form"
            )?;
            row.add(findings, Kind::Keyword, sentence.as_str())?;
        }
    }
    if has_one_value(schema.as_value()) {
        return Ok(());
    }
    let sentence = "the literal has `enum` beside `const`, or one of them beside the type null";
    row.add(findings, Kind::OneValue, sentence)
}
