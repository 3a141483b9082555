//! The parts of types, with what attributes say of their values.
use crate::content::Part;
use schemaderive_known::{Kind, Row};
use schemaderive_options::{FieldOptions, Notes, Rule, RuleKind, Validation};
use schemaderive_rows::{Builder, Scope};
use schemaderive_syntax::{Fault, Field};
use std::alloc::{AllocError, Global};

// How deep types may nest in a field.
const MAX_DEPTH: usize = 128;

// The keyword of a rule for values of this kind.
fn keyword_of(rule: RuleKind, kind: Kind) -> Option<&'static str> {
    match (rule, kind) {
        (RuleKind::Minimum, Kind::Number) => Some("minimum"),
        (RuleKind::Maximum, Kind::Number) => Some("maximum"),
        (RuleKind::Shortest, Kind::Text) => Some("minLength"),
        (RuleKind::Longest, Kind::Text) => Some("maxLength"),
        (RuleKind::Shortest, Kind::List) => Some("minItems"),
        (RuleKind::Longest, Kind::List) => Some("maxItems"),
        (RuleKind::Pattern, Kind::Text) => Some("pattern"),
        (RuleKind::Format, _) => Some("format"),
        _ => None,
    }
}

/// The part of a field's type, with what its rules say.
///
/// # Errors
///
/// The type is not known.
pub fn part_of(
    builder: &mut Builder<'_>,
    field: &Field<'_>,
    options: &FieldOptions,
    scope: &Scope,
) -> Result<Part, Fault> {
    let ty = match &options.stands_for {
        Some(ty) => ty,
        None => &field.ty,
    };
    let row = builder.row_of(ty, scope, field.place, MAX_DEPTH)?;
    let plain = if options.validation.is_required {
        without_option(builder, row)
    } else {
        row
    };
    let rules = rules_of(builder, plain, &options.validation)?;
    let row = ruled(builder, plain, &rules)?;
    Ok(Part {
        place: field.place,
        plain,
        row,
        rules,
        notes: Notes::new(builder.alloc()),
    })
}

// The row that Options of it are of.
fn without_option(builder: &Builder<'_>, row: usize) -> usize {
    let mut row = row;
    for _ in 0..builder.rows.len() {
        match builder.rows.get(row) {
            Some(entry) => match entry.inner {
                Some(inner) => row = inner,
                None => break,
            },
            None => break,
        }
    }
    row
}

/// The part of a field's type, with its keywords in the row.
///
/// # Errors
///
/// The type is not known.
pub fn noted_part(
    builder: &mut Builder<'_>,
    field: &Field<'_>,
    options: &FieldOptions,
    scope: &Scope,
) -> Result<Part, Fault> {
    let mut part = whole_part(builder, field, options, scope)?;
    let notes = part.unsaid(builder.alloc())?;
    part.row = noted(builder, part.row, notes)?;
    Ok(part)
}

/// The part of a field's type, with its keywords beside the row.
///
/// # Errors
///
/// The type is not known.
pub fn whole_part(
    builder: &mut Builder<'_>,
    field: &Field<'_>,
    options: &FieldOptions,
    scope: &Scope,
) -> Result<Part, Fault> {
    let mut part = part_of(builder, field, options, scope)?;
    part.notes.put_all(builder.alloc(), &options.notes)?;
    Ok(part)
}

// A row with further keywords.
fn noted(builder: &mut Builder<'_>, row: usize, notes: Notes) -> Result<usize, AllocError> {
    if notes.is_empty() {
        return Ok(row);
    }
    let alloc = builder.alloc();
    let mut wrapper = wrapper_of(builder, row, &notes)?;
    wrapper.notes = notes;
    builder.add(wrapper)
}

fn wrapper_of(builder: &Builder<'_>, row: usize, notes: &Notes) -> Result<Row, AllocError> {
    let alloc = builder.alloc();
    let id = id_with(alloc, builder.id(row), notes)?;
    let shape = format!(in alloc; "{{\"newtype\":{row}}}")?;
    Row::new(alloc, id.as_str(), builder.name(row), shape)
}

// The id of a row with keywords.
fn id_with(alloc: Global, id: &str, notes: &Notes) -> Result<String, AllocError> {
    let mut whole = String::from_str(alloc, id)?;
    whole.push_str(" with ")?;
    notes.push_object(alloc, &mut whole)?;
    Ok(whole)
}

// The keywords of rules for values of this row.
fn rules_of(
    builder: &mut Builder<'_>,
    row: usize,
    validation: &Validation,
) -> Result<Notes, AllocError> {
    let kind = match builder.rows.get(row) {
        Some(entry) => entry.kind,
        None => Kind::Other,
    };
    let mut keywords = Notes::new(builder.alloc());
    for rule in &validation.rules {
        add_rule(builder, rule, kind, &mut keywords)?;
    }
    Ok(keywords)
}

// Adds the keyword of a rule, or a warning that it says nothing.
fn add_rule(
    builder: &mut Builder<'_>,
    rule: &Rule,
    kind: Kind,
    keywords: &mut Notes,
) -> Result<(), AllocError> {
    let alloc = builder.alloc();
    match keyword_of(rule.kind, kind) {
        Some(key) => keywords.put(alloc, key, String::from_str(alloc, rule.json.as_str())?),
        None => {
            let reason = "this says nothing of values of the type";
            builder.context.warn(rule.place, rule.name.as_str(), reason)
        }
    }
}

// The row of those values of a row that fit keywords; the row itself if its document is not known.
fn ruled(builder: &mut Builder<'_>, row: usize, keywords: &Notes) -> Result<usize, AllocError> {
    match builder.rows.get(row) {
        Some(entry) if is_known(entry) && !keywords.is_empty() => {
            let literal = literal_of(builder.alloc(), entry, keywords)?;
            builder.add(literal)
        }
        _ => Ok(row),
    }
}

// Whether the document of a row is known.
fn is_known(entry: &Row) -> bool {
    !entry.keywords.is_empty() && entry.is_inline
}

// A literal of a row's document with further keywords.
fn literal_of(alloc: Global, entry: &Row, keywords: &Notes) -> Result<Row, AllocError> {
    let mut all = Notes::new(alloc);
    all.put_all(alloc, &entry.keywords)?;
    all.put_all(alloc, keywords)?;
    let mut literal = literal_row(alloc, entry, keywords, &all)?;
    literal.keywords = all;
    literal.kind = entry.kind;
    literal.inner = entry.inner;
    if let Some(json) = &entry.default {
        literal.default = Some(String::from_str(alloc, json.as_str())?);
    }
    Ok(literal)
}

// The row of a literal with all these keywords, of which some are further ones.
fn literal_row(
    alloc: Global,
    entry: &Row,
    keywords: &Notes,
    all: &Notes,
) -> Result<Row, AllocError> {
    let id = id_with(alloc, entry.id.as_str(), keywords)?;
    let mut shape = String::from_str(alloc, "{\"literal\":")?;
    all.push_object(alloc, &mut shape)?;
    shape.push('}')?;
    Row::new(alloc, id.as_str(), entry.name.as_str(), shape)
}
