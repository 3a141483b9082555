//! What is found in a table.
use crate::places::row_place;
use schemars_types::{TypeNo, Types};
use std::alloc::{AllocError, Global};

/// How much a finding weighs.
#[derive(Clone, Copy, Debug, PartialEq, Eq)]
pub enum Severity {
    /// `schemagen types` refuses the table.
    Fault,
    /// No fault, but seldom meant. The verdict is the same without it.
    Warning,
    /// Why the table is not plain.
    NotPlain,
}

impl Severity {
    /// The word with which a line of the report begins.
    pub fn word(self) -> &'static str {
        match self {
            Severity::Fault => "fault",
            Severity::Warning => "warning",
            Severity::NotPlain => "not plain",
        }
    }
}

/// What a finding is about.
#[derive(Clone, Copy, Debug, PartialEq, Eq)]
pub enum Kind {
    /// The text is not UTF-8, or not JSON.
    Syntax,
    /// The value is not a table.
    Form,
    /// The root is not a row.
    Root,
    /// A row without a shape.
    Undefined,
    /// A name that is there twice.
    RepeatedName,
    /// A cycle of rows that are written in place.
    InlineCycle,
    /// A cycle of rows that have the values of the next.
    EmptyCycle,
    /// A member that an object has twice.
    RepeatedMember,
    /// A primitive that becomes a definition.
    Primitive,
    /// An Option that is required.
    RequiredOption,
    /// A row to which the root does not lead.
    Unused,
    /// Rows of one name.
    SameName,
    /// Keys that are not written as texts.
    Keys,
    /// A type without values.
    NoValue,
    /// An annotation of a wrong form.
    NoteForm,
    /// A pattern that is no regular expression.
    Pattern,
    /// A format of no standard.
    Format,
    /// A variant that an earlier one hides.
    Hidden,
    /// A note where definitions have to be.
    Definitions,
    /// A note that is no annotation.
    Note,
    /// A keyword of a literal.
    Keyword,
    /// `enum` beside `const`, or one of them beside the type null.
    OneValue,
    /// A row that may not be flattened.
    Flattened,
    /// A field that is there twice.
    RepeatedField,
    /// A field with the name of the tag.
    TagField,
    /// A row beside the tag.
    TaggedRow,
    /// No reason that has a kind of its own.
    Other,
}

impl Kind {
    /// How much a finding of this kind weighs.
    pub fn severity(self) -> Severity {
        match self {
            Kind::Syntax | Kind::Form | Kind::Root | Kind::Undefined => Severity::Fault,
            Kind::RepeatedName | Kind::InlineCycle | Kind::EmptyCycle => Severity::Fault,
            Kind::RepeatedMember | Kind::Primitive | Kind::RequiredOption => Severity::Warning,
            Kind::Unused | Kind::SameName | Kind::Keys | Kind::NoValue => Severity::Warning,
            Kind::NoteForm | Kind::Pattern | Kind::Format | Kind::Hidden => Severity::Warning,
            Kind::Definitions => Severity::Warning,
            Kind::Note | Kind::Keyword | Kind::OneValue | Kind::Flattened => Severity::NotPlain,
            Kind::RepeatedField | Kind::TagField | Kind::TaggedRow => Severity::NotPlain,
            Kind::Other => Severity::NotPlain,
        }
    }

    /// The name of the kind in a report as JSON.
    pub fn name(self) -> &'static str {
        match self {
            Kind::Syntax => "syntax",
            Kind::Form => "form",
            Kind::Root => "root",
            Kind::Undefined => "undefined",
            Kind::RepeatedName => "repeated-name",
            Kind::InlineCycle => "inline-cycle",
            Kind::EmptyCycle => "empty-cycle",
            Kind::RepeatedMember => "repeated-member",
            Kind::Primitive => "primitive",
            Kind::RequiredOption => "required-option",
            Kind::Unused => "unused",
            Kind::SameName => "same-name",
            Kind::Keys => "keys",
            Kind::NoValue => "no-value",
            Kind::NoteForm => "note-form",
            Kind::Pattern => "pattern",
            Kind::Format => "format",
            Kind::Hidden => "hidden",
            Kind::Definitions => "definitions",
            Kind::Note => "note",
            Kind::Keyword => "keyword",
            Kind::OneValue => "one-value",
            Kind::Flattened => "flattened",
            Kind::RepeatedField => "repeated-field",
            Kind::TagField => "tag-field",
            Kind::TaggedRow => "tagged-row",
            Kind::Other => "other",
        }
    }
}

/// Something that is found in a table.
#[derive(Debug, Drop)]
pub struct Finding {
    pub kind: Kind,
    /// A JSON Pointer (RFC 6901) into the table. It is empty for the whole text.
    pub place: String,
    /// The id of the row at the place.
    pub id: Option<String>,
    /// What is found, in a sentence.
    pub sentence: String,
}

/// Adds a finding at a place.
pub fn add(
    alloc: Global,
    findings: &mut Vec<Finding>,
    kind: Kind,
    place: &str,
    sentence: &str,
) -> Result<(), AllocError> {
    let finding = Finding {
        kind,
        place: String::from_str(alloc, place)?,
        id: None,
        sentence: String::from_str(alloc, sentence)?,
    };
    findings.push(finding)?;
    Ok(())
}

/// Adds a finding at a row.
pub fn add_at_row(
    alloc: Global,
    findings: &mut Vec<Finding>,
    kind: Kind,
    types: &Types,
    n: TypeNo,
    sentence: &str,
) -> Result<(), AllocError> {
    let id = match types.id(n) {
        Some(id) => Some(String::from_str(alloc, id)?),
        None => None,
    };
    let finding = Finding {
        kind,
        place: row_place(alloc, n)?,
        id,
        sentence: String::from_str(alloc, sentence)?,
    };
    findings.push(finding)?;
    Ok(())
}
