//! Implementations, one a type.
use crate::body::Writer;
use crate::headers::Header;
use crate::keywords::ENTRY;
use crate::members::has_flattened;
use crate::names::{ID, Member, NAME, has_parameters, push_made};
use schemaderive_definitions::{Choices, Content, Definition, Form, Members, Part};
use schemaderive_known::Row;
use schemaderive_options::Notes;
use schemaderive_syntax::{Fault, Place};
use schemaderive_text::{literal, push_all};
use std::alloc::{AllocError, Global};

/// What is to be implemented for a type.
#[derive(Drop)]
pub struct Subject {
    /// where it is declared
    pub place: Place,
    /// the number of its declaration
    pub number: usize,
    /// the number of its row
    pub row: usize,
    /// for which type it is
    pub header: Header,
    /// what it is; none if it has the row of another type
    pub definition: Option<Definition>,
}

// The methods of a type that has the row of another.
const DELEGATION: &str = "    ghost says = { ⟦<$other$ as JsonSchema>⟧.says };

    fn inline_schema() -> bool {
        <$other$ as JsonSchema>::inline_schema()
    }

    fn schema_name(alloc: Global) -> Result<CowStr<'static>, AllocError> {
        <$other$ as JsonSchema>::schema_name(alloc)
    }

    fn schema_id(alloc: Global) -> Result<CowStr<'static>, AllocError> {
        <$other$ as JsonSchema>::schema_id(alloc)
    }

    fn json_schema(alloc: Global, types: &mut Types) -> Result<TypeEntry, TypesError> {
        <$other$ as JsonSchema>::json_schema(alloc, types)
    }
}
";

const OWN_SAYS: &str = "    ghost says = { own ($id$) (λ d. $parts$) };
";

const IN_PLACE: &str = "
    fn inline_schema() -> bool {
        $inline$
    }
";

const FIXED_TEXT: &str = "(_alloc: Global) -> Result<CowStr<'static>, AllocError> {
        Ok(CowStr::Borrowed($text$))
    }
";

const MADE_TEXT: &str = "(alloc: Global) -> Result<CowStr<'static>, AllocError> {
";

const SAME_ID: &str = "
    fn schema_id(alloc: Global) -> Result<CowStr<'static>, AllocError> {
        Self::schema_name(alloc)
    }
";

const TYPE_ENTRY: &str = "
    fn json_schema(alloc: Global, types: &mut Types) -> Result<TypeEntry, TypesError> {
";

// How many parts are not grouped.
const FLAT: usize = 8;

// How many parts are in a group.
const GROUP: usize = 4;

// What is around the call that makes an entry: if it is the value of the body, and if it gets keywords.
#[derive(Clone, Copy)]
struct Around {
    alone: (&'static str, &'static str),
    noted: (&'static str, &'static str),
}

// A call that makes an entry.
const SURE: Around = Around {
    alone: ("Ok(", ")"),
    noted: ("let mut entry = ", ";"),
};

// A call that may fail.
const TRIED: Around = Around {
    alone: ("", ""),
    noted: ("let mut entry = ", "?;"),
};

impl<'t> Writer<'t> {
    /// Adds the implementation of a type, which names these declarations by their ids.
    ///
    /// # Errors
    ///
    /// A type has no implementation, or an attribute says what an implementation can't say.
    pub fn add_item(&mut self, subject: &'t Subject, ancestors: &'t [usize]) -> Result<(), Fault> {
        self.begin(subject.row, &subject.header, ancestors)?;
        self.push_head_of_item()?;
        let rows = self.types.rows;
        match (&subject.definition, rows.get(subject.row)) {
            (Some(definition), Some(row)) => {
                self.add_body(definition)?;
                Ok(self.push_methods(row)?)
            }
            _ => {
                let other = self.short(subject.row, subject.place)?;
                let texts = [("other", other.as_str())];
                Ok(self.items.block(DELEGATION, &texts)?)
            }
        }
    }

    fn push_head_of_item(&mut self) -> Result<(), AllocError> {
        self.items.text.push_str("\nimpl")?;
        self.items.text.push_str(self.generics.as_str())?;
        self.items.text.push_str(" JsonSchema for ")?;
        self.items.text.push_str(self.ty.as_str())?;
        self.items.text.push_str(" {\n")
    }

    fn push_methods(&mut self, row: &Row) -> Result<(), AllocError> {
        self.push_says(row)?;
        self.items
            .block(IN_PLACE, &[("inline", truth(row.is_inline))])?;
        self.push_text_method(row.name.as_str(), NAME)?;
        if is_same(row) && !has_parameters(row.id.as_str()) {
            self.items.text.push_str(SAME_ID)?;
        } else {
            self.push_text_method(row.id.as_str(), ID)?;
        }
        self.push_body()
    }

    // Adds the method that makes the entry, and behind the implementation the functions that it calls.
    fn push_body(&mut self) -> Result<(), AllocError> {
        self.items.text.push_str(TYPE_ENTRY)?;
        self.items.text.push_str(self.lines.text.as_str())?;
        self.items.text.push_str("    }\n}\n")?;
        self.items.text.push_str(self.groups.text.as_str())
    }

    // Adds what a type says of its row.
    fn push_says(&mut self, row: &Row) -> Result<(), AllocError> {
        let mut id = String::new(self.alloc());
        self.push_clause(&mut id, row.id.as_str(), ID)?;
        let parts = self.parts()?;
        let (id, parts) = (id.as_str(), parts.as_str());
        if is_same(row) && !row.is_inline {
            self.imports.words(&["own"])?;
            return self.items.block(OWN_SAYS, &[("id", id), ("parts", parts)]);
        }
        self.push_record(row, id, parts)
    }

    fn push_record(&mut self, row: &Row, id: &str, parts: &str) -> Result<(), AllocError> {
        let inline = truth(row.is_inline);
        self.imports.words(&["Unsaid", inline])?;
        let mut name = String::new(self.alloc());
        self.push_clause(&mut name, row.name.as_str(), NAME)?;
        self.items
            .push(&["    ghost says = { record { id = ", id, "; name = "])?;
        self.items.push(&[name.as_str(), "; inline = ", inline])?;
        self.items
            .push(&["; making = Unsaid; parts = λ d. ", parts, " } };\n"])
    }

    // Adds a method that returns an id or a name.
    fn push_text_method(&mut self, text: &str, member: Member) -> Result<(), AllocError> {
        let alloc = self.alloc();
        self.items.push(&[
            "
    fn ",
            member.function,
        ])?;
        if !has_parameters(text) {
            let text = literal(alloc, text)?;
            return self.items.block(FIXED_TEXT, &[("text", text.as_str())]);
        }
        self.items.text.push_str(MADE_TEXT)?;
        let around = ["Ok(CowStr::Owned(", "?))"];
        push_made(alloc, &mut self.items, 8, text, member, around)?;
        self.items.text.push_str("    }\n")
    }

    // Adds the lines of the body that makes the entry of a type.
    fn add_body(&mut self, definition: &Definition) -> Result<(), Fault> {
        let notes = &definition.notes;
        match &definition.content {
            Content::Null => {
                self.say_registered("()")?;
                Ok(self.end_registered("()", notes)?)
            }
            Content::Newtype(part) => self.end_newtype(part, notes),
            Content::Tuple(parts) => {
                self.add_parts(parts)?;
                Ok(self.end(SURE, "tuple_entry", &["(alloc, numbers)"], notes)?)
            }
            Content::Struct(members) => {
                self.add_members(members)?;
                Ok(self.end_struct(members, notes)?)
            }
            Content::Enum(choices) => {
                self.add_choices(choices)?;
                Ok(self.end_choices(choices, notes)?)
            }
        }
    }

    // Adds the lines that make the entry by a call of this function, with keywords.
    fn end(
        &mut self,
        around: Around,
        function: &'static str,
        arguments: &[&str],
        notes: &Notes,
    ) -> Result<(), AllocError> {
        self.imports.call(function)?;
        let (before, behind) = if notes.is_empty() {
            around.alone
        } else {
            around.noted
        };
        self.lines.begin(self.indent)?;
        self.lines.push(&[before, function])?;
        self.lines.push(arguments)?;
        self.lines.push(&[behind, "\n"])?;
        if notes.is_empty() {
            return Ok(());
        }
        self.add_notes(ENTRY, notes)?;
        self.lines.line(self.indent, &["Ok(entry)"])
    }

    // Adds the lines that make the entry of a struct of one value, which has its keywords.
    fn end_newtype(&mut self, part: &Part, notes: &Notes) -> Result<(), Fault> {
        let mut all = part.all_notes(self.alloc())?;
        all.put_all(self.alloc(), notes)?;
        self.end_part(part, &all)
    }

    fn end_part(&mut self, part: &Part, notes: &Notes) -> Result<(), Fault> {
        if self.leads_back(part) {
            self.own_number(part)?;
            let arguments = ["(alloc, types, number)"];
            return Ok(self.end(TRIED, "newtype_entry_of", &arguments, notes)?);
        }
        let ty = self.registered(part)?;
        Ok(self.end_registered(ty.as_str(), notes)?)
    }

    fn end_registered(&mut self, ty: &str, notes: &Notes) -> Result<(), AllocError> {
        self.end(
            TRIED,
            "newtype_entry",
            &["::<", ty, ">(alloc, types)"],
            notes,
        )
    }

    fn end_struct(&mut self, members: &Members, notes: &Notes) -> Result<(), AllocError> {
        let closed = truth(members.is_closed);
        if has_flattened(members) {
            let arguments = ["(alloc, fields, parts, ", closed, ")"];
            return self.end(SURE, "flat_entry", &arguments, notes);
        }
        let arguments = ["(alloc, fields, ", closed, ")"];
        self.end(SURE, "struct_entry", &arguments, notes)
    }

    // Adds the keys of an enum, and the lines that make its entry.
    fn end_choices(&mut self, choices: &Choices, notes: &Notes) -> Result<(), AllocError> {
        self.add_key("tag", &choices.tag)?;
        self.add_key("content", &choices.content)?;
        let closed = truth(choices.is_closed);
        let (function, keys, closed) = match choices.form {
            Form::External => ("external_entry", "(alloc, ", ""),
            Form::Untagged => ("untagged_entry", "(alloc, ", ""),
            Form::Internal => ("internal_entry", "(alloc, tag, ", closed),
            Form::Adjacent => ("adjacent_entry", "(alloc, tag, content, ", closed),
        };
        let variants = if closed.is_empty() {
            "variants)"
        } else {
            ", variants)"
        };
        self.end(SURE, function, &[keys, closed, variants], notes)
    }

    fn add_key(&mut self, name: &str, key: &Option<String>) -> Result<(), AllocError> {
        let Some(key) = key else {
            return Ok(());
        };
        let key = literal(self.alloc(), key.as_str())?;
        self.add_text(name, "String::from_str", key.as_str())
    }

    // The parts of a dictionary of which it says something. More than eight are in groups of four at
    // most, and so are the groups, so that the check finds each of them in a few steps.
    fn parts(&self) -> Result<String, AllocError> {
        let alloc = self.alloc();
        if self.says.is_empty() {
            return String::from_str(alloc, "Unit {0}");
        }
        if self.says.len() <= FLAT {
            return product(alloc, &self.says, "", "");
        }
        let mut parts = grouped(alloc, &self.says)?;
        for _ in 0..self.says.len() {
            if parts.len() <= GROUP {
                break;
            }
            parts = grouped(alloc, &parts)?;
        }
        product(alloc, &parts, "", "")
    }
}

// Groups of parts, each as one.
fn grouped(alloc: Global, parts: &[String]) -> Result<Vec<String>, AllocError> {
    let mut groups = Vec::new(alloc);
    for group in parts.chunks(GROUP) {
        let whole = if group.len() == 1 {
            product(alloc, group, "", "")?
        } else {
            product(alloc, group, "(", ")")?
        };
        groups.push(whole)?;
    }
    Ok(groups)
}

// Parts as one, between these texts.
fn product(
    alloc: Global,
    parts: &[String],
    before: &str,
    behind: &str,
) -> Result<String, AllocError> {
    let mut product = String::from_str(alloc, before)?;
    push_product(&mut product, parts)?;
    product.push_str(behind)?;
    Ok(product)
}

fn push_product(product: &mut String, parts: &[String]) -> Result<(), AllocError> {
    let mut is_first = true;
    for part in parts {
        let times = if is_first { "" } else { " × " };
        push_all(product, &[times, part.as_str()])?;
        is_first = false;
    }
    Ok(())
}

fn truth(is_so: bool) -> &'static str {
    if is_so { "true" } else { "false" }
}

// Whether the id of a row is its name.
fn is_same(row: &Row) -> bool {
    row.id.as_str() == row.name.as_str()
}
