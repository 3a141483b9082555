//! What types, fields and variants have in common.
use crate::context::{Context, Contract};
use crate::docs::add_docs;
use crate::lists::items_in;
use crate::notes::Notes;
use crate::values::{json_of, text_of};
use schemaderive_syntax::{
    Cursor, Fault, Meta, MetaValue, Place, TokenKind, TypeExpr, read_tokens, read_type,
};
use std::alloc::Global;

/// What `default` takes for a member that is missing.
#[derive(Clone, Copy)]
pub enum DefaultValue {
    /// the default of its type
    OfType(Place),
    /// what a function returns
    OfFunction(Place),
}

/// In which values a field or a variant is.
#[derive(Clone, Copy, PartialEq, Eq)]
pub struct Presence {
    /// in those that are read
    pub deserialize: bool,
    /// in those that are written
    pub serialize: bool,
}

impl Presence {
    /// In all values.
    pub fn everywhere() -> Presence {
        Presence {
            deserialize: true,
            serialize: true,
        }
    }

    /// Leaves it out where an attribute says so: `skip`, `skip_serializing` or `skip_deserializing`.
    pub fn leave_out(&mut self, attribute: &str) {
        if attribute != "skip_serializing" {
            self.deserialize = false;
        }
        if attribute != "skip_deserializing" {
            self.serialize = false;
        }
    }
}

/// Whether what has this presence is in the table.
///
/// # Errors
///
/// The table is for both contracts, and it is in the values of one alone.
pub fn is_present(context: &Context, place: Place, presence: Presence) -> Result<bool, Fault> {
    match context.contract {
        Contract::Deserialize => Ok(presence.deserialize),
        Contract::Serialize => Ok(presence.serialize),
        Contract::Both if presence.deserialize == presence.serialize => Ok(presence.serialize),
        Contract::Both => {
            let name = if presence.deserialize {
                "skip_serializing"
            } else {
                "skip_deserializing"
            };
            let reason =
                "this is in what is read or in what is written alone: say --deserialize or --serialize";
            Err(context.refused_name(place, name, reason))
        }
    }
}

/// The keywords that attributes give to a type, a field or a variant.
#[derive(Drop)]
pub struct Common {
    own: Notes,
    // the examples, each behind a bracket or a comma
    examples: String,
    extensions: Notes,
}

// The names of attributes that say nothing of a document.
const SILENT: [&str; 5] = ["bound", "crate", "borrow", "expecting", "getter"];

impl Common {
    /// No keywords.
    pub fn new(alloc: Global) -> Common {
        Common {
            own: Notes::new(alloc),
            examples: String::new(alloc),
            extensions: Notes::new(alloc),
        }
    }

    /// Reads an attribute of a name that types, fields and variants may have; false if it is none.
    ///
    /// # Errors
    ///
    /// Its value is computed, or of another form.
    pub fn read(&mut self, context: &Context, meta: &Meta<'_>) -> Result<bool, Fault> {
        match meta.name {
            "title" | "description" => {
                let text = text_of(context, meta)?;
                self.own.put_text(context.alloc, meta.name, text.as_str())?;
            }
            "deprecated" => self.own.put_json(context.alloc, "deprecated", "true")?,
            "example" => self.read_example(context, meta)?,
            "extend" => self.read_extensions(context, meta)?,
            "transform" => return Err(context.refused_meta(meta, "a table has no transforms")),
            "schema_with" => {
                let reason = "what a function returns is not known here: say `with` or `extend`";
                return Err(context.refused_meta(meta, reason));
            }
            name => return Ok(SILENT.contains(&name)),
        }
        Ok(true)
    }

    fn read_example(&mut self, context: &Context, meta: &Meta<'_>) -> Result<(), Fault> {
        let json = json_of(context, meta)?;
        refuse_path(context, meta)?;
        let mark = if self.examples.is_empty() { '[' } else { ',' };
        self.examples.push(mark)?;
        self.examples.push_str(json.as_str())?;
        Ok(())
    }

    fn read_extensions(&mut self, context: &Context, meta: &Meta<'_>) -> Result<(), Fault> {
        let items = items_in(context, meta)?;
        for item in &items {
            if !item.is_text {
                return Err(context.refused_meta(meta, "keywords are texts"));
            }
            let json = json_of(context, item)?;
            self.extensions.put(context.alloc, item.name, json)?;
        }
        Ok(())
    }

    /// Adds the keywords, with those that documentation gives. What attributes say goes before
    /// documentation, and `extend` before both.
    ///
    /// # Errors
    ///
    /// The text of a documentation is computed.
    pub fn put_into(
        &mut self,
        context: &Context,
        attributes: &[Meta<'_>],
        notes: &mut Notes,
    ) -> Result<(), Fault> {
        let alloc = context.alloc;
        add_docs(context, attributes, notes)?;
        notes.put_all(alloc, &self.own)?;
        notes.remove_empty_texts();
        if !self.examples.is_empty() {
            self.examples.push(']')?;
            notes.put_json(alloc, "examples", self.examples.as_str())?;
        }
        notes.put_all(alloc, &self.extensions)?;
        Ok(())
    }
}

// The Rust derive refuses the text of an example that could be a path.
fn refuse_path(context: &Context, meta: &Meta<'_>) -> Result<(), Fault> {
    let MetaValue::Equals(cursor) = meta.value else {
        return Ok(());
    };
    match cursor.peek(0) {
        Some(token) if token.kind == TokenKind::Text && is_path(token.text.as_str()) => {
            let reason = "a text that could be the path of a function: write `&` before it";
            Err(context.refused_meta(meta, reason))
        }
        _ => Ok(()),
    }
}

fn is_path(text: &str) -> bool {
    for c in text.chars() {
        if !c.is_ascii_alphanumeric() && c != '_' && c != ':' {
            return false;
        }
    }
    !text.is_empty() && !text.starts_with(|c: char| c.is_ascii_digit())
}

/// The type that an attribute names in a text.
///
/// # Errors
///
/// It has no text, or the text is no type.
pub fn type_of(context: &Context, meta: &Meta<'_>) -> Result<TypeExpr, Fault> {
    let text = text_of(context, meta)?;
    let place = value_place(meta);
    let tokens = read_tokens(context.alloc, text.as_str(), place)?;
    match read_type(context.alloc, Cursor::new(&tokens, place))? {
        TypeExpr::Other(_) => Err(context.refused_meta(meta, "this is no type")),
        ty => Ok(ty),
    }
}

fn value_place(meta: &Meta<'_>) -> Place {
    match meta.value {
        MetaValue::Equals(cursor) => cursor.place(),
        _ => meta.place,
    }
}

/// What `default` says.
pub fn default_in(meta: &Meta<'_>) -> DefaultValue {
    match meta.value {
        MetaValue::Nothing => DefaultValue::OfType(meta.place),
        _ => DefaultValue::OfFunction(meta.place),
    }
}
