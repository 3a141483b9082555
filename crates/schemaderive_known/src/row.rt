//! Rows of a table.
use schemaderive_options::Notes;
use std::alloc::{AllocError, Global};

/// Which values the document of a row accepts, as far as attributes ask.
#[derive(Clone, Copy, Debug, PartialEq, Eq)]
pub enum Kind {
    /// texts
    Text,
    /// numbers
    Number,
    /// lists
    List,
    /// others, or those of a definition
    Other,
}

/// What the type of a row is made of.
#[derive(Clone, Copy, Debug, PartialEq, Eq)]
pub enum Makeup {
    /// nothing
    Plain,
    /// what the source declares
    Declared(usize),
    /// an Option of its part
    Optional,
    /// a list of its part
    List,
    /// a list of its part, whose items differ
    Set,
    /// a list of its part, as long as the row's length says
    Array,
    /// a map from its first part to its second
    Map,
    /// its parts in another way
    Other,
}

/// A row of a table.
#[derive(Drop)]
pub struct Row {
    /// the id
    pub id: String,
    /// the name
    pub name: String,
    /// whether it is written in place
    pub is_inline: bool,
    /// the shape, as JSON
    pub shape: String,
    /// further keywords of the document
    pub notes: Notes,
    /// the keywords of the document, if it is known and has no parts
    pub keywords: Notes,
    /// which values it accepts
    pub kind: Kind,
    /// of an Option, the row that it is of
    pub inner: Option<usize>,
    /// of a list of one type, the row of its items
    pub item: Option<usize>,
    /// the default of the type, as JSON
    pub default: Option<String>,
    /// the type, with whole paths; empty if it has no implementation
    pub ty: String,
    /// what the type is made of
    pub makeup: Makeup,
    /// the rows of the types that it is made of
    pub parts: Vec<usize>,
    /// of an array, its length
    pub length: String,
}

/// What the row of a type has that is made of no others.
#[derive(Clone, Copy)]
pub struct Texts<'t> {
    /// the id
    pub id: &'t str,
    /// the name
    pub name: &'t str,
    /// the shape, as JSON
    pub shape: &'t str,
    /// the type, with whole paths; empty if it has no implementation
    pub ty: &'t str,
    /// the default of the type, as JSON; empty if it has none
    pub default: &'t str,
    /// which values it accepts
    pub kind: Kind,
    /// whether it is written in place
    pub is_inline: bool,
    /// the keyword `type`; empty if it has none
    pub type_name: &'t str,
    /// the keyword `format`; empty if it has none
    pub format: &'t str,
    /// the length of each of its texts; empty if they differ
    pub length: &'t str,
}

impl Row {
    /// A row in place, without texts and keywords.
    pub fn empty(alloc: Global) -> Row {
        Row {
            id: String::new(alloc),
            name: String::new(alloc),
            is_inline: true,
            shape: String::new(alloc),
            notes: Notes::new(alloc),
            keywords: Notes::new(alloc),
            kind: Kind::Other,
            inner: None,
            item: None,
            default: None,
            ty: String::new(alloc),
            makeup: Makeup::Plain,
            parts: Vec::new(alloc),
            length: String::new(alloc),
        }
    }

    /// A row in place, without keywords.
    pub fn new(alloc: Global, id: &str, name: &str, shape: String) -> Result<Row, AllocError> {
        let mut row = Row::empty(alloc);
        row.set_texts(id, name, shape)?;
        Ok(row)
    }

    fn set_texts(&mut self, id: &str, name: &str, shape: String) -> Result<(), AllocError> {
        self.shape = shape;
        self.id.push_str(id)?;
        self.name.push_str(name)
    }

    /// A row that has this.
    pub fn of_texts(alloc: Global, texts: &Texts<'_>) -> Result<Row, AllocError> {
        let mut row = Row::empty(alloc);
        row.fill(alloc, texts)?;
        Ok(row)
    }

    fn fill(&mut self, alloc: Global, texts: &Texts<'_>) -> Result<(), AllocError> {
        self.kind = texts.kind;
        self.is_inline = texts.is_inline;
        self.id.push_str(texts.id)?;
        self.name.push_str(texts.name)?;
        self.shape.push_str(texts.shape)?;
        self.ty.push_str(texts.ty)?;
        self.set_default(alloc, texts.default)?;
        if !texts.type_name.is_empty() {
            self.keywords.put_text(alloc, "type", texts.type_name)?;
        }
        if !texts.format.is_empty() {
            self.keywords.put_text(alloc, "format", texts.format)?;
        }
        if !texts.length.is_empty() {
            self.keywords.put_json(alloc, "minLength", texts.length)?;
            self.keywords.put_json(alloc, "maxLength", texts.length)?;
        }
        Ok(())
    }

    /// Sets the default of the type, unless this is empty.
    pub fn set_default(&mut self, alloc: Global, json: &str) -> Result<(), AllocError> {
        if !json.is_empty() {
            self.default = Some(String::from_str(alloc, json)?);
        }
        Ok(())
    }
}
