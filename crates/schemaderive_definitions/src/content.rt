//! What a type is, as its declaration says.
use schemaderive_options::Notes;
use schemaderive_syntax::Place;
use std::alloc::{AllocError, Global};

/// What a type is.
#[derive(Drop)]
pub struct Definition {
    /// which values it has
    pub content: Content,
    /// further keywords of its document
    pub notes: Notes,
}

/// Which values a type has.
#[derive(Drop)]
pub enum Content {
    /// null alone
    Null,
    /// those of its part
    Newtype(Part),
    /// lists of one value of each part
    Tuple(Vec<Part>),
    /// objects with members
    Struct(Members),
    /// those of its variants
    Enum(Choices),
}

/// A type, and what attributes say of its values.
#[derive(Drop)]
pub struct Part {
    /// where it is declared
    pub place: Place,
    /// the row of the type
    pub plain: usize,
    /// the row of those of its values that rules allow, and that keywords describe
    pub row: usize,
    /// the keywords of the rules
    pub rules: Notes,
    /// further keywords
    pub notes: Notes,
}

impl Part {
    /// The keywords that its row does not say.
    pub fn unsaid(&self, alloc: Global) -> Result<Notes, AllocError> {
        if self.row != self.plain {
            let mut notes = Notes::new(alloc);
            notes.put_all(alloc, &self.notes)?;
            return Ok(notes);
        }
        self.all_notes(alloc)
    }

    /// The keywords that the row of its type does not say.
    pub fn all_notes(&self, alloc: Global) -> Result<Notes, AllocError> {
        let mut notes = Notes::new(alloc);
        notes.put_all(alloc, &self.rules)?;
        notes.put_all(alloc, &self.notes)?;
        Ok(notes)
    }
}

/// Whether a member is in each value that is read, and in each that is written.
#[derive(Clone, Copy, Debug, PartialEq, Eq)]
pub struct Required {
    /// in each that is read
    pub deserialize: bool,
    /// in each that is written
    pub serialize: bool,
}

/// A member of an object, or a type whose members are in the object.
#[derive(Drop)]
pub struct Member {
    /// its name; none of a type whose members are in the object
    pub name: Option<String>,
    /// what it has
    pub part: Part,
    /// whether it is there
    pub required: Required,
}

/// The members of an object.
#[derive(Drop)]
pub struct Members {
    /// the members in the order of the fields
    pub list: Vec<Member>,
    /// whether other keys are refused
    pub is_closed: bool,
}

/// How the variants of an enum are told apart.
#[derive(Clone, Copy, Debug, PartialEq, Eq)]
pub enum Form {
    /// by a key around them
    External,
    /// by what they are
    Untagged,
    /// by a key among their members
    Internal,
    /// by a key beside them
    Adjacent,
}

/// The variants of an enum.
#[derive(Drop)]
pub struct Choices {
    /// how they are told apart
    pub form: Form,
    /// the key under which the name of a variant is
    pub tag: Option<String>,
    /// the key under which the content of a variant is
    pub content: Option<String>,
    /// whether other keys are refused
    pub is_closed: bool,
    /// the variants
    pub list: Vec<Choice>,
}

/// A variant.
#[derive(Drop)]
pub struct Choice {
    /// its name
    pub name: String,
    /// where it is declared
    pub place: Place,
    /// what it has
    pub payload: Payload,
    /// further keywords of its document
    pub notes: Notes,
}

/// What a variant has.
#[derive(Drop)]
pub enum Payload {
    /// nothing
    Unit,
    /// a value of a type
    Newtype(Part),
    /// a value of each type
    Tuple(Vec<Part>),
    /// members
    Struct(Members),
}
