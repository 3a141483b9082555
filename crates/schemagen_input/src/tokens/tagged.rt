//! What is said by a text, or by an object with one member.
ghost use Rattle.std.specs.Prelude.{◌≡◌, ◌<◌, Option, Err, IfOk, OnOk, length, option_map};
ghost use Rattle.schemagen_input.specs.Words.{Data, Members, object, Text, externally_tagged, AreOfTagged, can_be_lone, IsNext, IsNoValue};

use crate::tokens::object::{ObjectMembers, read_members};
use json::{Reader, Token};
use schemagen_json::{ParseError, read_value, read_value_from};
use std::alloc::Global;

/// What is said by a text, or by an object with one member under the name of that.
pub trait Tagged: Sized + Drop {
    /// What that is in the specification.
    ghost Value: { Type 0 };

    ghost value_of: { Self → Value };

    ghost said_by: { Text → Option Value };

    ghost said_under: { Text → Data → Option Value };

    /// What this text says.
    fn of_text(text: &str) -> Option<Self>
        ensures { option_map value_of result ≡ said_by text.now };

    /// What an object says whose member of this name has the next value.
    fn read_under(
        alloc: Global,
        name: &str,
        reader: &mut Reader<'_>,
        depth: usize,
    ) -> Result<Option<Self>, ParseError>
        ensures ok { IfOk result (λ x. (d : Data) × IsNext depth reader.old d reader.new
            × (option_map value_of x ≡ said_under name.now d)) }
        ensures shorter { OnOk result (length reader.new < length reader.old) }
        ensures not_json { result ≡ Err ParseError.NotJson → IsNoValue depth reader.old };
}

/// What the members of such an object say.
#[derive(Drop)]
pub enum TaggedMembers<'a, T> {
    Empty,
    /// The members all have this name, and the last one says this.
    Lone(&'a str, Option<T>),
    /// They have several names.
    Several,
}

impl<'a, T: Tagged> ObjectMembers<'a> for TaggedMembers<'a, T> {
    ghost are_of = { AreOfTagged T.value_of T.said_under };

    fn none(_alloc: Global) -> TaggedMembers<'a, T> {
        TaggedMembers::Empty
    }

    fn read_member(
        &mut self,
        alloc: Global,
        name: &'a str,
        reader: &mut Reader<'a>,
        depth: usize,
    ) -> Result<(), ParseError> {
        if !self.can_be_lone(name) {
            drop(read_value(alloc, reader, depth)?);
            *self = TaggedMembers::Several;
            return Ok(());
        }
        let said = T::read_under(alloc, name, reader, depth)?;
        *self = TaggedMembers::Lone(name, said);
        Ok(())
    }
}

impl<T: Tagged> TaggedMembers<'_, T> {
    // Whether no member has another name.
    fn can_be_lone(&self, name: &str) -> bool
        ensures { result ≡ can_be_lone name.now self.now }
    {
        match self {
            TaggedMembers::Empty => true,
            TaggedMembers::Lone(lone, _) => *lone == name,
            TaggedMembers::Several => false,
        }
    }

    // What an object with these members says.
    fn into_said(self) -> Option<T>
        ensures { (ms : Members) → AreOfTagged T.value_of T.said_under self.entry ms
            → option_map T.value_of result
            ≡ externally_tagged T.said_by T.said_under (object ms) }
    {
        match self {
            TaggedMembers::Lone(_, said) => said,
            _ => None,
        }
    }
}

/// What the next value says.
pub fn read_tagged<'a, T: Tagged + 'a>(
    alloc: Global,
    reader: &mut Reader<'a>,
    depth: usize,
) -> Result<Option<T>, ParseError>
    ensures ok { IfOk result (λ x. (d : Data) × IsNext depth reader.old d reader.new
        × (option_map T.value_of x ≡ externally_tagged T.said_by T.said_under d)) }
    ensures shorter { OnOk result (length reader.new < length reader.old) }
    ensures not_json { result ≡ Err ParseError.NotJson → IsNoValue depth reader.old }
{
    let token = reader.next().ok_or(ParseError::NotJson)?;
    match token {
        Token::BeginObject => {
            if depth == 0 {
                return Err(ParseError::NotJson);
            }
            let members: TaggedMembers<'a, T> = read_members(alloc, reader, depth - 1)?;
            Ok(members.into_said())
        }
        Token::String(text) => Ok(T::of_text(text)),
        token => {
            drop(read_value_from(alloc, token, reader, depth)?);
            Ok(None)
        }
    }
}
