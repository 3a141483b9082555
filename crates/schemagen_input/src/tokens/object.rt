//! Objects, of which each member is read for what it says.
ghost use Rattle.std.specs.Prelude.{◌≡◌, ◌<◌, Some, None, Err, IfOk, OnOk, length};
ghost use Rattle.schemagen_input.specs.Words.{members, Data, Members, no_members, put, of_members, converted, IsNext, IsNoValue, AreOfObject};
ghost use Rattle.json.specs.Json as json;

use json::{Reader, Token};
use schemagen_json::{ParseError, read_value_from};
use std::alloc::Global;

/// What the members of an object say, as far as they are read. Of a name that comes twice, the last
/// one counts.
pub trait ObjectMembers<'a>: Sized + Drop {
    /// That these members say so.
    ghost are_of: { Self → Members → Type 0 };

    /// What no members say.
    fn none(alloc: Global) -> Self
        ensures { are_of result no_members };

    /// Adds the member of this name, whose value is next.
    fn read_member(
        &mut self,
        alloc: Global,
        name: &'a str,
        reader: &mut Reader<'a>,
        depth: usize,
    ) -> Result<(), ParseError>
        ensures ok { OnOk result ((d : Data) × IsNext depth reader.old d reader.new
            × ((ms : Members) → are_of self.old ms → are_of self.new (put name.now d ms))) }
        ensures shorter { OnOk result (length reader.new < length reader.old) }
        ensures not_json { result ≡ Err ParseError.NotJson → IsNoValue depth reader.old };
}

/// What the members of the next value say: none if it is no object.
pub fn read_object<'a, M: ObjectMembers<'a>>(
    alloc: Global,
    reader: &mut Reader<'a>,
    depth: usize,
) -> Result<Option<M>, ParseError>
    ensures ok { IfOk result (λ m. (d : Data) × IsNext depth reader.old d reader.new
        × AreOfObject M.are_of m d) }
    ensures shorter { OnOk result (length reader.new < length reader.old) }
    ensures not_json { result ≡ Err ParseError.NotJson → IsNoValue depth reader.old }
{
    let token = reader.next().ok_or(ParseError::NotJson)?;
    match token {
        Token::BeginObject => {
            if depth == 0 {
                return Err(ParseError::NotJson);
            }
            let members = read_members(alloc, reader, depth - 1)?;
            Ok(Some(members))
        }
        token => {
            drop(read_value_from(alloc, token, reader, depth)?);
            Ok(None)
        }
    }
}

/// What the members up to the end of an object say.
pub fn read_members<'a, M: ObjectMembers<'a>>(
    alloc: Global,
    reader: &mut Reader<'a>,
    depth: usize,
) -> Result<M, ParseError>
    ensures ok { IfOk result (λ m. (ms : Members)
        × (converted (λ found. of_members found no_members)
        (members (json.value depth) (length reader.old) reader.old) ≡ Some (ms, reader.new))
        × M.are_of m ms) }
    ensures shorter { OnOk result (length reader.new < length reader.old) }
    ensures not_json { result ≡ Err ParseError.NotJson
        → converted (λ found. of_members found no_members)
        (members (json.value depth) (length reader.old) reader.old) ≡ None }
{
    let mut found = M::none(alloc);
    'keys: while let Some(name) = reader.next_key()? {
        found.read_member(alloc, name, reader, depth)?;
    }
    Ok(found)
}
