//! The table that a text says.
ghost use Rattle.std.specs.Prelude.{◌≡◌, ◌≢◌, true, None, Some, Err, IfOk};
ghost use Rattle.schemagen_input.specs.Words.{Data, is_table, input_of, AreMembersOf, IsTableText, IsNoJson, IsBadTable};

use crate::table_members::{TableMembers, read_text_members};
use json::Scratch;
use schemagen_json::ParseError;
use schemagen_shapes::InputError;
use schemars_types::{TypeNo, Types};
use std::alloc::Global;

/// Why a text says no table.
#[derive(Clone, Copy, Debug, PartialEq, Eq)]
pub enum TextError {
    /// Memory ran out.
    OutOfMemory,
    /// The bytes are no UTF-8, or no JSON.
    NotJson,
    /// The value is not a table, or its root is not a row.
    BadTable,
}

/// The table that the bytes of a text say, and its root, which is one of the rows.
///
/// # Errors
///
/// `NotJson` if the bytes are not JSON, `BadTable` if the JSON value is not a table with a root,
/// and `OutOfMemory`.
pub fn read_table(alloc: Global, bytes: &[u8]) -> Result<(Types, TypeNo), TextError>
    ensures ok { IfOk result (λ t. IsTableText t.0 t.1 bytes.now) }
    ensures table { IfOk result (λ t. is_table t.0 t.1 ≡ true) }
    ensures not_json { result ≡ Err TextError.NotJson → IsNoJson bytes.now }
    ensures bad_table { result ≡ Err TextError.BadTable → IsBadTable bytes.now }
{
    let Ok(text) = std::str::from_utf8(bytes) else {
        return Err(TextError::NotJson);
    };
    let mut scratch = Scratch::new(alloc);
    match read_text_members(alloc, text, &mut scratch) {
        Ok(members) => rooted_table(members),
        Err(ParseError::OutOfMemory) => Err(TextError::OutOfMemory),
        Err(ParseError::NotJson) => Err(TextError::NotJson),
    }
}

// The table of a value with these members, and its root, which is one of the rows.
fn rooted_table(members: TableMembers) -> Result<(Types, TypeNo), TextError>
    ensures ok { IfOk result (λ t. (d : Data) → AreMembersOf members d
        → (input_of d ≡ Some (t.0, t.1)) × (is_table t.0 t.1 ≡ true)) }
    ensures json { result ≢ Err TextError.NotJson }
    ensures bad_table { result ≡ Err TextError.BadTable → (d : Data) → AreMembersOf members d
        → input_of d ≡ None }
{
    let (types, root) = match members.into_table() {
        Ok(table) => table,
        Err(InputError::OutOfMemory) => return Err(TextError::OutOfMemory),
        Err(InputError::BadTable) => return Err(TextError::BadTable),
    };
    let is_row = root < types.len();
    if !is_row {
        return Err(TextError::BadTable);
    }
    Ok((types, root))
}
