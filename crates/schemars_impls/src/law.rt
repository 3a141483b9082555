//! What an implementation of `JsonSchema` promises, and how a type is added to a table.
ghost use Rattle.std.specs.Prelude.{◌≡◌, None, Some, is_some, IfErr, IfOk, IfSome, IsSome, OnOk};
ghost use Rattle.schemars_impls.specs.Words.{cow_str_bytes, entry_of, shape_of, without_notes, place_of, unknown_in, Keeps, KeepsRows, entry_under, IsMade, TypeRow, Describes, RefusesPart, IsAdded, IsIn, KeepsTo, Completes, RefusesType};

use schemars_types::{Shape, TypeEntry, TypeNo, Types, TypesError};
use std::alloc::{AllocError, Global};
use std::borrow::CowStr;

/// A type that describes itself in tables of types.
///
/// A type has one row in a table, under its id; types with the same id have that row in common. A
/// type that is inside itself refers to its own row by `Types::reserve` with its own id, since
/// `register` of it would not end.
pub trait JsonSchema {
    // What the type says of its row, and of those of its parts.
    ghost says: { TypeRow };

    /// Returns whether the type's document is written in place wherever the type is referred to.
    fn inline_schema() -> bool
        ensures { result ≡ says.inline };

    /// Returns the name of the type, under which it is defined in a document.
    fn schema_name(alloc: Global) -> Result<CowStr<'static>, AllocError>
        ensures { IfOk result (λ t. cow_str_bytes t ≡ says.name) };

    /// Returns the id of the type, under which it has its row.
    fn schema_id(alloc: Global) -> Result<CowStr<'static>, AllocError>
        ensures { IfOk result (λ t. cow_str_bytes t ≡ says.id) };

    /// Returns the entry of the type, whose numbers are those of rows. Rows may join the table for
    /// its parts. Each row that is there keeps its id, its name and, once it is defined, its entry.
    ///
    /// # Errors
    ///
    /// `OutOfMemory`, or an error that says what is so of the table. Rows keep the same as above.
    fn json_schema(alloc: Global, types: &mut Types) -> Result<TypeEntry, TypesError>
        ensures keeps { KeepsRows types.old types.new }
        ensures known { IfOk result (λ e. unknown_in types.new (shape_of e.shape) ≡ None) }
        ensures made { IfOk result (λ e. IsMade says.making types.new (entry_of e)) }
        ensures follows { OnOk result (Describes says types.old types.new) }
        ensures refused { IfErr result (RefusesPart says types.old) };
}

/// Returns the number of the type's row. If the row is not defined, it is added and defined first;
/// if it is, the table is unchanged.
///
/// # Errors
///
/// `OutOfMemory`, what `T::json_schema` returns, or `AlreadyDefined` if that has defined the row
/// with a different entry. Rows that are defined stay; new rows may be behind them.
#[tactic(auto, using(crate::proofs::Composing::keeping))]
pub fn register<T: JsonSchema>(alloc: Global, types: &mut Types) -> Result<TypeNo, TypesError>
    ensures keeps { Keeps types.old types.new }
    ensures added { IfOk result (IsAdded T.says types.old types.new) }
    ensures present { IsSome (entry_under T.says.id types.old) → types.new ≡ types.old }
    ensures follows { OnOk result (KeepsTo (IsIn T.says) types.old types.new) }
    ensures completes { OnOk result (Completes T.says types.old types.new) }
    ensures refused { IfErr result (RefusesType T.says types.old) }
{
    let text = T::schema_id(alloc)?;
    if let Some(n) = defined_row(types, text.as_str()) {
        return Ok(n);
    }
    let id = text.into_owned(alloc)?;
    let name = T::schema_name(alloc)?.into_owned(alloc)?;
    let n = types.reserve(id, name)?;
    let mut entry = T::json_schema(alloc, types)?;
    entry.inline = T::inline_schema();
    types.define(n, entry)?;
    Ok(n)
}

// The number of the row with this id, if it is defined.
fn defined_row(types: &Types, id: &str) -> Option<TypeNo>
    ensures number { IfSome result (λ n. place_of id.now types.now ≡ Some n) }
    ensures defined { is_some result ≡ is_some (entry_under id.now types.now) }
{
    let n = types.find(id)?;
    types.entry(n)?;
    Some(n)
}

/// Returns an entry of this shape without notes.
pub(crate) fn entry(alloc: Global, inline: bool, shape: Shape) -> TypeEntry
    ensures value { entry_of result ≡ without_notes inline (shape_of shape) }
    ensures shape { shape_of result.shape ≡ shape_of shape }
{
    TypeEntry::without_notes(alloc, inline, shape)
}
