//! The table that a JSON value says.
ghost use Rattle.std.specs.Prelude.{◌≡◌, ◌≢◌, ◌<◌, ℕ, List, true, None, Some, IfOk, IfErr, length};
ghost use Rattle.schemagen_input.specs.Words.{data_of, is_complete, table_in, input_of, json_of, CanBeWritten, Row};

use crate::table_members::TableMembers;
use schemagen_json::BorrowedValue;
use schemagen_shapes::InputError;
use schemars_types::{TypeNo, Types};
use std::alloc::Global;

/// The table that a value says, and the number that it says for the root.
///
/// The value is an object with the members `types`, a list of rows, and `root`, a number. Whether
/// that is a row's is not asked here. A row has the members `id`, `name` and `shape`, and may have
/// `inline` and `notes`. No two rows have one id, and each number in a shape is a row's: the row's
/// own, or one before or behind it. The notes of rows, fields and variants are objects with any
/// members.
///
/// The JSON of a table reads back as that table, and each table that is read can be written so.
pub fn read_input(alloc: Global, value: &BorrowedValue<'_>) -> Result<(Types, TypeNo), InputError>
    ensures ok { IfOk result (λ t. table_in (data_of value.now) ≡ Some (t.0, t.1)) }
    ensures complete { IfOk result (λ t. is_complete t.0 ≡ true) }
    ensures bad { IfErr result
        (λ e. e ≡ InputError.BadTable → table_in (data_of value.now) ≡ None) }
    ensures read_back { (rows : List Row) (root : ℕ) → CanBeWritten rows
        → data_of value.now ≡ json_of rows root → IfOk result (λ t. (t.0 ≡ rows) × (t.1 ≡ root)) }
    ensures not_refused { (rows : List Row) (root : ℕ) → CanBeWritten rows
        → data_of value.now ≡ json_of rows root → IfErr result (λ e. e ≢ InputError.BadTable) }
    ensures can_be_written { IfOk result (λ t. CanBeWritten t.0) }
    ensures input { (rows : List Row) (root : ℕ) → CanBeWritten rows
        → root < length rows → input_of (json_of rows root) ≡ Some (rows, root) }
{
    let members = TableMembers::of_value(alloc, value)?;
    members.into_table()
}
