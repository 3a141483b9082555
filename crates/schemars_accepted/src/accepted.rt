//! What is written for a value, and that the schemas of its type accept it.
ghost use Rattle.std.specs.Prelude.{◌≡◌, ◌<◌, length, IfOk, IfErr, string_bytes};
ghost use Rattle.schemars_accepted.specs.Words.{view, IsChecked, IsAmong, IsWritten, IsWrittenText, IsAcceptedUnder, IsAcceptedAsRead};

use schemars_agreement::{Agrees, WriteError, to_member_string, to_member_value};
use schemars_types::{TypeNo, Types};
use schemars_validate::look;
use serde_json::Value;
use std::alloc::Global;

/// Returns what serde writes for a value, as `serde_json::to_value` does. Each root document of row
/// `n` for what is written accepts it, and so does each schema of the row in a document, under the
/// readings of patterns that the type asks for.
///
/// # Errors
///
/// Those of `to_member_value`.
pub fn to_accepted_value<T: Agrees>(
    alloc: Global,
    types: &Types,
    n: TypeNo,
    value: &T,
) -> Result<Value, WriteError>
    requires checked { IsChecked types.now }
    requires known { n < length types.now }
    requires row { T.is_row types.now n }
    ensures written { IfOk result (λ v. IsWritten (T.writes value.now) (view v)) }
    ensures accepted { IfOk result (λ v. IsAcceptedUnder (IsAmong T.readings value.now) types.now n (view v)) }
    ensures refused { IfErr result (λ e. e ≡ WriteError.NotInJson → T.valid value.now → ⊥) }
{
    match to_member_value(alloc, types, n, value) {
        Ok(written) => {
            look(&written);
            Ok(written)
        }
        Err(error) => Err(error),
    }
}

/// Returns the text that serde writes for a value, as `serde_json::to_string` does. Each root
/// document of row `n` for what is written accepts what the text is read as, and so does each
/// schema of the row in a document, under those readings.
///
/// # Errors
///
/// Those of `to_member_string`.
pub fn to_accepted_string<T: Agrees>(
    alloc: Global,
    types: &Types,
    n: TypeNo,
    value: &T,
) -> Result<String, WriteError>
    requires checked { IsChecked types.now }
    requires known { n < length types.now }
    requires row { T.is_row types.now n }
    ensures written { IfOk result (λ s. IsWrittenText (T.writes value.now) (string_bytes s)) }
    ensures accepted { IfOk result (λ s. IsAcceptedAsRead (IsAmong T.readings value.now)
        types.now n (string_bytes s)) }
    ensures refused { IfErr result (λ e. e ≡ WriteError.NotInJson → T.valid value.now → ⊥) }
{
    to_member_string(alloc, types, n, value)
}
