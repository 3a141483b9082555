//! What is written for a value, and the row of its type, to which it belongs.
ghost use Rattle.std.specs.Prelude.{◌≡◌, ◌<◌, length, Some, IfErr, IfOk};
ghost use Rattle.schemars_accepted.specs.Words.{view, IsChecked, place_of, IsAmong, BelongsUnder, IsWritten, telling, RefusesValue};

use crate::error::DescribedError;
use crate::law::AgreesAsDescribed;
use crate::registered::register_described;
use schemars_agreement::to_member_value;
use schemars_types::{TypeNo, Types};
use serde_json::Value;
use std::alloc::Global;

/// Registers the type of a value in a new table, and returns the table, the number of the type's
/// row, and what serde writes for the value, as `serde_json::to_value` does. It belongs to that
/// row, under the readings of patterns that the type asks for.
///
/// # Errors
///
/// Those of `register_described` and of `to_member_value`.
pub fn to_described_value<T: AgreesAsDescribed>(
    alloc: Global,
    value: &T,
) -> Result<(Types, TypeNo, Value), DescribedError>
    requires told { T.is_told (telling T.tells) }
    ensures checked { IfOk result (λ r. IsChecked r.0) }
    ensures number { IfOk result (λ r. (place_of T.says.id r.0 ≡ Some r.1) × (r.1 < length r.0)) }
    ensures row { IfOk result (λ r. T.is_row r.0 r.1) }
    ensures written { IfOk result (λ r. IsWritten (T.writes value.now) (view r.2)) }
    ensures belongs { IfOk result (λ r. BelongsUnder (IsAmong T.readings value.now) r.0 r.1 (view r.2)) }
    ensures refused { IfErr result (RefusesValue T.says (T.valid value.now)) }
{
    let mut types = Types::new(alloc);
    let n = match register_described::<T>(alloc, &mut types) {
        Ok(n) => n,
        Err(error) => {
            // by the clause of this call no id stands twice
            let _ = types.len();
            return Err(DescribedError::Types(error));
        }
    };
    match to_member_value(alloc, &types, n, value) {
        Ok(written) => Ok((types, n, written)),
        Err(error) => Err(DescribedError::Write(error)),
    }
}
