//! Types that are registered and have the rows that they describe.
ghost use Rattle.std.specs.Prelude.{◌≡◌, ◌<◌, length, Some, IfErr, IfOk, OnOk};
ghost use Rattle.schemars_accepted.specs.Words.{IsChecked, place_of, Keeps, IsIn, KeepsTo, IsToldIn, Refuses};

use crate::law::AgreesAsDescribed;
use schemars_impls::register;
use schemars_types::{TypeNo, Types, TypesError};
use std::alloc::Global;

/// Registers a type, checks the table, and returns the number of the type's row, which is one that
/// describes the type.
///
/// # Errors
///
/// Those of `register`, and of `Types::check`.
pub fn register_described<T: AgreesAsDescribed>(
    alloc: Global,
    types: &mut Types,
) -> Result<TypeNo, TypesError>
    requires told { IsToldIn T.is_told types.old }
    ensures keeps { Keeps types.old types.new }
    ensures checked { OnOk result (IsChecked types.new) }
    ensures number { IfOk result
        (λ n. (place_of T.says.id types.new ≡ Some n) × (n < length types.new)) }
    ensures row { IfOk result (λ n. T.is_row types.new n) }
    ensures follows { OnOk result (KeepsTo (IsIn T.says) types.old types.new) }
    ensures refused { IfErr result (Refuses T.says types.old types.new) }
{
    let n = register::<T>(alloc, types)?;
    types.check(alloc)?;
    Ok(n)
}
