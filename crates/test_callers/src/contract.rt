//! A type in a table of its own.
ghost use Rattle.std.specs.Prelude.{IfOk};
ghost use Rattle.test_callers.specs.Holds.{IsRegistered};

use schemars_impls::{JsonSchema, register};
use schemars_types::{TypeNo, Types, TypesError};
use std::alloc::Global;

/// Registers a type in an empty table, and returns the table and the number of the type's row.
///
/// # Errors
///
/// Those of `register`.
pub(crate) fn registered<T: JsonSchema>(alloc: Global) -> Result<(Types, TypeNo), TypesError>
    ensures { IfOk result (λ r. IsRegistered T.says r.0 r.1) }
{
    let mut types = Types::new(alloc);
    let n = register::<T>(alloc, &mut types)?;
    let _ = types.len();
    Ok((types, n))
}
