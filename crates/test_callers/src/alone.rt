//! Types without parts, and a value behind something.
ghost use Rattle.std.specs.Prelude.{IfOk};
ghost use Rattle.test_callers.specs.Holds.{HoldsOne, byte, string, truth};

use crate::contract::registered;
use schemars_types::{TypeNo, Types, TypesError};
use std::alloc::Global;

/// Registers bytes in an empty table.
///
/// # Errors
///
/// Those of `register`.
fn byte(alloc: Global) -> Result<(Types, TypeNo), TypesError>
    ensures { IfOk result (λ r. HoldsOne byte r.0 r.1) }
{
    let r = registered::<u8>(alloc)?;
    Ok(r)
}

/// Registers truth values in an empty table.
///
/// # Errors
///
/// Those of `register`.
fn truth(alloc: Global) -> Result<(Types, TypeNo), TypesError>
    ensures { IfOk result (λ r. HoldsOne truth r.0 r.1) }
{
    let r = registered::<bool>(alloc)?;
    Ok(r)
}

/// Registers texts in an empty table.
///
/// # Errors
///
/// Those of `register`.
fn text(alloc: Global) -> Result<(Types, TypeNo), TypesError>
    ensures { IfOk result (λ r. HoldsOne string r.0 r.1) }
{
    let r = registered::<String>(alloc)?;
    Ok(r)
}

/// Registers bytes in boxes in an empty table.
///
/// # Errors
///
/// Those of `register`.
fn boxed_byte(alloc: Global) -> Result<(Types, TypeNo), TypesError>
    ensures { IfOk result (λ r. HoldsOne byte r.0 r.1) }
{
    let r = registered::<Box<u8>>(alloc)?;
    Ok(r)
}
