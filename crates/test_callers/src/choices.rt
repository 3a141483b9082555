//! Results, bounds, ranges, and what is one of two.
ghost use Rattle.std.specs.Prelude.{IfOk, codes, false, true};
ghost use Rattle.schemars_shapes.specs.Shape.{Shape as shape, bound, range, either};
ghost use Rattle.test_callers.specs.Holds.{HoldsTwo, HoldsThree, byte, row, string, truth};

use crate::contract::registered;
use either::Either;
use schemars_types::{TypeNo, Types, TypesError};
use std::alloc::Global;
use std::ops::{Bound, Range, RangeInclusive};

/// Registers results of a byte, with texts as errors, in an empty table.
///
/// # Errors
///
/// Those of `register`.
fn result_of_byte(alloc: Global) -> Result<(Types, TypeNo), TypesError>
    ensures { IfOk result (λ r. HoldsThree
        (λ a b. row (codes "Result<uint8, string>") (codes "Result_of_uint8_or_string") false (shape.result a b))
        byte string r.0 r.1) }
{
    let r = registered::<Result<u8, String>>(alloc)?;
    Ok(r)
}

/// Registers bounds of bytes in an empty table.
///
/// # Errors
///
/// Those of `register`.
fn bound_of_byte(alloc: Global) -> Result<(Types, TypeNo), TypesError>
    ensures { IfOk result (λ r. HoldsTwo
        (λ m. row (codes "Bound<uint8>") (codes "Bound_of_uint8") false (bound m)) byte r.0 r.1) }
{
    let r = registered::<Bound<u8>>(alloc)?;
    Ok(r)
}

/// Registers ranges of bytes in an empty table.
///
/// # Errors
///
/// Those of `register`.
fn range_of_bytes(alloc: Global) -> Result<(Types, TypeNo), TypesError>
    ensures { IfOk result (λ r. HoldsTwo
        (λ m. row (codes "Range<uint8>") (codes "Range_of_uint8") false (range m)) byte r.0 r.1) }
{
    let r = registered::<Range<u8>>(alloc)?;
    Ok(r)
}

/// Registers ranges of bytes, where the end is one of the values, in an empty table.
///
/// # Errors
///
/// Those of `register`.
fn closed_range_of_bytes(alloc: Global) -> Result<(Types, TypeNo), TypesError>
    ensures { IfOk result (λ r. HoldsTwo
        (λ m. row (codes "Range<uint8>") (codes "Range_of_uint8") false (range m)) byte r.0 r.1) }
{
    let r = registered::<RangeInclusive<u8>>(alloc)?;
    Ok(r)
}

/// Registers choices between a byte and a truth value in an empty table.
///
/// # Errors
///
/// Those of `register`.
fn byte_or_truth(alloc: Global) -> Result<(Types, TypeNo), TypesError>
    ensures { IfOk result (λ r. HoldsThree
        (λ a b. row (codes "either::Either<uint8, boolean>") (codes "Either_uint8_or_boolean") true (either a b))
        byte truth r.0 r.1) }
{
    let r = registered::<Either<u8, bool>>(alloc)?;
    Ok(r)
}
