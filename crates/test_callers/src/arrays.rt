//! Lists of a length that is known or bounded, and tuples.
ghost use Rattle.std.specs.Prelude.{IfOk, codes, true, [], ◌∷◌};
ghost use Rattle.schemars_shapes.specs.Shape.{array, up_to, tuple};
ghost use Rattle.test_callers.specs.Holds.{HoldsOne, HoldsTwo, HoldsThree, byte, row, truth};

use crate::contract::registered;
use arrayvec::ArrayVec;
use schemars_types::{TypeNo, Types, TypesError};
use std::alloc::Global;

/// Registers lists of three bytes in an empty table.
///
/// # Errors
///
/// Those of `register`.
fn three_bytes(alloc: Global) -> Result<(Types, TypeNo), TypesError>
    ensures { IfOk result (λ r. HoldsTwo
        (λ m. row (codes "[3; uint8]") (codes "Array_size_3_of_uint8") true (array m 3)) byte r.0 r.1) }
{
    let r = registered::<[u8; 3]>(alloc)?;
    Ok(r)
}

/// Registers lists of no bytes in an empty table.
///
/// # Errors
///
/// Those of `register`.
fn no_bytes(alloc: Global) -> Result<(Types, TypeNo), TypesError>
    ensures { IfOk result (λ r. HoldsOne (row (codes "[]") (codes "EmptyArray") true (tuple [])) r.0 r.1) }
{
    let r = registered::<[u8; 0]>(alloc)?;
    Ok(r)
}

/// Registers pairs of lists of no items, of two types, in an empty table: the lists have one row.
///
/// # Errors
///
/// Those of `register`.
fn two_empty_lists(alloc: Global) -> Result<(Types, TypeNo), TypesError>
    ensures { IfOk result (λ r. HoldsTwo
        (λ m. row (codes "([],[])") (codes "Tuple_of_EmptyArray_and_EmptyArray") true (tuple (m ∷ m ∷ [])))
        (row (codes "[]") (codes "EmptyArray") true (tuple [])) r.0 r.1) }
{
    let r = registered::<([u8; 0], [u16; 0])>(alloc)?;
    Ok(r)
}

/// Registers lists of eight bytes at most in an empty table.
///
/// # Errors
///
/// Those of `register`.
fn eight_bytes_at_most(alloc: Global) -> Result<(Types, TypeNo), TypesError>
    ensures { IfOk result (λ r. HoldsTwo
        (λ m. row (codes "[uint8; up to 8]") (codes "Array_up_to_size_8_of_uint8") true (up_to m 8))
        byte r.0 r.1) }
{
    let r = registered::<ArrayVec<u8, 8>>(alloc)?;
    Ok(r)
}

/// Registers tuples of a byte in an empty table.
///
/// # Errors
///
/// Those of `register`.
fn tuple_of_byte(alloc: Global) -> Result<(Types, TypeNo), TypesError>
    ensures { IfOk result (λ r. HoldsTwo
        (λ m. row (codes "(uint8)") (codes "Tuple_of_uint8") true (tuple (m ∷ []))) byte r.0 r.1) }
{
    let r = registered::<(u8,)>(alloc)?;
    Ok(r)
}

/// Registers tuples of a byte and a truth value in an empty table.
///
/// # Errors
///
/// Those of `register`.
fn tuple_of_byte_and_truth(alloc: Global) -> Result<(Types, TypeNo), TypesError>
    ensures { IfOk result (λ r. HoldsThree
        (λ a b. row (codes "(uint8,boolean)") (codes "Tuple_of_uint8_and_boolean") true (tuple (a ∷ b ∷ [])))
        byte truth r.0 r.1) }
{
    let r = registered::<(u8, bool)>(alloc)?;
    Ok(r)
}

/// Registers tuples of two bytes in an empty table.
///
/// # Errors
///
/// Those of `register`.
fn tuple_of_bytes(alloc: Global) -> Result<(Types, TypeNo), TypesError>
    ensures { IfOk result (λ r. HoldsTwo
        (λ m. row (codes "(uint8,uint8)") (codes "Tuple_of_uint8_and_uint8") true (tuple (m ∷ m ∷ [])))
        byte r.0 r.1) }
{
    let r = registered::<(u8, u8)>(alloc)?;
    Ok(r)
}
