//! Options, lists and sets.
ghost use Rattle.std.specs.Prelude.{IfOk, codes, true};
ghost use Rattle.schemars_shapes.specs.Shape.{option, seq, set};
ghost use Rattle.test_callers.specs.Holds.{HoldsChain, HoldsTwo, byte, row, string, truth};

use crate::contract::registered;
use indexmap::IndexSet;
use schemars_types::{TypeNo, Types, TypesError};
use smallvec::SmallVec;
use std::alloc::Global;
use std::collections::{BTreeSet, BinaryHeap, HashSet, LinkedList, VecDeque};

/// Registers options of bytes in an empty table.
///
/// # Errors
///
/// Those of `register`.
fn option_of_bytes(alloc: Global) -> Result<(Types, TypeNo), TypesError>
    ensures { IfOk result (λ r. HoldsTwo
        (λ m. row (codes "Option<uint8>") (codes "Nullable_uint8") true (option m)) byte r.0 r.1) }
{
    let r = registered::<Option<u8>>(alloc)?;
    Ok(r)
}

/// Registers lists of bytes in an empty table.
///
/// # Errors
///
/// Those of `register`.
fn list_of_bytes(alloc: Global) -> Result<(Types, TypeNo), TypesError>
    ensures { IfOk result (λ r. HoldsTwo
        (λ m. row (codes "[uint8]") (codes "Array_of_uint8") true (seq m)) byte r.0 r.1) }
{
    let r = registered::<Vec<u8>>(alloc)?;
    Ok(r)
}

/// Registers queues of bytes with two ends in an empty table.
///
/// # Errors
///
/// Those of `register`.
fn deque_of_bytes(alloc: Global) -> Result<(Types, TypeNo), TypesError>
    ensures { IfOk result (λ r. HoldsTwo
        (λ m. row (codes "[uint8]") (codes "Array_of_uint8") true (seq m)) byte r.0 r.1) }
{
    let r = registered::<VecDeque<u8>>(alloc)?;
    Ok(r)
}

/// Registers linked lists of bytes in an empty table.
///
/// # Errors
///
/// Those of `register`.
fn linked_list_of_bytes(alloc: Global) -> Result<(Types, TypeNo), TypesError>
    ensures { IfOk result (λ r. HoldsTwo
        (λ m. row (codes "[uint8]") (codes "Array_of_uint8") true (seq m)) byte r.0 r.1) }
{
    let r = registered::<LinkedList<u8>>(alloc)?;
    Ok(r)
}

/// Registers heaps of bytes in an empty table.
///
/// # Errors
///
/// Those of `register`.
fn heap_of_bytes(alloc: Global) -> Result<(Types, TypeNo), TypesError>
    ensures { IfOk result (λ r. HoldsTwo
        (λ m. row (codes "[uint8]") (codes "Array_of_uint8") true (seq m)) byte r.0 r.1) }
{
    let r = registered::<BinaryHeap<u8>>(alloc)?;
    Ok(r)
}

/// Registers lists of bytes that are short as a rule in an empty table.
///
/// # Errors
///
/// Those of `register`.
fn short_list_of_bytes(alloc: Global) -> Result<(Types, TypeNo), TypesError>
    ensures { IfOk result (λ r. HoldsTwo
        (λ m. row (codes "[uint8]") (codes "Array_of_uint8") true (seq m)) byte r.0 r.1) }
{
    let r = registered::<SmallVec<u8, 4>>(alloc)?;
    Ok(r)
}

/// Registers options of lists of bytes in an empty table.
///
/// # Errors
///
/// Those of `register`.
fn option_of_list(alloc: Global) -> Result<(Types, TypeNo), TypesError>
    ensures { IfOk result (λ r. HoldsChain
        (λ m. row (codes "Option<[uint8]>") (codes "Nullable_Array_of_uint8") true (option m))
        (λ m. row (codes "[uint8]") (codes "Array_of_uint8") true (seq m)) byte r.0 r.1) }
{
    let r = registered::<Option<Vec<u8>>>(alloc)?;
    Ok(r)
}

/// Registers lists of options of truth values in an empty table.
///
/// # Errors
///
/// Those of `register`.
fn list_of_options(alloc: Global) -> Result<(Types, TypeNo), TypesError>
    ensures { IfOk result (λ r. HoldsChain
        (λ m. row (codes "[Option<boolean>]") (codes "Array_of_Nullable_boolean") true (seq m))
        (λ m. row (codes "Option<boolean>") (codes "Nullable_boolean") true (option m)) truth r.0 r.1) }
{
    let r = registered::<Vec<Option<bool>>>(alloc)?;
    Ok(r)
}

/// Registers sorted sets of texts in an empty table.
///
/// # Errors
///
/// Those of `register`.
fn tree_set_of_texts(alloc: Global) -> Result<(Types, TypeNo), TypesError>
    ensures { IfOk result (λ r. HoldsTwo
        (λ m. row (codes "Set<string>") (codes "Set_of_string") true (set m)) string r.0 r.1) }
{
    let r = registered::<BTreeSet<String>>(alloc)?;
    Ok(r)
}

/// Registers sets of texts in an empty table.
///
/// # Errors
///
/// Those of `register`.
fn hash_set_of_texts(alloc: Global) -> Result<(Types, TypeNo), TypesError>
    ensures { IfOk result (λ r. HoldsTwo
        (λ m. row (codes "Set<string>") (codes "Set_of_string") true (set m)) string r.0 r.1) }
{
    let r = registered::<HashSet<String>>(alloc)?;
    Ok(r)
}

/// Registers sets of texts in the order of insertion in an empty table.
///
/// # Errors
///
/// Those of `register`.
fn index_set_of_texts(alloc: Global) -> Result<(Types, TypeNo), TypesError>
    ensures { IfOk result (λ r. HoldsTwo
        (λ m. row (codes "Set<string>") (codes "Set_of_string") true (set m)) string r.0 r.1) }
{
    let r = registered::<IndexSet<String>>(alloc)?;
    Ok(r)
}
