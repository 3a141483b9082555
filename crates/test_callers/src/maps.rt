//! Maps.
ghost use Rattle.std.specs.Prelude.{IfOk, codes, true};
ghost use Rattle.schemars_shapes.specs.Shape.{map_from};
ghost use Rattle.test_callers.specs.Holds.{HoldsTwo, HoldsThree, byte, row, string, truth};

use crate::contract::registered;
use indexmap::IndexMap;
use schemars_types::{TypeNo, Types, TypesError};
use std::alloc::Global;
use std::collections::{BTreeMap, HashMap};

/// Registers sorted maps from texts to bytes in an empty table.
///
/// # Errors
///
/// Those of `register`.
fn tree_map_of_bytes(alloc: Global) -> Result<(Types, TypeNo), TypesError>
    ensures { IfOk result (λ r. HoldsThree
        (λ a b. row (codes "Map<uint8>") (codes "Map_of_uint8") true (map_from a b))
        string byte r.0 r.1) }
{
    let r = registered::<BTreeMap<String, u8>>(alloc)?;
    Ok(r)
}

/// Registers sorted maps from bytes to truth values in an empty table.
///
/// # Errors
///
/// Those of `register`.
fn tree_map_from_bytes(alloc: Global) -> Result<(Types, TypeNo), TypesError>
    ensures { IfOk result (λ r. HoldsThree
        (λ a b. row (codes "Map<uint8, boolean>") (codes "Map_from_uint8_to_boolean") true (map_from a b))
        byte truth r.0 r.1) }
{
    let r = registered::<BTreeMap<u8, bool>>(alloc)?;
    Ok(r)
}

/// Registers sorted maps from bytes to bytes in an empty table.
///
/// # Errors
///
/// Those of `register`.
fn tree_map_between_bytes(alloc: Global) -> Result<(Types, TypeNo), TypesError>
    ensures { IfOk result (λ r. HoldsTwo
        (λ m. row (codes "Map<uint8, uint8>") (codes "Map_from_uint8_to_uint8") true (map_from m m))
        byte r.0 r.1) }
{
    let r = registered::<BTreeMap<u8, u8>>(alloc)?;
    Ok(r)
}

/// Registers maps from texts to bytes in an empty table.
///
/// # Errors
///
/// Those of `register`.
fn hash_map_of_bytes(alloc: Global) -> Result<(Types, TypeNo), TypesError>
    ensures { IfOk result (λ r. HoldsThree
        (λ a b. row (codes "Map<uint8>") (codes "Map_of_uint8") true (map_from a b))
        string byte r.0 r.1) }
{
    let r = registered::<HashMap<String, u8>>(alloc)?;
    Ok(r)
}

/// Registers maps from bytes to truth values in an empty table.
///
/// # Errors
///
/// Those of `register`.
fn hash_map_from_bytes(alloc: Global) -> Result<(Types, TypeNo), TypesError>
    ensures { IfOk result (λ r. HoldsThree
        (λ a b. row (codes "Map<uint8, boolean>") (codes "Map_from_uint8_to_boolean") true (map_from a b))
        byte truth r.0 r.1) }
{
    let r = registered::<HashMap<u8, bool>>(alloc)?;
    Ok(r)
}

/// Registers maps from bytes to truth values, in the order of insertion, in an empty table.
///
/// # Errors
///
/// Those of `register`.
fn index_map_from_bytes(alloc: Global) -> Result<(Types, TypeNo), TypesError>
    ensures { IfOk result (λ r. HoldsThree
        (λ a b. row (codes "Map<uint8, boolean>") (codes "Map_from_uint8_to_boolean") true (map_from a b))
        byte truth r.0 r.1) }
{
    let r = registered::<IndexMap<u8, bool>>(alloc)?;
    Ok(r)
}
