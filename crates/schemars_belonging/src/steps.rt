//! Whether a value belongs to a row of a table.
ghost use Rattle.std.specs.Prelude.{◌≡◌, ◌+◌, ◌*◌, length, IfOk, IfSome};
ghost use Rattle.schemars_belonging.specs.Words.{depth, view, belongs};

use crate::decide::{Table, row};
use schemars_assertions::{Patterns, depth};
use schemars_types::{Contract, TypeNo, Types};
use serde_json::Value;
use std::alloc::{AllocError, Global};

/// Whether a JSON value belongs to row `n` of a table under a contract: the meaning itself, decided from the table.
///
/// # Errors
///
/// Only where memory runs out.
pub fn belongs<P: Patterns>(
    alloc: Global,
    types: &Types,
    n: TypeNo,
    contract: Contract,
    value: &Value,
    patterns: &P,
) -> Result<bool, AllocError>
    ensures { IfOk result (λ is. is
        ≡ belongs types.now contract (P.reading patterns.now) n (view value.now)) }
{
    let Some(steps) = steps(types, value) else {
        // no memory holds a value or a table of that size
        return Err(AllocError);
    };
    let table = Table {
        alloc,
        types,
        contract,
        patterns,
    };
    row(&table, steps, n, value)
}

// So many steps suffice, if the number fits.
fn steps(types: &Types, value: &Value) -> Option<u64>
    ensures { IfSome result (λ n. n ≡ (depth (view value.now) + 1) * length types.now) }
{
    let deep = depth(value)?.checked_add(1)?;
    deep.checked_mul(types.len() as u64)
}
