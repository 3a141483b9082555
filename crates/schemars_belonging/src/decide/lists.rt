//! Lists of values of rows.
ghost use Rattle.std.specs.Prelude.{◌≡◌, ◌&&◌, IfOk};
ghost use Rattle.schemars_belonging.specs.Words.{as_array, view, items_view, holds, every_item, each_of, asked, has, within};

use crate::decide::{Table, row};
use schemars_assertions::Patterns;
use schemars_literals::{Limit, is_within};
use schemars_types::TypeNo;
use serde_json::Value;
use std::alloc::AllocError;

/// Whether a value is a list within a limit, of values of row `n`.
#[cycle(belongs)]
pub fn items<P: Patterns>(
    t: &Table<'_, P>,
    left: u64,
    limit: Limit,
    n: TypeNo,
    value: &Value,
) -> Result<bool, AllocError>
    ensures { let a = asked t.now.types.now t.now.contract (P.reading t.now.patterns.now) in
        IfOk result (λ is. is ≡ holds (as_array (view value.now))
        (λ vs. within limit vs && every_item (has a left n) vs)) }
{
    let Some(items) = value.as_array() else {
        return Ok(false);
    };
    if !is_within(limit, items) {
        return Ok(false);
    }
    each(t, left, n, items)
}

#[cycle(belongs)]
fn each<P: Patterns>(
    t: &Table<'_, P>,
    left: u64,
    n: TypeNo,
    items: &[Value],
) -> Result<bool, AllocError>
    ensures { let a = asked t.now.types.now t.now.contract (P.reading t.now.patterns.now) in
        IfOk result (λ is. is ≡ every_item (has a left n) (items_view items.now)) }
{
    for item in items {
        if !row(t, left, n, item)? {
            return Ok(false);
        }
    }
    Ok(true)
}

/// Whether a value is a list of one value of each row.
#[cycle(belongs)]
pub fn tuple<P: Patterns>(
    t: &Table<'_, P>,
    left: u64,
    rows: &[TypeNo],
    value: &Value,
) -> Result<bool, AllocError>
    ensures { let a = asked t.now.types.now t.now.contract (P.reading t.now.patterns.now) in
        IfOk result (λ is. is ≡ holds (as_array (view value.now)) (each_of (has a left) rows.now)) }
{
    match value.as_array() {
        Some(items) => each_of(t, left, rows, items),
        None => Ok(false),
    }
}

#[cycle(belongs)]
fn each_of<P: Patterns>(
    t: &Table<'_, P>,
    left: u64,
    rows: &[TypeNo],
    items: &[Value],
) -> Result<bool, AllocError>
    ensures { let a = asked t.now.types.now t.now.contract (P.reading t.now.patterns.now) in
        IfOk result (λ is. is ≡ each_of (has a left) rows.now (items_view items.now)) }
{
    let mut others = items.iter();
    for n in rows {
        let Some(item) = others.next() else {
            return Ok(false);
        };
        if !row(t, left, *n, item)? {
            return Ok(false);
        }
    }
    Ok(others.next().is_none())
}
