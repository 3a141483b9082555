//! The faults of a table.
ghost use Rattle.std.specs.Prelude.{◌≡◌, ◌<◌, ◌≤◌, ◌-◌, ◌++◌, ℕ, [], All, length, map, filter, None, IfOk, OnOk, MatchOption, string_bytes};
ghost use Rattle.schemars_types.specs.Words.{OnTrue, shape_of, numbers_of, Leads, OnCycle, IsFree, IsLeast, FaultFrom, EdgeFrom, HasTargets, counted_from, AreDistinctLists, IsFirstRepeated, numbers_at, is_inline_at, is_row, asked_in, below, names_at, RefersWithin, targets_along, targets_from, LeadsOn, Ascends, IsUndefined};

use crate::optional::row_inside;
use crate::table::Types;
use schemars_cycles::least_on_cycle;
use schemars_shapes::{Rows, Shape, TypeNo, first_unknown, rows};
use std::alloc::{AllocError, Global};

/// Which edges are followed from row to row.
#[derive(Clone, Copy)]
pub enum EdgeKind {
    /// to the rows that are asked at once: those that are written in place, that of a map's keys,
    /// and those whose members are in a row's own maps
    Direct,
    /// to the rows whose values, or whose members, a row has
    SameValue,
}

/// The first row from row `from` on that was never defined.
pub fn first_undefined(types: &Types, from: usize) -> Option<TypeNo>
    ensures first { MatchOption result (IsFree (FaultFrom from (IsUndefined types.now)))
        (IsLeast (FaultFrom from (IsUndefined types.now))) }
    ensures within { RefersWithin types.now }
{
    for n in from..types.len() {
        if types.entry(n).is_none() {
            return Some(n);
        }
    }
    None
}

/// The first row from row `from` on with a name twice, and the name.
pub fn first_repeated(
    alloc: Global,
    types: &Types,
    from: usize,
) -> Result<Option<(TypeNo, String)>, AllocError>
    ensures { IfOk result (λ r.
        MatchOption r ((n : ℕ) → from ≤ n → AreDistinctLists (names_at types.now n))
        (λ p. ((k : ℕ) → from ≤ k → k < p.0 → AreDistinctLists (names_at types.now k))
        × IsFirstRepeated (names_at types.now p.0) (string_bytes p.1))) }
{
    for n in from..types.len() {
        if let Some(name) = repeated_name(alloc, types, n)? {
            return Ok(Some((n, name)));
        }
    }
    Ok(None)
}

fn repeated_name(alloc: Global, types: &Types, n: TypeNo) -> Result<Option<String>, AllocError>
    ensures { IfOk result (λ r. MatchOption r
        (AreDistinctLists (names_at types.now n))
        (λ s. IsFirstRepeated (names_at types.now n) (string_bytes s))) }
{
    match types.entry(n) {
        Some(entry) => schemars_shapes::repeated_name(alloc, &entry.shape),
        None => Ok(None),
    }
}

/// The lowest row on a cycle of edges of this kind between rows from row `from` on.
pub fn first_on_cycle(
    alloc: Global,
    types: &Types,
    kind: EdgeKind,
    from: usize,
) -> Result<Option<TypeNo>, AllocError>
    ensures { IfOk result (λ r.
        MatchOption r (IsFree (OnCycle (EdgeFrom from (Leads (targets_along kind types.now)))))
        (IsLeast (OnCycle (EdgeFrom from (Leads (targets_along kind types.now)))))) }
{
    let is_free = ascends(alloc, types, kind, from)?;
    if is_free {
        return Ok(None);
    }
    // The sum below is the number of a row.
    let _len = types.len();
    let graph = graph(alloc, types, kind, from)?;
    match least_on_cycle(alloc, &graph)? {
        Some(n) => Ok(Some(from + n)),
        None => Ok(None),
    }
}

// Whether each edge between rows from row `from` on leads to a later row, or to one that refers to
// none. No walk closes then, and no graph is needed.
fn ascends(alloc: Global, types: &Types, kind: EdgeKind, from: usize) -> Result<bool, AllocError>
    ensures { IfOk result (λ b. OnTrue b (Ascends kind types.now from)) }
{
    for n in from..types.len() {
        let leads = edges_lead_on(alloc, types, kind, from, n)?;
        if !leads {
            return Ok(false);
        }
    }
    Ok(true)
}

// The same of the edges from row `n`.
fn edges_lead_on(
    alloc: Global,
    types: &Types,
    kind: EdgeKind,
    from: usize,
    n: TypeNo,
) -> Result<bool, AllocError>
    ensures { IfOk result (λ b. OnTrue b
        (All (LeadsOn types.now from n) (targets_along kind types.now n))) }
{
    if refers_to_none(types, n) {
        return Ok(true);
    }
    let targets = targets(alloc, types, kind, n)?;
    Ok(all_lead_on(types, from, n, &targets))
}

fn all_lead_on(types: &Types, from: usize, n: TypeNo, numbers: &[TypeNo]) -> bool
    ensures { OnTrue result (All (LeadsOn types.now from n) numbers.now) }
{
    for m in numbers {
        if !leads_on(types, from, n, *m) {
            return false;
        }
    }
    true
}

fn leads_on(types: &Types, from: usize, n: TypeNo, m: TypeNo) -> bool
    ensures { OnTrue result (LeadsOn types.now from n m) }
{
    if m < from {
        return true;
    }
    if n < m {
        return true;
    }
    refers_to_none(types, m)
}

fn refers_to_none(types: &Types, n: TypeNo) -> bool
    ensures { OnTrue result (numbers_at types.now n ≡ []) }
{
    match types.entry(n) {
        Some(entry) => first_unknown(&entry.shape, 0).is_none(),
        None => true,
    }
}

// The rows from row `from` on, as a graph of its own whose first number is that row.
fn graph(
    alloc: Global,
    types: &Types,
    kind: EdgeKind,
    from: usize,
) -> Result<Vec<Vec<TypeNo>>, AllocError>
    ensures { IfOk result (λ v. HasTargets (targets_from kind from types.now)
        (length types.now - from) v.items) }
{
    let len = types.len().saturating_sub(from);
    let mut graph = Vec::with_capacity(alloc, len)?;
    for n in 0..len {
        let targets = targets(alloc, types, kind, from + n)?;
        graph.push(counted_from(targets, from))?;
    }
    Ok(graph)
}

// Those of these numbers that are not below `from`, counted from there.
fn counted_from(numbers: Vec<TypeNo>, from: usize) -> Vec<TypeNo>
    ensures { result.items ≡ counted_from from numbers.items }
{
    let mut numbers = numbers;
    numbers.retain(|n| *n >= from);
    count_from(&mut numbers, from);
    numbers
}

// Counts these numbers from `from`.
fn count_from(numbers: &mut [TypeNo], from: usize)
    ensures { numbers.new ≡ map (λ n. n - from) numbers.old }
{
    for n in numbers.iter_mut() {
        *n = n.saturating_sub(from);
    }
}

fn targets(
    alloc: Global,
    types: &Types,
    kind: EdgeKind,
    n: TypeNo,
) -> Result<Vec<TypeNo>, AllocError>
    ensures { IfOk result (λ v. v.items ≡ targets_along kind types.now n) }
{
    let Some(entry) = types.entry(n) else {
        return Ok(Vec::new(alloc));
    };
    match kind {
        EdgeKind::Direct => direct_targets(alloc, types, &entry.shape),
        EdgeKind::SameValue => {
            let numbers = rows(alloc, &entry.shape, Rows::Same)?;
            Ok(rows_among(types, numbers))
        }
    }
}

fn direct_targets(alloc: Global, types: &Types, shape: &Shape) -> Result<Vec<TypeNo>, AllocError>
    ensures { IfOk result (λ v. v.items
        ≡ filter (is_inline_at types.now) (numbers_of (shape_of shape.now))
        ++ filter (is_row types.now)
        (asked_in types.now (shape_of shape.now))) }
{
    let mut targets = in_place_among(types, rows(alloc, shape, Rows::All)?);
    let mut asked = rows_among(types, asked(alloc, types, shape)?);
    targets.append(&mut asked)?;
    Ok(targets)
}

// Those of these numbers that are numbers of rows in place.
fn in_place_among(types: &Types, numbers: Vec<TypeNo>) -> Vec<TypeNo>
    ensures { result.items ≡ filter (is_inline_at types.now) numbers.items }
{
    let mut numbers = numbers;
    numbers.retain(|m| is_inline(types, *m));
    numbers
}

// Those of these numbers that are numbers of rows.
fn rows_among(types: &Types, numbers: Vec<TypeNo>) -> Vec<TypeNo>
    ensures { result.items ≡ filter (is_row types.now) numbers.items }
{
    let mut numbers = numbers;
    numbers.retain(|m| *m < types.len());
    numbers
}

// The rows that a shape asks, whether they are written in place or not.
fn asked(alloc: Global, types: &Types, shape: &Shape) -> Result<Vec<TypeNo>, AllocError>
    ensures { IfOk result (λ v. v.items
        ≡ asked_in types.now (shape_of shape.now)) }
{
    let mut asked = rows(alloc, shape, Rows::Asked)?;
    let flattened = rows(alloc, shape, Rows::Flattened)?;
    for n in &flattened {
        add_below(types, *n, &mut asked)?;
    }
    Ok(asked)
}

// Adds the rows below row `n` through Options.
fn add_below(types: &Types, n: TypeNo, rows: &mut Vec<TypeNo>) -> Result<(), AllocError>
    ensures { OnOk result (rows.new.items
        ≡ rows.old.items ++ below types.now n) }
{
    let mut at = n;
    for _step in 0..types.len() {
        let Some(inner) = row_inside(types, at) else {
            return Ok(());
        };
        rows.push(inner)?;
        at = inner;
    }
    Ok(())
}

fn is_inline(types: &Types, n: TypeNo) -> bool
    ensures { result ≡ is_inline_at types.now n }
{
    match types.entry(n) {
        Some(entry) => entry.inline,
        None => false,
    }
}
