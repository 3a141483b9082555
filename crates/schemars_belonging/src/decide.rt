//! Whether a value belongs to a row, by the shape of the row.
ghost use Rattle.std.specs.Prelude.{◌≡◌, ◌||◌, IfOk};
ghost use Rattle.schemars_belonging.specs.Words.{view, shape_of, is_null, asked, has, has_shape_of};

mod choices;
mod internal;
mod lists;
mod maps;
mod variants;

use crate::decide::internal::any_internal;
use crate::decide::lists::{items, tuple};
use crate::decide::maps::{bound, has_fields, has_keys, one_of, range};
use crate::decide::variants::{By, any_variant};
use schemars_assertions::Patterns;
use schemars_literals::{Limit, has_literal, is_bytes, is_char, is_int, is_non_zero, is_null};
use schemars_schema::Schema;
use schemars_types::{Contract, Shape, TypeNo, Types};
use serde_json::Value;
use std::alloc::{AllocError, Global};

/// What is asked: of which table, by which contract and under which reading of patterns.
#[derive(Drop)]
pub struct Table<'t, P> {
    pub alloc: Global,
    pub types: &'t Types,
    pub contract: Contract,
    pub patterns: &'t P,
}

/// Whether row `n` has a value, where rows are asked at most `left` deep.
#[cycle(belongs)]
pub fn row<P: Patterns>(
    t: &Table<'_, P>,
    left: u64,
    n: TypeNo,
    value: &Value,
) -> Result<bool, AllocError>
    ensures { let a = asked t.now.types.now t.now.contract (P.reading t.now.patterns.now) in
        IfOk result (λ is. is ≡ has a left n (view value.now)) }
{
    if left == 0 {
        return Ok(false);
    }
    match t.types.entry(n) {
        Some(entry) => shape(t, left - 1, &entry.shape, value),
        None => Ok(false),
    }
}

#[cycle(belongs)]
fn shape<P: Patterns>(
    t: &Table<'_, P>,
    left: u64,
    shape: &Shape,
    value: &Value,
) -> Result<bool, AllocError>
    ensures { let a = asked t.now.types.now t.now.contract (P.reading t.now.patterns.now) in
        IfOk result (λ is. is ≡ has_shape_of a left (shape_of shape.now) (view value.now)) }
{
    match shape {
        Shape::Null => Ok(is_null(value)),
        Shape::Bool => Ok(value.is_boolean()),
        Shape::Int(kind) => Ok(is_int(*kind, value)),
        Shape::NonZero(kind) => Ok(is_non_zero(*kind, value)),
        Shape::Number => Ok(value.is_number()),
        Shape::Text => Ok(value.is_string()),
        Shape::Char => Ok(is_char(value)),
        Shape::Formatted(_) => Ok(value.is_string()),
        Shape::Any => Ok(true),
        Shape::Bytes => Ok(is_bytes(t.contract, value)),
        Shape::SchemaItself => Ok(Schema::is_schema(value)),
        Shape::Option(n) => or_null(t, left, *n, value),
        Shape::Seq(n) => items(t, left, Limit::Nothing, *n, value),
        Shape::Set(n) => items(t, left, Limit::Distinct, *n, value),
        Shape::Array(n, len) => items(t, left, Limit::Exactly(*len), *n, value),
        Shape::UpTo(n, cap) => items(t, left, Limit::AtMost(*cap), *n, value),
        Shape::Tuple(rows) => tuple(t, left, rows, value),
        Shape::Struct(fields) => has_fields(t, left, &[], fields, value),
        Shape::Newtype(n) => row(t, left, *n, value),
        Shape::Result(a, b) => one_of(t, left, "Ok", *a, "Err", *b, false, value),
        Shape::Bound(n) => bound(t, left, *n, value),
        Shape::Range(n) => range(t, left, *n, value),
        Shape::Either(a, b) => one_of(t, left, "Left", *a, "Right", *b, true, value),
        Shape::Map(key, n) => has_keys(t, left, *key, *n, value),
        Shape::External(variants) => any_variant(t, left, By::Name, variants, value),
        Shape::Untagged(variants) => any_variant(t, left, By::Nothing, variants, value),
        Shape::Internal(internal) => any_internal(t, left, internal, value),
        Shape::Adjacent(x) => any_variant(t, left, By::Content(x), &x.variants, value),
        Shape::Literal(schema) => Ok(has_literal(t.patterns, schema.as_value(), value)),
    }
}

#[cycle(belongs)]
fn or_null<P: Patterns>(
    t: &Table<'_, P>,
    left: u64,
    n: TypeNo,
    value: &Value,
) -> Result<bool, AllocError>
    ensures { let a = asked t.now.types.now t.now.contract (P.reading t.now.patterns.now) in
        IfOk result (λ is. is ≡ (is_null (view value.now) || has a left n (view value.now))) }
{
    if is_null(value) {
        return Ok(true);
    }
    row(t, left, n, value)
}
