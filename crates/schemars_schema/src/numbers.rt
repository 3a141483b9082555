//! Numbers by their mathematical value.
ghost use Rattle.std.specs.Prelude.{◌≡◌, pos, false};
ghost use Rattle.schemars_schema.specs.Words.{eq, is_float, number_view, number_eq, of_whole, value_of};

use serde_json::Number;
use std::num::{nearest_u64_to_f64, truncating_f64_to_u64};

/// 2^53, up to which each whole number is a float.
const EXACT: u64 = 9007199254740992;

/// Returns whether two numbers have the same mathematical value. Nothing is rounded: 2^53 + 1 does
/// not equal the float 2^53.
pub fn numbers_eq(a: Number, b: Number) -> bool
    ensures { result ≡ number_eq (number_view a) (number_view b) }
{
    if b.is_f64() {
        match b.as_f64() {
            Some(x) => equals_float(a, x),
            None => false,
        }
    } else if a.is_f64() {
        match a.as_f64() {
            Some(x) => equals_float(b, x),
            None => false,
        }
    } else {
        whole_eq(a, b)
    }
}

fn whole_eq(a: Number, b: Number) -> bool
    requires whole { is_float (number_view a) ≡ false }
    requires other_whole { is_float (number_view b) ≡ false }
    ensures { result ≡ number_eq (number_view a) (number_view b) }
{
    match (a.as_i128(), b.as_i128()) {
        (Some(x), Some(y)) => x == y,
        _ => false,
    }
}

fn equals_float(a: Number, x: f64) -> bool
    ensures { result ≡ eq (value_of (number_view a)) x }
{
    match a.as_u64() {
        Some(n) => is_exactly(n, x),
        None => match a.as_i64() {
            Some(z) => is_exactly(z.unsigned_abs(), -x),
            None => match a.as_f64() {
                Some(y) => y == x,
                None => false,
            },
        },
    }
}

fn is_exactly(n: u64, x: f64) -> bool
    ensures { result ≡ eq (of_whole (pos n)) x }
{
    if n <= EXACT {
        nearest_u64_to_f64(n) == x
    } else if x < 9007199254740992.0 {
        false
    } else if x < 18446744073709551616.0 {
        // a float from 2^53 on has no fraction
        truncating_f64_to_u64(x) == n
    } else {
        false
    }
}
