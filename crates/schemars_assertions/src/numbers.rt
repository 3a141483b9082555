//! The order of numbers by their mathematical value, and which of them are whole.
ghost use Rattle.std.specs.Prelude.{◌≡◌, pos, false, is_some, option_and_then};
ghost use Rattle.schemars_assertions.specs.Words.{le, is_float, number_view, number_le, of_whole, value_of, whole_of, whole_of_float, size_in_64_bits, size_of_whole};

use serde_json::Number;
use std::num::{nearest_u64_to_f64, truncating_f64_to_u64};

/// 2^53, up to which each whole number is a float, and from which on no float has a fraction.
const EXACT: u64 = 9007199254740992;

/// Returns whether the mathematical value of the first number is at most that of the second. Nothing
/// is rounded: 2^53 + 1 is above the float 2^53.
pub fn numbers_le(a: Number, b: Number) -> bool
    ensures { result ≡ number_le (number_view a) (number_view b) }
{
    if b.is_f64() {
        match b.as_f64() {
            Some(y) => at_most_float(a, y),
            None => false,
        }
    } else if a.is_f64() {
        match a.as_f64() {
            Some(x) => at_least_float(b, x),
            None => false,
        }
    } else {
        whole_le(a, b)
    }
}

/// Returns whether a number has no fraction. `2.0` has none.
pub fn is_whole(number: Number) -> bool
    ensures { result ≡ is_some (whole_of (number_view number)) }
{
    if !number.is_f64() {
        return true;
    }
    match number.as_f64() {
        Some(x) => has_no_fraction(x),
        None => false,
    }
}

/// The number without its sign, if it has no fraction and is below 2^64 then.
pub fn size_in_64_bits(number: Number) -> Option<u64>
    ensures { result ≡ size_in_64_bits (number_view number) }
{
    match number.as_u64() {
        Some(n) => Some(n),
        None => match number.as_i64() {
            Some(z) => Some(z.unsigned_abs()),
            None => match number.as_f64() {
                Some(x) => size_of_float(x),
                None => None,
            },
        },
    }
}

fn size_of_float(x: f64) -> Option<u64>
    ensures { result ≡ option_and_then size_of_whole (whole_of_float x) }
{
    let size = x.abs();
    if size < 18446744073709551616.0 {
        if has_no_fraction(x) {
            return Some(truncating_f64_to_u64(size));
        }
    }
    None
}

fn whole_le(a: Number, b: Number) -> bool
    requires whole { is_float (number_view a) ≡ false }
    requires other_whole { is_float (number_view b) ≡ false }
    ensures { result ≡ number_le (number_view a) (number_view b) }
{
    match (a.as_i128(), b.as_i128()) {
        (Some(x), Some(y)) => x <= y,
        _ => false,
    }
}

fn at_most_float(a: Number, x: f64) -> bool
    ensures { result ≡ le (value_of (number_view a)) x }
{
    match a.as_u64() {
        Some(n) => whole_at_most(n, x),
        None => match a.as_i64() {
            Some(z) => float_at_most(-x, z.unsigned_abs()),
            None => match a.as_f64() {
                Some(y) => y <= x,
                None => false,
            },
        },
    }
}

fn at_least_float(a: Number, x: f64) -> bool
    ensures { result ≡ le x (value_of (number_view a)) }
{
    match a.as_u64() {
        Some(n) => float_at_most(x, n),
        None => match a.as_i64() {
            Some(z) => whole_at_most(z.unsigned_abs(), -x),
            None => match a.as_f64() {
                Some(y) => x <= y,
                None => false,
            },
        },
    }
}

fn whole_at_most(n: u64, x: f64) -> bool
    ensures { result ≡ le (of_whole (pos n)) x }
{
    if n <= EXACT {
        nearest_u64_to_f64(n) <= x
    } else if x < 9007199254740992.0 {
        false
    } else if x < 18446744073709551616.0 {
        n <= truncating_f64_to_u64(x)
    } else {
        18446744073709551616.0 <= x
    }
}

fn float_at_most(x: f64, n: u64) -> bool
    ensures { result ≡ le x (of_whole (pos n)) }
{
    if n <= EXACT {
        x <= nearest_u64_to_f64(n)
    } else if x < 9007199254740992.0 {
        true
    } else if x < 18446744073709551616.0 {
        truncating_f64_to_u64(x) <= n
    } else {
        false
    }
}

fn has_no_fraction(x: f64) -> bool
    ensures { result ≡ is_some (whole_of_float x) }
{
    let size = x.abs();
    if size < 9007199254740992.0 {
        nearest_u64_to_f64(truncating_f64_to_u64(size)) == size
    } else {
        size.is_finite()
    }
}
