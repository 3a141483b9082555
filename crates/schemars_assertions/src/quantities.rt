//! Keywords that judge numbers and texts.
ghost use Rattle.std.specs.Prelude.{◌≡◌, option_map, is_some, nat_le, option_and_then, if◌then◌else◌};
ghost use Rattle.schemars_assertions.specs.Words.{unsigned, view, number_view, whole_of, number_le, size_in_64_bits, minimum_says, maximum_says, exclusive_bound, exclusive_minimum_says, exclusive_maximum_says, multiple_of_says, is_divided, from_zero, count_of_number, code_points, min_length_says, max_length_says, pattern_says, Yes, meant};

use crate::numbers::{is_whole, numbers_le, size_in_64_bits};
use crate::patterns::Patterns;
use crate::verdict::{Verdict, verdict_of};
use serde_json::{Number, Value};

// ---- numbers

pub fn minimum_says(least: Option<&Value>, value: &Value) -> Verdict
    ensures { meant result ≡ minimum_says (option_map (λ v. view v.now) least.entry) (view value.now) }
{
    let Some(least) = least else {
        return Verdict::Yes;
    };
    match value.as_number() {
        Some(n) => match least.as_number() {
            Some(m) => verdict_of(numbers_le(*m, *n)),
            None => Verdict::Yes,
        },
        None => Verdict::Yes,
    }
}

pub fn maximum_says(most: Option<&Value>, value: &Value) -> Verdict
    ensures { meant result ≡ maximum_says (option_map (λ v. view v.now) most.entry) (view value.now) }
{
    let Some(most) = most else {
        return Verdict::Yes;
    };
    match value.as_number() {
        Some(n) => match most.as_number() {
            Some(m) => verdict_of(numbers_le(*n, *m)),
            None => Verdict::Yes,
        },
        None => Verdict::Yes,
    }
}

// The bound itself or, before Draft 6, a truth value that excludes the bound beside it.
fn exclusive_bound<'k>(
    reads_const: bool,
    bound: &'k Value,
    beside: Option<&'k Value>,
) -> Option<&'k Number>
    ensures { option_map (λ n. number_view n.now) result
        ≡ exclusive_bound reads_const (view bound.now) (option_map (λ v. view v.now) beside.entry) }
{
    if reads_const {
        return bound.as_number();
    }
    if bound.as_bool() != Some(true) {
        return None;
    }
    match beside {
        Some(limit) => limit.as_number(),
        None => None,
    }
}

pub fn exclusive_minimum_says(
    reads_const: bool,
    exclusive: Option<&Value>,
    minimum: Option<&Value>,
    value: &Value,
) -> Verdict
    ensures { meant result ≡ exclusive_minimum_says reads_const (option_map (λ v. view v.now) exclusive.entry)
        (option_map (λ v. view v.now) minimum.entry) (view value.now) }
{
    let Some(exclusive) = exclusive else {
        return Verdict::Yes;
    };
    match value.as_number() {
        Some(n) => match exclusive_bound(reads_const, exclusive, minimum) {
            Some(m) => verdict_of(!numbers_le(*n, *m)),
            None => Verdict::Yes,
        },
        None => Verdict::Yes,
    }
}

pub fn exclusive_maximum_says(
    reads_const: bool,
    exclusive: Option<&Value>,
    maximum: Option<&Value>,
    value: &Value,
) -> Verdict
    ensures { meant result ≡ exclusive_maximum_says reads_const (option_map (λ v. view v.now) exclusive.entry)
        (option_map (λ v. view v.now) maximum.entry) (view value.now) }
{
    let Some(exclusive) = exclusive else {
        return Verdict::Yes;
    };
    match value.as_number() {
        Some(n) => match exclusive_bound(reads_const, exclusive, maximum) {
            Some(m) => verdict_of(!numbers_le(*m, *n)),
            None => Verdict::Yes,
        },
        None => Verdict::Yes,
    }
}

// ---- multiples

pub fn multiple_of_says(divisor: Option<&Value>, value: &Value) -> Verdict
    ensures { meant result ≡ multiple_of_says (option_map (λ v. view v.now) divisor.entry) (view value.now) }
{
    let Some(divisor) = divisor else {
        return Verdict::Yes;
    };
    match value.as_number() {
        Some(n) => match divisor.as_number() {
            Some(m) => is_multiple(*n, *m),
            None => Verdict::Yes,
        },
        None => Verdict::Yes,
    }
}

// Whether the first number is a multiple of the second, if that is above zero.
fn is_multiple(number: Number, divisor: Number) -> Verdict
    ensures { meant result ≡ (if number_le (number_view divisor) (unsigned 0) then Yes
        else is_divided (size_in_64_bits (number_view number)) (size_in_64_bits (number_view divisor))
        (is_some (whole_of (number_view number)))) }
{
    if numbers_le(divisor, Number::from(0u64)) {
        return Verdict::Yes;
    }
    let Some(by) = size_in_64_bits(divisor) else {
        return Verdict::Open;
    };
    match size_in_64_bits(number) {
        Some(size) => verdict_of(size % by == 0),
        None if is_whole(number) => Verdict::Open,
        None => Verdict::No,
    }
}

// ---- counts

// Whether the number is whole, and not below zero.
fn is_count(number: Number) -> bool
    ensures { result ≡ is_some (option_and_then from_zero (whole_of (number_view number))) }
{
    is_whole(number) && numbers_le(Number::from(0u64), number)
}

/// Whether a keyword's value is at most this count, if it is a count itself.
pub fn is_at_most(value: &Value, count: u64) -> Option<bool>
    ensures { result ≡ option_map (λ m. nat_le m count) (count_of_number (view value.now)) }
{
    match value.as_number() {
        Some(number) if is_count(*number) => Some(numbers_le(*number, Number::from(count))),
        _ => None,
    }
}

/// Whether a keyword's value is at least this count, if it is a count itself.
pub fn is_at_least(value: &Value, count: u64) -> Option<bool>
    ensures { result ≡ option_map (λ m. nat_le count m) (count_of_number (view value.now)) }
{
    match value.as_number() {
        Some(number) if is_count(*number) => Some(numbers_le(Number::from(count), *number)),
        _ => None,
    }
}

// ---- texts

/// The number of code points of a text.
pub fn code_points(text: &str) -> usize
    ensures { result ≡ code_points text.now }
{
    let mut count = 0;
    for byte in text.as_bytes() {
        if *byte < 128 || *byte > 191 {
            count += 1;
        }
    }
    count
}

pub fn min_length_says(least: Option<&Value>, value: &Value) -> Verdict
    ensures { meant result ≡ min_length_says (option_map (λ v. view v.now) least.entry) (view value.now) }
{
    let Some(least) = least else {
        return Verdict::Yes;
    };
    match value.as_str() {
        Some(text) => match is_at_most(least, code_points(text) as u64) {
            Some(fits) => verdict_of(fits),
            None => Verdict::Yes,
        },
        None => Verdict::Yes,
    }
}

pub fn max_length_says(most: Option<&Value>, value: &Value) -> Verdict
    ensures { meant result ≡ max_length_says (option_map (λ v. view v.now) most.entry) (view value.now) }
{
    let Some(most) = most else {
        return Verdict::Yes;
    };
    match value.as_str() {
        Some(text) => match is_at_least(most, code_points(text) as u64) {
            Some(fits) => verdict_of(fits),
            None => Verdict::Yes,
        },
        None => Verdict::Yes,
    }
}

pub fn pattern_says<P: Patterns>(patterns: &P, pattern: Option<&Value>, value: &Value) -> Verdict
    ensures { meant result ≡ pattern_says (P.reading patterns.now)
        (option_map (λ v. view v.now) pattern.entry) (view value.now) }
{
    let Some(pattern) = pattern else {
        return Verdict::Yes;
    };
    match value.as_str() {
        Some(text) => match pattern.as_str() {
            Some(p) => verdict_of(patterns.matches(p, text)),
            None => Verdict::Yes,
        },
        None => Verdict::Yes,
    }
}
