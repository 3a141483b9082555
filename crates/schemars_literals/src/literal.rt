//! The values that a literal has.
ghost use Rattle.std.specs.Prelude.{◌≡◌, option_map, nat_le};
ghost use Rattle.schemars_literals.specs.Words.{get_member, view, members_view, json_eq, count_of_number, where_given, has_literal, meets_each, is_of_types, is_in_list, is_from, is_up_to, is_as_long, is_no_longer, is_matched, has_as_many, has_no_more, meets_numbers, meets_texts, meets_lists};

use crate::named_types::is_of_types;
use schemars_assertions::{
    Patterns, code_points, is_among, is_at_least, is_at_most, member, numbers_le,
};
use schemars_schema::json_eq;
use serde_json::{Map, Value};

/// Whether a literal, given as a schema, has a value.
pub fn has_literal<P: Patterns>(patterns: &P, schema: &Value, value: &Value) -> bool
    ensures { result ≡ has_literal (P.reading patterns.now) (view schema.now) (view value.now) }
{
    match schema {
        Value::Bool(all) => *all,
        Value::Object(keywords) => meets_each(patterns, keywords, value),
        Value::Null | Value::Number(_) | Value::String(_) | Value::Array(_) => false,
    }
}

fn meets_each<P: Patterns>(patterns: &P, keywords: &Map<String, Value>, value: &Value) -> bool
    ensures { result ≡ meets_each (P.reading patterns.now)
        (λ k. get_member k (members_view keywords.now.entries)) (view value.now) }
{
    is_of_types(member(keywords, "type"), value)
        && is_constant(member(keywords, "const"), value)
        && is_in_list(member(keywords, "enum"), value)
        && meets_numbers(patterns, keywords, value)
}

fn meets_numbers<P: Patterns>(patterns: &P, keywords: &Map<String, Value>, value: &Value) -> bool
    ensures { result ≡ meets_numbers (P.reading patterns.now)
        (λ k. get_member k (members_view keywords.now.entries)) (view value.now) }
{
    is_from(member(keywords, "minimum"), value)
        && is_up_to(member(keywords, "maximum"), value)
        && meets_texts(patterns, keywords, value)
}

fn meets_texts<P: Patterns>(patterns: &P, keywords: &Map<String, Value>, value: &Value) -> bool
    ensures { result ≡ meets_texts (P.reading patterns.now)
        (λ k. get_member k (members_view keywords.now.entries)) (view value.now) }
{
    is_as_long(member(keywords, "minLength"), value)
        && is_no_longer(member(keywords, "maxLength"), value)
        && is_matched(patterns, member(keywords, "pattern"), value)
        && meets_lists(keywords, value)
}

fn meets_lists(keywords: &Map<String, Value>, value: &Value) -> bool
    ensures { result ≡ meets_lists (λ k. get_member k (members_view keywords.now.entries))
        (view value.now) }
{
    has_as_many(member(keywords, "minItems"), value)
        && has_no_more(member(keywords, "maxItems"), value)
}

// ---- equality

fn is_constant(constant: Option<&Value>, value: &Value) -> bool
    ensures { result ≡ where_given (option_map (λ v. view v.now) constant.entry)
        (λ given. json_eq given (view value.now)) }
{
    match constant {
        Some(given) => json_eq(given, value),
        None => true,
    }
}

fn is_in_list(list: Option<&Value>, value: &Value) -> bool
    ensures { result ≡ where_given (option_map (λ v. view v.now) list.entry)
        (λ list. is_in_list list (view value.now)) }
{
    let Some(list) = list else {
        return true;
    };
    match list.as_array() {
        Some(items) => is_among(items, value),
        None => true,
    }
}

// ---- numbers

fn is_from(least: Option<&Value>, value: &Value) -> bool
    ensures { result ≡ where_given (option_map (λ v. view v.now) least.entry)
        (λ least. is_from least (view value.now)) }
{
    let Some(least) = least else {
        return true;
    };
    match value.as_number() {
        Some(n) => match least.as_number() {
            Some(m) => numbers_le(*m, *n),
            None => true,
        },
        None => true,
    }
}

fn is_up_to(most: Option<&Value>, value: &Value) -> bool
    ensures { result ≡ where_given (option_map (λ v. view v.now) most.entry)
        (λ most. is_up_to most (view value.now)) }
{
    let Some(most) = most else {
        return true;
    };
    match value.as_number() {
        Some(n) => match most.as_number() {
            Some(m) => numbers_le(*n, *m),
            None => true,
        },
        None => true,
    }
}

// ---- counts

// Whether a count is at most this one. What is no count is.
fn counts_to(value: &Value, count: u64) -> bool
    ensures { result ≡ where_given (count_of_number (view value.now)) (λ m. nat_le m count) }
{
    is_at_most(value, count).unwrap_or(true)
}

// Whether a count is at least this one. What is no count is.
fn counts_from(value: &Value, count: u64) -> bool
    ensures { result ≡ where_given (count_of_number (view value.now)) (λ m. nat_le count m) }
{
    is_at_least(value, count).unwrap_or(true)
}

// ---- texts

fn is_as_long(least: Option<&Value>, value: &Value) -> bool
    ensures { result ≡ where_given (option_map (λ v. view v.now) least.entry)
        (λ least. is_as_long least (view value.now)) }
{
    let Some(least) = least else {
        return true;
    };
    match value.as_str() {
        Some(text) => counts_to(least, code_points(text) as u64),
        None => true,
    }
}

fn is_no_longer(most: Option<&Value>, value: &Value) -> bool
    ensures { result ≡ where_given (option_map (λ v. view v.now) most.entry)
        (λ most. is_no_longer most (view value.now)) }
{
    let Some(most) = most else {
        return true;
    };
    match value.as_str() {
        Some(text) => counts_from(most, code_points(text) as u64),
        None => true,
    }
}

fn is_matched<P: Patterns>(patterns: &P, pattern: Option<&Value>, value: &Value) -> bool
    ensures { result ≡ where_given (option_map (λ v. view v.now) pattern.entry)
        (λ pattern. is_matched (P.reading patterns.now) pattern (view value.now)) }
{
    let Some(pattern) = pattern else {
        return true;
    };
    match value.as_str() {
        Some(text) => match pattern.as_str() {
            Some(p) => patterns.matches(p, text),
            None => true,
        },
        None => true,
    }
}

// ---- lists

#[tactic(auto, using(schemars_assertions::proofs::Lists::items_counted))]
fn has_as_many(least: Option<&Value>, value: &Value) -> bool
    ensures { result ≡ where_given (option_map (λ v. view v.now) least.entry)
        (λ least. has_as_many least (view value.now)) }
{
    let Some(least) = least else {
        return true;
    };
    match value.as_array() {
        Some(items) => counts_to(least, items.len() as u64),
        None => true,
    }
}

#[tactic(auto, using(schemars_assertions::proofs::Lists::items_counted))]
fn has_no_more(most: Option<&Value>, value: &Value) -> bool
    ensures { result ≡ where_given (option_map (λ v. view v.now) most.entry)
        (λ most. has_no_more most (view value.now)) }
{
    let Some(most) = most else {
        return true;
    };
    match value.as_array() {
        Some(items) => counts_from(most, items.len() as u64),
        None => true,
    }
}
