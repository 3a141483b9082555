//! Keywords that judge a value by itself.
ghost use Rattle.std.specs.Prelude.{◌≡◌, Some, option_map, ◌&&◌};
ghost use Rattle.schemars_assertions.specs.Words.{string, array, is_listed, type_names, get_member, view, items_view, members_view, is_among, is_of_type, is_of_some_type, are_type_names, is_true, is_null, type_says, const_says, enum_says, all_of, meant, are_texts, texts_of, by_itself};

use crate::arrays::{max_items_says, min_items_says, unique_items_says};
use crate::dialect::Dialect;
use crate::members::member;
use crate::numbers::is_whole;
use crate::patterns::Patterns;
use crate::quantities::{
    exclusive_maximum_says, exclusive_minimum_says, max_length_says, maximum_says, min_length_says,
    minimum_says, multiple_of_says, pattern_says,
};
use crate::verdict::{Verdict, all_of, verdict_of};
use schemars_schema::edits::{holds_text, is_listed};
use schemars_schema::json_eq;
use serde_json::{Map, Value};

const TYPES: [&str; 7] = [
    "null", "boolean", "object", "array", "number", "string", "integer",
];

/// What the keywords that judge a value by itself say, but for those that look at the keys.
pub fn by_itself<P: Patterns>(
    dialect: Dialect,
    patterns: &P,
    keywords: &Map<String, Value>,
    value: &Value,
) -> Verdict
    ensures { meant result ≡ all_of (by_itself dialect (P.reading patterns.now)
        (λ k. get_member k (members_view keywords.now.entries)) (view value.now)) }
{
    all_of(&[
        type_says(
            dialect.reads_nullable(),
            member(keywords, "type"),
            member(keywords, "nullable"),
            value,
        ),
        const_says(dialect.reads_const(), member(keywords, "const"), value),
        enum_says(member(keywords, "enum"), value),
        minimum_says(member(keywords, "minimum"), value),
        maximum_says(member(keywords, "maximum"), value),
        exclusive_minimum_says(
            dialect.reads_const(),
            member(keywords, "exclusiveMinimum"),
            member(keywords, "minimum"),
            value,
        ),
        exclusive_maximum_says(
            dialect.reads_const(),
            member(keywords, "exclusiveMaximum"),
            member(keywords, "maximum"),
            value,
        ),
        multiple_of_says(member(keywords, "multipleOf"), value),
        min_length_says(member(keywords, "minLength"), value),
        max_length_says(member(keywords, "maxLength"), value),
        pattern_says(patterns, member(keywords, "pattern"), value),
        min_items_says(member(keywords, "minItems"), value),
        max_items_says(member(keywords, "maxItems"), value),
        unique_items_says(member(keywords, "uniqueItems"), value),
    ])
}

// ---- types

fn type_says(
    reads_nullable: bool,
    types: Option<&Value>,
    nullable: Option<&Value>,
    value: &Value,
) -> Verdict
    ensures { meant result ≡ type_says reads_nullable (option_map (λ v. view v.now) types.entry)
        (option_map (λ v. view v.now) nullable.entry) (view value.now) }
{
    match types {
        Some(Value::String(name)) => named_type_says(
            reads_nullable,
            name.as_str(),
            nullable,
            value,
        ),
        Some(Value::Array(names)) => listed_types_say(reads_nullable, names, nullable, value),
        _ => Verdict::Yes,
    }
}

fn named_type_says(
    reads_nullable: bool,
    name: &str,
    nullable: Option<&Value>,
    value: &Value,
) -> Verdict
    ensures { meant result ≡ type_says reads_nullable (Some (string name.now))
        (option_map (λ v. view v.now) nullable.entry) (view value.now) }
{
    if !is_type_name(name) {
        return Verdict::Yes;
    }
    if reads_nullable && (name == "null" || lets_null_pass(nullable, value)) {
        return Verdict::Yes;
    }
    verdict_of(is_of_type(name, value))
}

fn listed_types_say(
    reads_nullable: bool,
    names: &[Value],
    nullable: Option<&Value>,
    value: &Value,
) -> Verdict
    ensures { meant result ≡ type_says reads_nullable (Some (array (items_view names.now)))
        (option_map (λ v. view v.now) nullable.entry) (view value.now) }
{
    if !are_texts(names) {
        return Verdict::Yes;
    }
    if !are_type_names(names) {
        return Verdict::Yes;
    }
    let fits = is_of_some_type(names, value);
    if !reads_nullable {
        return verdict_of(fits);
    }
    if holds_text(names, "null") {
        return Verdict::Yes;
    }
    if lets_null_pass(nullable, value) {
        return Verdict::Yes;
    }
    verdict_of(fits)
}

fn lets_null_pass(nullable: Option<&Value>, value: &Value) -> bool
    ensures { result ≡ (is_true (option_map (λ v. view v.now) nullable.entry) && is_null (view value.now)) }
{
    match nullable {
        Some(allowed) => allowed.as_bool() == Some(true) && value.is_null(),
        None => false,
    }
}

/// Whether the text is the name of a type.
pub fn is_type_name(name: &str) -> bool
    ensures { result ≡ is_listed name.now type_names }
{
    is_listed(name, &TYPES)
}

/// Whether the value is of the type of this name.
pub fn is_of_type(name: &str, value: &Value) -> bool
    ensures { result ≡ is_of_type name.now (view value.now) }
{
    match value {
        Value::Null => name == "null",
        Value::Bool(_) => name == "boolean",
        Value::Number(n) => name == "number" || (name == "integer" && is_whole(*n)),
        Value::String(_) => name == "string",
        Value::Array(_) => name == "array",
        Value::Object(_) => name == "object",
    }
}

/// Whether each of the values is a text.
pub fn are_texts(values: &[Value]) -> bool
    ensures { result ≡ are_texts (items_view values.now) }
{
    for value in values {
        if !value.is_string() {
            return false;
        }
    }
    true
}

/// Whether each of the texts in a list is the name of a type.
pub fn are_type_names(values: &[Value]) -> bool
    ensures { result ≡ are_type_names (texts_of (items_view values.now)) }
{
    for value in values {
        if let Some(name) = value.as_str()
            && !is_type_name(name)
        {
            return false;
        }
    }
    true
}

/// Whether the value is of a type that one of the texts in a list names.
pub fn is_of_some_type(names: &[Value], value: &Value) -> bool
    ensures { result ≡ is_of_some_type (texts_of (items_view names.now)) (view value.now) }
{
    for listed in names {
        if let Some(name) = listed.as_str()
            && is_of_type(name, value)
        {
            return true;
        }
    }
    false
}

// ---- equality

fn const_says(reads_const: bool, constant: Option<&Value>, value: &Value) -> Verdict
    ensures { meant result ≡ const_says reads_const (option_map (λ v. view v.now) constant.entry)
        (view value.now) }
{
    if !reads_const {
        return Verdict::Yes;
    }
    match constant {
        Some(c) => verdict_of(json_eq(c, value)),
        None => Verdict::Yes,
    }
}

/// Whether the value is equal to one of the items.
pub fn is_among(items: &[Value], value: &Value) -> bool
    ensures { result ≡ is_among (items_view items.now) (view value.now) }
{
    for item in items {
        if json_eq(item, value) {
            return true;
        }
    }
    false
}

fn enum_says(values: Option<&Value>, value: &Value) -> Verdict
    ensures { meant result ≡ enum_says (option_map (λ v. view v.now) values.entry) (view value.now) }
{
    let Some(values) = values else {
        return Verdict::Yes;
    };
    match values.as_array() {
        Some(items) => verdict_of(is_among(items, value)),
        None => Verdict::Yes,
    }
}
