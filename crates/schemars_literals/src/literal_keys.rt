//! What a literal says of one key.
ghost use Rattle.std.specs.Prelude.{◌≡◌, option_map, option_and_then};
ghost use Rattle.schemars_literals.specs.Words.{get, as_str, items_view, literal_options, typed_options, literal_texts, texts_options, literal_integers, said_of, said, said_by};
ghost use Rattle.schemars_schema.specs.Judges as accepting;

use crate::said::{Said, any_said, found_said, integers_said};
use schemars_assertions::{Patterns, are_texts};
use schemars_schema::Schema;
use schemars_schema::edits::holds_text;
use schemars_types::IntegerKeys;
use serde_json::Value;

/// What a literal, given as a schema, says of a key.
pub fn literal_says<P: Patterns>(patterns: &P, schema: &Schema, key: &str) -> Option<Said>
    ensures { option_map said_of result
        ≡ said_by (P.reading patterns.now) key.now (literal_options schema.now) }
{
    if schema.as_bool().is_some() {
        return None;
    }
    Some(typed_says(patterns, schema, key))
}

fn typed_says<P: Patterns>(patterns: &P, schema: &Schema, key: &str) -> Said
    ensures { said_of result ≡ said (P.reading patterns.now) key.now (typed_options schema.now) }
{
    let Some(name) = text_at(schema, "type") else {
        return any_said();
    };
    if name == "string" {
        return texts_say(patterns, schema, key);
    }
    if name == "integer" {
        return integers_said(literal_integers(schema));
    }
    any_said()
}

fn texts_say<P: Patterns>(patterns: &P, schema: &Schema, key: &str) -> Said
    ensures { said_of result ≡ said (P.reading patterns.now) key.now (literal_texts schema.now) }
{
    if let Some(pattern) = text_at(schema, "pattern") {
        return found_said(patterns.matches(pattern, key));
    }
    match schema.get("enum") {
        Some(Value::Array(values)) => listed_say(values, key),
        _ => any_said(),
    }
}

fn listed_say(values: &[Value], key: &str) -> Said
    ensures { (patterns : accepting.Patterns)
        → said_of result ≡ said patterns key.now (texts_options (items_view values.now)) }
{
    if are_texts(values) {
        found_said(holds_text(values, key))
    } else {
        any_said()
    }
}

// The text under a keyword.
fn text_at<'t>(schema: &'t Schema, key: &str) -> Option<&'t str>
    ensures { option_map (λ t. t.now) result ≡ option_and_then as_str (get key.now schema.now) }
{
    match schema.get(key) {
        Some(value) => value.as_str(),
        None => None,
    }
}

fn literal_integers(schema: &Schema) -> IntegerKeys
    ensures { result ≡ literal_integers schema.now }
{
    let Some(least) = schema.get("minimum") else {
        return IntegerKeys::Signed;
    };
    match least.as_u64() {
        Some(0) => IntegerKeys::Unsigned,
        _ => IntegerKeys::Signed,
    }
}
