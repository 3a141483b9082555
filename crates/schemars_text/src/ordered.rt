//! The walk over a schema that writes its text, with keywords in a fixed order.
ghost use Rattle.std.specs.Prelude.{◌≡◌, ◌∷◌, ◌++◌, false, map, length, option_map};
ghost use Rattle.schemars_text.specs.Words.{quoted, boolean, number, string, Members, get_member, is_float, view, number_view, items_view, members_view, has_float, items_have_float, members_have_float, number_text, first_keywords, last_keywords, holds_plain_json, holds_named_schemas, SchemaLayout, layout_under, layout_inside, each_written_at, others, arranged, texts, text_in, item_texts, member_texts, object_text, with_token, with_value, with_values, layout_meant, Becomes};

use crate::places::{FIRST_KEYWORDS, LAST_KEYWORDS, find_fixed, has_fixed_place};
use crate::target::Target;
use json::Token;
use serde_json::{Map, Number, Value};

/// How a value is written.
#[derive(Clone, Copy)]
pub enum Layout {
    /// As it is, with objects in map order.
    PlainJson,
    /// As a schema, whose keywords have their places.
    Schema,
    /// As schemas by name, in map order.
    NamedSchemas,
}

impl Layout {
    /// Returns how the value of a member is written, where its object is written in this way.
    pub fn under(self, key: &str) -> Layout
        ensures { layout_meant result ≡ layout_under (layout_meant self) key.now }
    {
        match self {
            Layout::PlainJson => Layout::PlainJson,
            Layout::Schema => {
                if holds_plain_json(key) {
                    Layout::PlainJson
                } else if holds_named_schemas(key) {
                    Layout::NamedSchemas
                } else {
                    Layout::Schema
                }
            }
            Layout::NamedSchemas => Layout::Schema,
        }
    }

    /// Returns how an item is written, where its list is written in this way.
    pub fn inside(self) -> Layout
        ensures { layout_meant result ≡ layout_inside (layout_meant self) }
    {
        match self {
            Layout::PlainJson => Layout::PlainJson,
            Layout::Schema | Layout::NamedSchemas => Layout::Schema,
        }
    }
}

fn holds_plain_json(key: &str) -> bool
    ensures { result ≡ holds_plain_json key.now }
{
    let is_listed = match key.len() {
        7 => key == "default",
        8 => key == "examples",
        _ => false,
    };
    is_listed || key.starts_with("x-")
}

fn holds_named_schemas(key: &str) -> bool
    ensures { result ≡ holds_named_schemas key.now }
{
    match key.len() {
        5 => key == "$defs",
        10 => key == "properties",
        11 => key == "definitions",
        16 => key == "dependentSchemas",
        17 => key == "patternProperties",
        _ => false,
    }
}

#[cycle(write)]
#[tactic(auto, unfolding(crate::specs::OrderedText::text_in))]
pub(crate) fn write_value<S, T: Target<S>>(value: &Value, layout: Layout, lent: &mut S, out: &mut T)
    ensures { Becomes (T.has out.old lent.old) (T.has out.new lent.new)
        (has_float (view value.now))
        (λ o. with_value o (text_in (layout_meant layout) (view value.now))) }
{
    match value {
        Value::Null => out.token(lent, Token::Null),
        Value::Bool(b) => write_bool(*b, lent, out),
        Value::Number(n) => write_number(*n, lent, out),
        Value::String(text) => write_text(text.as_str(), lent, out),
        Value::Array(items) => {
            out.token(lent, Token::BeginArray);
            write_items(items, layout.inside(), lent, out);
            out.token(lent, Token::EndArray);
        }
        Value::Object(members) => write_object(members, layout, lent, out),
    }
}

// Three functions that keep their stack frames apart, so that values in one another need less.
#[inline(never)]
fn write_bool<S, T: Target<S>>(b: bool, lent: &mut S, out: &mut T)
    ensures { Becomes (T.has out.old lent.old) (T.has out.new lent.new) false
        (λ o. with_token o (boolean b)) }
{
    out.token(lent, Token::Bool(b));
}

#[inline(never)]
fn write_number<S, T: Target<S>>(n: Number, lent: &mut S, out: &mut T)
    ensures { Becomes (T.has out.old lent.old) (T.has out.new lent.new)
        (is_float (number_view n))
        (λ o. with_token o (number (number_text (number_view n)))) }
{
    out.number(lent, n);
}

#[inline(never)]
fn write_text<S, T: Target<S>>(text: &str, lent: &mut S, out: &mut T)
    ensures { Becomes (T.has out.old lent.old) (T.has out.new lent.new) false
        (λ o. with_token o (string text.now)) }
{
    out.token(lent, Token::String(text));
}

#[cycle(write)]
pub(crate) fn write_object<S, T: Target<S>>(
    members: &Map<String, Value>,
    layout: Layout,
    lent: &mut S,
    out: &mut T,
)
    ensures { Becomes (T.has out.old lent.old) (T.has out.new lent.new)
        (members_have_float (members_view members.now.entries))
        (λ o. with_value o (object_text (layout_meant layout)
        (members_view members.now.entries))) }
{
    out.token(lent, Token::BeginObject);
    write_members(members, layout, lent, out);
    out.token(lent, Token::EndObject);
}

#[cycle(write)]
#[tactic(auto, unfolding(crate::specs::OrderedText::item_texts))]
fn write_items<S, T: Target<S>>(items: &Vec<Value>, layout: Layout, lent: &mut S, out: &mut T)
    ensures { Becomes (T.has out.old lent.old) (T.has out.new lent.new)
        (items_have_float (items_view items.now.items))
        (λ o. with_values o (item_texts (layout_meant layout) (items_view items.now.items))) }
{
    for item in items {
        write_value(item, layout, lent, out);
    }
}

#[cycle(write)]
fn write_members<S, T: Target<S>>(
    members: &Map<String, Value>,
    layout: Layout,
    lent: &mut S,
    out: &mut T,
)
    ensures { Becomes (T.has out.old lent.old) (T.has out.new lent.new)
        (members_have_float (members_view members.now.entries))
        (λ o. with_values o (texts (arranged (layout_meant layout)
        (member_texts (layout_meant layout) (members_view members.now.entries))))) }
{
    match layout {
        Layout::Schema => {
            let last = write_first(members, lent, out);
            write_others(members, lent, out);
            write_keywords(&LAST_KEYWORDS, &last, lent, out);
        }
        Layout::PlainJson | Layout::NamedSchemas => write_in_map_order(members, layout, lent, out),
    }
}

#[cycle(write)]
#[inline(never)]
#[tactic(auto, unfolding(crate::specs::OrderedText::member_texts))]
fn write_in_map_order<S, T: Target<S>>(
    members: &Map<String, Value>,
    layout: Layout,
    lent: &mut S,
    out: &mut T,
)
    ensures { Becomes (T.has out.old lent.old) (T.has out.new lent.new)
        (members_have_float (members_view members.now.entries))
        (λ o. with_values o (texts (member_texts (layout_meant layout)
        (members_view members.now.entries)))) }
{
    for (key, value) in members.iter() {
        write_member(key.as_str(), value, layout, lent, out);
    }
}

// Writes the members of `FIRST_KEYWORDS`, and returns those of `LAST_KEYWORDS`.
#[cycle(write)]
#[inline(never)]
fn write_first<'v, S, T: Target<S>>(
    members: &'v Map<String, Value>,
    lent: &mut S,
    out: &mut T,
) -> [Option<&'v Value>; 2]
    ensures written { Becomes (T.has out.old lent.old) (T.has out.new lent.new)
        (members_have_float (members_view members.now.entries))
        (λ o. with_values o (texts (each_written_at first_keywords
        (member_texts SchemaLayout (members_view members.now.entries))))) }
    ensures last { map (λ s. option_map (λ v. view v.now) s) result
        ≡ map (λ k. get_member k (members_view members.now.entries)) last_keywords }
{
    let mut found = [None; 9];
    find_fixed(members, &mut found);
    write_keywords(&FIRST_KEYWORDS, &found[..7], lent, out);
    [found[7], found[8]]
}

// Writes what was found under these keys, in the order of the keys.
#[cycle(write)]
fn write_keywords<S, T: Target<S>>(
    keywords: &[&str],
    found: &[Option<&Value>],
    lent: &mut S,
    out: &mut T,
)
    requires { length found.now ≡ length keywords.now }
    ensures { (ms : Members) → map (λ s. option_map (λ v. view v.now) s) found.now
        ≡ map (λ k. get_member k.now ms) keywords.now
        → Becomes (T.has out.old lent.old) (T.has out.new lent.new) (members_have_float ms)
        (λ o. with_values o (texts (each_written_at (map (λ k. k.now) keywords.now)
        (member_texts SchemaLayout ms)))) }
{
    for (place, keyword) in keywords.iter().enumerate() {
        if let Some(value) = found[place] {
            write_member(keyword, value, Layout::Schema, lent, out);
        }
    }
}

// Writes those members of a schema that have no place of their own, in map order.
#[cycle(write)]
#[inline(never)]
#[tactic(auto, unfolding(crate::specs::OrderedText::member_texts))]
fn write_others<S, T: Target<S>>(members: &Map<String, Value>, lent: &mut S, out: &mut T)
    ensures { Becomes (T.has out.old lent.old) (T.has out.new lent.new)
        (members_have_float (members_view members.now.entries))
        (λ o. with_values o (texts (others (member_texts SchemaLayout
        (members_view members.now.entries))))) }
{
    for (key, value) in members.iter() {
        if !has_fixed_place(key.as_str()) {
            write_member(key.as_str(), value, Layout::Schema, lent, out);
        }
    }
}

#[cycle(write)]
fn write_member<S, T: Target<S>>(
    key: &str,
    value: &Value,
    layout: Layout,
    lent: &mut S,
    out: &mut T,
)
    ensures { Becomes (T.has out.old lent.old) (T.has out.new lent.new)
        (has_float (view value.now))
        (λ o. with_value o (quoted key.now
        ++ 58 ∷ text_in (layout_under (layout_meant layout) key.now) (view value.now))) }
{
    out.token(lent, Token::Key(key));
    write_value(value, layout.under(key), lent, out);
}
