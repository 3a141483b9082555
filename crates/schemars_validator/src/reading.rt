//! What the expressions of a document answer about the texts of a value.
ghost use Rattle.std.specs.Prelude.{◌≡◌, ◌++◌, ◌&&◌, ◌||◌, IfOk, OnOk, map, bytes_eq, string_bytes};
ghost use Rattle.schemars_validator.specs.Words.{list_any, view, items_view, members_view, Text, has_pair, pairs_of, some_has, texts_of, texts_in_items, texts_in_members, answers, IsReadBy};

use schemars_readable::Expression;
use schemars_validate::Patterns;
use serde_json::{Map, Value};
use std::alloc::{AllocError, Global};
use std::collections::HashSet;
use std::hash::{BuildHasherDefault, FoldHasher};

/// The texts that match an expression.
#[derive(Drop)]
pub struct Matched {
    pattern: String,
    texts: HashSet<String>,
}

/// The texts of a value that match the expressions of a document.
#[derive(Drop)]
pub struct Reading {
    matched: Vec<Matched>,
}

impl Patterns for Reading {
    ghost reading = { λ r. pairs_of r.matched.items };

    #[tactic(auto, using(crate::proofs::Pairs::some_has_pair))]
    fn matches(&self, pattern: &str, text: &str) -> bool {
        is_matched(&self.matched, pattern, text)
    }
}

fn is_matched(matched: &[Matched], pattern: &str, text: &str) -> bool
    ensures { result ≡ some_has matched.now pattern.now text.now }
{
    for it in matched {
        if has_pair(it, pattern, text) {
            return true;
        }
    }
    false
}

fn has_pair(matched: &Matched, pattern: &str, text: &str) -> bool
    ensures { result ≡ has_pair matched.now pattern.now text.now }
{
    matched.pattern.as_str() == pattern && matched.texts.contains(text)
}

/// Asks each expression about each text of a value: its texts, and the names of its members.
pub fn read(alloc: Global, expressions: &[Expression], value: &Value) -> Result<Reading, AllocError>
    ensures { IfOk result (λ r. IsReadBy expressions.now (view value.now) (pairs_of r.matched.items)) }
{
    let texts = texts_in(alloc, value)?;
    let mut matched = Vec::with_capacity(alloc, expressions.len())?;
    for expression in expressions {
        matched.push(matched_by(alloc, expression, &texts)?)?;
    }
    Ok(Reading { matched })
}

// The texts that match an expression.

fn matched_by(alloc: Global, expression: &Expression, texts: &[&str]) -> Result<Matched, AllocError>
    ensures { IfOk result (λ m. (pattern text : Text) → has_pair m pattern text
        ≡ answers expression.now (map (λ t. t.now) texts.now) pattern text) }
{
    let mut matcher = expression.regex.matcher(alloc)?;
    let mut found = HashSet::new(alloc);
    for text in texts {
        let matches = matcher.is_match(text);
        add_if(alloc, matches, text, &mut found)?;
    }
    Ok(Matched {
        pattern: String::from_str(alloc, expression.pattern.as_str())?,
        texts: found,
    })
}

// Adds a text, if it is wanted.
#[tactic(auto, using(schemars_readable::proofs::Sets::put_none))]
fn add_if(
    alloc: Global,
    wanted: bool,
    text: &str,
    found: &mut HashSet<String>,
) -> Result<(), AllocError>
    ensures { OnOk result ((t : Text) → list_any (λ k. bytes_eq t (string_bytes k)) found.new.keys
        ≡ (list_any (λ k. bytes_eq t (string_bytes k)) found.old.keys || (bytes_eq t text.now && wanted))) }
{
    if wanted {
        found.insert(String::from_str(alloc, text)?)?;
    }
    Ok(())
}

// The texts of a value, and the names of its members.
fn texts_in(alloc: Global, value: &Value) -> Result<Vec<&str>, AllocError>
    ensures { IfOk result (λ texts. map (λ t. t.now) texts.items ≡ texts_of (view value.now)) }
{
    let mut texts = Vec::new(alloc);
    add_texts(value, &mut texts)?;
    Ok(texts)
}

#[cycle(texts)]
#[tactic(auto, unfolding(crate::specs::Texts::texts_of))]
fn add_texts<'v>(value: &'v Value, texts: &mut Vec<&'v str>) -> Result<(), AllocError>
    ensures { OnOk result (map (λ t. t.now) texts.new.items
        ≡ map (λ t. t.now) texts.old.items ++ texts_of (view value.now)) }
{
    match value {
        Value::Null | Value::Bool(_) | Value::Number(_) => Ok(()),
        Value::String(text) => Ok(texts.push(text.as_str())?),
        Value::Array(items) => add_in_items(items, texts),
        Value::Object(members) => add_in_members(members, texts),
    }
}

#[cycle(texts)]
#[tactic(auto, unfolding(crate::specs::Texts::texts_in_items))]
fn add_in_items<'v>(items: &'v Vec<Value>, texts: &mut Vec<&'v str>) -> Result<(), AllocError>
    ensures { OnOk result (map (λ t. t.now) texts.new.items
        ≡ map (λ t. t.now) texts.old.items ++ texts_in_items (items_view items.now.items)) }
{
    for item in items {
        add_texts(item, texts)?;
    }
    Ok(())
}

#[cycle(texts)]
#[tactic(auto, unfolding(crate::specs::Texts::texts_in_members))]
fn add_in_members<'v>(
    members: &'v Map<String, Value>,
    texts: &mut Vec<&'v str>,
) -> Result<(), AllocError>
    ensures { OnOk result (map (λ t. t.now) texts.new.items
        ≡ map (λ t. t.now) texts.old.items ++ texts_in_members (members_view members.now.entries)) }
{
    for (name, member) in members.iter() {
        texts.push(name.as_str())?;
        add_texts(member, texts)?;
    }
    Ok(())
}
