//! Marks for the parts of a value that have been judged.
ghost use Rattle.std.specs.Prelude.{◌≡◌, IfOk, Some, None, option_map, true, is_some, if◌then◌else◌, ◌&&◌, length, min, slice_set};
ghost use Rattle.schemars_validate.specs.Words.{items_len, view, items_view, members_view, marked, united, unmarked, first_marked, keys_in, parts_of, at_keys, at_positions, is_placed, is_marked, is_named, matches_one, is_matched, is_taken, is_yes, meant};

use crate::found::{ItemSchemas, MemberSchemas};
use schemars_assertions::{Patterns, Verdict, member};
use serde_json::{Map, Value};
use std::alloc::{AllocError, Global};

/// No part of the value is marked.
pub fn unmarked(alloc: Global, value: &Value) -> Result<Vec<bool>, AllocError>
    ensures { IfOk result (λ marks. marks.items ≡ unmarked (parts_of (view value.now))) }
{
    vec![in alloc; false; count_of_parts(value)]
}

/// Marks all parts of the value.
pub fn mark_all(value: &Value, marks: &mut Vec<bool>)
    ensures { marks.new.items ≡ marked (λ p. true) (parts_of (view value.now)) marks.old.items }
{
    mark_first(count_of_parts(value), marks);
}

fn count_of_parts(value: &Value) -> usize
    ensures { result ≡ length (parts_of (view value.now)) }
{
    if let Some(items) = value.as_array() {
        return items.len();
    }
    match value.as_object() {
        Some(members) => members.len(),
        None => 0,
    }
}

fn mark_first(count: usize, marks: &mut Vec<bool>)
    ensures { marks.new.items ≡ first_marked count marks.old.items }
{
    for place in 0..count.min(marks.len()) {
        marks[place] = true;
    }
}

/// Marks the items that a schema judges by their position, and all where there is one for all others.
pub fn mark_items(schemas: &ItemSchemas<'_>, value: &Value, marks: &mut Vec<bool>)
    ensures { marks.new.items ≡ marked
        (at_positions (is_placed (items_view schemas.now.first.now) (option_map (λ s. view s.now) schemas.now.others)))
        (parts_of (view value.now)) marks.old.items }
{
    let Some(items) = value.as_array() else {
        return;
    };
    mark_first(count_of_placed(schemas, items), marks);
}

#[tactic(auto, using(schemars_assertions::proofs::Lists::items_counted))]
fn count_of_placed(schemas: &ItemSchemas<'_>, items: &[Value]) -> usize
    ensures { result ≡ (if is_some schemas.now.others then items_len (items_view items.now)
        else min (items_len (items_view schemas.now.first.now)) (items_len (items_view items.now))) }
{
    match schemas.others {
        Some(_) => items.len(),
        None => schemas.first.len().min(items.len()),
    }
}

/// Marks the item at a place if it fits, where such items are taken as judged.
pub fn mark_fitting(counts: bool, says: Verdict, marks: &mut Vec<bool>, place: usize)
    ensures { marks.new.items
        ≡ (if counts && is_yes (meant says) then slice_set marks.old.items place true else marks.old.items) }
{
    mark_if(counts && says == Verdict::Yes, marks, place);
}

/// Marks the members that one of the schemas judges.
pub fn mark_members<P: Patterns>(
    patterns: &P,
    schemas: &MemberSchemas<'_>,
    value: &Value,
    marks: &mut Vec<bool>,
)
    ensures { marks.new.items ≡ marked
        (at_keys (is_taken (P.reading patterns.now) (option_map (λ s. members_view s.now.entries) schemas.now.named)
        (option_map (λ s. members_view s.now.entries) schemas.now.by_pattern)
        (option_map (λ s. view s.now) schemas.now.others)))
        (parts_of (view value.now)) marks.old.items }
{
    match value.as_object() {
        Some(members) => mark_taken(patterns, schemas, members, marks),
        None => {}
    }
}

#[tactic(auto, using(crate::proofs::Marking::mark_next))]
fn mark_taken<P: Patterns>(
    patterns: &P,
    schemas: &MemberSchemas<'_>,
    members: &Map<String, Value>,
    marks: &mut Vec<bool>,
)
    ensures { marks.new.items ≡ marked
        (at_keys (is_taken (P.reading patterns.now) (option_map (λ s. members_view s.now.entries) schemas.now.named)
        (option_map (λ s. members_view s.now.entries) schemas.now.by_pattern)
        (option_map (λ s. view s.now) schemas.now.others)))
        (keys_in (members_view members.now.entries)) marks.old.items }
{
    let mut place = 0;
    for (key, _) in members.iter() {
        if place >= marks.len() {
            return;
        }
        let taken = is_taken(patterns, schemas, key.as_str());
        mark_if(taken, marks, place);
        place += 1;
    }
}

// Marks the part at a place, if there is a mark for it.
fn mark_if(taken: bool, marks: &mut Vec<bool>, place: usize)
    ensures { marks.new.items
        ≡ (if taken then slice_set marks.old.items place true else marks.old.items) }
{
    if taken && place < marks.len() {
        marks[place] = true;
    }
}

fn is_taken<P: Patterns>(patterns: &P, schemas: &MemberSchemas<'_>, key: &str) -> bool
    ensures { result ≡ is_taken (P.reading patterns.now)
        (option_map (λ s. members_view s.now.entries) schemas.now.named)
        (option_map (λ s. members_view s.now.entries) schemas.now.by_pattern)
        (option_map (λ s. view s.now) schemas.now.others) key.now }
{
    (is_named(schemas.named, key) || is_matched(patterns, schemas.by_pattern, key))
        || schemas.others.is_some()
}

fn is_named(named: Option<&Map<String, Value>>, key: &str) -> bool
    ensures { result ≡ is_named (option_map (λ s. members_view s.now.entries) named.entry) key.now }
{
    match named {
        Some(schemas) => member(schemas, key).is_some(),
        None => false,
    }
}

fn is_matched<P: Patterns>(patterns: &P, by_pattern: Option<&Map<String, Value>>, key: &str) -> bool
    ensures { result ≡ is_matched (P.reading patterns.now)
        (option_map (λ s. members_view s.now.entries) by_pattern.entry) key.now }
{
    match by_pattern {
        Some(schemas) => matches_one(patterns, schemas, key),
        None => false,
    }
}

fn matches_one<P: Patterns>(patterns: &P, schemas: &Map<String, Value>, key: &str) -> bool
    ensures { result ≡ matches_one (P.reading patterns.now) (members_view schemas.now.entries) key.now }
{
    for (pattern, _) in schemas.iter() {
        if patterns.matches(pattern.as_str(), key) {
            return true;
        }
    }
    false
}

/// Marks too what is marked in others.
pub fn unite(others: &[bool], marks: &mut Vec<bool>)
    ensures { marks.new.items ≡ united others.now marks.old.items }
{
    for (place, other) in others.iter().enumerate() {
        mark_if(*other, marks, place);
    }
}

/// The same marks again.
pub fn copied(alloc: Global, marks: &Vec<bool>) -> Result<Vec<bool>, AllocError>
    ensures { IfOk result (λ copy. copy.items ≡ marks.now.items) }
{
    let mut copy = Vec::new(alloc);
    for mark in marks {
        copy.push(*mark)?;
    }
    Ok(copy)
}

/// Takes the marks that were tried, if the value fits.
pub fn keep(says: Verdict, tried: Vec<bool>, marks: &mut Vec<bool>)
    ensures { marks.new.items ≡ (if is_yes (meant says) then tried.items else marks.old.items) }
{
    match says {
        Verdict::Yes => *marks = tried,
        _ => {}
    }
}

/// The schema, if the mark is not set. A mark that is missing is not set.
pub fn unless_marked<'s>(mark: Option<&bool>, schema: &'s Value) -> Option<&'s Value>
    ensures { option_map (λ s. view s.now) result
        ≡ (if is_marked (option_map (λ b. b.now) mark.entry) then None else Some (view schema.now)) }
{
    match mark {
        Some(true) => None,
        _ => Some(schema),
    }
}
