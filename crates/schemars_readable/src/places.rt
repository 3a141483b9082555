//! The schemas inside a document, and JSON Pointers.
ghost use Rattle.std.specs.Prelude.{◌≡◌, ◌∷◌, ◌++◌, IfOk, OnOk, All, Contains, string_bytes};
ghost use Rattle.schemars_readable.specs.Words.{Members, view, items_view, members_view, Text, StandsAt, escaped, escaped_character, item_place, member_place, reference_of, schemas_at, schemas_inside, schemas_listed, schemas_named, schemas_referred, schemas_under, standing, AreFollowed, IsGrown, leads_to};

use crate::keywords::{WITH_NAMES, WITH_SCHEMA, WITH_SCHEMAS};
use crate::members::text_in;
use schemars_schema::edits::is_listed;
use schemars_schema::encoding::percent_decode;
use serde_json::{Map, Value};
use std::alloc::{AllocError, Global};
use std::collections::HashSet;

/// An object that is a schema, and its place in the document as a JSON Pointer (RFC 6901).
#[derive(Drop)]
pub struct Place<'d> {
    pub pointer: String,
    pub keywords: &'d Map<String, Value>,
}

/// The objects that are schemas of a document: those under keywords with schemas, and those in what
/// references of these lead to. One that is found by several ways may occur several times.
pub fn schemas_in(alloc: Global, document: &Value) -> Result<Vec<Place<'_>>, AllocError>
    ensures stand { IfOk result (λ places.
        All (λ s. StandsAt (view document.now) s.0 s.1) (standing places.items)) }
    ensures all { IfOk result (λ places. (place : Text) (ms : Members)
        → StandsAt (view document.now) place ms → Contains (standing places.items) (place, ms)) }
{
    let mut followed = HashSet::new(alloc);
    let mut places = Vec::new(alloc);
    add_schemas(alloc, "", document, &mut places)?;
    for n in 0..usize::MAX {
        if n >= places.len() {
            return Ok(places);
        }
        let keywords = places[n].keywords;
        follow(alloc, document, keywords, &mut followed, &mut places)?;
    }
    Ok(places)
}

// Adds the schemas in what the reference of an object leads to, unless it was followed before.
fn follow<'d>(
    alloc: Global,
    document: &'d Value,
    keywords: &'d Map<String, Value>,
    followed: &mut HashSet<String>,
    places: &mut Vec<Place<'d>>,
) -> Result<(), AllocError>
    requires { AreFollowed (view document.now) followed.old.keys (standing places.old.items) }
    ensures grows { OnOk result (IsGrown (standing places.old.items) (standing places.new.items)
        (leads_to (view document.now) (reference_of (members_view keywords.now.entries)))) }
    ensures followed { OnOk result
        (AreFollowed (view document.now) followed.new.keys (standing places.new.items)) }
{
    let Some(reference) = text_in(keywords, "$ref") else {
        return Ok(());
    };
    if followed.contains(reference) {
        return Ok(());
    }
    followed.insert(String::from_str(alloc, reference)?)?;
    add_referred(alloc, document, reference, places)?;
    Ok(())
}

// Adds the schemas in what a reference leads to.
fn add_referred<'d>(
    alloc: Global,
    document: &'d Value,
    reference: &str,
    places: &mut Vec<Place<'d>>,
) -> Result<(), AllocError>
    ensures { OnOk result (standing places.new.items
        ≡ standing places.old.items ++ schemas_referred (view document.now) reference.now) }
{
    let Some(fragment) = reference.strip_prefix('#') else {
        return Ok(());
    };
    let Some(path) = percent_decode(alloc, fragment)? else {
        return Ok(());
    };
    match document.pointer(path.as_str()) {
        Some(schema) => add_schemas(alloc, path.as_str(), schema, places),
        None => Ok(()),
    }
}

// Adds a schema and those inside it.
#[cycle(schemas)]
#[tactic(auto, unfolding(crate::specs::Standing::schemas_at))]
fn add_schemas<'d>(
    alloc: Global,
    pointer: &str,
    schema: &'d Value,
    places: &mut Vec<Place<'d>>,
) -> Result<(), AllocError>
    ensures { OnOk result (standing places.new.items
        ≡ standing places.old.items ++ schemas_at pointer.now (view schema.now)) }
{
    match schema {
        Value::Null | Value::Bool(_) | Value::Number(_) | Value::String(_) => Ok(()),
        Value::Array(_) => Ok(()),
        Value::Object(keywords) => add_object(alloc, pointer, keywords, places),
    }
}

#[cycle(schemas)]
fn add_object<'d>(
    alloc: Global,
    pointer: &str,
    keywords: &'d Map<String, Value>,
    places: &mut Vec<Place<'d>>,
) -> Result<(), AllocError>
    ensures { OnOk result (standing places.new.items ≡ standing places.old.items
        ++ (pointer.now, members_view keywords.now.entries)
        ∷ schemas_inside pointer.now (members_view keywords.now.entries)) }
{
    let own = String::from_str(alloc, pointer)?;
    places.push(Place {
        pointer: own,
        keywords,
    })?;
    add_inside(alloc, pointer, keywords, places)
}

#[cycle(schemas)]
#[tactic(auto, unfolding(crate::specs::Standing::schemas_inside))]
fn add_inside<'d>(
    alloc: Global,
    pointer: &str,
    keywords: &'d Map<String, Value>,
    places: &mut Vec<Place<'d>>,
) -> Result<(), AllocError>
    ensures { OnOk result (standing places.new.items
        ≡ standing places.old.items ++ schemas_inside pointer.now (members_view keywords.now.entries)) }
{
    for (keyword, value) in keywords.iter() {
        let keyword = keyword.as_str();
        let at = member_place(alloc, pointer, keyword)?;
        add_under(alloc, keyword, at.as_str(), value, places)?;
    }
    Ok(())
}

#[cycle(schemas)]
#[tactic(auto, unfolding(crate::specs::Standing::schemas_under))]
fn add_under<'d>(
    alloc: Global,
    keyword: &str,
    at: &str,
    value: &'d Value,
    places: &mut Vec<Place<'d>>,
) -> Result<(), AllocError>
    ensures { OnOk result (standing places.new.items
        ≡ standing places.old.items ++ schemas_under keyword.now at.now (view value.now)) }
{
    match value {
        Value::Null | Value::Bool(_) | Value::Number(_) | Value::String(_) => Ok(()),
        Value::Array(items) if is_listed(keyword, &WITH_SCHEMAS) => {
            add_items(alloc, at, items, places)
        }
        Value::Array(_) => Ok(()),
        Value::Object(keywords) if is_listed(keyword, &WITH_SCHEMA) => {
            add_object(alloc, at, keywords, places)
        }
        Value::Object(members) if is_listed(keyword, &WITH_NAMES) => {
            add_members(alloc, at, members, places)
        }
        Value::Object(_) => Ok(()),
    }
}

#[cycle(schemas)]
#[tactic(auto, unfolding(crate::specs::Standing::schemas_listed))]
fn add_items<'d>(
    alloc: Global,
    at: &str,
    items: &'d Vec<Value>,
    places: &mut Vec<Place<'d>>,
) -> Result<(), AllocError>
    ensures { OnOk result (standing places.new.items
        ≡ standing places.old.items ++ schemas_listed at.now 0 (items_view items.now.items)) }
{
    for (n, item) in items.iter().enumerate() {
        let place = item_place(alloc, at, n)?;
        add_schemas(alloc, place.as_str(), item, places)?;
    }
    Ok(())
}

#[cycle(schemas)]
#[tactic(auto, unfolding(crate::specs::Standing::schemas_named))]
fn add_members<'d>(
    alloc: Global,
    at: &str,
    members: &'d Map<String, Value>,
    places: &mut Vec<Place<'d>>,
) -> Result<(), AllocError>
    ensures { OnOk result (standing places.new.items
        ≡ standing places.old.items ++ schemas_named at.now (members_view members.now.entries)) }
{
    for (name, member) in members.iter() {
        let place = member_place(alloc, at, name.as_str())?;
        add_schemas(alloc, place.as_str(), member, places)?;
    }
    Ok(())
}

/// The place of a member of what is at a place.
pub fn member_place(alloc: Global, place: &str, name: &str) -> Result<String, AllocError>
    ensures { IfOk result (λ whole. string_bytes whole ≡ member_place place.now name.now) }
{
    let mut whole = String::from_str(alloc, place)?;
    whole.push('/')?;
    push_escaped(&mut whole, name)?;
    Ok(whole)
}

fn push_escaped(whole: &mut String, name: &str) -> Result<(), AllocError>
    ensures { OnOk result (string_bytes whole.new ≡ string_bytes whole.old ++ escaped name.now) }
{
    for c in name.chars() {
        push_character(whole, c)?;
    }
    Ok(())
}

fn push_character(whole: &mut String, c: char) -> Result<(), AllocError>
    ensures { OnOk result (string_bytes whole.new ≡ string_bytes whole.old ++ escaped_character c) }
{
    match c {
        '~' => whole.push_str("~0"),
        '/' => whole.push_str("~1"),
        _ => whole.push(c),
    }
}

/// The place of an item of what is at a place.
pub fn item_place(alloc: Global, place: &str, n: usize) -> Result<String, AllocError>
    ensures { IfOk result (λ whole. string_bytes whole ≡ item_place place.now n) }
{
    format!(in alloc; "{place}/{n}")
}
