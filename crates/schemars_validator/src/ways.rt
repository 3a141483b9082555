//! The parts of a value, and the schemas under keywords that judge them.
use crate::reading::Reading;
use schemars_assertions::member;
use schemars_readable::{item_place, member_place};
use schemars_schema::Schema;
use schemars_validate::{Patterns, resolved};
use serde_json::{Map, Value};
use std::alloc::{AllocError, Global};

/// The name of a member, or the index of an item.
#[derive(Clone, Copy)]
pub enum Key<'a> {
    Name(&'a str),
    Index(usize),
}

impl Key<'_> {
    /// The place of what is at the key in what is at a place.
    pub fn place_in(&self, alloc: Global, place: &str) -> Result<String, AllocError> {
        match self {
            Key::Name(name) => member_place(alloc, place, name),
            Key::Index(n) => item_place(alloc, place, *n),
        }
    }
}

// ---- parts

/// A member or an item of a value.
#[derive(Clone, Copy)]
pub struct Part<'a> {
    pub key: Key<'a>,
    pub value: &'a Value,
}

/// The members or the items of a value.
pub fn parts_of(alloc: Global, value: &Value) -> Result<Vec<Part<'_>>, AllocError> {
    let mut parts = Vec::new(alloc);
    match value {
        Value::Object(members) => add_members(members, &mut parts)?,
        Value::Array(items) => add_items(items, &mut parts)?,
        _ => {}
    }
    Ok(parts)
}

fn add_members<'a>(
    members: &'a Map<String, Value>,
    parts: &mut Vec<Part<'a>>,
) -> Result<(), AllocError> {
    for name in members.keys() {
        let name = name.as_str();
        if let Some(value) = member(members, name) {
            let key = Key::Name(name);
            parts.push(Part { key, value })?;
        }
    }
    Ok(())
}

fn add_items<'a>(items: &'a Vec<Value>, parts: &mut Vec<Part<'a>>) -> Result<(), AllocError> {
    for n in 0..items.len() {
        if let Some(value) = item(items, n) {
            let key = Key::Index(n);
            parts.push(Part { key, value })?;
        }
    }
    Ok(())
}

fn item(items: &Vec<Value>, n: usize) -> Option<&Value> {
    items.get(n)
}

// ---- ways

/// A schema under a keyword: the keyword's value, or what is at a key in it.
#[derive(Clone, Copy)]
pub struct Way<'a> {
    pub keyword: &'a str,
    pub key: Option<Key<'a>>,
    pub schema: &'a Value,
}

impl Way<'_> {
    /// The place of the schema, where the keyword is one of the object at a place.
    pub fn place_in(&self, alloc: Global, place: &str) -> Result<String, AllocError> {
        let own = member_place(alloc, place, self.keyword)?;
        match &self.key {
            Some(key) => key.place_in(alloc, own.as_str()),
            None => Ok(own),
        }
    }
}

/// What the reference of an object leads to.
pub fn way_of_reference<'a>(
    alloc: Global,
    document: &'a Value,
    keywords: &'a Map<String, Value>,
) -> Result<Vec<Way<'a>>, AllocError> {
    let mut ways = Vec::new(alloc);
    if let Some(Value::String(name)) = member(keywords, "$ref") {
        if let Some(schema) = resolved(alloc, document, name.as_str())? {
            ways.push(Way {
                keyword: "$ref",
                key: None,
                schema,
            })?;
        }
    }
    Ok(ways)
}

/// The schema that is a keyword's value.
pub fn whole_way<'a>(keywords: &'a Map<String, Value>, keyword: &'a str) -> Option<Way<'a>> {
    match member(keywords, keyword) {
        Some(schema) => Some(Way {
            keyword,
            key: None,
            schema,
        }),
        None => None,
    }
}

// The schema of a name under a keyword.
fn named_way<'a>(
    keywords: &'a Map<String, Value>,
    keyword: &'a str,
    name: &'a str,
) -> Option<Way<'a>> {
    let Some(Value::Object(named)) = member(keywords, keyword) else {
        return None;
    };
    match member(named, name) {
        Some(schema) => Some(Way {
            keyword,
            key: Some(Key::Name(name)),
            schema,
        }),
        None => None,
    }
}

// The schema at an index of the list under a keyword.
fn listed_way<'a>(keywords: &'a Map<String, Value>, keyword: &'a str, n: usize) -> Option<Way<'a>> {
    let Some(Value::Array(listed)) = member(keywords, keyword) else {
        return None;
    };
    match item(listed, n) {
        Some(schema) => Some(Way {
            keyword,
            key: Some(Key::Index(n)),
            schema,
        }),
        None => None,
    }
}

fn add<'a>(way: Option<Way<'a>>, ways: &mut Vec<Way<'a>>) -> Result<(), AllocError> {
    if let Some(way) = way {
        ways.push(way)?;
    }
    Ok(())
}

// ---- lists of ways

/// The schemas that judge a part of a value.
pub fn ways_to<'a>(
    alloc: Global,
    reading: &Reading,
    keywords: &'a Map<String, Value>,
    key: Key<'a>,
) -> Result<Vec<Way<'a>>, AllocError> {
    let mut ways = Vec::new(alloc);
    match key {
        Key::Name(name) => add_for_member(reading, keywords, name, &mut ways)?,
        Key::Index(n) => add_for_item(keywords, n, &mut ways)?,
    }
    Ok(ways)
}

// A member, by `properties`, `patternProperties` and `additionalProperties`.
fn add_for_member<'a>(
    reading: &Reading,
    keywords: &'a Map<String, Value>,
    name: &'a str,
    ways: &mut Vec<Way<'a>>,
) -> Result<(), AllocError> {
    add(named_way(keywords, "properties", name), ways)?;
    add_by_pattern(reading, keywords, name, ways)?;
    if ways.is_empty() {
        add(whole_way(keywords, "additionalProperties"), ways)?;
    }
    Ok(())
}

fn add_by_pattern<'a>(
    reading: &Reading,
    keywords: &'a Map<String, Value>,
    name: &str,
    ways: &mut Vec<Way<'a>>,
) -> Result<(), AllocError> {
    let keyword = "patternProperties";
    if let Some(Value::Object(patterns)) = keywords.get(keyword) {
        for pattern in patterns.keys() {
            let pattern = pattern.as_str();
            if reading.matches(pattern, name) {
                add(named_way(keywords, keyword, pattern), ways)?;
            }
        }
    }
    Ok(())
}

// An item, by `prefixItems`, `items` and `additionalItems`.
fn add_for_item<'a>(
    keywords: &'a Map<String, Value>,
    n: usize,
    ways: &mut Vec<Way<'a>>,
) -> Result<(), AllocError> {
    let (first, others) = match keywords.get("items") {
        Some(Value::Array(_)) => ("items", "additionalItems"),
        _ => ("prefixItems", "items"),
    };
    let listed = listed_way(keywords, first, n);
    let way = match listed {
        Some(way) => Some(way),
        None => whole_way(keywords, others),
    };
    add(way, ways)?;
    Ok(())
}

/// The schema that is a keyword's value.
pub fn way_of<'a>(
    alloc: Global,
    keywords: &'a Map<String, Value>,
    keyword: &'a str,
) -> Result<Vec<Way<'a>>, AllocError> {
    let mut ways = Vec::new(alloc);
    add(whole_way(keywords, keyword), &mut ways)?;
    Ok(ways)
}

/// Of the members under a keyword, the schemas whose names are keys of the value.
pub fn ways_beside_keys<'a>(
    alloc: Global,
    keywords: &'a Map<String, Value>,
    keyword: &'a str,
    value: &Value,
) -> Result<Vec<Way<'a>>, AllocError> {
    let mut ways = Vec::new(alloc);
    if let (Some(Value::Object(schemas)), Value::Object(members)) = (keywords.get(keyword), value) {
        for name in schemas.keys() {
            let name = name.as_str();
            if members.get(name).is_some() {
                add_schema(named_way(keywords, keyword, name), &mut ways)?;
            }
        }
    }
    Ok(ways)
}

// Adds a way, if it leads to a schema.
fn add_schema<'a>(way: Option<Way<'a>>, ways: &mut Vec<Way<'a>>) -> Result<(), AllocError> {
    if let Some(way) = way {
        if Schema::is_schema(way.schema) {
            ways.push(way)?;
        }
    }
    Ok(())
}

/// The schemas of the list under a keyword.
pub fn ways_listed<'a>(
    alloc: Global,
    keywords: &'a Map<String, Value>,
    keyword: &'a str,
) -> Result<Vec<Way<'a>>, AllocError> {
    let mut ways = Vec::new(alloc);
    if let Some(Value::Array(schemas)) = keywords.get(keyword) {
        for n in 0..schemas.len() {
            add(listed_way(keywords, keyword, n), &mut ways)?;
        }
    }
    Ok(ways)
}
