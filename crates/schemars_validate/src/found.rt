//! What stands under a keyword.
ghost use Rattle.std.specs.Prelude.{◌≡◌, ◌||◌, ◌&&◌, not, None, IfOk, is_some, option_map, option_and_then, codes, if◌then◌else◌};
ghost use Rattle.schemars_validate.specs.Words.{string, get_member, as_str, view, items_view, members_view, are_schemas, are_named_schemas, first_of, schema_at, schemas_in, schemas_by_name, schema_where_read, schemas_where_read, members_where_read, schema_of_rest, first_schemas, other_schema, items_or_none, resolved, schema_only, is_reference};

use schemars_assertions::{Dialect, Verdict, member};
use schemars_schema::Schema;
use schemars_schema::encoding::percent_decode;
use serde_json::{Map, Value};
use std::alloc::{AllocError, Global};

/// The value, if it is a schema.
pub fn schema_at(value: Option<&Value>) -> Option<&Value>
    ensures { option_map (λ v. view v.now) result
        ≡ schema_at (option_map (λ v. view v.now) value.entry) }
{
    match value {
        Some(schema) if Schema::is_schema(schema) => Some(schema),
        _ => None,
    }
}

/// The schemas of a list of schemas alone.
pub fn schemas_in(value: Option<&Value>) -> Option<&Vec<Value>>
    ensures { option_map (λ s. items_view s.now.items) result
        ≡ schemas_in (option_map (λ v. view v.now) value.entry) }
{
    match value {
        Some(list) => match list.as_array() {
            Some(schemas) if are_schemas(schemas) => Some(schemas),
            _ => None,
        },
        None => None,
    }
}

/// The schemas of a map of schemas alone.
pub fn schemas_by_name(value: Option<&Value>) -> Option<&Map<String, Value>>
    ensures { option_map (λ s. members_view s.now.entries) result
        ≡ schemas_by_name (option_map (λ v. view v.now) value.entry) }
{
    match value {
        Some(map) => match map.as_object() {
            Some(schemas) if are_named_schemas(schemas) => Some(schemas),
            _ => None,
        },
        None => None,
    }
}

/// The schema under a keyword that only some drafts read.
pub fn schema_where_read(reads: bool, value: Option<&Value>) -> Option<&Value>
    ensures { option_map (λ v. view v.now) result
        ≡ schema_where_read reads (option_map (λ v. view v.now) value.entry) }
{
    if reads { schema_at(value) } else { None }
}

/// The schemas by name under a keyword that only some drafts read.
pub fn schemas_where_read(reads: bool, value: Option<&Value>) -> Option<&Map<String, Value>>
    ensures { option_map (λ s. members_view s.now.entries) result
        ≡ schemas_where_read reads (option_map (λ v. view v.now) value.entry) }
{
    if reads { schemas_by_name(value) } else { None }
}

/// The members of an object under a keyword that only some drafts read.
pub fn members_where_read(reads: bool, value: Option<&Value>) -> Option<&Map<String, Value>>
    ensures { option_map (λ s. members_view s.now.entries) result
        ≡ members_where_read reads (option_map (λ v. view v.now) value.entry) }
{
    match value {
        Some(map) if reads => map.as_object(),
        _ => None,
    }
}

/// The schema, if it is one, and if its name is a key of the value's members.
pub fn schema_beside<'k>(
    members: &Map<String, Value>,
    name: &str,
    schema: &'k Value,
) -> Option<&'k Value>
    ensures { option_map (λ s. view s.now) result
        ≡ (if is_some (get_member name.now (members_view members.now.entries)) then schema_only (view schema.now) else None) }
{
    if member(members, name).is_some() && Schema::is_schema(schema) {
        Some(schema)
    } else {
        None
    }
}

fn are_schemas(values: &[Value]) -> bool
    ensures { result ≡ are_schemas (items_view values.now) }
{
    for value in values {
        if !Schema::is_schema(value) {
            return false;
        }
    }
    true
}

fn are_named_schemas(members: &Map<String, Value>) -> bool
    ensures { result ≡ are_named_schemas (members_view members.now.entries) }
{
    for (_, value) in members.iter() {
        if !Schema::is_schema(value) {
            return false;
        }
    }
    true
}

/// The text under `$ref`.
pub fn reference_in(keywords: &Map<String, Value>) -> Option<&str>
    ensures { option_map (λ s. s.now) result
        ≡ option_and_then as_str (get_member (codes "$ref") (members_view keywords.now.entries)) }
{
    match member(keywords, "$ref") {
        Some(reference) => reference.as_str(),
        None => None,
    }
}

/// Whether there is a reference whose siblings do not count.
pub fn refers_alone(dialect: Dialect, keywords: &Map<String, Value>) -> bool
    ensures { result ≡ (not dialect.judges_siblings
        && is_reference (get_member (codes "$ref") (members_view keywords.now.entries))) }
{
    !dialect.judges_siblings() && reference_in(keywords).is_some()
}

/// The schema for all parts of the value that are left, where such a schema is read.
pub fn schema_of_rest<'k>(
    dialect: Dialect,
    keywords: &'k Map<String, Value>,
    value: &Value,
) -> Option<&'k Value>
    ensures { option_map (λ s. view s.now) result
        ≡ schema_of_rest dialect.reads_unevaluated (λ k. get_member k (members_view keywords.now.entries)) (view value.now) }
{
    let reads = dialect.reads_unevaluated();
    match value {
        Value::Array(_) => schema_where_read(reads, member(keywords, "unevaluatedItems")),
        Value::Object(_) => schema_where_read(reads, member(keywords, "unevaluatedProperties")),
        _ => None,
    }
}

/// The schemas of the first items of a list, and of all others.
#[derive(Drop)]
pub struct ItemSchemas<'k> {
    pub first: &'k [Value],
    pub others: Option<&'k Value>,
}

pub fn item_schemas(dialect: Dialect, keywords: &Map<String, Value>) -> ItemSchemas<'_>
    ensures first { items_view result.first.now
        ≡ first_schemas dialect.reads_prefix_items (λ k. get_member k (members_view keywords.now.entries)) }
    ensures others { option_map (λ s. view s.now) result.others
        ≡ other_schema dialect.reads_prefix_items (λ k. get_member k (members_view keywords.now.entries)) }
{
    let items = member(keywords, "items");
    if dialect.reads_prefix_items() {
        return ItemSchemas {
            first: listed(schemas_in(member(keywords, "prefixItems"))),
            others: schema_at(items),
        };
    }
    let first = schemas_in(items);
    let others = match first {
        Some(_) => member(keywords, "additionalItems"),
        None => items,
    };
    ItemSchemas {
        first: listed(first),
        others: schema_at(others),
    }
}

fn listed(schemas: Option<&Vec<Value>>) -> &[Value]
    ensures { items_view result.now ≡ items_or_none (option_map (λ s. items_view s.now.items) schemas.entry) }
{
    match schemas {
        Some(schemas) => schemas,
        None => &[],
    }
}

/// The schemas of members by their names, by patterns, and of all others.
#[derive(Drop)]
pub struct MemberSchemas<'k> {
    pub named: Option<&'k Map<String, Value>>,
    pub by_pattern: Option<&'k Map<String, Value>>,
    pub others: Option<&'k Value>,
}

pub fn member_schemas(keywords: &Map<String, Value>) -> MemberSchemas<'_>
    ensures named { option_map (λ s. members_view s.now.entries) result.named
        ≡ schemas_by_name (get_member (codes "properties") (members_view keywords.now.entries)) }
    ensures by_pattern { option_map (λ s. members_view s.now.entries) result.by_pattern
        ≡ schemas_by_name (get_member (codes "patternProperties") (members_view keywords.now.entries)) }
    ensures others { option_map (λ s. view s.now) result.others
        ≡ schema_at (get_member (codes "additionalProperties") (members_view keywords.now.entries)) }
{
    MemberSchemas {
        named: schemas_by_name(member(keywords, "properties")),
        by_pattern: schemas_by_name(member(keywords, "patternProperties")),
        others: schema_at(member(keywords, "additionalProperties")),
    }
}

/// The schema that a reference leads to.
pub fn resolved<'d>(
    alloc: Global,
    document: &'d Value,
    reference: &str,
) -> Result<Option<&'d Value>, AllocError>
    ensures { IfOk result (λ found. option_map (λ s. view s.now) found
        ≡ resolved (view document.now) reference.now) }
{
    let Some(fragment) = reference.strip_prefix('#') else {
        return Ok(None);
    };
    let Some(path) = percent_decode(alloc, fragment)? else {
        return Ok(None);
    };
    Ok(schema_at(document.pointer(path.as_str())))
}

/// What the schemas of the patterns that a key matches say, and whether there are some.
#[derive(Clone, Copy)]
pub struct Matched {
    pub says: Verdict,
    pub some: bool,
}

/// The schema of the name.
pub fn schema_named<'k>(named: Option<&'k Map<String, Value>>, key: &str) -> Option<&'k Value>
    ensures { option_map (λ s. view s.now) result
        ≡ option_and_then (get_member key.now) (option_map (λ s. members_view s.now.entries) named.entry) }
{
    match named {
        Some(schemas) => member(schemas, key),
        None => None,
    }
}

/// The schema of all other members, if neither the name nor a pattern has one.
pub fn others_for<'k>(
    named: Option<&Value>,
    matched: bool,
    others: Option<&'k Value>,
) -> Option<&'k Value>
    ensures { option_map (λ s. view s.now) result
        ≡ (if is_some named.entry || matched then None else option_map (λ s. view s.now) others.entry) }
{
    if named.is_some() || matched {
        None
    } else {
        others
    }
}

/// The first schema, or else the other.
pub fn or_else<'k>(first: Option<&'k Value>, other: Option<&'k Value>) -> Option<&'k Value>
    ensures { option_map (λ s. view s.now) result
        ≡ first_of (option_map (λ s. view s.now) first.entry) (option_map (λ s. view s.now) other.entry) }
{
    match first {
        Some(schema) => Some(schema),
        None => other,
    }
}

/// A text as a value.
pub fn text(alloc: Global, text: &str) -> Result<Value, AllocError>
    ensures { IfOk result (λ v. view v ≡ string text.now) }
{
    Ok(Value::String(String::from_str(alloc, text)?))
}
