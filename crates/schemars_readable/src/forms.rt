//! The form of the value of each keyword.
ghost use Rattle.std.specs.Prelude.{◌≡◌};
ghost use Rattle.schemars_readable.specs.Words.{view, items_view, members_view, are_names, are_schemas, are_types, before_2020_12, each_member, form_in_dialect, form_of, has_form, in_all, in_draft07, in_draft2020_12, in_drafts, in_openapi3, are_some_schemas, is_above_zero, is_list, is_malformed, is_map, is_one_type, is_schema_in, is_schema_or_names, is_types, row_of, since_2019_09};

use crate::draft::Draft;
use schemars_assertions::{
    are_distinct, are_texts, are_type_names, is_at_least, is_type_name, numbers_le,
};
use schemars_schema::Schema;
use schemars_schema::edits::is_listed;
use serde_json::{Map, Number, Value};

/// What the value of a keyword is.
#[derive(Clone, Copy, Debug, PartialEq, Eq)]
pub enum Form {
    AnyValue,
    AnyText,
    TruthValue,
    AnyNumber,
    /// A number above 0.
    Divisor,
    /// A whole number from 0 up.
    Count,
    AnyList,
    /// A list of texts.
    Names,
    /// The name of a type of OpenAPI 3.0.
    OneType,
    /// The name of a type, or a list of such names, each once.
    Types,
    OneSchema,
    /// A schema or a truth value, also where that is no schema.
    SchemaOrTruth,
    SchemaOrList,
    /// A list of one schema or more.
    Schemas,
    SchemasByName,
    /// A list of texts for each name.
    NamesByName,
    /// A schema or a list of texts for each name.
    EitherByName,
}

const COUNTS: [&str; 6] = [
    "minLength",
    "maxLength",
    "minItems",
    "maxItems",
    "minProperties",
    "maxProperties",
];

const CONDITIONS: [&str; 5] = ["contains", "propertyNames", "if", "then", "else"];

// ---- the form of a keyword

/// Whether the value of a keyword has no form that the dialect gives it.
pub fn is_malformed(draft: Draft, keyword: &str, value: &Value) -> bool
    ensures { result ≡ is_malformed draft keyword.now (view value.now) }
{
    !has_form(draft, form_of(draft, keyword), value)
}

/// The form of a keyword in a dialect.
pub fn form_of(draft: Draft, keyword: &str) -> Form
    ensures { result ≡ form_of draft keyword.now }
{
    let found = in_all(keyword).or(in_dialect(draft, keyword));
    found.unwrap_or(Form::AnyValue)
}

fn in_dialect(draft: Draft, keyword: &str) -> Option<Form>
    ensures { result ≡ form_in_dialect draft keyword.now }
{
    match draft {
        Draft::Draft07 => in_drafts(keyword)
            .or(before_2020_12(keyword))
            .or(in_draft07(keyword)),
        Draft::Draft2019_09 => in_drafts(keyword)
            .or(since_2019_09(keyword))
            .or(before_2020_12(keyword)),
        Draft::Draft2020_12 => in_drafts(keyword)
            .or(since_2019_09(keyword))
            .or(in_draft2020_12(keyword)),
        Draft::OpenApi3 => in_openapi3(keyword),
    }
}

fn in_all(keyword: &str) -> Option<Form>
    ensures { result ≡ row_of in_all keyword.now }
{
    if is_listed(keyword, &["$ref", "pattern"]) {
        Some(Form::AnyText)
    } else if is_listed(keyword, &["enum"]) {
        Some(Form::AnyList)
    } else if is_listed(keyword, &["minimum", "maximum"]) {
        Some(Form::AnyNumber)
    } else if is_listed(keyword, &["multipleOf"]) {
        Some(Form::Divisor)
    } else if is_listed(keyword, &COUNTS) {
        Some(Form::Count)
    } else if is_listed(keyword, &["uniqueItems"]) {
        Some(Form::TruthValue)
    } else if is_listed(keyword, &["required"]) {
        Some(Form::Names)
    } else if is_listed(keyword, &["properties", "patternProperties"]) {
        Some(Form::SchemasByName)
    } else if is_listed(keyword, &["additionalProperties"]) {
        Some(Form::SchemaOrTruth)
    } else if is_listed(keyword, &["not"]) {
        Some(Form::OneSchema)
    } else if is_listed(keyword, &["allOf", "anyOf", "oneOf"]) {
        Some(Form::Schemas)
    } else {
        None
    }
}

fn in_drafts(keyword: &str) -> Option<Form>
    ensures { result ≡ row_of in_drafts keyword.now }
{
    if is_listed(keyword, &["type"]) {
        Some(Form::Types)
    } else if is_listed(keyword, &["exclusiveMinimum", "exclusiveMaximum"]) {
        Some(Form::AnyNumber)
    } else if is_listed(keyword, &CONDITIONS) {
        Some(Form::OneSchema)
    } else if is_listed(keyword, &["definitions"]) {
        Some(Form::SchemasByName)
    } else {
        None
    }
}

fn since_2019_09(keyword: &str) -> Option<Form>
    ensures { result ≡ row_of since_2019_09 keyword.now }
{
    if is_listed(keyword, &["minContains", "maxContains"]) {
        Some(Form::Count)
    } else if is_listed(keyword, &["dependentRequired"]) {
        Some(Form::NamesByName)
    } else if is_listed(keyword, &["dependentSchemas", "$defs"]) {
        Some(Form::SchemasByName)
    } else if is_listed(keyword, &["unevaluatedItems", "unevaluatedProperties"]) {
        Some(Form::OneSchema)
    } else {
        None
    }
}

fn before_2020_12(keyword: &str) -> Option<Form>
    ensures { result ≡ row_of before_2020_12 keyword.now }
{
    if is_listed(keyword, &["items"]) {
        Some(Form::SchemaOrList)
    } else if is_listed(keyword, &["additionalItems"]) {
        Some(Form::OneSchema)
    } else {
        None
    }
}

fn in_draft07(keyword: &str) -> Option<Form>
    ensures { result ≡ row_of in_draft07 keyword.now }
{
    if is_listed(keyword, &["dependencies"]) {
        Some(Form::EitherByName)
    } else {
        None
    }
}

fn in_draft2020_12(keyword: &str) -> Option<Form>
    ensures { result ≡ row_of in_draft2020_12 keyword.now }
{
    if is_listed(keyword, &["items"]) {
        Some(Form::OneSchema)
    } else if is_listed(keyword, &["prefixItems"]) {
        Some(Form::Schemas)
    } else {
        None
    }
}

fn in_openapi3(keyword: &str) -> Option<Form>
    ensures { result ≡ row_of in_openapi3 keyword.now }
{
    if is_listed(keyword, &["type"]) {
        Some(Form::OneType)
    } else if is_listed(
        keyword,
        &["exclusiveMinimum", "exclusiveMaximum", "nullable"],
    ) {
        Some(Form::TruthValue)
    } else if is_listed(keyword, &["items"]) {
        Some(Form::OneSchema)
    } else {
        None
    }
}

// ---- what has a form

fn has_form(draft: Draft, form: Form, value: &Value) -> bool
    ensures { result ≡ has_form draft form (view value.now) }
{
    match form {
        Form::AnyValue => true,
        Form::AnyText => value.is_string(),
        Form::TruthValue => value.as_bool().is_some(),
        Form::AnyNumber => value.as_number().is_some(),
        Form::Divisor => is_above_zero(value),
        Form::Count => is_at_least(value, 0).is_some(),
        Form::AnyList => value.as_array().is_some(),
        Form::Names => are_names(value),
        Form::OneType => is_one_type(value),
        Form::Types => is_types(value),
        Form::OneSchema => is_schema_in(draft, value),
        Form::SchemaOrTruth => Schema::is_schema(value),
        Form::SchemaOrList => is_schema_in(draft, value) || is_list_of_schemas(draft, value),
        Form::Schemas => is_filled_list(draft, value),
        Form::SchemasByName => is_map_of_schemas(draft, value),
        Form::NamesByName => is_map_of_names(value),
        Form::EitherByName => is_map_of_either(draft, value),
    }
}

fn is_above_zero(value: &Value) -> bool
    ensures { result ≡ is_above_zero (view value.now) }
{
    match value.as_number() {
        Some(number) => !numbers_le(*number, Number::from(0u64)),
        None => false,
    }
}

fn are_names(value: &Value) -> bool
    ensures { result ≡ are_names (view value.now) }
{
    match value.as_array() {
        Some(items) => are_texts(items),
        None => false,
    }
}

fn is_one_type(value: &Value) -> bool
    ensures { result ≡ is_one_type (view value.now) }
{
    match value.as_str() {
        Some(name) => is_type_name(name) && name != "null",
        None => false,
    }
}

fn is_types(value: &Value) -> bool
    ensures { result ≡ is_types (view value.now) }
{
    match value.as_str() {
        Some(name) => is_type_name(name),
        None => match value.as_array() {
            Some(names) => are_types(names),
            None => false,
        },
    }
}

fn are_types(names: &[Value]) -> bool
    ensures { result ≡ are_types (items_view names.now) }
{
    are_texts(names) && are_type_names(names) && are_distinct(names)
}

// ---- schemas

fn is_schema_in(draft: Draft, value: &Value) -> bool
    ensures { result ≡ is_schema_in draft (view value.now) }
{
    match draft {
        Draft::OpenApi3 => value.as_object().is_some(),
        Draft::Draft07 | Draft::Draft2019_09 | Draft::Draft2020_12 => Schema::is_schema(value),
    }
}

fn are_schemas(draft: Draft, values: &[Value]) -> bool
    ensures { result ≡ are_schemas draft (items_view values.now) }
{
    for value in values {
        if !is_schema_in(draft, value) {
            return false;
        }
    }
    true
}

fn is_list_of_schemas(draft: Draft, value: &Value) -> bool
    ensures { result ≡ is_list (are_schemas draft) (view value.now) }
{
    match value.as_array() {
        Some(values) => are_schemas(draft, values),
        None => false,
    }
}

#[tactic(auto, using(schemars_assertions::proofs::Lists::items_counted))]
fn is_filled_list(draft: Draft, value: &Value) -> bool
    ensures { result ≡ is_list (are_some_schemas draft) (view value.now) }
{
    match value.as_array() {
        Some(values) => !values.is_empty() && are_schemas(draft, values),
        None => false,
    }
}

// ---- by name

fn is_map_of_schemas(draft: Draft, value: &Value) -> bool
    ensures { result ≡ is_map (is_schema_in draft) (view value.now) }
{
    match value.as_object() {
        Some(members) => are_all_schemas(draft, members),
        None => false,
    }
}

fn are_all_schemas(draft: Draft, members: &Map<String, Value>) -> bool
    ensures { result ≡ each_member (is_schema_in draft) (members_view members.now.entries) }
{
    for (_, member) in members.iter() {
        if !is_schema_in(draft, member) {
            return false;
        }
    }
    true
}

fn is_map_of_names(value: &Value) -> bool
    ensures { result ≡ is_map are_names (view value.now) }
{
    match value.as_object() {
        Some(members) => are_all_names(members),
        None => false,
    }
}

fn are_all_names(members: &Map<String, Value>) -> bool
    ensures { result ≡ each_member are_names (members_view members.now.entries) }
{
    for (_, member) in members.iter() {
        if !are_names(member) {
            return false;
        }
    }
    true
}

fn is_map_of_either(draft: Draft, value: &Value) -> bool
    ensures { result ≡ is_map (is_schema_or_names draft) (view value.now) }
{
    match value.as_object() {
        Some(members) => are_all_either(draft, members),
        None => false,
    }
}

fn are_all_either(draft: Draft, members: &Map<String, Value>) -> bool
    ensures { result ≡ each_member (is_schema_or_names draft) (members_view members.now.entries) }
{
    for (_, member) in members.iter() {
        if !is_schema_in(draft, member) && !are_names(member) {
            return false;
        }
    }
    true
}
