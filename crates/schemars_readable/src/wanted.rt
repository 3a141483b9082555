//! What is said of a keyword whose value has the wrong form.
use crate::draft::Draft;
use crate::forms::{Form, form_of, is_malformed};
use serde_json::Value;
use std::alloc::{AllocError, Global};

/// What a keyword takes, for a reader, where its value has another form.
pub fn what_is_wanted(
    alloc: Global,
    draft: Draft,
    keyword: &str,
    value: &Value,
) -> Result<Option<String>, AllocError> {
    if !is_malformed(draft, keyword, value) {
        return Ok(None);
    }
    let form = words_for(form_of(draft, keyword));
    let hint = hint(draft, keyword, value);
    Ok(Some(format!(in alloc; "`{keyword}` takes {form}{hint}")?))
}

fn words_for(form: Form) -> &'static str {
    match form {
        Form::AnyValue => "any value",
        Form::AnyText => "a text",
        Form::TruthValue => "true or false",
        Form::AnyNumber => "a number",
        Form::Divisor => "a number above 0",
        Form::Count => "a whole number from 0 up",
        Form::AnyList => "a list",
        Form::Names => "a list of texts",
        Form::OneType => "the name of one type",
        Form::Types => "the name of a type, or a list of such names, each once",
        Form::OneSchema => "one schema",
        Form::SchemaOrTruth => "a schema, or true or false",
        Form::SchemaOrList => "a schema, or a list of schemas",
        Form::Schemas => "a list of one schema or more",
        Form::SchemasByName => "an object of schemas",
        Form::NamesByName => "an object of lists of texts",
        Form::EitherByName => "an object of schemas and lists of texts",
    }
}

// What another dialect would say in this way.
fn hint(draft: Draft, keyword: &str, value: &Value) -> &'static str {
    match (draft, keyword) {
        (Draft::Draft2020_12, "items") if value.is_array() => {
            " in 2020-12; a list is `prefixItems`"
        }
        (Draft::OpenApi3, "items") if value.is_array() => " in OpenAPI 3.0",
        (Draft::OpenApi3, "type") => " in OpenAPI 3.0; null is `nullable`",
        (Draft::OpenApi3, "exclusiveMinimum") => " in OpenAPI 3.0; the bound is `minimum`",
        (Draft::OpenApi3, "exclusiveMaximum") => " in OpenAPI 3.0; the bound is `maximum`",
        (_, "exclusiveMinimum" | "exclusiveMaximum") if value.is_boolean() => {
            "; only OpenAPI 3.0 and Draft 4 have a truth value there"
        }
        _ => "",
    }
}
