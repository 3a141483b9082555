//! Where schemas are under a keyword.
ghost use Rattle.std.specs.Prelude.{◌≡◌};
ghost use Rattle.schemars_walk.specs.Words.{with_schema, with_list, keywords_with_names, place_under, is_listed, place_meant};

/// What holds the schemas under a keyword.
#[derive(Clone, Copy)]
pub enum Place {
    /// In nothing.
    Nothing,
    /// One schema alone.
    Schema,
    /// The items of a list.
    List,
    /// One schema alone, or the items of a list.
    SchemaOrList,
    /// The members of an object.
    Names,
}

/// What holds the schemas under this keyword, in any draft.
pub fn place_under(key: &str) -> Place
    ensures { place_meant result ≡ place_under key.now }
{
    if holds_schema(key) {
        Place::Schema
    } else if holds_list(key) {
        Place::List
    } else if key == "items" {
        Place::SchemaOrList
    } else if holds_names(key) {
        Place::Names
    } else {
        Place::Nothing
    }
}

fn holds_schema(key: &str) -> bool
    ensures { result ≡ is_listed key.now with_schema }
{
    match key.len() {
        2 => key == "if",
        3 => key == "not",
        4 => key == "then" || key == "else",
        8 => key == "contains",
        13 => key == "propertyNames",
        15 => key == "additionalItems",
        20 => key == "additionalProperties",
        _ => false,
    }
}

fn holds_list(key: &str) -> bool
    ensures { result ≡ is_listed key.now with_list }
{
    match key.len() {
        5 => key == "allOf" || key == "anyOf" || key == "oneOf",
        11 => key == "prefixItems",
        _ => false,
    }
}

fn holds_names(key: &str) -> bool
    ensures { result ≡ is_listed key.now keywords_with_names }
{
    match key.len() {
        5 => key == "$defs",
        10 => key == "properties",
        11 => key == "definitions",
        17 => key == "patternProperties",
        _ => false,
    }
}
