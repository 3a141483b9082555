//! Keywords by what their values are, and those that are not read.
ghost use Rattle.std.specs.Prelude.{◌≡◌};
ghost use Rattle.schemars_readable.specs.Unread.{is_unread};

use crate::draft::Draft;
use schemars_schema::edits::is_listed;

/// Keywords whose value is a schema.
pub const WITH_SCHEMA: [&str; 11] = [
    "not",
    "if",
    "then",
    "else",
    "items",
    "additionalItems",
    "contains",
    "additionalProperties",
    "propertyNames",
    "unevaluatedProperties",
    "unevaluatedItems",
];

/// Keywords whose value is a list of schemas.
pub const WITH_SCHEMAS: [&str; 5] = ["allOf", "anyOf", "oneOf", "prefixItems", "items"];

/// Keywords whose value has schemas by name.
pub const WITH_NAMES: [&str; 6] = [
    "properties",
    "patternProperties",
    "dependentSchemas",
    "dependencies",
    "$defs",
    "definitions",
];

/// Whether a keyword of the dialect judges values and is not read. From Draft 2019-09 on `dependencies`
/// is kept for the sake of older documents alone.
pub fn is_unread(draft: Draft, keyword: &str) -> bool
    ensures { result ≡ is_unread draft keyword.now }
{
    match draft {
        Draft::Draft07 | Draft::OpenApi3 => false,
        Draft::Draft2019_09 => is_listed(keyword, &["dependencies", "$recursiveRef"]),
        Draft::Draft2020_12 => is_listed(keyword, &["dependencies", "$dynamicRef"]),
    }
}
