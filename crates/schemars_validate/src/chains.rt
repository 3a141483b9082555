//! References that stand alone, and where chains of them end.
ghost use Rattle.std.specs.Prelude.{◌≡◌, ◌&&◌, not, IfOk, IfSome};
ghost use Rattle.schemars_validate.specs.Chains.{EndsAt, IsLone, LeadsOn, has_no_other, other_keywords};
ghost use Rattle.schemars_validate.specs.Words.{members_view, view, is_listed, object};

use crate::found::{reference_in, resolved};
use schemars_assertions::Dialect;
use schemars_schema::edits::is_listed;
use serde_json::{Map, Value};
use std::alloc::{AllocError, Global};

/// A reference, and how many within one another may be followed from it on.
#[derive(Clone, Copy)]
pub struct Link<'d> {
    pub name: &'d str,
    pub left: u64,
}

/// The reference of an object that says what its reference leads to, and no more.
pub fn lone_reference(dialect: Dialect, keywords: &Map<String, Value>) -> Option<&str>
    ensures { IfSome result (λ name. IsLone dialect (object (members_view keywords.now.entries)) name.now) }
{
    if judges_more(dialect, keywords) {
        return None;
    }
    reference_in(keywords)
}

/// The reference of a schema that says what its reference leads to, and no more.
pub fn reference_of_schema(dialect: Dialect, schema: &Value) -> Option<&str>
    ensures { IfSome result (λ name. IsLone dialect (view schema.now) name.now) }
{
    match schema.as_object() {
        Some(keywords) => lone_reference(dialect, keywords),
        None => None,
    }
}

// Whether a keyword beside `$ref` is read.
fn judges_more(dialect: Dialect, keywords: &Map<String, Value>) -> bool
    ensures { result ≡ (dialect.judges_siblings && not (has_no_other (members_view keywords.now.entries))) }
{
    dialect.judges_siblings() && !has_no_other(keywords)
}

fn has_no_other(keywords: &Map<String, Value>) -> bool
    ensures { result ≡ has_no_other (members_view keywords.now.entries) }
{
    for (keyword, _) in keywords.iter() {
        if is_other(keyword.as_str()) {
            return false;
        }
    }
    true
}

// Whether this is a keyword that is read, and not `$ref`.
fn is_other(keyword: &str) -> bool
    ensures { result ≡ is_listed keyword.now other_keywords }
{
    is_listed(keyword, &OTHERS)
}

const OTHERS: [&str; 40] = [
    "type",
    "nullable",
    "const",
    "enum",
    "minimum",
    "maximum",
    "minLength",
    "maxLength",
    "pattern",
    "minItems",
    "maxItems",
    "uniqueItems",
    "prefixItems",
    "items",
    "additionalItems",
    "required",
    "properties",
    "patternProperties",
    "additionalProperties",
    "allOf",
    "anyOf",
    "oneOf",
    "not",
    "unevaluatedProperties",
    "exclusiveMinimum",
    "exclusiveMaximum",
    "contains",
    "minContains",
    "maxContains",
    "minProperties",
    "maxProperties",
    "dependentRequired",
    "dependentSchemas",
    "propertyNames",
    "if",
    "then",
    "else",
    "multipleOf",
    "dependencies",
    "unevaluatedItems",
];

/// Where a chain of references ends of which each but the last leads to one that stands alone.
#[tactic(auto, using(crate::proofs::Chaining::ends_there))]
pub fn end_of_chain<'d>(
    alloc: Global,
    dialect: Dialect,
    document: &'d Value,
    first: &'d str,
    left: u64,
) -> Result<Link<'d>, AllocError>
    ensures { IfOk result (λ last. EndsAt dialect (view document.now) first.now left last.name.now last.left) }
{
    let mut last = Link { name: first, left };
    while last.left > 0 {
        match next_alone(alloc, dialect, document, last.name)? {
            Some(name) => {
                last = Link {
                    name,
                    left: last.left - 1,
                };
            }
            None => return Ok(last),
        }
    }
    Ok(last)
}

// The reference that stands alone in what a name leads to.
fn next_alone<'d>(
    alloc: Global,
    dialect: Dialect,
    document: &'d Value,
    name: &str,
) -> Result<Option<&'d str>, AllocError>
    ensures { IfOk result (λ next. IfSome next (λ n. LeadsOn dialect (view document.now) name.now n.now)) }
{
    match resolved(alloc, document, name)? {
        Some(schema) => Ok(reference_of_schema(dialect, schema)),
        None => Ok(None),
    }
}
