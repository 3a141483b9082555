//! Formats that no draft defines, taken out.
ghost use Rattle.std.specs.Prelude.{◌≡◌, [], Some, OnOk, true, codes, map, option_and_then};
ghost use Rattle.schemars_transform.specs.Words.{get, as_str, view, is_listed, rewritten, draft_named, draft_by, draft_inside, is_defined, format_stays, format_rules};

use schemars_schema::Schema;
use schemars_schema::consts::meta_schemas;
use schemars_schema::edits::is_listed;
use schemars_walk::rewrite::place::{Place, place_under};
use schemars_walk::rewrite::{Rule, rewrite};
use schemars_walk::{Transform, TransformError};
use serde_json::Value;
use std::alloc::{AllocError, Global};
use std::collections::BTreeSet;

/// Removes `format` if its value is neither an allowed format nor defined by the draft.
///
/// The draft is the one of `$schema`, in the schema or in the nearest schema around it. Without a
/// `$schema`, or with one of an unknown draft, all formats are kept.
#[derive(Clone, Drop)]
pub struct RestrictFormats {
    /// Whether the draft is read from `$schema`. If not, only the allowed formats are kept.
    pub infer_from_meta_schema: bool,
    /// Formats that are kept under every draft.
    pub allowed_formats: BTreeSet<String>,
}

impl RestrictFormats {
    /// Returns a transform that reads the draft from `$schema` and keeps only the draft's formats.
    pub fn default(alloc: Global) -> RestrictFormats
        ensures infers { result.infer_from_meta_schema ≡ true }
        ensures allowed { result.allowed_formats.keys ≡ [] }
    {
        RestrictFormats {
            infer_from_meta_schema: true,
            allowed_formats: BTreeSet::new(alloc),
        }
    }
}

impl Transform for RestrictFormats {
    ghost use Rattle.schemars_transform.specs.Built.{Changes};
    ghost use Rattle.schemars_transform.specs.Formats.{restrict_formats};

    ghost makes = { λ t s r u v. Changes (restrict_formats t) t s r u v };

    fn transform(&mut self, alloc: Global, schema: &mut Schema) -> Result<(), TransformError> {
        let draft = if self.infer_from_meta_schema {
            Draft::Missing
        } else {
            Draft::NotAsked
        };
        restrict(&self.allowed_formats, draft, alloc, schema)?;
        Ok(())
    }
}

// What is known of the draft.
#[derive(Clone, Copy)]
enum Draft {
    // The draft is not asked for.
    NotAsked,
    // No `$schema` has been found.
    Missing,
    Draft07,
    // 2019-09 or 2020-12.
    Draft2019,
    // No known draft.
    Foreign,
}

#[derive(Clone, Copy)]
struct Restriction<'a> {
    allowed: &'a BTreeSet<String>,
    draft: Draft,
}

impl<'a> Rule for Restriction<'a> {
    ghost use Rattle.schemars_transform.specs.Formats.{restriction_rules};

    ghost rules = { restriction_rules };

    fn inside(self, schema: &Value) -> Restriction<'a> {
        Restriction {
            allowed: self.allowed,
            draft: draft_inside(self.draft, schema),
        }
    }

    fn place(self, key: &str, _value: &Value) -> Place {
        place_under(key)
    }

    fn finish(self, _alloc: Global, schema: &mut Schema) -> Result<(), AllocError> {
        if !stays(self.draft, self.allowed, schema) {
            let _format = schema.remove("format");
        }
        Ok(())
    }
}

fn restrict(
    allowed: &BTreeSet<String>,
    draft: Draft,
    alloc: Global,
    schema: &mut Schema,
) -> Result<(), AllocError>
    ensures { OnOk result (schema.new ≡ rewritten (format_rules allowed.now) draft schema.old) }
{
    rewrite(Restriction { allowed, draft }, alloc, schema)
}

fn draft_inside(draft: Draft, schema: &Value) -> Draft
    ensures { result ≡ draft_inside draft (view schema.now) }
{
    match draft {
        Draft::NotAsked => Draft::NotAsked,
        Draft::Foreign => Draft::Foreign,
        Draft::Missing | Draft::Draft07 | Draft::Draft2019 => draft_by(schema, draft),
    }
}

fn draft_by(schema: &Value, draft: Draft) -> Draft
    ensures { result ≡ draft_by (get (codes "$schema") (view schema.now)) draft }
{
    match schema.get("$schema") {
        Some(meta_schema) => draft_named(meta_schema),
        None => draft,
    }
}

fn draft_named(meta_schema: &Value) -> Draft
    ensures { result ≡ draft_named (as_str (view meta_schema.now)) }
{
    match meta_schema.as_str() {
        Some(uri) => draft_at(uri),
        None => Draft::Foreign,
    }
}

fn draft_at(uri: &str) -> Draft
    ensures { result ≡ draft_named (Some uri.now) }
{
    if uri == meta_schemas::DRAFT07 {
        Draft::Draft07
    } else if uri == meta_schemas::DRAFT2019_09 || uri == meta_schemas::DRAFT2020_12 {
        Draft::Draft2019
    } else {
        Draft::Foreign
    }
}

fn stays(draft: Draft, allowed: &BTreeSet<String>, schema: &Schema) -> bool
    ensures { result ≡ format_stays draft allowed.now
        (option_and_then as_str (get (codes "format") schema.now)) }
{
    match schema.get("format").and_then(Value::as_str) {
        Some(format) => allowed.contains(format) || is_defined(draft, format),
        None => true,
    }
}

fn is_defined(draft: Draft, format: &str) -> bool
    ensures { result ≡ is_defined draft format.now }
{
    match draft {
        Draft::NotAsked => false,
        Draft::Missing | Draft::Foreign => true,
        Draft::Draft07 => is_listed(format, &DRAFT07_FORMATS),
        Draft::Draft2019 => {
            is_listed(format, &LATER_FORMATS) || is_listed(format, &DRAFT07_FORMATS)
        }
    }
}

const LATER_FORMATS: [&str; 2] = ["duration", "uuid"];

const DRAFT07_FORMATS: [&str; 17] = [
    "date-time",
    "date",
    "time",
    "email",
    "idn-email",
    "hostname",
    "idn-hostname",
    "ipv4",
    "ipv6",
    "uri",
    "uri-reference",
    "iri",
    "iri-reference",
    "uri-template",
    "json-pointer",
    "relative-json-pointer",
    "regex",
];
