//! Definitions for OpenAPI with the struct with a field that may be left out, and a value that they
//! accept.
#![tactic(auto, unfolding(schemars_impls::specs::Containers::option_row, schemars_impls::specs::Dictionary::of_one, schemars_impls::specs::Dictionary::alone))]

ghost use Rattle.std.specs.Prelude.{IfOk};
ghost use Rattle.serde_json.specs.View.{view, members_view};
ghost use Rattle.schemars_schema.specs.Json.{Text};
ghost use Rattle.schemars_written.specs.Readings.{AnyReading};
ghost use Rattle.schemars_accepted.specs.Taken.{ReferenceAccepts};

use crate::page::Page;
use schemars_accepted::{RootError, to_accepted_components};
use schemars_generate::SchemaSettings;
use schemars_schema::Schema;
use serde_json::{Map, Value};
use std::alloc::Global;

/// Returns a `$ref` to the definition of pages, the definitions for the components of a document
/// for OpenAPI, among which it is, and what serde writes for this page. Both the definition and the
/// `$ref` accept what is written.
///
/// # Errors
///
/// Those of `to_accepted_components`, and `OutOfMemory`.
pub fn accepted_components(
    alloc: Global,
    page: &Page,
) -> Result<(Schema, Map<String, Value>, Value), RootError>
    ensures { IfOk result (λ r. (name : Text)
        × ReferenceAccepts AnyReading (members_view r.1.entries) name r.0 (view r.2)) }
{
    let settings: SchemaSettings = match SchemaSettings::openapi3(alloc) {
        Ok(settings) => settings.for_serialize(),
        Err(_) => return Err(RootError::OutOfMemory),
    };
    to_accepted_components(alloc, settings, page)
}
