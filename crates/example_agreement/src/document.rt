//! The struct with a field that may be left out: the row that it describes, and a document, each with
//! a value that it accepts.
#![tactic(auto, unfolding(schemars_impls::specs::Containers::option_row, schemars_impls::specs::Dictionary::of_one, schemars_impls::specs::Dictionary::alone))]

ghost use Rattle.std.specs.Prelude.{codes, IfOk};
ghost use Rattle.serde_json.specs.View.{view};
ghost use Rattle.schemars_headline.specs.Drafts.{Draft2020_12};
ghost use Rattle.schemars_written.specs.Readings.{AnyReading};
ghost use Rattle.schemars_written.specs.Writes.{Belongs};
ghost use Rattle.schemars_accepted.specs.Rooted.{AcceptsWritten};

use crate::page::Page;
use schemars_accepted::{DescribedError, RootError, to_accepted_document, to_described_value};
use schemars_generate::SchemaSettings;
use schemars_schema::Schema;
use schemars_types::{TypeNo, Types};
use serde_json::Value;
use std::alloc::Global;

/// Returns a table, the number of the row of pages, and what serde writes for this one, which
/// belongs to that row.
pub fn written_page(alloc: Global, page: &Page) -> Result<(Types, TypeNo, Value), DescribedError>
    ensures { IfOk result (λ r. Belongs r.0 r.1 (view r.2)) }
{
    to_described_value(alloc, page)
}

/// Returns the root document of pages, for JSON Schema 2020-12, and what serde writes for this one,
/// which the document accepts.
pub fn accepted_page(alloc: Global, page: &Page) -> Result<(Schema, Value), RootError>
    ensures { IfOk result
        (λ r. AcceptsWritten AnyReading Draft2020_12 (codes "/$defs") r.0 (view r.1)) }
{
    let settings: SchemaSettings = SchemaSettings::draft2020_12(alloc).for_serialize();
    to_accepted_document(alloc, settings, page)
}
