//! Root documents of two types by one generator, each with a value that it accepts.
ghost use Rattle.std.specs.Prelude.{◌≡◌, IfOk};
ghost use Rattle.serde_json.specs.View.{view};
ghost use Rattle.schemars_headline.specs.Drafts.{Draft};
ghost use Rattle.schemars_headline.specs.State.{path_of};
ghost use Rattle.schemars_generate.specs.Generator.{state};
ghost use Rattle.schemars_written.specs.Readings.{IsAmong};
ghost use Rattle.schemars_accepted.specs.Told.{IsToldIn};
ghost use Rattle.schemars_accepted.specs.Rooted.{AcceptsWritten, IsForWriting};

use schemars_accepted::{AgreesAsDescribed, RootError, to_accepted_root};
use schemars_generate::SchemaGenerator;
use schemars_schema::Schema;
use schemars_walk::Transform;
use serde_json::Value;
use std::alloc::Global;

/// Returns the root documents of two types and what serde writes for a value of each. Each document
/// accepts its value, if a dictionary that the table follows tells both types.
///
/// # Errors
///
/// Those of the calls.
fn two_accepted<T: AgreesAsDescribed, U: AgreesAsDescribed, O: Transform + Drop>(
    alloc: Global,
    generator: &mut SchemaGenerator<O>,
    first: &T,
    second: &U,
) -> Result<((Schema, Value), (Schema, Value)), RootError>
    requires told { IsToldIn (λ d. T.is_told d × U.is_told d) generator.old.rows }
    ensures first { (draft : Draft) → IsForWriting draft generator.old → IfOk result (λ r.
        AcceptsWritten (IsAmong T.readings first.now) draft (path_of (state generator.old))
        r.0.0 (view r.0.1)) }
    ensures second { (draft : Draft) → IsForWriting draft generator.old → IfOk result (λ r.
        AcceptsWritten (IsAmong U.readings second.now) draft (path_of (state generator.old))
        r.1.0 (view r.1.1)) }
{
    let of_first = to_accepted_root(alloc, generator, first)?;
    let of_second = to_accepted_root(alloc, generator, second)?;
    Ok((of_first, of_second))
}
