//! Callers of a generator that are proved from its contracts alone: a document means its type,
//! whatever calls were before.
ghost use Rattle.std.specs.Prelude.{◌≡◌, IfOk, OnOk};
ghost use Rattle.schemars_headline.specs.Drafts.{Draft};
ghost use Rattle.schemars_headline.specs.Headline.{IsDraftPath};
ghost use Rattle.schemars_headline.specs.State.{HasOwnDefinitions, path_of};
ghost use Rattle.schemars_generate.specs.ByType.{MeansType, MeansTypeIn};
ghost use Rattle.schemars_generate.specs.Generator.{state, transforms_of};
ghost use Rattle.schemars_generate.specs.Settings.{transforms_for};

use schemars_generate::{GenerateError, SchemaGenerator};
use schemars_impls::JsonSchema;
use schemars_schema::Schema;
use schemars_types::Types;
use schemars_walk::Transform;
use std::alloc::Global;

/// Makes one call of each kind by which a generator adds rows or definitions, or gives definitions
/// away: of two types, of a longer table, and of the definitions.
///
/// # Errors
///
/// Those of the calls.
fn call_before<A: JsonSchema, B: JsonSchema, O: Transform + Drop>(
    alloc: Global,
    generator: &mut SchemaGenerator<O>,
    types: Types,
) -> Result<(), GenerateError>
    ensures own { OnOk result (HasOwnDefinitions (state generator.old)
        → HasOwnDefinitions (state generator.new)) }
    ensures settings { OnOk result
        ((state generator.new).settings ≡ (state generator.old).settings) }
    ensures transforms { (draft : Draft) → transforms_of generator.old ≡ transforms_for draft
        → OnOk result (transforms_of generator.new ≡ transforms_for draft) }
{
    let _ = generator.subschema_for::<A>(alloc)?;
    let _ = generator.root_schema_for::<B>(alloc)?;
    generator.add_types(alloc, types)?;
    let _ = generator.take_definitions(alloc, false)?;
    Ok(())
}

/// Generates the schema of a type behind other calls.
///
/// # Errors
///
/// Those of the calls.
fn subschema_behind<A: JsonSchema, B: JsonSchema, C: JsonSchema, O: Transform + Drop>(
    alloc: Global,
    generator: &mut SchemaGenerator<O>,
    types: Types,
) -> Result<Schema, GenerateError>
    ensures means { HasOwnDefinitions (state generator.old)
        → IfOk result (MeansTypeIn C.says (state generator.new)) }
{
    call_before::<A, B, O>(alloc, generator, types)?;
    generator.subschema_for::<C>(alloc)
}

/// Generates the root document of a type behind other calls.
///
/// # Errors
///
/// Those of the calls.
fn root_behind<A: JsonSchema, B: JsonSchema, C: JsonSchema, O: Transform + Drop>(
    alloc: Global,
    generator: &mut SchemaGenerator<O>,
    types: Types,
) -> Result<Schema, GenerateError>
    ensures headline { (draft : Draft) → transforms_of generator.old ≡ transforms_for draft
        → HasOwnDefinitions (state generator.old) → IsDraftPath (path_of (state generator.old))
        → IfOk result
        (MeansType draft C.says (state generator.old).settings generator.new.rows) }
{
    call_before::<A, B, O>(alloc, generator, types)?;
    generator.root_schema_for::<C>(alloc)
}
