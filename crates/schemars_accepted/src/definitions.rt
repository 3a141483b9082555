//! The definitions of a type for OpenAPI, and a value that they accept.
ghost use Rattle.std.specs.Prelude.{◌≡◌, [], false, IfOk, IfErr};
ghost use Rattle.schemars_accepted.specs.Words.{view, members_view, Text, Generator, generator_over, held_transforms, settings_of, state, IsAmong, IsWritten, IsToldIn, telling, RefusesRoot, AreForOpenApi, AreTaken, IsForOpenApi, IsLeft, IsTakenRefusal, ReferenceAccepts, TakenAccepts};

use crate::error::RootError;
use crate::law::AgreesAsDescribed;
use schemars_agreement::WriteError;
use schemars_generate::{SchemaGenerator, SchemaSettings};
use schemars_plain::is_plain_for_each;
use schemars_schema::Schema;
use schemars_types::Contract;
use schemars_validate::look;
use schemars_walk::Transform;
use serde_json::{Map, Value};
use std::alloc::Global;

/// Adds a type to a generator, takes all its definitions with the transforms applied, for the
/// components of a document for OpenAPI, and returns the schema of the type, as
/// `SchemaGenerator::subschema_for` does, the definitions, and what serde writes for a value of the
/// type, as `serde_json::to_value` does.
///
/// If the generator is one for OpenAPI and for what is written, the definition of the type's name
/// accepts what is written, under the readings of patterns that the type asks for. If the type is
/// not written in place, the schema is a `$ref` to that definition. The schema itself is not
/// transformed.
///
/// # Errors
///
/// `NotPlain` if with the type the table is neither plain, nor plain under writing without flattened
/// enums; those of `subschema_for`, of
/// `take_definitions` and of `to_member_value`. The generator is unchanged if JSON does not have
/// the value or the type is refused. On any other error it has the type and its definitions, and
/// none is taken.
pub fn to_accepted_definitions<T: AgreesAsDescribed, O: Transform + Drop>(
    alloc: Global,
    generator: &mut SchemaGenerator<O>,
    value: &T,
) -> Result<(Schema, Map<String, Value>, Value), RootError>
    requires told { IsToldIn T.is_told generator.old.rows }
    ensures written { IfOk result (λ r. IsWritten (T.writes value.now) (view r.2)) }
    ensures accepted { IsForOpenApi generator.old → IfOk result (λ r.
        TakenAccepts (IsAmong T.readings value.now) T.says (state generator.new)
        (members_view r.1.entries) r.0 (view r.2)) }
    ensures made { IfOk result (λ r. AreTaken O.makes (held_transforms generator.old)
        (held_transforms generator.new) T.says (state generator.old) (state generator.new) r.0
        (members_view r.1.entries)) }
    ensures refused { IfErr result (RefusesRoot
        (IsTakenRefusal O.makes T.says generator.old generator.new) (T.valid value.now)
        generator.new.rows) }
    ensures unchanged { IfErr result (IsLeft T.says generator.old generator.new) }
{
    if !value.is_valid() {
        return Err(RootError::Write(WriteError::NotInJson));
    }
    let schema = match generator.subschema_for::<T>(alloc) {
        Ok(schema) => schema,
        Err(error) => return Err(RootError::Generate(error)),
    };
    match is_plain_for_each(alloc, Contract::Serialize, generator.types()) {
        Ok(true) => {}
        Ok(false) => return Err(RootError::NotPlain),
        Err(_) => return Err(RootError::OutOfMemory),
    }
    let written = match serde_json::to_value(alloc, value) {
        Ok(written) => written,
        Err(error) => return Err(RootError::Write(WriteError::Json(error))),
    };
    look(&written);
    // by the clause of this call each name is that of one row
    let _ = generator.definitions();
    match generator.take_definitions(alloc, true) {
        Ok(definitions) => Ok((schema, definitions, written)),
        Err(error) => Err(RootError::Generate(error)),
    }
}

/// Takes the definitions of a type from a new generator with these settings, and returns them
/// behind the schema of the type, with what serde writes for a value of the type, as
/// `to_accepted_definitions` does.
///
/// If the settings are those of OpenAPI, for what is written and with references, and the type is
/// not written in place, the schema is a `$ref` to one of the definitions, and both accept what is
/// written.
///
/// # Errors
///
/// Those of `to_accepted_definitions`.
pub fn to_accepted_components<T: AgreesAsDescribed, O: Transform + Drop>(
    alloc: Global,
    settings: SchemaSettings<O>,
    value: &T,
) -> Result<(Schema, Map<String, Value>, Value), RootError>
    requires told { T.is_told (telling T.tells) }
    ensures written { IfOk result (λ r. IsWritten (T.writes value.now) (view r.2)) }
    ensures accepted { AreForOpenApi settings → (settings_of settings).inlines ≡ false
        → T.says.inline ≡ false → IfOk result (λ r. (name : Text) × ReferenceAccepts
        (IsAmong T.readings value.now) (members_view r.1.entries) name r.0 (view r.2)) }
    ensures made { IfOk result (λ r. (new : Generator O) × AreTaken O.makes settings.transforms
        (held_transforms new) T.says (state (generator_over settings [])) (state new) r.0
        (members_view r.1.entries)) }
    ensures refused { IfErr result (λ e. (new : Generator O) × RefusesRoot (IsTakenRefusal O.makes
        T.says (generator_over settings []) new) (T.valid value.now) new.rows e
        × IsLeft T.says (generator_over settings []) new e) }
{
    let mut generator = SchemaGenerator::new(alloc, settings);
    to_accepted_definitions(alloc, &mut generator, value)
}
