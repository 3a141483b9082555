//! The root document of a type, and a value that it accepts.
ghost use Rattle.std.specs.Prelude.{◌≡◌, [], IfOk, IfErr};
ghost use Rattle.schemars_accepted.specs.Words.{view, Draft, path_of, stripped, IsJoined, IsRootOfTypeRefusal, Generator, generator_over, held_transforms, settings_of, state, IsAmong, IsWritten, IsToldIn, telling, AcceptsWritten, AreForWriting, HasRoot, IsForWriting, IsLeftWithRoot, RefusesRoot};

use crate::error::RootError;
use crate::law::AgreesAsDescribed;
use schemars_agreement::WriteError;
use schemars_generate::{SchemaGenerator, SchemaSettings};
use schemars_plain::is_plain_for_each;
use schemars_schema::Schema;
use schemars_types::Contract;
use schemars_validate::look;
use schemars_walk::Transform;
use serde_json::Value;
use std::alloc::Global;

/// Makes the root document of a type, as `SchemaGenerator::root_schema_for` does, and returns it
/// with what serde writes for a value of the type, as `serde_json::to_value` does. The document
/// accepts what is written, if the generator is one for what is written, under the readings of
/// patterns that the type asks for.
///
/// # Errors
///
/// `NotPlain` if with the type the table is neither plain, nor plain under writing without flattened
/// enums; those of `root_schema_for` and of
/// `to_member_value`. The generator is unchanged if JSON does not have the value, and unchanged apart
/// from the state of user-defined transforms if the document is not generated. On any other error it
/// has the type and the definitions of its document.
pub fn to_accepted_root<T: AgreesAsDescribed, O: Transform + Drop>(
    alloc: Global,
    generator: &mut SchemaGenerator<O>,
    value: &T,
) -> Result<(Schema, Value), RootError>
    requires told { IsToldIn T.is_told generator.old.rows }
    ensures written { IfOk result (λ r. IsWritten (T.writes value.now) (view r.1)) }
    ensures accepted { (draft : Draft) → IsForWriting draft generator.old → IfOk result
        (λ r. AcceptsWritten (IsAmong T.readings value.now) draft (path_of (state generator.old))
        r.0 (view r.1)) }
    ensures made { IfOk result (λ r. HasRoot O.makes (held_transforms generator.old)
        (held_transforms generator.new) T.says (state generator.old) (state generator.new) r.0) }
    ensures refused { IfErr result (RefusesRoot (IsRootOfTypeRefusal O.makes
        (held_transforms generator.old) (held_transforms generator.new) (state generator.old) T.says
        (IsJoined T.says generator.old.rows)) (T.valid value.now) generator.new.rows) }
    ensures left { IfErr result (IsLeftWithRoot O.makes T.says generator.old generator.new) }
{
    if !value.is_valid() {
        return Err(RootError::Write(WriteError::NotInJson));
    }
    let document = match generator.root_schema_for::<T>(alloc) {
        Ok(document) => document,
        Err(error) => return Err(RootError::Generate(error)),
    };
    match is_plain_for_each(alloc, Contract::Serialize, generator.types()) {
        Ok(true) => {}
        Ok(false) => return Err(RootError::NotPlain),
        Err(_) => return Err(RootError::OutOfMemory),
    }
    match serde_json::to_value(alloc, value) {
        Ok(written) => {
            look(&written);
            Ok((document, written))
        }
        Err(error) => Err(RootError::Write(WriteError::Json(error))),
    }
}

/// Makes the root document of a type by a new generator with these settings, and returns it with
/// what serde writes for a value of the type, as `to_accepted_root` does.
///
/// # Errors
///
/// Those of `to_accepted_root`.
pub fn to_accepted_document<T: AgreesAsDescribed, O: Transform + Drop>(
    alloc: Global,
    settings: SchemaSettings<O>,
    value: &T,
) -> Result<(Schema, Value), RootError>
    requires told { T.is_told (telling T.tells) }
    ensures written { IfOk result (λ r. IsWritten (T.writes value.now) (view r.1)) }
    ensures accepted { (draft : Draft) → AreForWriting draft settings → IfOk result (λ r.
        AcceptsWritten (IsAmong T.readings value.now) draft
        (stripped (settings_of settings).definitions_path) r.0 (view r.1)) }
    ensures made { IfOk result (λ r. (new : Generator O) × HasRoot O.makes settings.transforms
        (held_transforms new) T.says (state (generator_over settings [])) (state new) r.0) }
    ensures refused { IfErr result (λ e. (new : Generator O) × RefusesRoot (IsRootOfTypeRefusal O.makes
        settings.transforms (held_transforms new) (state (generator_over settings [])) T.says
        (IsJoined T.says [])) (T.valid value.now) new.rows e
        × IsLeftWithRoot O.makes T.says (generator_over settings []) new e) }
{
    let mut generator = SchemaGenerator::new(alloc, settings);
    to_accepted_root(alloc, &mut generator, value)
}
