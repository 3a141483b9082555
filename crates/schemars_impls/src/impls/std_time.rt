//! Times, which are structs of seconds and of nanoseconds.
ghost use Rattle.std.specs.Prelude.{◌≡◌, [], ◌∷◌, None, codes, false, IfErr, IfOk, OnOk};
ghost use Rattle.schemars_shapes.specs.declared.shape.IntKind.TheVariants.{U32, U64};
ghost use Rattle.schemars_impls.specs.Words.{format_of, bare_fields, entry_of, field_of, fields_of, needed, shape_of, unknown_in, time_entry, IsMade, OfTwo, Keeps, IsIn, KeepsTo, RefusesAs, of_two};

use crate::impls::tuple::parts::register_two;
use crate::law::{JsonSchema, entry};
use schemars_types::{Field, Fields, Required, Shape, TypeEntry, TypeNo, Types, TypesError};
use serde_json::Map;
use std::alloc::{AllocError, Global};
use std::borrow::CowStr;
use std::time::{Duration, SystemTime};

impl JsonSchema for Duration {
    ghost says = { of_two (codes "std::time::Duration") (codes "Duration") false
        (time_entry (codes "secs") (codes "nanos")) ⟦<u64 as JsonSchema>⟧.says
        ⟦<u32 as JsonSchema>⟧.says };

    fn inline_schema() -> bool {
        false
    }

    fn schema_name(_alloc: Global) -> Result<CowStr<'static>, AllocError> {
        Ok(CowStr::Borrowed("Duration"))
    }

    fn schema_id(_alloc: Global) -> Result<CowStr<'static>, AllocError> {
        Ok(CowStr::Borrowed("std::time::Duration"))
    }

    fn json_schema(alloc: Global, types: &mut Types) -> Result<TypeEntry, TypesError> {
        time_entry(alloc, types, "secs", "nanos")
    }
}

impl JsonSchema for SystemTime {
    ghost says = { of_two (codes "std::time::SystemTime") (codes "SystemTime") false
        (time_entry (codes "secs_since_epoch") (codes "nanos_since_epoch"))
        ⟦<u64 as JsonSchema>⟧.says ⟦<u32 as JsonSchema>⟧.says };

    fn inline_schema() -> bool {
        false
    }

    fn schema_name(_alloc: Global) -> Result<CowStr<'static>, AllocError> {
        Ok(CowStr::Borrowed("SystemTime"))
    }

    fn schema_id(_alloc: Global) -> Result<CowStr<'static>, AllocError> {
        Ok(CowStr::Borrowed("std::time::SystemTime"))
    }

    fn json_schema(alloc: Global, types: &mut Types) -> Result<TypeEntry, TypesError> {
        time_entry(alloc, types, "secs_since_epoch", "nanos_since_epoch")
    }
}

fn time_entry(
    alloc: Global,
    types: &mut Types,
    seconds: &str,
    nanoseconds: &str,
) -> Result<TypeEntry, TypesError>
    ensures keeps { Keeps types.old types.new }
    ensures known { IfOk result (λ e. unknown_in types.new (shape_of e.shape) ≡ None) }
    ensures made { IfOk result (λ e. IsMade (OfTwo (format_of U64) (format_of U32)
        (time_entry seconds.now nanoseconds.now)) types.new (entry_of e)) }
    ensures follows { OnOk result (KeepsTo
        (λ d. IsIn ⟦<u64 as JsonSchema>⟧.says d × IsIn ⟦<u32 as JsonSchema>⟧.says d)
        types.old types.new) }
    ensures refused { IfErr result (RefusesAs
        (λ d. IsIn ⟦<u64 as JsonSchema>⟧.says d × IsIn ⟦<u32 as JsonSchema>⟧.says d) types.old) }
{
    let (whole, part) = register_two::<u64, u32>(alloc, types)?;
    let fields = two_needed(alloc, seconds, whole, nanoseconds, part)?;
    Ok(entry(alloc, false, Shape::Struct(fields)))
}

// Two fields without notes that have to be there, and any others beside them.
fn two_needed(
    alloc: Global,
    first: &str,
    of_first: TypeNo,
    second: &str,
    of_second: TypeNo,
) -> Result<Fields, AllocError>
    ensures { IfOk result (λ f. fields_of f
        ≡ bare_fields (needed first.now of_first ∷ needed second.now of_second ∷ []) false) }
{
    let first = needed_field(alloc, first, of_first)?;
    let second = needed_field(alloc, second, of_second)?;
    Ok(Fields {
        list: vec![in alloc; first, second]?,
        flatten: Vec::new(alloc),
        closed: false,
    })
}

// A field that has to be there, without notes.
fn needed_field(alloc: Global, name: &str, ty: TypeNo) -> Result<Field, AllocError>
    ensures { IfOk result (λ f. field_of f ≡ needed name.now ty) }
{
    Ok(Field {
        name: String::from_str(alloc, name)?,
        ty,
        required: Required {
            deserialize: true,
            serialize: true,
        },
        notes: Map::new(alloc),
    })
}
