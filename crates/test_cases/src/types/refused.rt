//! A type that is refused.
#![tactic(auto, using(schemars_impls::proofs::OwnTypes::own_types))]

ghost use Rattle.std.specs.Prelude.{codes};
ghost use Rattle.schemars_impls.specs.Dictionary.{IsIn, own};

use schemars::GenerateError;
use schemars::impls::{JsonSchema, REQUIRED, add_field, register};
use schemars::types::{TypeEntry, TypeNo, Types, TypesError};
use std::alloc::{AllocError, Global};
use std::borrow::CowStr;

// A type that is refused after its first part has been added to the table.
struct Refused;

impl JsonSchema for Refused {
    ghost says = { own (codes "Refused") (λ d. IsIn ⟦<u8 as JsonSchema>⟧.says d) };

    fn inline_schema() -> bool {
        false
    }

    fn schema_name(_alloc: Global) -> Result<CowStr<'static>, AllocError> {
        Ok(CowStr::Borrowed("Refused"))
    }

    fn schema_id(alloc: Global) -> Result<CowStr<'static>, AllocError> {
        Self::schema_name(alloc)
    }

    fn json_schema(alloc: Global, types: &mut Types) -> Result<TypeEntry, TypesError> {
        let mut fields = Vec::new(alloc);
        add_field::<u8>(alloc, types, &mut fields, "part", REQUIRED)?;
        Err(TypesError::OutOfMemory)
    }
}

/// The row that was there before a refusal, and how many rows there are after it.
pub(crate) fn rows_after_a_refusal(alloc: Global) -> Result<String, GenerateError> {
    let mut types = Types::new(alloc);
    let n = register::<bool>(alloc, &mut types)?;
    match register::<(bool, Refused)>(alloc, &mut types) {
        Ok(_) => Ok(String::from_str(alloc, "no refusal")?),
        Err(error) => Ok(rows(alloc, &types, n, error.code())?),
    }
}

fn rows(alloc: Global, types: &Types, n: TypeNo, code: u32) -> Result<String, AllocError> {
    let id = types.id(n).unwrap_or("");
    let name = types.name(n).unwrap_or("");
    let is_defined = types.entry(n).is_some();
    let len = types.len();
    format!(in alloc; "{code}\t{n} {id} {name} {is_defined}\t{len} rows")
}
