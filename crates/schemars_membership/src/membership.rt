//! The document of a type, and the values that belong to the type by it.
ghost use Rattle.std.specs.Prelude.{◌≡◌, ℕ, List, IfOk, IfErr, codes};
ghost use Rattle.schemars_membership.specs.Words.{view, draft2020_12, accepts, bound, is_yes, Row, IsPlainFor, MeansItsType, Belongs, IsDocumentRefusal, IsMember, IsOfType, IsTypeDocument, IsUndecided};
ghost use Rattle.schemars_types.specs.Meaning as meaning;
ghost use Rattle.schemars_types.specs.declared.contract.Contract.{Contract as Which};

use crate::error::MembershipError;
use schemars_generate::{GenerateError, SchemaGenerator, SchemaSettings};
use schemars_schema::Schema;
use schemars_transform::NoTransform;
use schemars_types::{Contract, TypeNo, Types};
use schemars_validate::{Dialect, Patterns, is_valid, look};
use schemars_validator::{Draft, Validator};
use serde_json::Value;
use std::alloc::{AllocError, Global};

/// The document of row `n` under a contract, in JSON Schema 2020-12.
///
/// # Errors
///
/// Those of `Types::check`, `UnknownType` if there is no such row, `DefinitionsPath` where notes of the
/// row are in the way of the definitions, and `OutOfMemory`.
pub fn type_document(
    alloc: Global,
    types: Types,
    n: TypeNo,
    contract: Contract,
) -> Result<Schema, GenerateError>
    ensures made { IfOk result (IsTypeDocument types contract n) }
    ensures refused { IfErr result (IsDocumentRefusal types contract n) }
{
    let mut settings = SchemaSettings::<NoTransform>::draft2020_12(alloc);
    settings.contract = contract;
    let generator = SchemaGenerator::with_types(alloc, settings, types)?;
    let document = generator.into_root_schema_for_type(alloc, n)?;
    Ok(document)
}

/// Whether a value belongs to the type whose document the validator has.
///
/// # Errors
///
/// Only where memory runs out.
#[tactic(auto, using(crate::proofs::Deciding::decided))]
pub fn is_member(
    alloc: Global,
    validator: &Validator<'_>,
    value: &Value,
) -> Result<bool, AllocError>
    ensures { (rows : List Row) (contract : Which) (n : ℕ) → IsOfType validator.now rows contract n
        → IfOk result (Belongs validator.now.expressions.items rows contract n (view value.now)) }
{
    look(value);
    validator.is_valid(alloc, value)
}

/// Whether a value belongs to row `n` of a table, decided from the table, and whether a document accepts
/// it. The two agree, under each reading of patterns, where the document means the row.
///
/// # Errors
///
/// Only where memory runs out.
#[tactic(auto, using(crate::proofs::Deciding::agreed))]
pub fn by_table_and_document<P: Patterns>(
    alloc: Global,
    types: &Types,
    n: TypeNo,
    contract: Contract,
    document: &Value,
    patterns: &P,
    value: &Value,
) -> Result<(bool, bool), AllocError>
    ensures agree { MeansItsType draft2020_12 types.now contract (codes "/$defs") n (view document.now)
        → IfOk result (λ answers. answers.0 ≡ answers.1) }
    ensures by_table { IfOk result (λ answers. answers.0
        ≡ meaning.belongs types.now contract (P.reading patterns.now) n (view value.now)) }
    ensures by_document { let d = view document.now in
        IfOk result (λ answers. answers.1 ≡ is_yes (accepts draft2020_12 d (P.reading patterns.now)
        (bound (codes "/$defs") d (view value.now)) d (view value.now))) }
{
    look(value);
    let by_table = schemars_belonging::belongs(alloc, types, n, contract, value, patterns)?;
    let dialect = Dialect::draft2020_12();
    let by_document = is_valid(alloc, dialect, document, "/$defs", patterns, value)?;
    Ok((by_table, by_document))
}

/// Whether a value belongs to row `n` of a table under a contract.
///
/// # Errors
///
/// Those of `type_document`, and those of `Validator::new` for the document: that it has a pattern that
/// is no expression, or a keyword that is not read; and where memory runs out.
pub fn belongs(
    alloc: Global,
    types: Types,
    n: TypeNo,
    contract: Contract,
    value: &Value,
) -> Result<bool, MembershipError>
    ensures decides { IsPlainFor draft2020_12 contract types
        → IfOk result (IsMember types contract n (view value.now)) }
    ensures undecided { IfErr result (IsUndecided types contract n) }
{
    let document = type_document(alloc, types, n, contract)?;
    let validator = Validator::new(alloc, Draft::Draft2020_12, document.as_value())?;
    let answer = is_member(alloc, &validator, value)?;
    Ok(answer)
}
