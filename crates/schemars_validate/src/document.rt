//! A whole document, or one of its schemas, asked about a value.
ghost use Rattle.std.specs.Prelude.{◌≡◌, IfOk, IfSome};
ghost use Rattle.schemars_validate.specs.Words.{view, is_yes, accepts, bound, context, count_of_definitions, follow, judge, marked, parts_of, unmarked, meant, IsKnown};

use crate::judge::{Document, judge};
use crate::marks::unmarked;
use crate::memo::Memo;
use schemars_assertions::{Dialect, Patterns, Verdict, depth};
use serde_json::Value;
use std::alloc::{AllocError, Global};

/// What a schema of a document says of a value, if at most `references` references within one
/// another are followed.
pub fn validate<P: Patterns>(
    alloc: Global,
    dialect: Dialect,
    document: &Value,
    patterns: &P,
    references: u64,
    schema: &Value,
    value: &Value,
) -> Result<Verdict, AllocError>
    ensures { IfOk result (λ says. meant says
        ≡ accepts dialect (view document.now) (P.reading patterns.now) references (view schema.now) (view value.now)) }
{
    let mut memo = Memo::new(alloc);
    validate_with(
        alloc, dialect, document, patterns, references, schema, value, &mut memo,
    )
}

/// As `validate`, with what is known of the value, to which is added what is found.
pub fn validate_with<P: Patterns>(
    alloc: Global,
    dialect: Dialect,
    document: &Value,
    patterns: &P,
    references: u64,
    schema: &Value,
    value: &Value,
    memo: &mut Memo,
) -> Result<Verdict, AllocError>
    requires { IsKnown (follow dialect (view document.now) (P.reading patterns.now)) (view value.now) memo.old }
    ensures verdict { IfOk result (λ says. meant says
        ≡ accepts dialect (view document.now) (P.reading patterns.now) references (view schema.now) (view value.now)) }
    ensures keeps { IsKnown (follow dialect (view document.now) (P.reading patterns.now)) (view value.now) memo.new }
{
    let d = Document {
        alloc,
        dialect,
        whole: document,
        patterns,
    };
    let mut unwanted = Vec::new(alloc);
    judge(&d, references, memo, schema, value, &mut unwanted)
}

/// Which parts of a value a schema of a document judges, if at most `references` references within one
/// another are followed: a mark for each member of an object, or for each item of a list, in their order.
pub fn judged<P: Patterns>(
    alloc: Global,
    dialect: Dialect,
    document: &Value,
    patterns: &P,
    references: u64,
    schema: &Value,
    value: &Value,
) -> Result<Vec<bool>, AllocError>
    ensures { let c = context dialect (view document.now) (P.reading patterns.now) references in
        let parts = parts_of (view value.now) in
        IfOk result (λ marks. marks.items
        ≡ marked ((judge c (view schema.now)).judges (view value.now)) parts (unmarked parts)) }
{
    let mut memo = Memo::new(alloc);
    judged_with(
        alloc, dialect, document, patterns, references, schema, value, &mut memo,
    )
}

/// As `judged`, with what is known of the value, to which is added what is found.
pub fn judged_with<P: Patterns>(
    alloc: Global,
    dialect: Dialect,
    document: &Value,
    patterns: &P,
    references: u64,
    schema: &Value,
    value: &Value,
    memo: &mut Memo,
) -> Result<Vec<bool>, AllocError>
    requires { IsKnown (follow dialect (view document.now) (P.reading patterns.now)) (view value.now) memo.old }
    ensures judged { let c = context dialect (view document.now) (P.reading patterns.now) references in
        let parts = parts_of (view value.now) in
        IfOk result (λ marks. marks.items
        ≡ marked ((judge c (view schema.now)).judges (view value.now)) parts (unmarked parts)) }
    ensures keeps { IsKnown (follow dialect (view document.now) (P.reading patterns.now)) (view value.now) memo.new }
{
    let d = Document {
        alloc,
        dialect,
        whole: document,
        patterns,
    };
    let mut marks = unmarked(alloc, value)?;
    judge(&d, references, memo, schema, value, &mut marks)?;
    Ok(marks)
}

/// What a document says of a value, with as many references followed as its definitions can need,
/// which are at the JSON Pointer `definitions`.
pub fn validate_document<P: Patterns>(
    alloc: Global,
    dialect: Dialect,
    document: &Value,
    definitions: &str,
    patterns: &P,
    value: &Value,
) -> Result<Verdict, AllocError>
    ensures { let n = bound definitions.now (view document.now) (view value.now) in
        IfOk result (λ says. meant says
        ≡ accepts dialect (view document.now) (P.reading patterns.now) n (view document.now) (view value.now)) }
{
    let Some(references) = bound(definitions, document, value) else {
        // no memory holds a value or a document of that size
        return Err(AllocError);
    };
    validate(
        alloc, dialect, document, patterns, references, document, value,
    )
}

/// Whether a document accepts a value.
pub fn is_valid<P: Patterns>(
    alloc: Global,
    dialect: Dialect,
    document: &Value,
    definitions: &str,
    patterns: &P,
    value: &Value,
) -> Result<bool, AllocError>
    ensures { let n = bound definitions.now (view document.now) (view value.now) in
        IfOk result (λ valid. valid
        ≡ is_yes (accepts dialect (view document.now) (P.reading patterns.now) n (view document.now) (view value.now))) }
{
    let says = validate_document(alloc, dialect, document, definitions, patterns, value)?;
    Ok(says == Verdict::Yes)
}

/// So many references suffice, if the number fits.
pub fn bound(definitions: &str, document: &Value, value: &Value) -> Option<u64>
    ensures { IfSome result (λ n. n ≡ bound definitions.now (view document.now) (view value.now)) }
{
    let deep = depth(value)?.checked_add(1)?;
    let count = count_of_definitions(definitions, document).checked_add(2)?;
    deep.checked_mul(count)
}

#[tactic(auto, using(schemars_assertions::proofs::Lists::members_counted))]
fn count_of_definitions(definitions: &str, document: &Value) -> u64
    ensures { result ≡ count_of_definitions definitions.now (view document.now) }
{
    let Some(found) = document.pointer(definitions) else {
        return 0;
    };
    match found.as_object() {
        Some(members) => members.len() as u64,
        None => 0,
    }
}
