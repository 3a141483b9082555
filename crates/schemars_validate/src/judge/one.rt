//! What one schema says, of the same value or of another.
ghost use Rattle.std.specs.Prelude.{◌≡◌, ◌<◌, IfOk, OnOk, option_map, codes};
ghost use Rattle.schemars_validate.specs.Chains.{LeadsOn};
ghost use Rattle.schemars_validate.specs.Words.{get_member, view, members_view, where_some, reference_says, judged_by, judged_by_reference, context, judge, follow, meant, marked, parts_of, judged_by_one, judge_at, IsKnown};

use crate::chains::{end_of_chain, reference_of_schema};
use crate::found::{reference_in, resolved};
use crate::judge::{Document, judge};
use crate::marks::{copied, keep, unite, unmarked};
use crate::memo::Memo;
use schemars_assertions::{Patterns, Verdict};
use serde_json::{Map, Value};
use std::alloc::AllocError;

/// The schema that `$ref` names.
#[cycle(judge)]
pub fn reference<P: Patterns>(
    d: &Document<'_, P>,
    left: u64,
    memo: &mut Memo,
    keywords: &Map<String, Value>,
    value: &Value,
    marks: &mut Vec<bool>,
) -> Result<Verdict, AllocError>
    requires { let to = follow d.now.dialect (view d.now.whole.now) (P.reading d.now.patterns.now) in
        IsKnown to (view value.now) memo.old }
    ensures verdict { let to = follow d.now.dialect (view d.now.whole.now) (P.reading d.now.patterns.now) left in
        IfOk result (λ says. meant says
        ≡ reference_says to (get_member (codes "$ref") (members_view keywords.now.entries)) (view value.now)) }
    ensures judged { let to = follow d.now.dialect (view d.now.whole.now) (P.reading d.now.patterns.now) left in
        OnOk result (marks.new.items
        ≡ marked (judged_by_reference to (get_member (codes "$ref") (members_view keywords.now.entries)) (view value.now))
        (parts_of (view value.now)) marks.old.items) }
    ensures keeps { let to = follow d.now.dialect (view d.now.whole.now) (P.reading d.now.patterns.now) in
        IsKnown to (view value.now) memo.new }
{
    let Some(name) = reference_in(keywords) else {
        return Ok(Verdict::Yes);
    };
    named(d, left, memo, name, value, marks)
}

// The schema that a name leads to, unless it is known what that says.
#[cycle(judge)]
fn named<P: Patterns>(
    d: &Document<'_, P>,
    left: u64,
    memo: &mut Memo,
    name: &str,
    value: &Value,
    marks: &mut Vec<bool>,
) -> Result<Verdict, AllocError>
    requires { let to = follow d.now.dialect (view d.now.whole.now) (P.reading d.now.patterns.now) in
        IsKnown to (view value.now) memo.old }
    ensures verdict { let to = follow d.now.dialect (view d.now.whole.now) (P.reading d.now.patterns.now) left in
        IfOk result (λ says. meant says ≡ (to name.now).fits (view value.now)) }
    ensures judged { let to = follow d.now.dialect (view d.now.whole.now) (P.reading d.now.patterns.now) left in
        OnOk result (marks.new.items
        ≡ marked (judged_by (to name.now) (view value.now)) (parts_of (view value.now)) marks.old.items) }
    ensures keeps { let to = follow d.now.dialect (view d.now.whole.now) (P.reading d.now.patterns.now) in
        IsKnown to (view value.now) memo.new }
{
    match memo.recall(d.dialect, name, left, marks) {
        Some(says) => Ok(says),
        None => followed(d, left, memo, name, value, marks),
    }
}

// The schema that a name leads to. What it says is kept.
#[cycle(judge)]
fn followed<P: Patterns>(
    d: &Document<'_, P>,
    left: u64,
    memo: &mut Memo,
    name: &str,
    value: &Value,
    marks: &mut Vec<bool>,
) -> Result<Verdict, AllocError>
    requires { let to = follow d.now.dialect (view d.now.whole.now) (P.reading d.now.patterns.now) in
        IsKnown to (view value.now) memo.old }
    ensures verdict { let to = follow d.now.dialect (view d.now.whole.now) (P.reading d.now.patterns.now) left in
        IfOk result (λ says. meant says ≡ (to name.now).fits (view value.now)) }
    ensures judged { let to = follow d.now.dialect (view d.now.whole.now) (P.reading d.now.patterns.now) left in
        OnOk result (marks.new.items
        ≡ marked (judged_by (to name.now) (view value.now)) (parts_of (view value.now)) marks.old.items) }
    ensures keeps { let to = follow d.now.dialect (view d.now.whole.now) (P.reading d.now.patterns.now) in
        IsKnown to (view value.now) memo.new }
{
    if left == 0 {
        return Ok(Verdict::Open);
    }
    let Some(schema) = resolved(d.alloc, d.whole, name)? else {
        return Ok(Verdict::Open);
    };
    if let Some(next) = reference_of_schema(d.dialect, schema) {
        return passed_on(d, left, memo, name, next, value, marks);
    }
    if marks.is_empty() {
        let says = alone(d, left - 1, memo, Some(schema), value)?;
        memo.keep(d.alloc, name, left, says, None)?;
        return Ok(says);
    }
    let mut judged = unmarked(d.alloc, value)?;
    let says = fits(d, left - 1, memo, schema, value, &mut judged)?;
    unite(&judged, marks);
    memo.keep(d.alloc, name, left, says, Some(judged))?;
    Ok(says)
}

// The schema at the end of a chain that begins with a name and with the reference that stands alone there.
// What it says is kept for the name too.
#[cycle(judge)]
fn passed_on<P: Patterns>(
    d: &Document<'_, P>,
    left: u64,
    memo: &mut Memo,
    name: &str,
    next: &str,
    value: &Value,
    marks: &mut Vec<bool>,
) -> Result<Verdict, AllocError>
    requires { let to = follow d.now.dialect (view d.now.whole.now) (P.reading d.now.patterns.now) in
        IsKnown to (view value.now) memo.old × (0 < left) × LeadsOn d.now.dialect (view d.now.whole.now) name.now next.now }
    ensures verdict { let to = follow d.now.dialect (view d.now.whole.now) (P.reading d.now.patterns.now) left in
        IfOk result (λ says. meant says ≡ (to name.now).fits (view value.now)) }
    ensures judged { let to = follow d.now.dialect (view d.now.whole.now) (P.reading d.now.patterns.now) left in
        OnOk result (marks.new.items
        ≡ marked (judged_by (to name.now) (view value.now)) (parts_of (view value.now)) marks.old.items) }
    ensures keeps { let to = follow d.now.dialect (view d.now.whole.now) (P.reading d.now.patterns.now) in
        IsKnown to (view value.now) memo.new }
{
    let last = end_of_chain(d.alloc, d.dialect, d.whole, next, left - 1)?;
    if marks.is_empty() {
        let says = named(d, last.left, memo, last.name, value, marks)?;
        memo.keep(d.alloc, name, left, says, None)?;
        return Ok(says);
    }
    let mut judged = unmarked(d.alloc, value)?;
    let says = named(d, last.left, memo, last.name, value, &mut judged)?;
    unite(&judged, marks);
    memo.keep(d.alloc, name, left, says, Some(judged))?;
    Ok(says)
}

/// What a schema of the same value says. It has judged parts only if the value fits it.
#[cycle(judge)]
pub fn fits<P: Patterns>(
    d: &Document<'_, P>,
    left: u64,
    memo: &mut Memo,
    schema: &Value,
    value: &Value,
    marks: &mut Vec<bool>,
) -> Result<Verdict, AllocError>
    requires { let to = follow d.now.dialect (view d.now.whole.now) (P.reading d.now.patterns.now) in
        IsKnown to (view value.now) memo.old }
    ensures verdict { let c = context d.now.dialect (view d.now.whole.now) (P.reading d.now.patterns.now) left in
        IfOk result (λ says. meant says ≡ (judge c (view schema.now)).fits (view value.now)) }
    ensures judged { let c = context d.now.dialect (view d.now.whole.now) (P.reading d.now.patterns.now) left in
        OnOk result (marks.new.items
        ≡ marked (judged_by (judge c (view schema.now)) (view value.now)) (parts_of (view value.now)) marks.old.items) }
    ensures keeps { let to = follow d.now.dialect (view d.now.whole.now) (P.reading d.now.patterns.now) in
        IsKnown to (view value.now) memo.new }
{
    let mut tried = copied(d.alloc, marks)?;
    let says = judge(d, left, memo, schema, value, &mut tried)?;
    keep(says, tried, marks);
    Ok(says)
}

/// A schema of the same value, if there is one.
#[cycle(judge)]
pub fn branch<P: Patterns>(
    d: &Document<'_, P>,
    left: u64,
    memo: &mut Memo,
    schema: Option<&Value>,
    value: &Value,
    marks: &mut Vec<bool>,
) -> Result<Verdict, AllocError>
    requires { let to = follow d.now.dialect (view d.now.whole.now) (P.reading d.now.patterns.now) in
        IsKnown to (view value.now) memo.old }
    ensures verdict { let c = context d.now.dialect (view d.now.whole.now) (P.reading d.now.patterns.now) left in
        IfOk result (λ says. meant says
        ≡ where_some (judge_at c (option_map (λ s. view s.now) schema.entry)) (λ s. s.fits (view value.now))) }
    ensures judged { let c = context d.now.dialect (view d.now.whole.now) (P.reading d.now.patterns.now) left in
        OnOk result (marks.new.items
        ≡ marked (judged_by_one (judge_at c (option_map (λ s. view s.now) schema.entry)) (view value.now))
        (parts_of (view value.now)) marks.old.items) }
    ensures keeps { let to = follow d.now.dialect (view d.now.whole.now) (P.reading d.now.patterns.now) in
        IsKnown to (view value.now) memo.new }
{
    match schema {
        Some(schema) => fits(d, left, memo, schema, value, marks),
        None => Ok(Verdict::Yes),
    }
}

/// What a schema says of a value whose parts nobody asks for. No schema says nothing.
#[cycle(judge)]
pub fn alone<P: Patterns>(
    d: &Document<'_, P>,
    left: u64,
    memo: &mut Memo,
    schema: Option<&Value>,
    value: &Value,
) -> Result<Verdict, AllocError>
    requires { let to = follow d.now.dialect (view d.now.whole.now) (P.reading d.now.patterns.now) in
        IsKnown to (view value.now) memo.old }
    ensures verdict { let c = context d.now.dialect (view d.now.whole.now) (P.reading d.now.patterns.now) left in
        IfOk result (λ says. meant says
        ≡ where_some (judge_at c (option_map (λ s. view s.now) schema.entry)) (λ s. s.fits (view value.now))) }
    ensures keeps { let to = follow d.now.dialect (view d.now.whole.now) (P.reading d.now.patterns.now) in
        IsKnown to (view value.now) memo.new }
{
    match schema {
        Some(schema) => {
            let mut unwanted = Vec::new(d.alloc);
            judge(d, left, memo, schema, value, &mut unwanted)
        }
        None => Ok(Verdict::Yes),
    }
}
