//! Keywords with several schemas of the same value.
ghost use Rattle.std.specs.Prelude.{◌≡◌, IfOk, OnOk, option_map, map, codes};
ghost use Rattle.schemars_validate.specs.Words.{get_member, view, items_view, members_view, reads_dependencies, Raw, where_some, condition_says, dependencies_say, judged_by_some, judged_by_condition, context, meant, marked, parts_of, judged_beside_members, joined_by, judges_of, judges_in, judges_among_in, reads, dependents_by, follow, IsKnown};

use crate::found::{members_where_read, schema_at, schema_beside, schema_where_read};
use crate::joined::{Join, Joined};
use crate::judge::Document;
use crate::judge::one::{branch, fits};
use crate::memo::Memo;
use schemars_assertions::{Patterns, Verdict, both, dependent_required_says, member};
use serde_json::{Map, Value};
use std::alloc::AllocError;

/// Schemas of the same value.
#[cycle(judge)]
#[tactic(auto, using(crate::proofs::Joining::taken_joined))]
pub fn each<P: Patterns>(
    d: &Document<'_, P>,
    left: u64,
    memo: &mut Memo,
    join: Join,
    schemas: Option<&Vec<Value>>,
    value: &Value,
    marks: &mut Vec<bool>,
) -> Result<Verdict, AllocError>
    requires { let to = follow d.now.dialect (view d.now.whole.now) (P.reading d.now.patterns.now) in
        IsKnown to (view value.now) memo.old }
    ensures verdict { let c = context d.now.dialect (view d.now.whole.now) (P.reading d.now.patterns.now) left in
        IfOk result (λ says. meant says
        ≡ where_some (option_map (λ s. items_view s.now.items) schemas.entry)
        (λ ds. joined_by join (map (λ s. s.fits (view value.now)) (judges_of c ds)))) }
    ensures judged { let c = context d.now.dialect (view d.now.whole.now) (P.reading d.now.patterns.now) left in
        OnOk result (marks.new.items
        ≡ marked (judged_by_some (judges_in c (option_map (λ s. items_view s.now.items) schemas.entry)) (view value.now))
        (parts_of (view value.now)) marks.old.items) }
    ensures keeps { let to = follow d.now.dialect (view d.now.whole.now) (P.reading d.now.patterns.now) in
        IsKnown to (view value.now) memo.new }
{
    let Some(schemas) = schemas else {
        return Ok(Verdict::Yes);
    };
    let mut joined = Joined::new();
    for schema in schemas {
        let says = fits(d, left, memo, schema, value, marks)?;
        joined = joined.with(says);
    }
    Ok(joined.by(join))
}

/// `if`, with `then` and `else`.
#[cycle(judge)]
pub fn condition<P: Patterns>(
    d: &Document<'_, P>,
    left: u64,
    memo: &mut Memo,
    keywords: &Map<String, Value>,
    value: &Value,
    marks: &mut Vec<bool>,
) -> Result<Verdict, AllocError>
    requires { let to = follow d.now.dialect (view d.now.whole.now) (P.reading d.now.patterns.now) in
        IsKnown to (view value.now) memo.old }
    ensures verdict { let c = context d.now.dialect (view d.now.whole.now) (P.reading d.now.patterns.now) left in
        let raw : Raw = λ k. get_member k (members_view keywords.now.entries) in
        IfOk result (λ says. meant says
        ≡ condition_says d.now.dialect.reads_const (reads c raw (codes "if")) (reads c raw (codes "then"))
        (reads c raw (codes "else")) (view value.now)) }
    ensures judged { let c = context d.now.dialect (view d.now.whole.now) (P.reading d.now.patterns.now) left in
        let raw : Raw = λ k. get_member k (members_view keywords.now.entries) in
        OnOk result (marks.new.items
        ≡ marked (judged_by_condition d.now.dialect.reads_const (reads c raw (codes "if")) (reads c raw (codes "then"))
        (reads c raw (codes "else")) (view value.now)) (parts_of (view value.now)) marks.old.items) }
    ensures keeps { let to = follow d.now.dialect (view d.now.whole.now) (P.reading d.now.patterns.now) in
        IsKnown to (view value.now) memo.new }
{
    let asked = schema_where_read(d.dialect.reads_const(), member(keywords, "if"));
    let Some(schema) = asked else {
        return Ok(Verdict::Yes);
    };
    let says = fits(d, left, memo, schema, value, marks)?;
    match says {
        Verdict::Yes => branch(
            d,
            left,
            memo,
            schema_at(member(keywords, "then")),
            value,
            marks,
        ),
        Verdict::No => branch(
            d,
            left,
            memo,
            schema_at(member(keywords, "else")),
            value,
            marks,
        ),
        Verdict::Open => Ok(says),
    }
}

/// Of the members those that are schemas, and whose names are keys of the value.
#[cycle(judge)]
pub fn dependents<P: Patterns>(
    d: &Document<'_, P>,
    left: u64,
    memo: &mut Memo,
    by_name: Option<&Map<String, Value>>,
    value: &Value,
    marks: &mut Vec<bool>,
) -> Result<Verdict, AllocError>
    requires { let to = follow d.now.dialect (view d.now.whole.now) (P.reading d.now.patterns.now) in
        IsKnown to (view value.now) memo.old }
    ensures verdict { let c = context d.now.dialect (view d.now.whole.now) (P.reading d.now.patterns.now) left in
        IfOk result (λ says. meant says
        ≡ dependents_by (judges_among_in c (option_map (λ s. members_view s.now.entries) by_name.entry)) (view value.now)) }
    ensures judged { let c = context d.now.dialect (view d.now.whole.now) (P.reading d.now.patterns.now) left in
        OnOk result (marks.new.items
        ≡ marked (judged_beside_members (judges_among_in c (option_map (λ s. members_view s.now.entries) by_name.entry))
        (view value.now)) (parts_of (view value.now)) marks.old.items) }
    ensures keeps { let to = follow d.now.dialect (view d.now.whole.now) (P.reading d.now.patterns.now) in
        IsKnown to (view value.now) memo.new }
{
    let mut says = Verdict::Yes;
    let Some(schemas) = by_name else {
        return Ok(says);
    };
    let Some(members) = value.as_object() else {
        return Ok(says);
    };
    for (name, schema) in schemas.iter() {
        let asked = schema_beside(members, name.as_str(), schema);
        says = both(says, branch(d, left, memo, asked, value, marks)?);
    }
    Ok(says)
}

/// Beside a member, the names that are required or a schema of the value. It judges no parts.
#[cycle(judge)]
pub fn dependencies<P: Patterns>(
    d: &Document<'_, P>,
    left: u64,
    memo: &mut Memo,
    keywords: &Map<String, Value>,
    value: &Value,
) -> Result<Verdict, AllocError>
    requires { let to = follow d.now.dialect (view d.now.whole.now) (P.reading d.now.patterns.now) in
        IsKnown to (view value.now) memo.old }
    ensures verdict { let c = context d.now.dialect (view d.now.whole.now) (P.reading d.now.patterns.now) left in
        let raw : Raw = λ k. get_member k (members_view keywords.now.entries) in
        IfOk result (λ says. meant says
        ≡ dependencies_say (reads_dependencies d.now.dialect) (raw (codes "dependencies")) (reads c raw (codes "dependencies"))
        (view value.now)) }
    ensures keeps { let to = follow d.now.dialect (view d.now.whole.now) (P.reading d.now.patterns.now) in
        IsKnown to (view value.now) memo.new }
{
    let reads = d.dialect.reads_dependencies();
    let by_name = member(keywords, "dependencies");
    let required = dependent_required_says(reads, by_name, value);
    let mut unwanted = Vec::new(d.alloc);
    let among = members_where_read(reads, by_name);
    let says = dependents(d, left, memo, among, value, &mut unwanted)?;
    Ok(both(required, says))
}
