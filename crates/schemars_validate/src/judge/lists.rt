//! Keywords for the items of a list.
ghost use Rattle.std.specs.Prelude.{◌≡◌, IfOk, OnOk, option_map, codes};
ghost use Rattle.schemars_validate.specs.Words.{get_member, view, items_view, members_view, Raw, contains_says, count_of_fitting, judged_by_contains, context, judge, meant, marked, parts_of, positions_in, at_positions, fits_at, judge_at, judges_of, reads, items_by, array, follow, IsKnown};

use crate::found::{ItemSchemas, or_else, schema_at};
use crate::judge::Document;
use crate::judge::parts::part_at;
use crate::marks::mark_fitting;
use crate::memo::Memo;
use schemars_assertions::{Patterns, Verdict, both, contained_says, member, one_more};
use serde_json::{Map, Value};
use std::alloc::AllocError;

/// A schema for each item: the next of the first ones, or that of all others.
#[cycle(judge)]
pub fn items<P: Patterns>(
    d: &Document<'_, P>,
    left: u64,
    memo: &mut Memo,
    schemas: &ItemSchemas<'_>,
    value: &Value,
) -> Result<Verdict, AllocError>
    requires { let to = follow d.now.dialect (view d.now.whole.now) (P.reading d.now.patterns.now) in
        IsKnown to (view value.now) memo.old }
    ensures verdict { let c = context d.now.dialect (view d.now.whole.now) (P.reading d.now.patterns.now) left in
        IfOk result (λ says. meant says
        ≡ items_by (judges_of c (items_view schemas.now.first.now))
        (judge_at c (option_map (λ s. view s.now) schemas.now.others)) (view value.now)) }
    ensures keeps { let to = follow d.now.dialect (view d.now.whole.now) (P.reading d.now.patterns.now) in
        IsKnown to (view value.now) memo.new }
{
    let mut says = Verdict::Yes;
    let Some(items) = value.as_array() else {
        return Ok(says);
    };
    let mut first = schemas.first.iter();
    for (place, item) in items.iter().enumerate() {
        let next = first.next();
        let schema = or_else(next, schemas.others);
        says = both(says, part_at(d, left, memo, place, schema, item)?);
    }
    Ok(says)
}

/// `contains`, with `minContains` and `maxContains`.
#[cycle(judge)]
pub fn contains<P: Patterns>(
    d: &Document<'_, P>,
    left: u64,
    memo: &mut Memo,
    keywords: &Map<String, Value>,
    value: &Value,
    marks: &mut Vec<bool>,
) -> Result<Verdict, AllocError>
    requires { let to = follow d.now.dialect (view d.now.whole.now) (P.reading d.now.patterns.now) in
        IsKnown to (view value.now) memo.old }
    ensures verdict { let c = context d.now.dialect (view d.now.whole.now) (P.reading d.now.patterns.now) left in
        let raw : Raw = λ k. get_member k (members_view keywords.now.entries) in
        IfOk result (λ says. meant says
        ≡ contains_says d.now.dialect.reads_const d.now.dialect.reads_unevaluated (reads c raw (codes "contains"))
        (raw (codes "minContains")) (raw (codes "maxContains")) (view value.now)) }
    ensures judged { let c = context d.now.dialect (view d.now.whole.now) (P.reading d.now.patterns.now) left in
        let raw : Raw = λ k. get_member k (members_view keywords.now.entries) in
        OnOk result (marks.new.items ≡ marked
        (at_positions (judged_by_contains d.now.dialect.reads_prefix_items (reads c raw (codes "contains")) (view value.now)))
        (parts_of (view value.now)) marks.old.items) }
    ensures keeps { let to = follow d.now.dialect (view d.now.whole.now) (P.reading d.now.patterns.now) in
        IsKnown to (view value.now) memo.new }
{
    let asked = schema_at(member(keywords, "contains"));
    let Some(schema) = asked else {
        return Ok(Verdict::Yes);
    };
    let Some(items) = value.as_array() else {
        return Ok(Verdict::Yes);
    };
    let count = count_of_fitting(d, left, memo, schema, items, marks)?;
    let least = member(keywords, "minContains");
    let most = member(keywords, "maxContains");
    Ok(contained_says(d.dialect, least, most, count))
}

// How many items fit, unless the schema leaves one open. Those that fit are marked where a draft says so.
#[cycle(judge)]
fn count_of_fitting<P: Patterns>(
    d: &Document<'_, P>,
    left: u64,
    memo: &mut Memo,
    schema: &Value,
    items: &[Value],
    marks: &mut Vec<bool>,
) -> Result<Option<u64>, AllocError>
    requires { let to = follow d.now.dialect (view d.now.whole.now) (P.reading d.now.patterns.now) in
        IsKnown to (array (items_view items.now)) memo.old }
    ensures counted { let c = context d.now.dialect (view d.now.whole.now) (P.reading d.now.patterns.now) left in
        IfOk result (λ count. count ≡ count_of_fitting (judge c (view schema.now)) (items_view items.now)) }
    ensures judged { let c = context d.now.dialect (view d.now.whole.now) (P.reading d.now.patterns.now) left in
        OnOk result (marks.new.items ≡ marked
        (at_positions (fits_at d.now.dialect.reads_prefix_items (judge c (view schema.now)) (items_view items.now)))
        (positions_in 0 (items_view items.now)) marks.old.items) }
    ensures keeps { let to = follow d.now.dialect (view d.now.whole.now) (P.reading d.now.patterns.now) in
        IsKnown to (array (items_view items.now)) memo.new }
{
    let mut count = Some(0);
    for (place, item) in items.iter().enumerate() {
        let says = part_at(d, left, memo, place, Some(schema), item)?;
        mark_fitting(d.dialect.reads_prefix_items(), says, marks, place);
        count = one_more(says, count);
    }
    Ok(count)
}
