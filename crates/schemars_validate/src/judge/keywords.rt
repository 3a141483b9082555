//! All keywords of a schema but those for what is left.
ghost use Rattle.std.specs.Prelude.{◌≡◌, IfOk, OnOk};
ghost use Rattle.schemars_validate.specs.Words.{get_member, view, members_view, all_of, Raw, judged_itself, judged_beside, context, meant, marked, parts_of, besides, inside, reads, follow, IsKnown};

use crate::found::{
    item_schemas, member_schemas, schema_at, schema_where_read, schemas_in, schemas_where_read,
};
use crate::joined::Join;
use crate::judge::Document;
use crate::judge::lists::{contains, items};
use crate::judge::objects::{members, names};
use crate::judge::one::{alone, reference};
use crate::judge::several::{condition, dependencies, dependents, each};
use crate::marks::{mark_items, mark_members};
use crate::memo::Memo;
use schemars_assertions::{
    Patterns, Verdict, all_of, by_itself, by_keys, member, opposite, unless_missing,
};
use serde_json::{Map, Value};
use std::alloc::AllocError;

/// All keywords but those for what is left.
#[cycle(judge)]
pub fn beside<P: Patterns>(
    d: &Document<'_, P>,
    left: u64,
    memo: &mut Memo,
    keywords: &Map<String, Value>,
    value: &Value,
    marks: &mut Vec<bool>,
) -> Result<Verdict, AllocError>
    requires { let to = follow d.now.dialect (view d.now.whole.now) (P.reading d.now.patterns.now) in
        IsKnown to (view value.now) memo.old }
    ensures verdict { let c = context d.now.dialect (view d.now.whole.now) (P.reading d.now.patterns.now) left in
        IfOk result (λ says. meant says
        ≡ all_of (besides c (λ k. get_member k (members_view keywords.now.entries)) (view value.now))) }
    ensures judged { let c = context d.now.dialect (view d.now.whole.now) (P.reading d.now.patterns.now) left in
        let raw : Raw = λ k. get_member k (members_view keywords.now.entries) in
        OnOk result (marks.new.items
        ≡ marked (judged_beside c raw (reads c raw) (view value.now)) (parts_of (view value.now)) marks.old.items) }
    ensures keeps { let to = follow d.now.dialect (view d.now.whole.now) (P.reading d.now.patterns.now) in
        IsKnown to (view value.now) memo.new }
{
    let itself = by_itself(d.dialect, d.patterns, keywords, value);
    let inside = inside(d, left, memo, keywords, value, marks)?;
    let all = each(
        d,
        left,
        memo,
        Join::All,
        schemas_in(member(keywords, "allOf")),
        value,
        marks,
    )?;
    let any = each(
        d,
        left,
        memo,
        Join::Any,
        schemas_in(member(keywords, "anyOf")),
        value,
        marks,
    )?;
    let one = each(
        d,
        left,
        memo,
        Join::One,
        schemas_in(member(keywords, "oneOf")),
        value,
        marks,
    )?;
    let chosen = condition(d, left, memo, keywords, value, marks)?;
    let named = schemas_where_read(
        d.dialect.reads_unevaluated(),
        member(keywords, "dependentSchemas"),
    );
    let dependent = dependents(d, left, memo, named, value, marks)?;
    let reference = reference(d, left, memo, keywords, value, marks)?;
    let dependencies = dependencies(d, left, memo, keywords, value)?;
    let denied = schema_at(member(keywords, "not"));
    let fits_denied = alone(d, left, memo, denied, value)?;
    let not = unless_missing(denied, opposite(fits_denied));
    Ok(all_of(&[
        reference,
        itself,
        inside,
        all,
        any,
        one,
        not,
        chosen,
        dependent,
        dependencies,
    ]))
}

// The keywords for items, for members and for keys.
#[cycle(judge)]
fn inside<P: Patterns>(
    d: &Document<'_, P>,
    left: u64,
    memo: &mut Memo,
    keywords: &Map<String, Value>,
    value: &Value,
    marks: &mut Vec<bool>,
) -> Result<Verdict, AllocError>
    requires { let to = follow d.now.dialect (view d.now.whole.now) (P.reading d.now.patterns.now) in
        IsKnown to (view value.now) memo.old }
    ensures verdict { let c = context d.now.dialect (view d.now.whole.now) (P.reading d.now.patterns.now) left in
        IfOk result (λ says. meant says
        ≡ all_of (inside c (λ k. get_member k (members_view keywords.now.entries)) (view value.now))) }
    ensures judged { let c = context d.now.dialect (view d.now.whole.now) (P.reading d.now.patterns.now) left in
        let raw : Raw = λ k. get_member k (members_view keywords.now.entries) in
        OnOk result (marks.new.items
        ≡ marked (judged_itself c (reads c raw) (view value.now)) (parts_of (view value.now)) marks.old.items) }
    ensures keeps { let to = follow d.now.dialect (view d.now.whole.now) (P.reading d.now.patterns.now) in
        IsKnown to (view value.now) memo.new }
{
    let of_items = item_schemas(d.dialect, keywords);
    let items = items(d, left, memo, &of_items, value)?;
    mark_items(&of_items, value, marks);
    let contains = contains(d, left, memo, keywords, value, marks)?;
    let keys = by_keys(d.dialect, keywords, value);
    let of_names = schema_where_read(d.dialect.reads_const(), member(keywords, "propertyNames"));
    let names = names(d, left, of_names, value)?;
    let of_members = member_schemas(keywords);
    let members = members(d, left, memo, &of_members, value)?;
    mark_members(d.patterns, &of_members, value, marks);
    Ok(all_of(&[items, contains, keys, names, members]))
}
