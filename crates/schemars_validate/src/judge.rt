//! What a schema says of a value, and which of the value's parts it has judged, in one pass.
ghost use Rattle.std.specs.Prelude.{◌≡◌, IfOk, OnOk};
ghost use Rattle.schemars_validate.specs.Words.{object, view, members_view, context, judge, meant, marked, parts_of, follow, IsKnown};

mod keywords;
mod lists;
mod objects;
mod one;
mod parts;
mod rest;
mod several;

use crate::found::{refers_alone, schema_of_rest};
use crate::judge::keywords::beside;
use crate::judge::one::reference;
use crate::judge::rest::unevaluated;
use crate::marks::{mark_all, unmarked};
use crate::memo::Memo;
use schemars_assertions::{Dialect, Patterns, Verdict, both, verdict_of};
use serde_json::{Map, Value};
use std::alloc::{AllocError, Global};

/// What all schemas of a document share.
#[derive(Drop)]
pub struct Document<'d, P> {
    pub alloc: Global,
    pub dialect: Dialect,
    pub whole: &'d Value,
    pub patterns: &'d P,
}

/// What a schema of a document says of a value, with at most `left` references within one another
/// followed, and a mark for each part that it judges.
#[cycle(judge)]
pub fn judge<P: Patterns>(
    d: &Document<'_, P>,
    left: u64,
    memo: &mut Memo,
    schema: &Value,
    value: &Value,
    marks: &mut Vec<bool>,
) -> Result<Verdict, AllocError>
    requires { let to = follow d.now.dialect (view d.now.whole.now) (P.reading d.now.patterns.now) in
        IsKnown to (view value.now) memo.old }
    ensures verdict { let c = context d.now.dialect (view d.now.whole.now) (P.reading d.now.patterns.now) left in
        IfOk result (λ says. meant says ≡ (judge c (view schema.now)).fits (view value.now)) }
    ensures judged { let c = context d.now.dialect (view d.now.whole.now) (P.reading d.now.patterns.now) left in
        OnOk result (marks.new.items
        ≡ marked ((judge c (view schema.now)).judges (view value.now)) (parts_of (view value.now)) marks.old.items) }
    ensures keeps { let to = follow d.now.dialect (view d.now.whole.now) (P.reading d.now.patterns.now) in
        IsKnown to (view value.now) memo.new }
{
    match schema.as_object() {
        Some(keywords) => object(d, left, memo, keywords, value, marks),
        None => Ok(verdict_of(schema.as_bool().unwrap_or(false))),
    }
}

#[cycle(judge)]
fn object<P: Patterns>(
    d: &Document<'_, P>,
    left: u64,
    memo: &mut Memo,
    keywords: &Map<String, Value>,
    value: &Value,
    marks: &mut Vec<bool>,
) -> Result<Verdict, AllocError>
    requires { let to = follow d.now.dialect (view d.now.whole.now) (P.reading d.now.patterns.now) in
        IsKnown to (view value.now) memo.old }
    ensures verdict { let c = context d.now.dialect (view d.now.whole.now) (P.reading d.now.patterns.now) left in
        IfOk result (λ says. meant says
        ≡ (judge c (object (members_view keywords.now.entries))).fits (view value.now)) }
    ensures judged { let c = context d.now.dialect (view d.now.whole.now) (P.reading d.now.patterns.now) left in
        OnOk result (marks.new.items
        ≡ marked ((judge c (object (members_view keywords.now.entries))).judges (view value.now))
        (parts_of (view value.now)) marks.old.items) }
    ensures keeps { let to = follow d.now.dialect (view d.now.whole.now) (P.reading d.now.patterns.now) in
        IsKnown to (view value.now) memo.new }
{
    if refers_alone(d.dialect, keywords) {
        return reference(d, left, memo, keywords, value, marks);
    }
    match schema_of_rest(d.dialect, keywords, value) {
        Some(schema) => {
            let mut judged = unmarked(d.alloc, value)?;
            let says = beside(d, left, memo, keywords, value, &mut judged)?;
            let rest = unevaluated(d, left, memo, schema, value, &judged)?;
            mark_all(value, marks);
            Ok(both(says, rest))
        }
        None => beside(d, left, memo, keywords, value, marks),
    }
}
