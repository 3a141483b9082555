//! The keyword for the parts that nothing else judges.
ghost use Rattle.std.specs.Prelude.{◌≡◌, IfOk};
ghost use Rattle.schemars_validate.specs.Words.{view, items_view, members_view, context, judge, meant, each_unmarked, each_unmarked_item, unmarked_by, array, object, follow, IsKnown};

use crate::judge::Document;
use crate::judge::parts::part_at;
use crate::marks::unless_marked;
use crate::memo::Memo;
use schemars_assertions::{Patterns, Verdict, both};
use serde_json::{Map, Value};
use std::alloc::AllocError;

/// A schema for the parts that are not marked.
#[cycle(judge)]
pub fn unevaluated<P: Patterns>(
    d: &Document<'_, P>,
    left: u64,
    memo: &mut Memo,
    schema: &Value,
    value: &Value,
    judged: &[bool],
) -> Result<Verdict, AllocError>
    requires { let to = follow d.now.dialect (view d.now.whole.now) (P.reading d.now.patterns.now) in
        IsKnown to (view value.now) memo.old }
    ensures verdict { let c = context d.now.dialect (view d.now.whole.now) (P.reading d.now.patterns.now) left in
        IfOk result (λ says. meant says
        ≡ unmarked_by (judge c (view schema.now)) (view value.now) judged.now) }
    ensures keeps { let to = follow d.now.dialect (view d.now.whole.now) (P.reading d.now.patterns.now) in
        IsKnown to (view value.now) memo.new }
{
    match value {
        Value::Array(items) => unevaluated_items(d, left, memo, schema, items, judged),
        Value::Object(members) => unevaluated_members(d, left, memo, schema, members, judged),
        _ => Ok(Verdict::Yes),
    }
}

#[cycle(judge)]
fn unevaluated_items<P: Patterns>(
    d: &Document<'_, P>,
    left: u64,
    memo: &mut Memo,
    schema: &Value,
    items: &[Value],
    judged: &[bool],
) -> Result<Verdict, AllocError>
    requires { let to = follow d.now.dialect (view d.now.whole.now) (P.reading d.now.patterns.now) in
        IsKnown to (array (items_view items.now)) memo.old }
    ensures verdict { let c = context d.now.dialect (view d.now.whole.now) (P.reading d.now.patterns.now) left in
        IfOk result (λ says. meant says
        ≡ each_unmarked_item (judge c (view schema.now)) (items_view items.now) judged.now) }
    ensures keeps { let to = follow d.now.dialect (view d.now.whole.now) (P.reading d.now.patterns.now) in
        IsKnown to (array (items_view items.now)) memo.new }
{
    let mut says = Verdict::Yes;
    let mut marks = judged.iter();
    for (place, item) in items.iter().enumerate() {
        let mark = marks.next();
        let asked = unless_marked(mark, schema);
        says = both(says, part_at(d, left, memo, place, asked, item)?);
    }
    Ok(says)
}

#[cycle(judge)]
fn unevaluated_members<P: Patterns>(
    d: &Document<'_, P>,
    left: u64,
    memo: &mut Memo,
    schema: &Value,
    members: &Map<String, Value>,
    judged: &[bool],
) -> Result<Verdict, AllocError>
    requires { let to = follow d.now.dialect (view d.now.whole.now) (P.reading d.now.patterns.now) in
        IsKnown to (object (members_view members.now.entries)) memo.old }
    ensures verdict { let c = context d.now.dialect (view d.now.whole.now) (P.reading d.now.patterns.now) left in
        IfOk result (λ says. meant says
        ≡ each_unmarked (judge c (view schema.now)) (members_view members.now.entries) judged.now) }
    ensures keeps { let to = follow d.now.dialect (view d.now.whole.now) (P.reading d.now.patterns.now) in
        IsKnown to (object (members_view members.now.entries)) memo.new }
{
    let mut says = Verdict::Yes;
    let mut marks = judged.iter();
    for (place, (_, member)) in members.iter().enumerate() {
        let mark = marks.next();
        let asked = unless_marked(mark, schema);
        says = both(says, part_at(d, left, memo, place, asked, member)?);
    }
    Ok(says)
}
