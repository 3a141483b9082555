//! What schemas say of a part of a value, with what is known of it.
ghost use Rattle.std.specs.Prelude.{◌≡◌, IfOk, option_map};
ghost use Rattle.schemars_validate.specs.Words.{view, members_view, where_some, context, follow, meant, judge_at, named_judges_in, member_by, IsKnownAt, KeepsAround};

use crate::found::MemberSchemas;
use crate::judge::Document;
use crate::judge::objects::one_member;
use crate::judge::one::alone;
use crate::memo::Memo;
use schemars_assertions::{Patterns, Verdict};
use serde_json::Value;
use std::alloc::AllocError;

/// What a schema says of the part at a place. No schema says nothing.
#[cycle(judge)]
pub fn part_at<P: Patterns>(
    d: &Document<'_, P>,
    left: u64,
    memo: &mut Memo,
    place: usize,
    schema: Option<&Value>,
    part: &Value,
) -> Result<Verdict, AllocError>
    requires { let to = follow d.now.dialect (view d.now.whole.now) (P.reading d.now.patterns.now) in
        IsKnownAt to place (view part.now) memo.old }
    ensures verdict { let c = context d.now.dialect (view d.now.whole.now) (P.reading d.now.patterns.now) left in
        IfOk result (λ says. meant says
        ≡ where_some (judge_at c (option_map (λ s. view s.now) schema.entry)) (λ s. s.fits (view part.now))) }
    ensures keeps { let to = follow d.now.dialect (view d.now.whole.now) (P.reading d.now.patterns.now) in
        KeepsAround to place (view part.now) memo.old memo.new }
{
    let mut known = memo.take(d.alloc, place);
    let says = alone(d, left, &mut known, schema, part)?;
    memo.put(d.alloc, place, known)?;
    Ok(says)
}

/// What the schemas of an object's members say of the member at a place.
#[cycle(judge)]
pub fn member_at<P: Patterns>(
    d: &Document<'_, P>,
    left: u64,
    memo: &mut Memo,
    place: usize,
    schemas: &MemberSchemas<'_>,
    key: &str,
    member: &Value,
) -> Result<Verdict, AllocError>
    requires { let to = follow d.now.dialect (view d.now.whole.now) (P.reading d.now.patterns.now) in
        IsKnownAt to place (view member.now) memo.old }
    ensures verdict { let c = context d.now.dialect (view d.now.whole.now) (P.reading d.now.patterns.now) left in
        IfOk result (λ says. meant says
        ≡ member_by (P.reading d.now.patterns.now)
        (named_judges_in c (option_map (λ s. members_view s.now.entries) schemas.now.named))
        (named_judges_in c (option_map (λ s. members_view s.now.entries) schemas.now.by_pattern))
        (judge_at c (option_map (λ s. view s.now) schemas.now.others)) key.now (view member.now)) }
    ensures keeps { let to = follow d.now.dialect (view d.now.whole.now) (P.reading d.now.patterns.now) in
        KeepsAround to place (view member.now) memo.old memo.new }
{
    let mut known = memo.take(d.alloc, place);
    let says = one_member(d, left, &mut known, schemas, key, member)?;
    memo.put(d.alloc, place, known)?;
    Ok(says)
}
