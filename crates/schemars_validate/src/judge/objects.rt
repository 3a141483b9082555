//! Keywords for the keys and the members of an object.
ghost use Rattle.std.specs.Prelude.{◌≡◌, IfOk, option_map};
ghost use Rattle.schemars_validate.specs.Words.{view, members_view, by_patterns, matches_some, context, meant, judge_at, named_judges_in, members_by, member_by, names_by, follow, IsKnown};

use crate::found::{Matched, MemberSchemas, others_for, schema_named, text};
use crate::judge::Document;
use crate::judge::one::alone;
use crate::judge::parts::member_at;
use crate::memo::Memo;
use schemars_assertions::{Patterns, Verdict, both};
use serde_json::{Map, Value};
use std::alloc::AllocError;

/// A schema for each key, as a text.
#[cycle(judge)]
pub fn names<P: Patterns>(
    d: &Document<'_, P>,
    left: u64,
    of_names: Option<&Value>,
    value: &Value,
) -> Result<Verdict, AllocError>
    ensures { let c = context d.now.dialect (view d.now.whole.now) (P.reading d.now.patterns.now) left in
        IfOk result (λ says. meant says
        ≡ names_by (judge_at c (option_map (λ s. view s.now) of_names.entry)) (view value.now)) }
{
    let mut says = Verdict::Yes;
    let Some(schema) = of_names else {
        return Ok(says);
    };
    let Some(members) = value.as_object() else {
        return Ok(says);
    };
    for (key, _) in members.iter() {
        let name = text(d.alloc, key.as_str())?;
        let mut memo = Memo::new(d.alloc);
        says = both(says, alone(d, left, &mut memo, Some(schema), &name)?);
    }
    Ok(says)
}

/// `properties`, `patternProperties` and `additionalProperties`.
#[cycle(judge)]
pub fn members<P: Patterns>(
    d: &Document<'_, P>,
    left: u64,
    memo: &mut Memo,
    schemas: &MemberSchemas<'_>,
    value: &Value,
) -> Result<Verdict, AllocError>
    requires { let to = follow d.now.dialect (view d.now.whole.now) (P.reading d.now.patterns.now) in
        IsKnown to (view value.now) memo.old }
    ensures verdict { let c = context d.now.dialect (view d.now.whole.now) (P.reading d.now.patterns.now) left in
        IfOk result (λ says. meant says
        ≡ members_by (P.reading d.now.patterns.now)
        (named_judges_in c (option_map (λ s. members_view s.now.entries) schemas.now.named))
        (named_judges_in c (option_map (λ s. members_view s.now.entries) schemas.now.by_pattern))
        (judge_at c (option_map (λ s. view s.now) schemas.now.others)) (view value.now)) }
    ensures keeps { let to = follow d.now.dialect (view d.now.whole.now) (P.reading d.now.patterns.now) in
        IsKnown to (view value.now) memo.new }
{
    let mut says = Verdict::Yes;
    let Some(members) = value.as_object() else {
        return Ok(says);
    };
    for (place, (key, member)) in members.iter().enumerate() {
        says = both(
            says,
            member_at(d, left, memo, place, schemas, key.as_str(), member)?,
        );
    }
    Ok(says)
}

/// The schema of its name, those of the patterns that it matches, and else that of all others.
#[cycle(judge)]
pub fn one_member<P: Patterns>(
    d: &Document<'_, P>,
    left: u64,
    memo: &mut Memo,
    schemas: &MemberSchemas<'_>,
    key: &str,
    member: &Value,
) -> Result<Verdict, AllocError>
    requires { let to = follow d.now.dialect (view d.now.whole.now) (P.reading d.now.patterns.now) in
        IsKnown to (view member.now) memo.old }
    ensures verdict { let c = context d.now.dialect (view d.now.whole.now) (P.reading d.now.patterns.now) left in
        IfOk result (λ says. meant says
        ≡ member_by (P.reading d.now.patterns.now)
        (named_judges_in c (option_map (λ s. members_view s.now.entries) schemas.now.named))
        (named_judges_in c (option_map (λ s. members_view s.now.entries) schemas.now.by_pattern))
        (judge_at c (option_map (λ s. view s.now) schemas.now.others)) key.now (view member.now)) }
    ensures keeps { let to = follow d.now.dialect (view d.now.whole.now) (P.reading d.now.patterns.now) in
        IsKnown to (view member.now) memo.new }
{
    let named = schema_named(schemas.named, key);
    let says = alone(d, left, memo, named, member)?;
    let matched = matching(d, left, memo, schemas.by_pattern, key, member)?;
    let rest = others_for(named, matched.some, schemas.others);
    let others = alone(d, left, memo, rest, member)?;
    Ok(both(says, both(matched.says, others)))
}

// The schemas whose pattern the key matches.
#[cycle(judge)]
fn matching<P: Patterns>(
    d: &Document<'_, P>,
    left: u64,
    memo: &mut Memo,
    by_pattern: Option<&Map<String, Value>>,
    key: &str,
    member: &Value,
) -> Result<Matched, AllocError>
    requires { let to = follow d.now.dialect (view d.now.whole.now) (P.reading d.now.patterns.now) in
        IsKnown to (view member.now) memo.old }
    ensures says { let c = context d.now.dialect (view d.now.whole.now) (P.reading d.now.patterns.now) left in
        IfOk result (λ matched. meant matched.says
        ≡ by_patterns (P.reading d.now.patterns.now)
        (named_judges_in c (option_map (λ s. members_view s.now.entries) by_pattern.entry)) key.now (view member.now)) }
    ensures some { let c = context d.now.dialect (view d.now.whole.now) (P.reading d.now.patterns.now) left in
        IfOk result (λ matched. matched.some
        ≡ matches_some (P.reading d.now.patterns.now)
        (named_judges_in c (option_map (λ s. members_view s.now.entries) by_pattern.entry)) key.now) }
    ensures keeps { let to = follow d.now.dialect (view d.now.whole.now) (P.reading d.now.patterns.now) in
        IsKnown to (view member.now) memo.new }
{
    let mut says = Verdict::Yes;
    let mut some = false;
    let Some(schemas) = by_pattern else {
        return Ok(Matched { says, some });
    };
    for (pattern, schema) in schemas.iter() {
        if d.patterns.matches(pattern.as_str(), key) {
            says = both(says, alone(d, left, memo, Some(schema), member)?);
            some = true;
        }
    }
    Ok(Matched { says, some })
}
