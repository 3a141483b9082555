//! Keywords that look at the keys of an object.
ghost use Rattle.std.specs.Prelude.{◌≡◌, Some, option_map};
ghost use Rattle.schemars_assertions.specs.Words.{get_member, view, items_view, members_view, where_some, each_member, min_properties_says, max_properties_says, have_all, required_says, dependent_required_says, all_of, meant, texts_of, by_keys};

use crate::dialect::Dialect;
use crate::members::member;
use crate::quantities::{is_at_least, is_at_most};
use crate::scalars::are_texts;
use crate::verdict::{Verdict, all_of, both, verdict_of};
use serde_json::{Map, Value};

/// What the keywords that look at the keys say.
pub fn by_keys(dialect: Dialect, keywords: &Map<String, Value>, value: &Value) -> Verdict
    ensures { meant result ≡ all_of (by_keys dialect
        (λ k. get_member k (members_view keywords.now.entries)) (view value.now)) }
{
    all_of(&[
        min_properties_says(member(keywords, "minProperties"), value),
        max_properties_says(member(keywords, "maxProperties"), value),
        required_says(member(keywords, "required"), value),
        dependent_required_says(
            dialect.reads_unevaluated(),
            member(keywords, "dependentRequired"),
            value,
        ),
    ])
}

#[tactic(auto, using(crate::proofs::Lists::members_counted))]
fn min_properties_says(least: Option<&Value>, value: &Value) -> Verdict
    ensures { meant result ≡ min_properties_says (option_map (λ v. view v.now) least.entry) (view value.now) }
{
    let Some(least) = least else {
        return Verdict::Yes;
    };
    match value.as_object() {
        Some(members) => match is_at_most(least, members.len() as u64) {
            Some(fits) => verdict_of(fits),
            None => Verdict::Yes,
        },
        None => Verdict::Yes,
    }
}

#[tactic(auto, using(crate::proofs::Lists::members_counted))]
fn max_properties_says(most: Option<&Value>, value: &Value) -> Verdict
    ensures { meant result ≡ max_properties_says (option_map (λ v. view v.now) most.entry) (view value.now) }
{
    let Some(most) = most else {
        return Verdict::Yes;
    };
    match value.as_object() {
        Some(members) => match is_at_least(most, members.len() as u64) {
            Some(fits) => verdict_of(fits),
            None => Verdict::Yes,
        },
        None => Verdict::Yes,
    }
}

// Whether the members have each of the texts as a key.
fn have_all(keys: &[Value], members: &Map<String, Value>) -> bool
    ensures { result ≡ have_all (texts_of (items_view keys.now)) (members_view members.now.entries) }
{
    for key in keys {
        if let Some(name) = key.as_str()
            && member(members, name).is_none()
        {
            return false;
        }
    }
    true
}

fn required_says(required: Option<&Value>, value: &Value) -> Verdict
    ensures { meant result ≡ required_says (option_map (λ v. view v.now) required.entry) (view value.now) }
{
    let Some(required) = required else {
        return Verdict::Yes;
    };
    match value.as_object() {
        Some(members) => match required.as_array() {
            Some(keys) if are_texts(keys) => verdict_of(have_all(keys, members)),
            _ => Verdict::Yes,
        },
        None => Verdict::Yes,
    }
}

/// The names that are required beside a member, under a keyword that only some drafts read.
pub fn dependent_required_says(reads: bool, dependent: Option<&Value>, value: &Value) -> Verdict
    ensures { meant result ≡ dependent_required_says reads (option_map (λ v. view v.now) dependent.entry)
        (view value.now) }
{
    let Some(dependent) = dependent else {
        return Verdict::Yes;
    };
    if !reads {
        return Verdict::Yes;
    }
    match value.as_object() {
        Some(members) => match dependent.as_object() {
            Some(lists) => each_required(lists, members, value),
            None => Verdict::Yes,
        },
        None => Verdict::Yes,
    }
}

// What is required beside each of the members.
fn each_required(lists: &Map<String, Value>, members: &Map<String, Value>, value: &Value) -> Verdict
    ensures { meant result ≡ each_member (λ k names. where_some (get_member k (members_view members.now.entries))
        (λ w. required_says (Some names) (view value.now))) (members_view lists.now.entries) }
{
    let mut says = Verdict::Yes;
    for (key, names) in lists.iter() {
        if member(members, key.as_str()).is_some() {
            says = both(says, required_says(Some(names), value));
        }
    }
    says
}
