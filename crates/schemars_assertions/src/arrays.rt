//! Keywords that judge lists.
ghost use Rattle.std.specs.Prelude.{◌≡◌, ◌<◌, option_map, nat_le, IfSome, if◌then◌else◌};
ghost use Rattle.schemars_assertions.specs.Words.{view, items_view, are_distinct, min_items_says, max_items_says, unique_items_says, or_one, is_up_to, contained_count, one_more, Yes, meant, is_contained, counted_says};

use crate::dialect::Dialect;
use crate::quantities::{is_at_least, is_at_most};
use crate::scalars::is_among;
use crate::verdict::{Verdict, verdict_of};
use serde_json::Value;

#[tactic(auto, using(crate::proofs::Lists::items_counted))]
pub fn min_items_says(least: Option<&Value>, value: &Value) -> Verdict
    ensures { meant result ≡ min_items_says (option_map (λ v. view v.now) least.entry) (view value.now) }
{
    let Some(least) = least else {
        return Verdict::Yes;
    };
    match value.as_array() {
        Some(items) => match is_at_most(least, items.len() as u64) {
            Some(fits) => verdict_of(fits),
            None => Verdict::Yes,
        },
        None => Verdict::Yes,
    }
}

#[tactic(auto, using(crate::proofs::Lists::items_counted))]
pub fn max_items_says(most: Option<&Value>, value: &Value) -> Verdict
    ensures { meant result ≡ max_items_says (option_map (λ v. view v.now) most.entry) (view value.now) }
{
    let Some(most) = most else {
        return Verdict::Yes;
    };
    match value.as_array() {
        Some(items) => match is_at_least(most, items.len() as u64) {
            Some(fits) => verdict_of(fits),
            None => Verdict::Yes,
        },
        None => Verdict::Yes,
    }
}

/// Whether no two of the items are equal.
pub fn are_distinct(items: &[Value]) -> bool
    ensures { result ≡ are_distinct (items_view items.now) }
{
    for (n, item) in items.iter().enumerate() {
        if is_among(&items[n + 1..], item) {
            return false;
        }
    }
    true
}

pub fn unique_items_says(unique: Option<&Value>, value: &Value) -> Verdict
    ensures { meant result ≡ unique_items_says (option_map (λ v. view v.now) unique.entry) (view value.now) }
{
    let Some(unique) = unique else {
        return Verdict::Yes;
    };
    match value.as_array() {
        Some(items) => match unique.as_bool() {
            Some(b) => verdict_of(!b || are_distinct(items)),
            None => Verdict::Yes,
        },
        None => Verdict::Yes,
    }
}

/// One more item, if it fits, is counted. If it is left open, there is no count.
pub fn one_more(says: Verdict, count: Option<u64>) -> Option<u64>
    requires { IfSome count (λ n. n < 18446744073709551615) }
    ensures { result ≡ one_more (meant says) count }
{
    match says {
        Verdict::Yes => match count {
            Some(n) => Some(n + 1),
            None => None,
        },
        Verdict::No => count,
        Verdict::Open => None,
    }
}

/// What `contains` says of so many items that fit.
pub fn contained_says(
    dialect: Dialect,
    least: Option<&Value>,
    most: Option<&Value>,
    count: Option<u64>,
) -> Verdict
    ensures { meant result ≡ (if dialect.reads_const then counted_says dialect.reads_unevaluated
        (option_map (λ v. view v.now) least.entry) (option_map (λ v. view v.now) most.entry) count else Yes) }
{
    if !dialect.reads_const() {
        return Verdict::Yes;
    }
    match count {
        Some(n) => verdict_of(is_contained(dialect.reads_unevaluated(), least, most, n)),
        None => Verdict::Open,
    }
}

// Whether so many items are as many as `minContains` and `maxContains` ask for.
fn is_contained(reads: bool, least: Option<&Value>, most: Option<&Value>, count: u64) -> bool
    ensures { result ≡ is_contained reads (option_map (λ v. view v.now) least.entry)
        (option_map (λ v. view v.now) most.entry) count }
{
    reaches(reads, least, count) && stays_within(reads, most, count)
}

fn reaches(reads: bool, least: Option<&Value>, count: u64) -> bool
    ensures { result ≡ nat_le (or_one (contained_count reads (option_map (λ v. view v.now) least.entry))) count }
{
    match least {
        Some(least) if reads => match is_at_most(least, count) {
            Some(fits) => fits,
            None => 1 <= count,
        },
        _ => 1 <= count,
    }
}

fn stays_within(reads: bool, most: Option<&Value>, count: u64) -> bool
    ensures { result ≡ is_up_to (contained_count reads (option_map (λ v. view v.now) most.entry)) count }
{
    match most {
        Some(most) if reads => match is_at_least(most, count) {
            Some(fits) => fits,
            None => true,
        },
        _ => true,
    }
}
