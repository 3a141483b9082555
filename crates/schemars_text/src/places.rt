//! The members of a schema that have a fixed place in its text.
ghost use Rattle.std.specs.Prelude.{◌≡◌, ◌++◌, ◌||◌, map, option_map, Some, None, if◌then◌else◌};
ghost use Rattle.schemars_text.specs.Words.{get_member, view, members_view, first_keywords, last_keywords, is_listed, place_in};

use serde_json::{Map, Value};

/// The keywords that come first in the text of a schema, in this order.
pub const FIRST_KEYWORDS: [&str; 7] = [
    "$id",
    "$schema",
    "title",
    "description",
    "type",
    "format",
    "properties",
];

/// The keywords that come last in the text of a schema, in this order.
pub const LAST_KEYWORDS: [&str; 2] = ["$defs", "definitions"];

// Finds the members of `FIRST_KEYWORDS` and then of `LAST_KEYWORDS`, in one pass.
#[inline(never)]
pub(crate) fn find_fixed<'v>(members: &'v Map<String, Value>, found: &mut [Option<&'v Value>; 9])
    ensures { map (λ s. option_map (λ v. view v.now) s) found.new
        ≡ map (λ k. get_member k (members_view members.now.entries))
        (first_keywords ++ last_keywords) }
{
    *found = [None; 9];
    for (key, value) in members.iter() {
        if let Some(place) = place_of(key.as_str()) {
            found[place] = found[place].or(Some(value));
        }
    }
}

/// Returns whether a keyword has a fixed place in the text of a schema.
#[tactic(auto, using(crate::proofs::FixedMembers::has_place))]
pub fn has_fixed_place(key: &str) -> bool
    ensures { result ≡ is_listed key.now first_keywords || is_listed key.now last_keywords }
{
    place_of(key).is_some()
}

/// Returns the place of a keyword in `FIRST_KEYWORDS` followed by `LAST_KEYWORDS`.
pub fn place_of(key: &str) -> Option<usize>
    ensures { result ≡ place_in key.now (first_keywords ++ last_keywords) }
{
    match key.len() {
        3 => place_if(key == "$id", 0),
        4 => place_if(key == "type", 4),
        5 if key == "title" => Some(2),
        5 => place_if(key == "$defs", 7),
        6 => place_if(key == "format", 5),
        7 => place_if(key == "$schema", 1),
        10 => place_if(key == "properties", 6),
        11 if key == "description" => Some(3),
        11 => place_if(key == "definitions", 8),
        _ => None,
    }
}

fn place_if(is_there: bool, place: usize) -> Option<usize>
    ensures { result ≡ if is_there then Some place else None }
{
    if is_there { Some(place) } else { None }
}
