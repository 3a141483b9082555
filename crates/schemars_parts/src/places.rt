//! The members of a schema that have a fixed place in its text.
ghost use Rattle.std.specs.Prelude.{◌≡◌, ◌++◌, map, option_map};
ghost use Rattle.schemars_parts.specs.Words.{get_member, first_keywords, last_keywords, assembled_view, members_assembled};

use crate::assembled::Assembled;
use schemars_text::places::place_of;

// Finds the members of `FIRST_KEYWORDS` and then of `LAST_KEYWORDS`, in one pass.
#[inline(never)]
pub(crate) fn find_fixed<'v, 't>(
    members: &'v Vec<(&'t str, Assembled<'t>)>,
    found: &mut [Option<&'v Assembled<'t>>; 9],
)
    ensures { map (λ s. option_map (λ v. assembled_view v.now) s) found.new
        ≡ map (λ k. get_member k (members_assembled members.now.items))
        (first_keywords ++ last_keywords) }
{
    *found = [None; 9];
    for (key, part) in members {
        if let Some(place) = place_of(key) {
            found[place] = found[place].or(Some(part));
        }
    }
}
