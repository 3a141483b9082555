//! The members of objects.
ghost use Rattle.std.specs.Prelude.{◌≡◌, option_map, map, true, false};
ghost use Rattle.schemagen_json.specs.Words.{get_member, is_listed, data_of, members_data, has_only, lone_in};

use crate::borrowed_value::BorrowedValue;
use schemars_schema::edits::is_listed;

impl BorrowedValue<'_> {
    /// Whether this is an object whose members all have one of these names.
    pub fn has_only(&self, names: &[&str]) -> bool
        ensures { result ≡ has_only (map (λ n. n.now) names.now) (data_of self.now) }
    {
        let Some(members) = self.as_object() else {
            return false;
        };
        for (name, _) in members {
            if !is_listed(name, names) {
                return false;
            }
        }
        true
    }
}

/// The name that all of these members have, and the value of the last one: none where there are no
/// members, or two names.
pub fn lone_member<'v, 'a>(
    members: &'v Vec<(&'a str, BorrowedValue<'a>)>,
) -> Option<(&'a str, &'v BorrowedValue<'a>)>
    ensures { option_map (λ m. (m.0.now, data_of m.1.now)) result
        ≡ lone_in (members_data members.now.items) }
{
    if members.is_empty() {
        return None;
    }
    let (name, last) = &members[members.len() - 1];
    for (other, _) in members {
        if other != name {
            return None;
        }
    }
    Some((*name, last))
}

/// The last member of this name.
pub(super) fn last_member<'v, 'a>(
    members: &'v [(&'a str, BorrowedValue<'a>)],
    name: &str,
) -> Option<&'v BorrowedValue<'a>>
    ensures { option_map (λ v. data_of v.now) result
        ≡ get_member name.now (members_data members.now) }
{
    let mut left = members.len();
    while left > 0 {
        left -= 1;
        let member = &members[left];
        if member.0 == name {
            return Some(&member.1);
        }
    }
    None
}
