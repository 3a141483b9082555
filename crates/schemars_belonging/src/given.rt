//! The members that a map may have.
ghost use Rattle.std.specs.Prelude.{◌≡◌, ◌&&◌, bytes_eq, map, option_map, is_some, IfOk};
ghost use Rattle.schemars_belonging.specs.Words.{object, get_member, holds, is_text, view, members_view, without, given_of, given_named, has_each_given, tag_given, needed, allows};

use schemars_assertions::member;
use schemars_literals::is_text;
use schemars_schema::edits::is_listed;
use schemars_types::TypeNo;
use serde_json::{Map, Value};
use std::alloc::AllocError;

/// Which values a member may have.
#[derive(Clone, Copy)]
pub enum Values<'t> {
    /// those of this row
    Row(TypeNo),
    /// this text
    Text(&'t str),
}

/// A member of a map.
#[derive(Clone, Copy)]
pub struct Given<'t> {
    pub name: &'t str,
    pub required: bool,
    pub values: Values<'t>,
}

/// The member that has the name of a variant.
pub fn tag_given<'t>(tag: &'t str, name: &'t str) -> Given<'t>
    ensures { given_of result ≡ tag_given tag.now name.now }
{
    Given {
        name: tag,
        required: true,
        values: Values::Text(name),
    }
}

/// A member that has to be there, with a value of this row.
pub fn needed(name: &str, row: TypeNo) -> Given<'_>
    ensures { given_of result ≡ needed name.now row }
{
    Given {
        name,
        required: true,
        values: Values::Row(row),
    }
}

/// The first member of this name.
pub fn given_named<'g, 't>(list: &'g [Given<'t>], key: &str) -> Option<&'g Given<'t>>
    ensures { option_map (λ g. given_of g.now) result ≡ given_named (map given_of list.now) key.now }
{
    for given in list {
        if given.name == key {
            return Some(given);
        }
    }
    None
}

/// Whether a member may have a key that is not given.
pub fn is_allowed(closed: bool, claimed: &[&str], key: &str) -> bool
    ensures { result ≡ allows closed (map (λ k. k.now) claimed.now) key.now }
{
    is_listed(key, claimed) || !closed
}

/// Whether two texts are the same.
pub fn is_same(a: &str, b: &str) -> bool
    ensures { result ≡ bytes_eq a.now b.now }
{
    a == b
}

/// Whether each member is there that has to be.
pub fn has_each(list: &[Given<'_>], members: &Map<String, Value>) -> bool
    ensures { result ≡ has_each_given (map given_of list.now) (members_view members.now.entries) }
{
    for given in list {
        if given.required && !is_there(members, given.name) {
            return false;
        }
    }
    true
}

/// The same, with one more member that has to be there.
pub fn has_each_with(list: &[Given<'_>], members: &Map<String, Value>, name: &str) -> bool
    ensures { result ≡ (has_each_given (map given_of list.now) (members_view members.now.entries)
        && is_some (get_member name.now (members_view members.now.entries))) }
{
    has_each(list, members) && is_there(members, name)
}

// Whether a map has a key.
fn is_there(members: &Map<String, Value>, key: &str) -> bool
    ensures { result ≡ is_some (get_member key.now (members_view members.now.entries)) }
{
    member(members, key).is_some()
}

/// Whether a map has a text under a key.
pub fn has_tag(members: &Map<String, Value>, tag: &str, name: &str) -> bool
    ensures { result ≡ holds (get_member tag.now (members_view members.now.entries)) (is_text name.now) }
{
    match member(members, tag) {
        Some(value) => is_text(name, value),
        None => false,
    }
}

/// The map without the member at a key.
pub fn without(members: &Map<String, Value>, key: &str) -> Result<Value, AllocError>
    ensures { IfOk result (λ v. view v ≡ object (without key.now (members_view members.now.entries))) }
{
    let mut rest = members.clone()?;
    remove(&mut rest, key);
    Ok(Value::Object(rest))
}

fn remove(members: &mut Map<String, Value>, key: &str)
    ensures { members_view members.new.entries ≡ without key.now (members_view members.old.entries) }
{
    let _removed = members.remove(key);
}
