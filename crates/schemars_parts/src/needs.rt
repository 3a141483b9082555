//! What a schema in parts has that the built-in transforms change, found by one walk.
ghost use Rattle.std.specs.Prelude.{◌≡◌, true, is_some};
ghost use Rattle.schemars_parts.specs.Words.{IsScalar, member, no_members, as_bool, place_meant, place_asked, is_changed, needed, needed_at, needs_of, needed_by_items, needed_by_names, needed_by_keywords, has_null, assembled_view, items_assembled, members_assembled};

use crate::assembled::Assembled;
use crate::texts::holds_text;
use schemars_transform::{Keyword, Needs};
use schemars_walk::rewrite::place::{Place, place_under};
use serde_json::Value;

/// What the schema has, or a schema inside it, that built-in transforms change.
pub fn needs_of(schema: &Assembled<'_>) -> Needs
    ensures { result ≡ needs_of (assembled_view schema.now) }
{
    let mut needs = Needs::none();
    add_schema(schema, &mut needs);
    needs
}

// Adds what a part needs as a schema. A reference has no keyword beside its own, and needs nothing.
#[cycle(needs)]
#[tactic(auto, unfolding(schemars_transform::specs::Needs::needed))]
fn add_schema(part: &Assembled<'_>, needs: &mut Needs)
    ensures { needs.new ≡ (needed (assembled_view part.now) needs.old).as_schema }
{
    match part {
        Assembled::Value(value) => needs.add_schema(value),
        Assembled::Bool(accepts) => needs.add_schema(&Value::Bool(*accepts)),
        Assembled::Object(members) => add_keywords(members.len() == 1, members, needs),
        Assembled::Null
        | Assembled::Integer(_)
        | Assembled::Text(_)
        | Assembled::Reference(_)
        | Assembled::List(_) => {}
    }
}

#[cycle(needs)]
#[tactic(auto, using(schemars_transform::proofs::Asking::keyword_done, schemars_transform::proofs::Asking::nothing_left))]
fn add_keywords<'t>(alone: bool, members: &Vec<(&'t str, Assembled<'t>)>, needs: &mut Needs)
    ensures { needs.new
        ≡ needed_by_keywords alone (members_assembled members.now.items) needs.old }
{
    for (key, part) in members {
        add_keyword(alone, key, part, needs);
    }
}

// Adds what a keyword needs, and the schemas in its value.
#[cycle(needs)]
#[tactic(auto, unfolding(schemars_transform::specs::Needs::needed_by_keywords))]
fn add_keyword(alone: bool, key: &str, part: &Assembled<'_>, needs: &mut Needs)
    ensures { needs.new ≡ needed_by_keywords alone
        (member key.now (assembled_view part.now) no_members) needs.old }
{
    let keyword = Keyword::named(key);
    needs.note(keyword, is_changed(keyword, alone, part));
    if !is_scalar(part) {
        add_at(place_asked(key, part), part, needs);
    }
}

// Whether a part is null, a number or a text.
pub(crate) fn is_scalar(part: &Assembled<'_>) -> bool
    ensures { result ≡ true → IsScalar (assembled_view part.now) }
{
    matches!(
        part,
        Assembled::Null | Assembled::Integer(_) | Assembled::Text(_)
    )
}

// Whether a transform changes this value of the keyword, which is alone in its object or not.
fn is_changed(keyword: Keyword, alone: bool, part: &Assembled<'_>) -> bool
    ensures { result ≡ is_changed keyword alone (assembled_view part.now) }
{
    match keyword {
        Keyword::Other => false,
        Keyword::Additional => is_truth_value(part),
        Keyword::Reference => !alone,
        Keyword::Examples | Keyword::Const | Keyword::PrefixItems | Keyword::Unevaluated => true,
        Keyword::Types => has_null(part),
    }
}

fn is_truth_value(part: &Assembled<'_>) -> bool
    ensures { result ≡ is_some (as_bool (assembled_view part.now)) }
{
    match part {
        Assembled::Bool(_) => true,
        Assembled::Value(value) => value.is_boolean(),
        _ => false,
    }
}

// Whether a `type` holds null.
pub(crate) fn has_null(types: &Assembled<'_>) -> bool
    ensures { result ≡ has_null (assembled_view types.now) }
{
    match types {
        Assembled::Value(value) => Keyword::Types.is_changed(false, value),
        Assembled::Text(name) => *name == "null",
        Assembled::List(names) => holds_text(names, "null"),
        _ => false,
    }
}

// Where the schemas are that may need something. A truth value under `additionalProperties` is
// noted with its keyword.
pub(crate) fn place_asked(key: &str, part: &Assembled<'_>) -> Place
    ensures { place_meant result ≡ place_asked key.now (assembled_view part.now) }
{
    if key == "additionalProperties" && is_truth_value(part) {
        Place::Nothing
    } else {
        place_under(key)
    }
}

#[cycle(needs)]
fn add_at(place: Place, part: &Assembled<'_>, needs: &mut Needs)
    ensures { needs.new ≡ needed_at (place_meant place) needs.old
        (needed (assembled_view part.now) needs.old) }
{
    match place {
        Place::Nothing => {}
        Place::Schema => add_schema(part, needs),
        Place::List => add_list(part, needs),
        Place::SchemaOrList => add_schema_or_list(part, needs),
        Place::Names => add_named(part, needs),
    }
}

// Adds what the items of a list need.
#[cycle(needs)]
#[tactic(auto, unfolding(schemars_transform::specs::Needs::needed))]
fn add_list(part: &Assembled<'_>, needs: &mut Needs)
    ensures { needs.new ≡ (needed (assembled_view part.now) needs.old).as_list }
{
    match part {
        Assembled::Value(value) => needs.add_at(Place::List, value),
        Assembled::List(parts) => add_items(parts, needs),
        _ => {}
    }
}

// Adds what a part needs as a schema, or its items where it is a list.
#[cycle(needs)]
#[tactic(auto, unfolding(schemars_transform::specs::Needs::needed))]
fn add_schema_or_list(part: &Assembled<'_>, needs: &mut Needs)
    ensures { needs.new ≡ (needed (assembled_view part.now) needs.old).as_either }
{
    match part {
        Assembled::Value(value) => needs.add_at(Place::SchemaOrList, value),
        Assembled::List(parts) => add_items(parts, needs),
        _ => add_schema(part, needs),
    }
}

// Adds what schemas by name need. A text is all that a reference has by name.
#[cycle(needs)]
#[tactic(auto, unfolding(schemars_transform::specs::Needs::needed))]
fn add_named(part: &Assembled<'_>, needs: &mut Needs)
    ensures { needs.new ≡ (needed (assembled_view part.now) needs.old).by_name }
{
    match part {
        Assembled::Value(value) => needs.add_at(Place::Names, value),
        Assembled::Object(members) => add_names(members, needs),
        _ => {}
    }
}

#[cycle(needs)]
#[tactic(auto, unfolding(schemars_transform::specs::Needs::needed_by_items))]
fn add_items(parts: &Vec<Assembled<'_>>, needs: &mut Needs)
    ensures { needs.new ≡ needed_by_items (items_assembled parts.now.items) needs.old }
{
    for part in parts {
        add_schema(part, needs);
    }
}

#[cycle(needs)]
#[tactic(auto, using(schemars_transform::proofs::Asking::name_done, schemars_transform::proofs::Asking::no_names_left))]
fn add_names<'t>(members: &Vec<(&'t str, Assembled<'t>)>, needs: &mut Needs)
    ensures { needs.new ≡ needed_by_names (members_assembled members.now.items) needs.old }
{
    for (_, part) in members {
        add_schema(part, needs);
    }
}
