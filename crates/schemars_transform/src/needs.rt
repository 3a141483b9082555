//! What a schema has that the built-in transforms change, found by one walk that changes nothing.
ghost use Rattle.std.specs.Prelude.{◌≡◌};
ghost use Rattle.schemars_transform.specs.Words.{member, no_members, view, items_view, members_view, place_meant, no_needs, keyword_named, place_asked, is_changed, with_keyword, needed, needed_at, needs_of, needed_by_items, needed_by_names, needed_by_keywords};

use crate::built_in::nullable::has_null;
use schemars_schema::Schema;
use schemars_walk::rewrite::place::{Place, place_under};
use serde_json::{Map, Value};

/// What a schema has, or a schema inside it, that built-in transforms change.
#[derive(Clone, Copy)]
pub struct Needs {
    /// A truth value as a schema, other than under `additionalProperties`.
    pub(crate) truth_value: bool,
    /// A truth value under `additionalProperties`.
    pub(crate) additional: bool,
    /// A `$ref` beside other keywords.
    pub(crate) reference: bool,
    /// `examples`.
    pub(crate) examples: bool,
    /// `const`.
    pub(crate) constant: bool,
    /// `prefixItems`.
    pub(crate) prefix_items: bool,
    /// A `type` that holds null.
    pub(crate) null_type: bool,
    /// `unevaluatedProperties`.
    pub(crate) unevaluated: bool,
}

/// What a schema has, or a schema inside it, that built-in transforms change, found by one walk.
pub fn needs_of(schema: &Schema) -> Needs
    ensures { result ≡ needs_of schema.now }
{
    let mut needs = Needs::none();
    add_schema(schema.as_value(), &mut needs);
    needs
}

impl Needs {
    /// Nothing that a built-in transform changes.
    pub fn none() -> Needs
        ensures { result ≡ no_needs }
    {
        Needs {
            truth_value: false,
            additional: false,
            reference: false,
            examples: false,
            constant: false,
            prefix_items: false,
            null_type: false,
            unevaluated: false,
        }
    }

    /// Adds what a value needs as a schema.
    pub fn add_schema(&mut self, value: &Value)
        ensures { self.new ≡ (needed (view value.now) self.old).as_schema }
    {
        add_schema(value, self);
    }

    /// Adds what the schemas in a value need that stands at this place.
    pub fn add_at(&mut self, place: Place, value: &Value)
        ensures { self.new
            ≡ needed_at (place_meant place) self.old (needed (view value.now) self.old) }
    {
        add_at(place, value, self);
    }

    /// Adds what a keyword needs, which is alone in its object or not, and the schemas in its
    /// value.
    pub fn add_keyword(&mut self, alone: bool, key: &str, value: &Value)
        ensures { self.new ≡ needed_by_keywords alone (member key.now (view value.now) no_members)
            self.old }
    {
        add_keyword(alone, key, value, self);
    }

    /// Notes a keyword, if a transform changes its value.
    pub fn note(&mut self, keyword: Keyword, changed: bool)
        ensures { self.new ≡ with_keyword keyword changed self.old }
    {
        match keyword {
            Keyword::Other => {}
            Keyword::Additional => self.additional = self.additional || changed,
            Keyword::Reference => self.reference = self.reference || changed,
            Keyword::Examples => self.examples = self.examples || changed,
            Keyword::Const => self.constant = self.constant || changed,
            Keyword::PrefixItems => self.prefix_items = self.prefix_items || changed,
            Keyword::Types => self.null_type = self.null_type || changed,
            Keyword::Unevaluated => self.unevaluated = self.unevaluated || changed,
        }
    }
}

/// A keyword that built-in transforms look for, or another one.
#[derive(Clone, Copy)]
pub enum Keyword {
    /// No built-in transform looks for it.
    Other,
    /// `additionalProperties`.
    Additional,
    /// `$ref`.
    Reference,
    /// `examples`.
    Examples,
    /// `const`.
    Const,
    /// `prefixItems`.
    PrefixItems,
    /// `type`.
    Types,
    /// `unevaluatedProperties`.
    Unevaluated,
}

impl Keyword {
    /// The keyword of this name.
    pub fn named(key: &str) -> Keyword
        ensures { result ≡ keyword_named key.now }
    {
        match key.len() {
            4 if key == "type" => Keyword::Types,
            4 if key == "$ref" => Keyword::Reference,
            5 if key == "const" => Keyword::Const,
            8 if key == "examples" => Keyword::Examples,
            11 if key == "prefixItems" => Keyword::PrefixItems,
            20 if key == "additionalProperties" => Keyword::Additional,
            21 if key == "unevaluatedProperties" => Keyword::Unevaluated,
            _ => Keyword::Other,
        }
    }

    /// Returns whether a transform changes this value of the keyword, which is alone in its object
    /// or not.
    pub fn is_changed(self, alone: bool, value: &Value) -> bool
        ensures { result ≡ is_changed self alone (view value.now) }
    {
        match self {
            Keyword::Other => false,
            Keyword::Additional => value.is_boolean(),
            Keyword::Reference => !alone,
            Keyword::Examples | Keyword::Const | Keyword::PrefixItems | Keyword::Unevaluated => {
                true
            }
            Keyword::Types => has_null(value),
        }
    }
}

#[cycle(needs)]
#[tactic(auto, unfolding(crate::specs::Needs::needed))]
fn add_schema(schema: &Value, needs: &mut Needs)
    ensures { needs.new ≡ (needed (view schema.now) needs.old).as_schema }
{
    match schema {
        Value::Bool(_) => needs.truth_value = true,
        Value::Object(members) => add_keywords(members.len() == 1, members, needs),
        _ => {}
    }
}

#[cycle(needs)]
#[tactic(auto, using(crate::proofs::Asking::keyword_done, crate::proofs::Asking::nothing_left))]
fn add_keywords(alone: bool, members: &Map<String, Value>, needs: &mut Needs)
    ensures { needs.new ≡ needed_by_keywords alone (members_view members.now.entries) needs.old }
{
    for (key, value) in members.iter() {
        add_keyword(alone, key.as_str(), value, needs);
    }
}

// What a keyword needs, and the schemas in its value.
#[cycle(needs)]
#[tactic(auto, unfolding(crate::specs::Needs::needed_by_keywords))]
fn add_keyword(alone: bool, key: &str, value: &Value, needs: &mut Needs)
    ensures { needs.new ≡ needed_by_keywords alone (member key.now (view value.now) no_members)
        needs.old }
{
    let keyword = Keyword::named(key);
    needs.note(keyword, keyword.is_changed(alone, value));
    add_at(place_asked(key, value), value, needs);
}

#[cycle(needs)]
#[tactic(auto, unfolding(crate::specs::Needs::needed))]
fn add_at(place: Place, value: &Value, needs: &mut Needs)
    ensures { needs.new
        ≡ needed_at (place_meant place) needs.old (needed (view value.now) needs.old) }
{
    match place {
        Place::Nothing => {}
        Place::Schema => add_schema(value, needs),
        Place::List => match value {
            Value::Array(items) => add_items(items, needs),
            _ => {}
        },
        Place::SchemaOrList => match value {
            Value::Array(items) => add_items(items, needs),
            _ => add_schema(value, needs),
        },
        Place::Names => match value {
            Value::Object(members) => add_names(members, needs),
            _ => {}
        },
    }
}

#[cycle(needs)]
fn add_items(items: &[Value], needs: &mut Needs)
    ensures { needs.new ≡ needed_by_items (items_view items.now) needs.old }
{
    for item in items {
        add_schema(item, needs);
    }
}

#[cycle(needs)]
#[tactic(auto, using(crate::proofs::Asking::name_done, crate::proofs::Asking::no_names_left))]
fn add_names(members: &Map<String, Value>, needs: &mut Needs)
    ensures { needs.new ≡ needed_by_names (members_view members.now.entries) needs.old }
{
    for (_, member) in members.iter() {
        add_schema(member, needs);
    }
}

// Where the schemas are that may need something. A truth value under `additionalProperties` is
// noted with its keyword.
fn place_asked(key: &str, value: &Value) -> Place
    ensures { place_meant result ≡ place_asked key.now (view value.now) }
{
    if key == "additionalProperties" && value.is_boolean() {
        Place::Nothing
    } else {
        place_under(key)
    }
}
