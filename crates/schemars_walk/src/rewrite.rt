//! Rewrites of all schemas inside a schema, from the bottom up.
ghost use Rattle.std.specs.Prelude.{◌≡◌, ◌∷◌, List, length, map, zip, false, IsTrue, OnOk, IfOk};
ghost use Rattle.schemars_walk.specs.Words.{keys_of, values_of, into_iter_items, Data, view, items_view, members_view, Text, Place, place_meant, all_unread, member_places, in_places, Rules, rewritten, with_subschemas, read_at, as_schema_in, in_items, in_names, in_keywords};

pub mod change;
pub mod place;

use crate::rewrite::place::Place;
use schemars_schema::{NotASchema, Schema};
use serde_json::{Map, Value};
use std::alloc::{AllocError, Global};
use std::mem;

/// What is done at each schema, once the schemas inside it are done.
pub trait Rule: Copy {
    // The rule inside a schema, the schemas under a keyword, and what a schema becomes.
    ghost rules: { Rules Self };

    /// The rule that holds in a schema and below.
    fn inside(self, schema: &Value) -> Self
        ensures { result ≡ rules.inside self (view schema.now) };

    /// Where schemas are under a keyword.
    fn place(self, key: &str, value: &Value) -> Place
        ensures { place_meant result ≡ rules.place self key.now (view value.now) };

    /// Rewrites one schema, whose subschemas are done.
    fn finish(self, alloc: Global, schema: &mut Schema) -> Result<(), AllocError>
        ensures { OnOk result (schema.new ≡ rules.finish self schema.old) };
}

/// Rewrites the schemas inside a schema, each before the one around it, and then the schema.
#[cycle(rewrite)]
pub fn rewrite<R: Rule>(rule: R, alloc: Global, schema: &mut Schema) -> Result<(), AllocError>
    ensures { OnOk result (schema.new ≡ rewritten R.rules rule schema.old) }
{
    let inner = rule.inside(schema.as_value());
    rewrite_subschemas(inner, alloc, schema)?;
    finish(inner, alloc, schema)
}

// Out of line, since what it takes of the machine stack would be taken at each level.
#[inline(never)]
fn finish<R: Rule>(rule: R, alloc: Global, schema: &mut Schema) -> Result<(), AllocError>
    ensures { OnOk result (schema.new ≡ R.rules.finish rule schema.old) }
{
    rule.finish(alloc, schema)
}

#[cycle(rewrite)]
fn rewrite_subschemas<R: Rule>(
    rule: R,
    alloc: Global,
    schema: &mut Schema,
) -> Result<(), AllocError>
    ensures { OnOk result (schema.new ≡ with_subschemas R.rules rule schema.old) }
{
    match schema.as_object_mut() {
        Some(members) => rewrite_keywords(rule, alloc, members),
        None => Ok(()),
    }
}

// The values are taken out, rewritten and put back, so that no walk over the map is under way while
// what is below is rewritten: it would take of the machine stack at each level. Where memory runs
// out, values are lost.
#[cycle(rewrite)]
fn rewrite_keywords<R: Rule>(
    rule: R,
    alloc: Global,
    members: &mut Map<String, Value>,
) -> Result<(), AllocError>
    ensures { OnOk result (members_view members.new.entries
        ≡ in_keywords R.rules rule (members_view members.old.entries)) }
{
    if !holds_schemas(rule, members) {
        return Ok(());
    }
    let places = places_in(rule, alloc, members)?;
    let mut values = take_values(alloc, members)?;
    rewrite_values(rule, alloc, &places, &mut values)?;
    put_values(members, values);
    Ok(())
}

#[cycle(rewrite)]
fn rewrite_values<R: Rule>(
    rule: R,
    alloc: Global,
    places: &[Place],
    values: &mut [Value],
) -> Result<(), AllocError>
    requires { length places.now ≡ length values.old }
    ensures { OnOk result (items_view values.new
        ≡ in_places R.rules rule (map place_meant places.now) (items_view values.old)) }
{
    for index in 0..places.len() {
        rewrite_place(rule, alloc, places[index], &mut values[index])?;
    }
    Ok(())
}

#[cycle(rewrite)]
fn rewrite_place<R: Rule>(
    rule: R,
    alloc: Global,
    place: Place,
    value: &mut Value,
) -> Result<(), AllocError>
    ensures { OnOk result (view value.new
        ≡ read_at R.rules (place_meant place) rule (view value.old)) }
{
    match place {
        Place::Nothing => Ok(()),
        Place::Schema => rewrite_schema(rule, alloc, value),
        Place::List => match value.as_array_mut() {
            Some(items) => rewrite_items(rule, alloc, items),
            None => Ok(()),
        },
        Place::SchemaOrList => match value.as_array_mut() {
            Some(items) => rewrite_items(rule, alloc, items),
            None => rewrite_schema(rule, alloc, value),
        },
        Place::Names => match value.as_object_mut() {
            Some(members) => rewrite_names(rule, alloc, members),
            None => Ok(()),
        },
    }
}

#[cycle(rewrite)]
fn rewrite_items<R: Rule>(rule: R, alloc: Global, items: &mut [Value]) -> Result<(), AllocError>
    ensures { OnOk result (items_view items.new
        ≡ in_items R.rules rule (items_view items.old)) }
{
    for item in items.iter_mut() {
        rewrite_schema(rule, alloc, item)?;
    }
    Ok(())
}

#[cycle(rewrite)]
fn rewrite_names<R: Rule>(
    rule: R,
    alloc: Global,
    members: &mut Map<String, Value>,
) -> Result<(), AllocError>
    ensures { OnOk result (members_view members.new.entries
        ≡ in_names R.rules rule (members_view members.old.entries)) }
{
    let mut values = take_values(alloc, members)?;
    rewrite_items(rule, alloc, &mut values)?;
    put_values(members, values);
    Ok(())
}

#[cycle(rewrite)]
fn rewrite_schema<R: Rule>(rule: R, alloc: Global, value: &mut Value) -> Result<(), AllocError>
    ensures { OnOk result (view value.new ≡ as_schema_in R.rules rule (view value.old)) }
{
    match Schema::try_from(mem::replace(value, Value::Null)) {
        Ok(mut schema) => {
            let answer = rewrite(rule, alloc, &mut schema);
            *value = schema.to_value();
            answer
        }
        Err(NotASchema(other)) => {
            *value = other;
            Ok(())
        }
    }
}

// Whether the value of any member has schemas.
#[inline(never)]
fn holds_schemas<R: Rule>(rule: R, members: &Map<String, Value>) -> bool
    ensures { result ≡ false → all_unread (R.rules.place rule) (members_view members.now.entries) }
{
    for (key, value) in members.iter() {
        if !matches!(rule.place(key.as_str(), value), Place::Nothing) {
            return true;
        }
    }
    false
}

// Where schemas are in the value of each member.
#[inline(never)]
fn places_in<R: Rule>(
    rule: R,
    alloc: Global,
    members: &Map<String, Value>,
) -> Result<Vec<Place>, AllocError>
    ensures { IfOk result (λ places. map place_meant places.items
        ≡ member_places (R.rules.place rule) (members_view members.now.entries)) }
{
    let mut places = Vec::with_capacity(alloc, members.len())?;
    for (key, value) in members.iter() {
        places.push(rule.place(key.as_str(), value))?;
    }
    Ok(places)
}

// Takes the value of each member, in order, and leaves a null in its place.
#[inline(never)]
fn take_values(alloc: Global, members: &mut Map<String, Value>) -> Result<Vec<Value>, AllocError>
    ensures keys { keys_of members.new.entries ≡ keys_of members.old.entries }
    ensures values { IfOk result (λ values. values.items ≡ values_of members.old.entries) }
{
    let mut values = Vec::with_capacity(alloc, members.len())?;
    for value in members.values_mut() {
        values.push(mem::replace(value, Value::Null))?;
    }
    Ok(values)
}

// Puts a value over that of each member, in order.
#[inline(never)]
fn put_values(members: &mut Map<String, Value>, values: Vec<Value>)
    ensures { length values.items ≡ length members.old.entries
        → members.new.entries ≡ zip (keys_of members.old.entries) values.items }
{
    let mut rest = values.into_iter();
    members.retain(
        |_: &String, value: &mut Value| -> bool
            ensures { IsTrue result × ((v : Value) (vs : List Value)
                → into_iter_items rest.entry ≡ v ∷ vs
                → (value.exit.now ≡ v) × (into_iter_items rest.exit ≡ vs)) }
        {
            if let Some(next) = rest.next() {
                *value = next;
            }
            true
        },
    );
}
