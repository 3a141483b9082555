//! The walk over the subschemas of a schema.
ghost use Rattle.std.specs.Prelude.{◌≡◌, OnOk, IfErr};
ghost use Rattle.schemars_walk.specs.Words.{insert_entry, string_cmp, view, items_view, members_view, place_under, EachItem, EachMember, AtSchema, AtPlace, Walked, Visited, place_meant};
ghost use Rattle.schemars_walk.specs.declared.transform.TransformError.TheVariants.{Memory};
ghost use Rattle.schemars_walk.specs.declared.walk.Reach.TheVariants.{Once};

use crate::rewrite::place::{Place, place_under};
use crate::transform::{Transform, TransformError};
use schemars_schema::{NotASchema, Schema};
use serde_json::{Map, Value};
use std::alloc::{AllocError, Global};
use std::mem;

/// Applies a transform to each direct subschema of a schema, in the order of its keys. Values that
/// are not schemas are skipped. The first error, of the transform or of memory, ends the walk.
pub fn transform_subschemas<T: Transform>(
    alloc: Global,
    t: &mut T,
    schema: &mut Schema,
) -> Result<(), TransformError>
    ensures { Walked T.makes t.old schema.old result t.new schema.new }
{
    walk(t, alloc, schema, Reach::Once)
}

/// Applies a transform to each member of a map, in the order of its keys. Values that are not
/// schemas are skipped. The first error, of the transform or of memory, ends the walk.
pub fn transform_members<T: Transform>(
    alloc: Global,
    t: &mut T,
    members: &mut Map<String, Value>,
) -> Result<(), TransformError>
    ensures { EachMember (λ k. AtSchema T.makes) t.old (members_view members.old.entries) result
        t.new (members_view members.new.entries) }
{
    walk_names(t, alloc, members, Reach::Once)
}

// How far a walk goes below a schema that it reaches.
#[derive(Clone, Copy)]
pub(crate) enum Reach {
    // The schema is transformed, and not walked.
    Once,
    // The schema is transformed and then walked, with one level less; at no level it is refused.
    Levels(usize),
}

#[cycle(walk)]
pub(crate) fn visit<T: Transform>(
    t: &mut T,
    alloc: Global,
    schema: &mut Schema,
    reach: Reach,
) -> Result<(), TransformError>
    ensures { Visited T.makes reach t.old schema.old result t.new schema.new }
{
    match reach {
        Reach::Once => t.transform(alloc, schema),
        Reach::Levels(n) => {
            if n == 0 {
                return Err(TransformError::TooDeep);
            }
            t.transform(alloc, schema)?;
            walk(t, alloc, schema, Reach::Levels(n - 1))
        }
    }
}

#[cycle(walk)]
pub(crate) fn walk<T: Transform>(
    t: &mut T,
    alloc: Global,
    schema: &mut Schema,
    reach: Reach,
) -> Result<(), TransformError>
    ensures { Walked (Visited T.makes reach) t.old schema.old result t.new schema.new }
{
    match schema.as_object_mut() {
        Some(members) => walk_keywords(t, alloc, members, reach),
        None => Ok(()),
    }
}

#[cycle(walk)]
fn walk_keywords<T: Transform>(
    t: &mut T,
    alloc: Global,
    members: &mut Map<String, Value>,
    reach: Reach,
) -> Result<(), TransformError>
    ensures { EachMember (λ k. AtPlace (place_under k) (Visited T.makes reach)) t.old
        (members_view members.old.entries) result t.new (members_view members.new.entries) }
{
    let old = mem::replace(members, Map::new(alloc));
    for (key, member) in old {
        let mut value = member;
        let place = place_under(key.as_str());
        walk_place(t, alloc, place, &mut value, reach)?;
        put_back(members, key, value)?;
    }
    Ok(())
}

#[cycle(walk)]
fn walk_place<T: Transform>(
    t: &mut T,
    alloc: Global,
    place: Place,
    value: &mut Value,
    reach: Reach,
) -> Result<(), TransformError>
    ensures { AtPlace (place_meant place) (Visited T.makes reach) t.old
        (view value.old) result t.new
        (view value.new) }
{
    match place {
        Place::Nothing => Ok(()),
        Place::Schema => walk_schema(t, alloc, value, reach),
        Place::List => match value.as_array_mut() {
            Some(items) => walk_items(t, alloc, items, reach),
            None => Ok(()),
        },
        Place::SchemaOrList => match value.as_array_mut() {
            Some(items) => walk_items(t, alloc, items, reach),
            None => walk_schema(t, alloc, value, reach),
        },
        Place::Names => match value.as_object_mut() {
            Some(members) => walk_names(t, alloc, members, reach),
            None => Ok(()),
        },
    }
}

#[cycle(walk)]
fn walk_items<T: Transform>(
    t: &mut T,
    alloc: Global,
    items: &mut [Value],
    reach: Reach,
) -> Result<(), TransformError>
    ensures { EachItem (AtSchema (Visited T.makes reach)) t.old (items_view items.old) result t.new
        (items_view items.new) }
{
    for item in items.iter_mut() {
        walk_schema(t, alloc, item, reach)?;
    }
    Ok(())
}

#[cycle(walk)]
fn walk_names<T: Transform>(
    t: &mut T,
    alloc: Global,
    members: &mut Map<String, Value>,
    reach: Reach,
) -> Result<(), TransformError>
    ensures { EachMember (λ k. AtSchema (Visited T.makes reach)) t.old
        (members_view members.old.entries) result t.new (members_view members.new.entries) }
{
    let old = mem::replace(members, Map::new(alloc));
    for (key, member) in old {
        let mut value = member;
        walk_schema(t, alloc, &mut value, reach)?;
        put_back(members, key, value)?;
    }
    Ok(())
}

#[cycle(walk)]
fn walk_schema<T: Transform>(
    t: &mut T,
    alloc: Global,
    value: &mut Value,
    reach: Reach,
) -> Result<(), TransformError>
    ensures { AtSchema (Visited T.makes reach) t.old (view value.old) result t.new
        (view value.new) }
{
    match Schema::try_from(mem::replace(value, Value::Null)) {
        Ok(mut schema) => {
            let answer = visit(t, alloc, &mut schema, reach);
            *value = schema.to_value();
            answer
        }
        Err(NotASchema(other)) => {
            *value = other;
            Ok(())
        }
    }
}

fn put_back(
    members: &mut Map<String, Value>,
    key: String,
    value: Value,
) -> Result<(), TransformError>
    ensures ok { OnOk result (members.new.entries
        ≡ insert_entry string_cmp members.old.entries key value) }
    ensures err { IfErr result (λ e. e ≡ Memory) }
{
    put_member(members, key, value)?;
    Ok(())
}

/// Puts a member in, in place of any under its key.
pub fn put_member(
    members: &mut Map<String, Value>,
    key: String,
    value: Value,
) -> Result<(), AllocError>
    ensures { OnOk result (members.new.entries
        ≡ insert_entry string_cmp members.old.entries key value) }
{
    let _old = members.insert(key, value)?;
    Ok(())
}
