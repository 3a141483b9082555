//! Lists of transforms, of which only those are called that have something to do.
ghost use Rattle.std.specs.Prelude.{◌≡◌, ◌<◌, None, Some, IfSome, OnOk, length, true};
ghost use Rattle.schemars_transform.specs.Words.{Data, object, Members, no_members, view, members_view, is_listed, replaced, InOrder, EachMember, AtSchema, OfMember, ApplyInOrder, made_by, is_local, are_local, definition_keys, IsTaken, needs_of, is_idle, are_idle};

use crate::gen_transform::GenTransform;
use crate::needs::{Needs, needs_of};
use schemars_schema::Schema;
use schemars_walk::{Transform, TransformError, transform_members};
use serde_json::{Map, Value};
use std::alloc::Global;
use std::mem;

/// Applies transforms to a schema, one after another, as their list does, and passes over built-in
/// ones that would change nothing. Several transforms are applied to each definition in it by
/// itself, where that is the same.
///
/// # Errors
///
/// The first error of a transform; later ones are not called.
pub fn apply_all<O: Transform + Drop>(
    alloc: Global,
    transforms: &mut Vec<GenTransform<O>>,
    schema: &mut Schema,
) -> Result<(), TransformError>
    ensures { InOrder (OfMember O.makes) transforms.old.items schema.old result
        transforms.new.items schema.new }
{
    if transforms.len() < 2 || !are_local(transforms) {
        return apply_each(alloc, transforms, schema, None);
    }
    let needs = needs_of(schema);
    if are_idle(transforms, needs) {
        return Ok(());
    }
    if let Some(definitions) = take_names(alloc, schema, "$defs") {
        return apply_apart(alloc, transforms, schema, "$defs", definitions);
    }
    if let Some(definitions) = take_names(alloc, schema, "definitions") {
        return apply_apart(alloc, transforms, schema, "definitions", definitions);
    }
    apply_each(alloc, transforms, schema, Some(needs))
}

/// Applies transforms to a schema with these needs, one after another, as their list does, and
/// passes over built-in ones that would change nothing.
///
/// # Errors
///
/// The first error of a transform; later ones are not called.
pub fn apply_needed<O: Transform>(
    alloc: Global,
    transforms: &mut Vec<GenTransform<O>>,
    schema: &mut Schema,
    needs: Needs,
) -> Result<(), TransformError>
    requires { needs ≡ needs_of schema.old }
    ensures { InOrder (OfMember O.makes) transforms.old.items schema.old result
        transforms.new.items schema.new }
{
    apply_each(alloc, transforms, schema, Some(needs))
}

/// Returns whether each of the transforms is a built-in one that leaves every schema with these
/// needs as it is. `false` says nothing.
pub fn are_idle<O>(transforms: &[GenTransform<O>], needs: Needs) -> bool
    ensures value { result ≡ are_idle transforms.now needs }
    ensures unchanged { result ≡ true → (d : Data) → needs_of d ≡ needs
        → made_by transforms.now d ≡ d }
{
    all_idle(transforms, needs)
}

fn all_idle<O>(transforms: &[GenTransform<O>], needs: Needs) -> bool
    ensures { result ≡ are_idle transforms.now needs }
{
    transforms.iter().all(|t| is_idle(t, needs))
}

// Applies transforms to the definitions that were taken out of a schema, and to what was left.
fn apply_apart<O: Transform + Drop>(
    alloc: Global,
    transforms: &mut Vec<GenTransform<O>>,
    schema: &mut Schema,
    key: &str,
    definitions: Map<String, Value>,
) -> Result<(), TransformError>
    requires local { are_local transforms.old.items ≡ true }
    requires some { 0 < length transforms.old.items }
    requires key { is_listed key.now definition_keys ≡ true }
    ensures { (d : Data) → IsTaken key.now d (members_view definitions.entries) schema.old
        → InOrder (OfMember O.makes) transforms.old.items d result transforms.new.items
        schema.new }
{
    let mut definitions = definitions;
    apply_to_members(alloc, transforms, &mut definitions)?;
    apply_each(alloc, transforms, schema, None)?;
    put_names(schema, key, definitions);
    Ok(())
}

// Takes the schemas by name at a key out, and leaves an empty object there.
fn take_names(alloc: Global, schema: &mut Schema, key: &str) -> Option<Map<String, Value>>
    ensures some { IfSome result (λ names. IsTaken key.now schema.old (members_view names.entries)
        schema.new) }
    ensures none { result ≡ None → schema.new ≡ schema.old }
{
    match schema.get_mut(key) {
        Some(value) => take_members(alloc, value),
        None => None,
    }
}

fn take_members(alloc: Global, value: &mut Value) -> Option<Map<String, Value>>
    ensures some { IfSome result (λ taken. (view value.old ≡ object (members_view taken.entries))
        × (view value.new ≡ object no_members)) }
    ensures none { result ≡ None → view value.new ≡ view value.old }
{
    match mem::replace(value, Value::Null) {
        Value::Object(members) => {
            *value = Value::Object(Map::new(alloc));
            Some(members)
        }
        unchanged => {
            *value = unchanged;
            None
        }
    }
}

// Puts schemas by name in place of the value at a key, if there is one.
fn put_names(schema: &mut Schema, key: &str, names: Map<String, Value>)
    ensures { (ms : Members) → schema.old ≡ object ms → schema.new
        ≡ object (replaced key.now (object (members_view names.entries)) ms) }
{
    if let Some(value) = schema.get_mut(key) {
        *value = Value::Object(names);
    }
}

// Whether each of the transforms does the same at every schema, whatever is around it.
fn are_local<O>(transforms: &[GenTransform<O>]) -> bool
    ensures { result ≡ are_local transforms.now }
{
    transforms.iter().all(|t| is_local(t))
}

fn is_local<O>(transform: &GenTransform<O>) -> bool
    ensures { result ≡ is_local transform.now }
{
    !matches!(
        transform,
        GenTransform::RestrictFormats(_) | GenTransform::Own(_)
    )
}

// Applies transforms to a schema, one after another, and passes over idle ones.
fn apply_each<O: Transform>(
    alloc: Global,
    transforms: &mut Vec<GenTransform<O>>,
    schema: &mut Schema,
    needs: Option<Needs>,
) -> Result<(), TransformError>
    requires { IfSome needs (λ known. known ≡ needs_of schema.old) }
    ensures { InOrder (OfMember O.makes) transforms.old.items schema.old result
        transforms.new.items schema.new }
{
    let mut needs = needs;
    for transform in transforms.iter_mut() {
        apply_one(alloc, transform, schema, &mut needs)?;
    }
    Ok(())
}

/// Applies transforms to each member of a map, in the order of its keys, as `transform_members`
/// does, and passes over built-in ones that would change nothing.
///
/// # Errors
///
/// The first error, of a transform or of memory.
pub fn apply_to_members<O: Transform + Drop>(
    alloc: Global,
    transforms: &mut Vec<GenTransform<O>>,
    members: &mut Map<String, Value>,
) -> Result<(), TransformError>
    ensures { EachMember (λ k. AtSchema (ApplyInOrder O.makes)) transforms.old
        (members_view members.old.entries) result transforms.new
        (members_view members.new.entries) }
{
    let mut sparing = Sparing {
        transforms: mem::replace(transforms, Vec::new(alloc)),
    };
    let answer = transform_members(alloc, &mut sparing, members);
    *transforms = sparing.transforms;
    answer
}

// A list of transforms as one transform, which passes over idle ones.
#[derive(Drop)]
struct Sparing<O> {
    transforms: Vec<GenTransform<O>>,
}

impl<O: Transform> Transform for Sparing<O> {
    ghost use Rattle.schemars_transform.specs.Member.{ApplyInOrder};

    ghost makes = { λ t s r u v. ApplyInOrder O.makes t.transforms s r u.transforms v };

    fn transform(&mut self, alloc: Global, schema: &mut Schema) -> Result<(), TransformError> {
        apply_each(alloc, &mut self.transforms, schema, None)
    }
}

// Applies a transform that is not idle. What the schema then needs is no longer known, since
// another one may have something to do.
fn apply_one<O: Transform>(
    alloc: Global,
    transform: &mut GenTransform<O>,
    schema: &mut Schema,
    needs: &mut Option<Needs>,
) -> Result<(), TransformError>
    requires { IfSome needs.old (λ known. known ≡ needs_of schema.old) }
    ensures step { OfMember O.makes transform.old schema.old result transform.new schema.new }
    ensures needs { OnOk result (IfSome needs.new (λ known. known ≡ needs_of schema.new)) }
{
    if is_local(transform) {
        let known = known_needs(schema, needs);
        if is_idle(transform, known) {
            return Ok(());
        }
    }
    *needs = None;
    transform.transform(alloc, schema)
}

// What a schema needs, which is asked for once.
fn known_needs(schema: &Schema, needs: &mut Option<Needs>) -> Needs
    requires { IfSome needs.old (λ known. known ≡ needs_of schema.now) }
    ensures result { result ≡ needs_of schema.now }
    ensures needs { needs.new ≡ Some result }
{
    match *needs {
        Some(known) => known,
        None => {
            let found = needs_of(schema);
            *needs = Some(found);
            found
        }
    }
}

// Whether a transform leaves every schema inside one with these needs as it is.
fn is_idle<O>(transform: &GenTransform<O>, needs: Needs) -> bool
    ensures { result ≡ is_idle transform.now needs }
{
    match transform {
        GenTransform::ReplaceBoolSchemas(t) => {
            !needs.truth_value && (t.skip_additional_properties || !needs.additional)
        }
        GenTransform::RemoveRefSiblings(_) => !needs.reference,
        GenTransform::SetSingleExample(_) => !needs.examples,
        GenTransform::ReplaceConstValue(_) => !needs.constant,
        GenTransform::ReplacePrefixItems(_) => !needs.prefix_items,
        GenTransform::AddNullable(_) => !needs.null_type,
        GenTransform::ReplaceUnevaluatedProperties(_) => !needs.unevaluated,
        GenTransform::RestrictFormats(_) => false,
        GenTransform::Own(_) => false,
    }
}
