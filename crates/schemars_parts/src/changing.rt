//! What built-in transforms make of a schema in parts, and of the schemas inside it.
ghost use Rattle.std.specs.Prelude.{◌≡◌, true, IfOk, IfSome};
ghost use Rattle.schemars_parts.specs.Words.{Data, array, boolean, object, view, members_in, form_at, in_items, in_keywords, in_names, place_meant, is_local, function_of, made_by, needs_of, assembled_view, items_assembled, members_assembled, changed_place, forms_by, rules_of};

use crate::assembled::Assembled;
use crate::error::Stop;
use crate::finishing::finish;
use crate::members::{MemberList, lone_object};
use crate::needs::{is_scalar, place_asked};
use schemars_transform::{GenTransform, Needs, NoTransform, are_idle};
use schemars_walk::rewrite::place::{Place, place_under};
use serde_json::Value;
use std::alloc::Global;
use std::slice;

// What transforms make of the schema with these needs, one after another. Those that would change
// nothing are passed over.
pub(crate) fn change_by<'t>(
    alloc: Global,
    transforms: &[GenTransform<NoTransform>],
    schema: Assembled<'t>,
    needs: Needs,
) -> Result<Assembled<'t>, Stop>
    requires { needs ≡ needs_of (assembled_view schema) }
    ensures { IfOk result (λ p. assembled_view p
        ≡ made_by transforms.now (assembled_view schema.entry)) }
{
    let mut known = Some(needs);
    let mut schema = schema;
    for transform in transforms {
        if !is_idle(transform, known) {
            schema = change(alloc, transform, schema)?;
            known = None;
        }
    }
    Ok(schema)
}

// Whether a transform leaves every schema with these needs as it is, if they are known. `false` says
// nothing.
fn is_idle(transform: &GenTransform<NoTransform>, known: Option<Needs>) -> bool
    ensures local { result ≡ true → is_local transform.now ≡ true }
    ensures unchanged { result ≡ true → (d : Data) → IfSome known (λ needs. needs ≡ needs_of d)
        → function_of transform.now d ≡ d }
{
    match known {
        Some(needs) => are_idle(slice::from_ref(transform), needs),
        None => false,
    }
}

// What a transform makes of the schema. One that looks beyond a schema and those inside it is not
// covered.
fn change<'t>(
    alloc: Global,
    transform: &GenTransform<NoTransform>,
    schema: Assembled<'t>,
) -> Result<Assembled<'t>, Stop>
    ensures { IfOk result (λ p. assembled_view p
        ≡ function_of transform.now (assembled_view schema.entry)) }
{
    if is_local(transform) {
        change_schema(alloc, transform, schema)
    } else {
        Err(Stop::NotCovered)
    }
}

// Whether a transform does the same at every schema, whatever is around it.
fn is_local(transform: &GenTransform<NoTransform>) -> bool
    ensures { result ≡ is_local transform.now }
{
    match transform {
        GenTransform::ReplaceBoolSchemas(_)
        | GenTransform::RemoveRefSiblings(_)
        | GenTransform::SetSingleExample(_)
        | GenTransform::ReplaceConstValue(_)
        | GenTransform::ReplacePrefixItems(_)
        | GenTransform::AddNullable(_)
        | GenTransform::ReplaceUnevaluatedProperties(_) => true,
        GenTransform::RestrictFormats(_) | GenTransform::Own(_) => false,
    }
}

// What it makes of a part as a schema. What is no schema stays.
#[cycle(change)]
#[tactic(auto, unfolding(schemars_walk::specs::Rewritten::forms))]
fn change_schema<'t>(
    alloc: Global,
    transform: &GenTransform<NoTransform>,
    part: Assembled<'t>,
) -> Result<Assembled<'t>, Stop>
    ensures { IfOk result (λ p. assembled_view p
        ≡ (forms_by transform.now (assembled_view part.entry)).as_schema) }
{
    match part {
        Assembled::Object(members) => {
            let members = change_keywords(alloc, transform, members)?;
            finish(alloc, transform, members)
        }
        Assembled::Bool(accepts) => change_truth_value(alloc, transform, accepts),
        Assembled::Value(value) => change_value(alloc, transform, value),
        other => Ok(other),
    }
}

// The keywords of an object, with the schemas in their values changed.
#[cycle(change)]
fn change_keywords<'t>(
    alloc: Global,
    transform: &GenTransform<NoTransform>,
    members: Vec<(&'t str, Assembled<'t>)>,
) -> Result<MemberList<'t>, Stop>
    ensures { IfOk result (λ m. m ≡ in_keywords rules_of transform.now (members_assembled members.entry.items)) }
{
    let mut changed = Vec::with_capacity(alloc, members.len())?;
    for (name, part) in members {
        let part = change_member(alloc, transform, name, part)?;
        changed.push((name, part))?;
    }
    MemberList::of(changed)
}

// What it makes of the value of a keyword. One that holds no schemas stays, wherever it is.
#[cycle(change)]
fn change_member<'t>(
    alloc: Global,
    transform: &GenTransform<NoTransform>,
    name: &str,
    part: Assembled<'t>,
) -> Result<Assembled<'t>, Stop>
    ensures { IfOk result (λ p. assembled_view p ≡ form_at
        (changed_place transform.now name.now (assembled_view part.entry))
        (assembled_view part.entry) (forms_by transform.now (assembled_view part.entry))) }
{
    if is_scalar(&part) {
        return Ok(part);
    }
    let place = changed_place(transform, name, &part);
    change_at(alloc, transform, place, part)
}

#[cycle(change)]
fn change_at<'t>(
    alloc: Global,
    transform: &GenTransform<NoTransform>,
    place: Place,
    part: Assembled<'t>,
) -> Result<Assembled<'t>, Stop>
    ensures { IfOk result (λ p. assembled_view p ≡ form_at (place_meant place)
        (assembled_view part.entry) (forms_by transform.now (assembled_view part.entry))) }
{
    match place {
        Place::Nothing => Ok(part),
        Place::Schema => change_schema(alloc, transform, part),
        Place::List => change_list(alloc, transform, part),
        Place::SchemaOrList => change_schema_or_list(alloc, transform, part),
        Place::Names => change_named(alloc, transform, part),
    }
}

// What it makes of a part as a list of schemas. One that is a JSON value is not covered.
#[cycle(change)]
#[tactic(auto, unfolding(schemars_walk::specs::Rewritten::forms))]
fn change_list<'t>(
    alloc: Global,
    transform: &GenTransform<NoTransform>,
    part: Assembled<'t>,
) -> Result<Assembled<'t>, Stop>
    ensures { IfOk result (λ p. assembled_view p
        ≡ (forms_by transform.now (assembled_view part.entry)).as_list) }
{
    match part {
        Assembled::List(parts) => change_items(alloc, transform, parts),
        Assembled::Value(_) => Err(Stop::NotCovered),
        other => Ok(other),
    }
}

// What it makes of a part as a schema, or as a list of schemas where it is a list.
#[cycle(change)]
#[tactic(auto, unfolding(schemars_walk::specs::Rewritten::forms))]
fn change_schema_or_list<'t>(
    alloc: Global,
    transform: &GenTransform<NoTransform>,
    part: Assembled<'t>,
) -> Result<Assembled<'t>, Stop>
    ensures { IfOk result (λ p. assembled_view p
        ≡ (forms_by transform.now (assembled_view part.entry)).as_either) }
{
    match part {
        Assembled::List(parts) => change_items(alloc, transform, parts),
        Assembled::Value(Value::Array(_)) => Err(Stop::NotCovered),
        other => change_schema(alloc, transform, other),
    }
}

// What it makes of a part as schemas by name. Names that are a JSON value are not covered.
#[cycle(change)]
#[tactic(auto, unfolding(schemars_walk::specs::Rewritten::forms))]
fn change_named<'t>(
    alloc: Global,
    transform: &GenTransform<NoTransform>,
    part: Assembled<'t>,
) -> Result<Assembled<'t>, Stop>
    ensures { IfOk result (λ p. assembled_view p
        ≡ (forms_by transform.now (assembled_view part.entry)).by_name) }
{
    match part {
        Assembled::Object(members) => change_names(alloc, transform, members),
        Assembled::Value(_) | Assembled::Reference(_) => Err(Stop::NotCovered),
        other => Ok(other),
    }
}

#[cycle(change)]
fn change_items<'t>(
    alloc: Global,
    transform: &GenTransform<NoTransform>,
    parts: Vec<Assembled<'t>>,
) -> Result<Assembled<'t>, Stop>
    ensures { IfOk result (λ p. assembled_view p
        ≡ array (in_items rules_of transform.now (items_assembled parts.entry.items))) }
{
    let mut changed = Vec::with_capacity(alloc, parts.len())?;
    for part in parts {
        let part = change_schema(alloc, transform, part)?;
        changed.push(part)?;
    }
    Ok(Assembled::List(changed))
}

#[cycle(change)]
fn change_names<'t>(
    alloc: Global,
    transform: &GenTransform<NoTransform>,
    members: Vec<(&'t str, Assembled<'t>)>,
) -> Result<Assembled<'t>, Stop>
    ensures { IfOk result (λ p. assembled_view p
        ≡ object (in_names rules_of transform.now (members_assembled members.entry.items))) }
{
    let mut changed = Vec::with_capacity(alloc, members.len())?;
    for (name, part) in members {
        let part = change_schema(alloc, transform, part)?;
        changed.push((name, part))?;
    }
    Ok(Assembled::Object(changed))
}

// Where the schemas are in the value of a keyword that a transform changes.
fn changed_place(transform: &GenTransform<NoTransform>, key: &str, part: &Assembled<'_>) -> Place
    ensures { place_meant result ≡ changed_place transform.now key.now (assembled_view part.now) }
{
    match transform {
        GenTransform::ReplaceBoolSchemas(bools) if bools.skip_additional_properties => {
            place_asked(key, part)
        }
        _ => place_under(key),
    }
}

// Only one transform changes truth values: into an object that says the same.
#[tactic(auto, unfolding(schemars_walk::specs::Rewritten::forms))]
fn change_truth_value<'t>(
    alloc: Global,
    transform: &GenTransform<NoTransform>,
    accepts: bool,
) -> Result<Assembled<'t>, Stop>
    ensures { IfOk result (λ p. assembled_view p
        ≡ (forms_by transform.now (boolean accepts)).as_schema) }
{
    match transform {
        GenTransform::ReplaceBoolSchemas(_) => truth_object(alloc, accepts),
        _ => Ok(Assembled::Bool(accepts)),
    }
}

// The object that accepts everything, or nothing.
fn truth_object<'t>(alloc: Global, accepts: bool) -> Result<Assembled<'t>, Stop>
    ensures { IfOk result (λ p. assembled_view p ≡ object (members_in (boolean accepts))) }
{
    let everything = Assembled::Object(Vec::new(alloc));
    if accepts {
        Ok(everything)
    } else {
        lone_object(alloc, "not", everything)
    }
}

// A JSON value is covered where it is a truth value, or stays.
fn change_value<'t>(
    alloc: Global,
    transform: &GenTransform<NoTransform>,
    value: &'t Value,
) -> Result<Assembled<'t>, Stop>
    ensures { IfOk result (λ p. assembled_view p
        ≡ (forms_by transform.now (view value.now)).as_schema) }
{
    if let Value::Bool(accepts) = value {
        return change_truth_value(alloc, transform, *accepts);
    }
    let mut needs = Needs::none();
    needs.add_schema(value);
    if is_idle(transform, Some(needs)) {
        Ok(Assembled::Value(value))
    } else {
        Err(Stop::NotCovered)
    }
}
