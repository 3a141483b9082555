//! What a built-in transform makes of an object in parts whose subschemas are done.
ghost use Rattle.std.specs.Prelude.{◌≡◌, codes, true, IfOk, OnOk};
ghost use Rattle.schemars_parts.specs.Words.{boolean, object, inserted, without_siblings, with_single_example, const_as_enum, prefix_as_items, null_alone, with_nullable, assembled_view, items_assembled, changed_one, IsBesideNull};

use crate::assembled::Assembled;
use crate::error::Stop;
use crate::members::MemberList;
use crate::needs::has_null;
use crate::texts::is_text_part;
use schemars_transform::{AddNullable, GenTransform, NoTransform};
use serde_json::Value;
use std::alloc::Global;

// What the transform makes of the object. What needs names of other schemas, or what is around the
// object, is not covered.
pub(crate) fn finish<'t>(
    alloc: Global,
    transform: &GenTransform<NoTransform>,
    members: MemberList<'t>,
) -> Result<Assembled<'t>, Stop>
    ensures { IfOk result (λ p. assembled_view p ≡ changed_one transform.now (object members.entry)) }
{
    let mut members = members;
    match transform {
        GenTransform::ReplaceBoolSchemas(_) => {}
        GenTransform::RemoveRefSiblings(_) => move_reference(alloc, &mut members)?,
        GenTransform::SetSingleExample(_) => take_first_example(&mut members)?,
        GenTransform::ReplaceConstValue(_) => const_as_enum(alloc, &mut members)?,
        GenTransform::ReplacePrefixItems(_) => prefix_as_items(&mut members)?,
        GenTransform::AddNullable(nullable) => add_nullable(alloc, nullable, &mut members)?,
        GenTransform::ReplaceUnevaluatedProperties(_)
        | GenTransform::RestrictFormats(_)
        | GenTransform::Own(_) => return Err(Stop::NotCovered),
    }
    Ok(members.into_object())
}

// Moves a `$ref` that has siblings into `allOf`. Another `allOf` is not covered.
fn move_reference<'t>(alloc: Global, members: &mut MemberList<'t>) -> Result<(), Stop>
    ensures { OnOk result (object members.new ≡ without_siblings (object members.old)) }
{
    if members.len() == 1 {
        return Ok(());
    }
    match members.take("$ref") {
        Some(Assembled::Text(target)) => {
            if members.has("allOf") {
                return Err(Stop::NotCovered);
            }
            let moved = vec![in alloc; Assembled::Reference(target)]?;
            members.put("allOf", Assembled::List(moved))
        }
        Some(_) => Err(Stop::NotCovered),
        None => Ok(()),
    }
}

// Makes the first of `examples` the `example`. Examples that are no JSON value are not covered.
fn take_first_example<'t>(members: &mut MemberList<'t>) -> Result<(), Stop>
    ensures { OnOk result (object members.new ≡ with_single_example (object members.old)) }
{
    match members.take("examples") {
        Some(Assembled::Value(Value::Array(examples))) => match examples.first() {
            Some(example) => members.put("example", Assembled::Value(example)),
            None => Ok(()),
        },
        Some(_) => Err(Stop::NotCovered),
        None => Ok(()),
    }
}

// Makes `const` an `enum` of its value alone.
fn const_as_enum<'t>(alloc: Global, members: &mut MemberList<'t>) -> Result<(), Stop>
    ensures { OnOk result (object members.new ≡ const_as_enum (object members.old)) }
{
    match members.take("const") {
        Some(constant) => {
            let values = vec![in alloc; constant]?;
            members.put("enum", Assembled::List(values))
        }
        None => Ok(()),
    }
}

// Makes `prefixItems` `items`. Other `items` are not covered.
fn prefix_as_items<'t>(members: &mut MemberList<'t>) -> Result<(), Stop>
    ensures { OnOk result (object members.new ≡ prefix_as_items (object members.old)) }
{
    match members.take("prefixItems") {
        Some(prefix) => {
            if members.has("items") {
                return Err(Stop::NotCovered);
            }
            members.put("items", prefix)
        }
        None => Ok(()),
    }
}

// Says by `nullable` that a `type` holds null.
fn add_nullable<'t>(
    alloc: Global,
    nullable: &AddNullable,
    members: &mut MemberList<'t>,
) -> Result<(), Stop>
    ensures { OnOk result (object members.new ≡ with_nullable nullable.now (object members.old)) }
{
    match members.find("type") {
        Some(Assembled::Text(name)) if *name == "null" => null_alone(alloc, nullable, members),
        Some(types) if has_null(types) => null_among(nullable, members),
        _ => Ok(()),
    }
}

// Accepts null alone.
fn null_alone<'t>(
    alloc: Global,
    nullable: &AddNullable,
    members: &mut MemberList<'t>,
) -> Result<(), Stop>
    ensures { OnOk result (object members.new ≡ null_alone nullable.now
        (inserted (codes "nullable") (boolean true) (object members.old))) }
{
    members.put("nullable", Assembled::Bool(true))?;
    if nullable.add_const_null {
        members.put("const", Assembled::Null)?;
        if nullable.remove_null_type {
            let _ = members.take("type");
        }
    } else if nullable.remove_null_type {
        members.put("type", Assembled::List(Vec::new(alloc)))?;
    }
    Ok(())
}

// Takes null out of a `type` of one other name and null. Other types are not covered.
fn null_among<'t>(nullable: &AddNullable, members: &mut MemberList<'t>) -> Result<(), Stop>
    ensures { OnOk result (object members.new ≡ with_nullable nullable.now (object members.old)) }
{
    if !nullable.remove_null_type {
        return Err(Stop::NotCovered);
    }
    members.put("nullable", Assembled::Bool(true))?;
    match members.take("type") {
        Some(Assembled::List(names)) => {
            let name = name_beside_null(&names)?;
            members.put("type", Assembled::Text(name))
        }
        _ => Err(Stop::NotCovered),
    }
}

// The first of two names, where the second alone is null.
fn name_beside_null<'t>(names: &[Assembled<'t>]) -> Result<&'t str, Stop>
    ensures { IfOk result (λ name. IsBesideNull name.now (items_assembled names.now)) }
{
    if names.len() != 2 || !is_text_part(&names[1], "null") {
        return Err(Stop::NotCovered);
    }
    match &names[0] {
        Assembled::Text(name) if *name != "null" => Ok(*name),
        _ => Err(Stop::NotCovered),
    }
}
