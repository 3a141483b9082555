//! The templates of results, bounds and either of two.
ghost use Rattle.std.specs.Prelude.{◌≡◌, ◌∷◌, ◌++◌, [], map, IfOk, OnOk};
ghost use Rattle.schemars_documents.specs.Words.{unit_variant, row, finished, template_view, node_view, member_template, result_template, bound_template, either_template};

use schemars_templates::template::maps::member_template;
use schemars_templates::template::nodes::{bare, one_of, row, unit};
use schemars_templates::template::{SchemaNode, SchemaTemplate};
use schemars_types::TypeNo;
use std::alloc::{AllocError, Global};

/// `Ok` with a value of the first row, or `Err` with one of the second.
pub fn result_template<'t>(
    alloc: Global,
    ok: TypeNo,
    err: TypeNo,
) -> Result<SchemaNode<'t>, AllocError>
    ensures { IfOk result (λ t. node_view t ≡ result_template ok err) }
{
    let results = two_members(alloc, ("Ok", ok), ("Err", err), false)?;
    one_of(alloc, results)
}

/// A bound that holds a value of this row, or none.
pub fn bound_template<'t>(alloc: Global, n: TypeNo) -> Result<SchemaNode<'t>, AllocError>
    ensures { IfOk result (λ t. node_view t ≡ bound_template n) }
{
    let mut choices = two_members(alloc, ("Included", n), ("Excluded", n), false)?;
    add_unit(alloc, &mut choices, "Unbounded")?;
    one_of(alloc, choices)
}

/// `Left` with a value of the first row, or `Right` with one of the second.
pub fn either_template<'t>(
    alloc: Global,
    left: TypeNo,
    right: TypeNo,
) -> Result<SchemaNode<'t>, AllocError>
    ensures { IfOk result (λ t. node_view t ≡ either_template left right) }
{
    let choices = two_members(alloc, ("Left", left), ("Right", right), true)?;
    one_of(alloc, choices)
}

// Two maps, each with a value of a row under a name.
fn two_members<'t>(
    alloc: Global,
    first: (&'t str, TypeNo),
    second: (&'t str, TypeNo),
    closed: bool,
) -> Result<Vec<SchemaTemplate<'t>>, AllocError>
    ensures { IfOk result (λ v. map template_view v.items
        ≡ member_template closed first.entry.0.now (row first.entry.1)
        ∷ member_template closed second.entry.0.now (row second.entry.1) ∷ []) }
{
    let first = member_template(alloc, first.0, bare(row(first.1)), closed)?;
    let second = member_template(alloc, second.0, bare(row(second.1)), closed)?;
    let members = vec![in alloc; bare(first), bare(second)]?;
    Ok(members)
}

// Adds this name alone.
fn add_unit<'t>(
    alloc: Global,
    choices: &mut Vec<SchemaTemplate<'t>>,
    name: &'t str,
) -> Result<(), AllocError>
    ensures { OnOk result (map template_view choices.new.items
        ≡ map template_view choices.old.items ++ finished (unit_variant name.now) ∷ []) }
{
    choices.push(bare(unit(alloc, name)?))?;
    Ok(())
}
