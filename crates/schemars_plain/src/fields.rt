//! The fields of a struct together with those of the rows that are flattened into it.
ghost use Rattle.std.specs.Prelude.{◌≡◌, ◌↔◌, ◌++◌, map, IsTrue, IfOk, OnOk};
ghost use Rattle.schemars_plain.specs.Words.{field_of, fields_of, shape_of, fields_within, shape_fields, effective, part_fields, flattened_in, IsNoName, AreDistinct, AreNoted, as_said};

use crate::names::is_no_name;
use crate::notes::are_notes;
use schemars_shapes::first_repeated;
use schemars_types::{Field, Fields, Shape, TypeNo, Types, without_options};
use std::alloc::{AllocError, Global};

/// Whether the fields of a struct, and those of the rows flattened into it, have annotations alone
/// for notes, and names that all differ.
pub fn are_plain(alloc: Global, types: &Types, fields: &Fields) -> Result<bool, AllocError>
    ensures { IfOk result (λ b. IsTrue b
        ↔ (AreDistinct (effective (flattened_in types.now) (fields_of fields.now))
        × AreNoted (effective (flattened_in types.now) (fields_of fields.now)))) }
{
    let found = all_fields(alloc, types, fields)?;
    Ok(are_distinct(alloc, &found)? && are_noted(&found))
}

/// Whether none of the fields, its own or flattened, has this name.
pub fn lacks(alloc: Global, types: &Types, fields: &Fields, name: &str) -> Result<bool, AllocError>
    ensures { IfOk result (λ b. IsTrue b
        ↔ IsNoName name.now (effective (flattened_in types.now) (fields_of fields.now))) }
{
    let found = all_fields(alloc, types, fields)?;
    Ok(is_no_name(name, &found))
}

/// The names of the fields of a struct, and of those of the rows flattened into it.
pub fn field_names<'t>(
    alloc: Global,
    types: &'t Types,
    fields: &'t Fields,
) -> Result<Vec<&'t str>, AllocError>
    ensures { IfOk result (λ v. map (λ n. n.now) v.items
        ≡ map (λ f. f.name) (effective (flattened_in types.now) (fields_of fields.now))) }
{
    let found = all_fields(alloc, types, fields)?;
    names(alloc, &found)
}

/// Returns the fields of a struct, and then those of the rows flattened into it.
///
/// # Errors
///
/// Only where memory runs out.
pub fn all_fields<'t>(
    alloc: Global,
    types: &'t Types,
    fields: &'t Fields,
) -> Result<Vec<&'t Field>, AllocError>
    ensures { IfOk result (λ v. map as_said (map (λ f. field_of f.now) v.items)
        ≡ map as_said (effective (flattened_in types.now) (fields_of fields.now))) }
{
    let mut found = Vec::new(alloc);
    add_fields(types, types.len(), fields, &mut found)?;
    Ok(found)
}

fn names<'t>(alloc: Global, fields: &[&'t Field]) -> Result<Vec<&'t str>, AllocError>
    ensures { IfOk result (λ v. map (λ n. n.now) v.items
        ≡ map (λ f. f.name) (map (λ f. field_of f.now) fields.now)) }
{
    let mut names = Vec::new(alloc);
    for field in fields {
        names.push(field.name.as_str())?;
    }
    Ok(names)
}

// Whether the names of the fields all differ.
fn are_distinct(alloc: Global, fields: &[&Field]) -> Result<bool, AllocError>
    ensures { IfOk result (λ b. IsTrue b ↔ AreDistinct (map (λ f. field_of f.now) fields.now)) }
{
    let names = names(alloc, fields)?;
    Ok(first_repeated(alloc, &names)?.is_none())
}

fn are_noted(fields: &[&Field]) -> bool
    ensures { IsTrue result ↔ AreNoted (map (λ f. field_of f.now) fields.now) }
{
    for field in fields {
        if !are_notes(&field.notes) {
            return false;
        }
    }
    true
}

// Adds the fields of a struct, and those of the rows flattened into it, at most `steps` deep.
#[cycle(fields)]
fn add_fields<'t>(
    types: &'t Types,
    steps: usize,
    fields: &'t Fields,
    found: &mut Vec<&'t Field>,
) -> Result<(), AllocError>
    ensures { OnOk result (map as_said (map (λ f. field_of f.now) found.new.items)
        ≡ map as_said (map (λ f. field_of f.now) found.old.items)
        ++ map as_said (effective (part_fields types.now (fields_within types.now steps))
        (fields_of fields.now))) }
{
    add_own(fields, found)?;
    for part in &fields.flatten {
        add_row(types, steps, without_options(types, part.ty), found)?;
    }
    Ok(())
}

// Adds those of row `n`, a struct, at most `steps` deep.
#[cycle(fields)]
fn add_row<'t>(
    types: &'t Types,
    steps: usize,
    n: TypeNo,
    found: &mut Vec<&'t Field>,
) -> Result<(), AllocError>
    ensures { OnOk result (map as_said (map (λ f. field_of f.now) found.new.items)
        ≡ map as_said (map (λ f. field_of f.now) found.old.items)
        ++ map as_said (fields_within types.now steps n)) }
{
    if steps == 0 {
        return Ok(());
    }
    match types.entry(n) {
        Some(entry) => add_shape(types, steps - 1, &entry.shape, found),
        None => Ok(()),
    }
}

#[cycle(fields)]
fn add_shape<'t>(
    types: &'t Types,
    steps: usize,
    shape: &'t Shape,
    found: &mut Vec<&'t Field>,
) -> Result<(), AllocError>
    ensures { OnOk result (map as_said (map (λ f. field_of f.now) found.new.items)
        ≡ map as_said (map (λ f. field_of f.now) found.old.items)
        ++ map as_said (shape_fields (part_fields types.now (fields_within types.now steps))
        (shape_of shape.now))) }
{
    match shape {
        Shape::Struct(fields) => add_fields(types, steps, fields, found),
        _ => Ok(()),
    }
}

fn add_own<'t>(fields: &'t Fields, found: &mut Vec<&'t Field>) -> Result<(), AllocError>
    ensures { OnOk result (map as_said (map (λ f. field_of f.now) found.new.items)
        ≡ map as_said (map (λ f. field_of f.now) found.old.items)
        ++ map as_said (fields_of fields.now).list) }
{
    for field in &fields.list {
        found.push(field)?;
    }
    Ok(())
}
