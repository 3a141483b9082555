//! The enums that are flattened into a map.
ghost use Rattle.std.specs.Prelude.{◌≡◌, ◌++◌, map, IfOk, OnOk};
ghost use Rattle.schemars_shapes.specs.Shape.{flattened_of, shape_of};
ghost use Rattle.schemars_types.specs.Effective.{flattened_enums, part_enums, shape_enums, enums_within, without_options};

use schemars_types::{Flattened, Shape, TypeNo, Types, without_options};
use std::alloc::{AllocError, Global};

/// The enums among the members of a map into which these rows are flattened.
pub fn flattened_enums(
    alloc: Global,
    types: &Types,
    parts: &[Flattened],
) -> Result<Vec<TypeNo>, AllocError>
    ensures { IfOk result (λ v. v.items
        ≡ flattened_enums (part_enums types.now) (map flattened_of parts.now)) }
{
    let mut found = Vec::new(alloc);
    add_enums(types, types.len(), parts, &mut found)?;
    Ok(found)
}

// Adds the enums among what is flattened, at most `steps` deep.
#[cycle(enums)]
fn add_enums(
    types: &Types,
    steps: usize,
    parts: &[Flattened],
    found: &mut Vec<TypeNo>,
) -> Result<(), AllocError>
    ensures { OnOk result (found.new.items ≡ found.old.items
        ++ flattened_enums (λ p. enums_within types.now steps (without_options types.now p.ty))
        (map flattened_of parts.now)) }
{
    for part in parts {
        add_row_enums(types, steps, without_options(types, part.ty), found)?;
    }
    Ok(())
}

// Adds row `n` if it is an enum, or the enums flattened into it, at most `steps` deep.
#[cycle(enums)]
fn add_row_enums(
    types: &Types,
    steps: usize,
    n: TypeNo,
    found: &mut Vec<TypeNo>,
) -> Result<(), AllocError>
    ensures { OnOk result (found.new.items ≡ found.old.items ++ enums_within types.now steps n) }
{
    if steps == 0 {
        return Ok(());
    }
    match types.entry(n) {
        Some(entry) => add_shape_enums(types, steps - 1, n, &entry.shape, found),
        None => Ok(()),
    }
}

#[cycle(enums)]
fn add_shape_enums(
    types: &Types,
    steps: usize,
    n: TypeNo,
    shape: &Shape,
    found: &mut Vec<TypeNo>,
) -> Result<(), AllocError>
    ensures { OnOk result (found.new.items ≡ found.old.items
        ++ shape_enums (λ p. enums_within types.now steps (without_options types.now p.ty)) n
        (shape_of shape.now)) }
{
    match shape {
        Shape::Struct(fields) => add_enums(types, steps, &fields.flatten, found),
        Shape::External(_) | Shape::Internal(_) => {
            found.push(n)?;
            Ok(())
        }
        Shape::Untagged(_) | Shape::Adjacent(_) => Ok(()),
        Shape::Null | Shape::Bool | Shape::Int(_) | Shape::NonZero(_) => Ok(()),
        Shape::Number | Shape::Text | Shape::Char | Shape::Formatted(_) => Ok(()),
        Shape::Any | Shape::Bytes | Shape::SchemaItself | Shape::Literal(_) => Ok(()),
        Shape::Option(_) | Shape::Newtype(_) | Shape::Seq(_) | Shape::Set(_) => Ok(()),
        Shape::Array(..) | Shape::UpTo(..) | Shape::Tuple(_) => Ok(()),
        Shape::Result(..) | Shape::Either(..) => Ok(()),
        Shape::Bound(_) | Shape::Range(_) | Shape::Map(..) => Ok(()),
    }
}
