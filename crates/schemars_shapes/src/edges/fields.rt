//! What fields refer to, and their names.
ghost use Rattle.std.specs.Prelude.{◌≡◌, ◌++◌, nat_le, find, map, bytes_eq, string_bytes, IfOk, OnOk, MatchOption};
ghost use Rattle.schemars_shapes.specs.Words.{IsDistinct, field_of, fields_of, fields_numbers, flattened_rows, IsRepeated, field_rows};

use crate::edges::names::first_repeated;
use crate::edges::rows::Rows;
use crate::shape::{Fields, TypeNo};
use std::alloc::{AllocError, Global};

/// Adds the rows of this kind: all, or those that are flattened.
pub(crate) fn add_rows(
    fields: &Fields,
    kind: Rows,
    rows: &mut Vec<TypeNo>,
) -> Result<(), AllocError>
    ensures { OnOk result (rows.new.items
        ≡ rows.old.items ++ field_rows kind (fields_of fields.now)) }
{
    match kind {
        Rows::All => add_types(fields, rows)?,
        Rows::Flattened | Rows::Same | Rows::Asked => {}
    }
    add_flattened(fields, rows)
}

fn add_types(fields: &Fields, numbers: &mut Vec<TypeNo>) -> Result<(), AllocError>
    ensures { OnOk result (numbers.new.items
        ≡ numbers.old.items ++ map (λ f. f.ty) (map field_of fields.now.list.items)) }
{
    for field in &fields.list {
        numbers.push(field.ty)?;
    }
    Ok(())
}

fn add_flattened(fields: &Fields, numbers: &mut Vec<TypeNo>) -> Result<(), AllocError>
    ensures { OnOk result (numbers.new.items
        ≡ numbers.old.items ++ flattened_rows (fields_of fields.now)) }
{
    for flattened in &fields.flatten {
        numbers.push(flattened.ty)?;
    }
    Ok(())
}

pub(crate) fn first_unknown(fields: &Fields, len: usize) -> Option<TypeNo>
    ensures { result ≡ find (λ n. nat_le len n) (fields_numbers (fields_of fields.now)) }
{
    match unknown_field(fields, len) {
        Some(n) => Some(n),
        None => unknown_flattened(fields, len),
    }
}

fn unknown_field(fields: &Fields, len: usize) -> Option<TypeNo>
    ensures { result ≡ find (λ n. nat_le len n)
        (map (λ f. f.ty) (map field_of fields.now.list.items)) }
{
    for field in &fields.list {
        if len <= field.ty {
            return Some(field.ty);
        }
    }
    None
}

fn unknown_flattened(fields: &Fields, len: usize) -> Option<TypeNo>
    ensures { result ≡ find (λ n. nat_le len n) (flattened_rows (fields_of fields.now)) }
{
    for flattened in &fields.flatten {
        if len <= flattened.ty {
            return Some(flattened.ty);
        }
    }
    None
}

pub(crate) fn repeated_name(alloc: Global, fields: &Fields) -> Result<Option<String>, AllocError>
    ensures { IfOk result (λ r.
        let names = map (λ f. f.name) (map field_of fields.now.list.items) in
        MatchOption r (IsDistinct bytes_eq names) (λ s. IsRepeated names (string_bytes s))) }
{
    let mut names = Vec::new(alloc);
    for field in &fields.list {
        names.push(field.name.as_str())?;
    }
    first_repeated(alloc, &names)
}
