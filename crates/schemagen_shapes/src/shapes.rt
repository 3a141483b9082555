//! Shapes and entries.
ghost use Rattle.std.specs.Prelude.{◌≡◌, None, Some, IfOk, IfErr, option_map};
ghost use Rattle.schemagen_shapes.specs.Words.{data_of, shape_of, entry_of, formatted, counted_in, array_in, up_to_in, tuple_in, list_under, plain_under, literal_in, two_in, result_in, either_in, map_in, fixed_under, shape_named, shape_under, shape_in, entry_in, as_str};

use crate::error::InputError;
use crate::fields::struct_in;
use crate::members::{flag_in, kind_in, notes_in, number_in, number_of, parts_in};
use crate::variants::{adjacent_in, external_in, internal_in, untagged_in};
use schemagen_json::{BorrowedValue, lone_member};
use schemars_schema::Schema;
use schemars_types::{Shape, TypeEntry, TypeNo};
use std::alloc::{AllocError, Global};

/// The shape that a text says.
pub fn shape_named(name: &str) -> Option<Shape>
    ensures { option_map shape_of result ≡ shape_named name.now }
{
    match name {
        "null" => Some(Shape::Null),
        "bool" => Some(Shape::Bool),
        "number" => Some(Shape::Number),
        "text" => Some(Shape::Text),
        "char" => Some(Shape::Char),
        "any" => Some(Shape::Any),
        "bytes" => Some(Shape::Bytes),
        "schema" => Some(Shape::SchemaItself),
        _ => None,
    }
}

// The row of a list's items, and their number under this name.
fn counted_in(value: &BorrowedValue<'_>, count: &str) -> Option<(TypeNo, u64)>
    ensures { result ≡ counted_in count.now (data_of value.now) }
{
    if !value.has_only(&["of", count]) {
        return None;
    }
    let n = number_of(value, "of")?;
    let count = value.get(count)?.as_u64()?;
    Some((n, count))
}

fn array_in(value: &BorrowedValue<'_>) -> Option<Shape>
    ensures { option_map shape_of result ≡ array_in (data_of value.now) }
{
    let (n, len) = counted_in(value, "len")?;
    Some(Shape::Array(n, len))
}

fn up_to_in(value: &BorrowedValue<'_>) -> Option<Shape>
    ensures { option_map shape_of result ≡ up_to_in (data_of value.now) }
{
    let (n, cap) = counted_in(value, "cap")?;
    Some(Shape::UpTo(n, cap))
}

fn tuple_in(alloc: Global, value: &BorrowedValue<'_>) -> Result<Option<Shape>, AllocError>
    ensures { IfOk result (λ s. option_map shape_of s ≡ tuple_in (data_of value.now)) }
{
    let parts = parts_in(alloc, value)?;
    Ok(parts.map(Shape::Tuple))
}

/// The shape that an object with this one member says.
pub fn shape_under(
    alloc: Global,
    name: &str,
    value: &BorrowedValue<'_>,
) -> Result<Shape, InputError>
    ensures ok { IfOk result (λ s. shape_under name.now (data_of value.now) ≡ Some (shape_of s)) }
    ensures bad { IfErr result
        (λ e. e ≡ InputError.BadTable → shape_under name.now (data_of value.now) ≡ None) }
{
    match name {
        "struct" => struct_in(alloc, value),
        "external" => external_in(alloc, value),
        "untagged" => untagged_in(alloc, value),
        "internal" => internal_in(alloc, value),
        "adjacent" => adjacent_in(alloc, value),
        _ => match plain_under(alloc, name, value)? {
            Some(shape) => Ok(shape),
            None => Err(InputError::BadTable),
        },
    }
}

// A shape without fields and variants.
fn plain_under(
    alloc: Global,
    name: &str,
    value: &BorrowedValue<'_>,
) -> Result<Option<Shape>, AllocError>
    ensures { IfOk result (λ s. option_map shape_of s ≡ plain_under name.now (data_of value.now)) }
{
    Ok(match name {
        "int" => kind_in(value).map(Shape::Int),
        "nonzero" => kind_in(value).map(Shape::NonZero),
        "format" => format_in(alloc, value)?,
        "option" => number_in(value).map(Shape::Option),
        "newtype" => number_in(value).map(Shape::Newtype),
        "literal" => literal_in(alloc, value)?,
        _ => list_under(alloc, name, value)?,
    })
}

// A schema that is used as it is written.
fn literal_in(alloc: Global, value: &BorrowedValue<'_>) -> Result<Option<Shape>, AllocError>
    ensures { IfOk result (λ s. option_map shape_of s ≡ literal_in (data_of value.now)) }
{
    match Schema::try_from(value.to_value(alloc)?) {
        Ok(schema) => Ok(Some(Shape::Literal(schema))),
        Err(_) => Ok(None),
    }
}

// A list, of the kind with this name.
fn list_under(
    alloc: Global,
    name: &str,
    value: &BorrowedValue<'_>,
) -> Result<Option<Shape>, AllocError>
    ensures { IfOk result (λ s. option_map shape_of s ≡ list_under name.now (data_of value.now)) }
{
    Ok(match name {
        "seq" => number_in(value).map(Shape::Seq),
        "set" => number_in(value).map(Shape::Set),
        "array" => array_in(value),
        "up_to" => up_to_in(value),
        "tuple" => tuple_in(alloc, value)?,
        _ => fixed_under(name, value),
    })
}

// Two rows under these names.
fn two_in(value: &BorrowedValue<'_>, first: &str, second: &str) -> Option<(TypeNo, TypeNo)>
    ensures { result ≡ two_in first.now second.now (data_of value.now) }
{
    if !value.has_only(&[first, second]) {
        return None;
    }
    let m = number_of(value, first)?;
    let n = number_of(value, second)?;
    Some((m, n))
}

fn result_in(value: &BorrowedValue<'_>) -> Option<Shape>
    ensures { option_map shape_of result ≡ result_in (data_of value.now) }
{
    let (ok, err) = two_in(value, "ok", "err")?;
    Some(Shape::Result(ok, err))
}

fn either_in(value: &BorrowedValue<'_>) -> Option<Shape>
    ensures { option_map shape_of result ≡ either_in (data_of value.now) }
{
    let (left, right) = two_in(value, "left", "right")?;
    Some(Shape::Either(left, right))
}

fn map_in(value: &BorrowedValue<'_>) -> Option<Shape>
    ensures { option_map shape_of result ≡ map_in (data_of value.now) }
{
    let (key, value) = two_in(value, "key", "value")?;
    Some(Shape::Map(key, value))
}

// A map, of the kind with this name.
fn fixed_under(name: &str, value: &BorrowedValue<'_>) -> Option<Shape>
    ensures { option_map shape_of result ≡ fixed_under name.now (data_of value.now) }
{
    match name {
        "bound" => number_in(value).map(Shape::Bound),
        "range" => number_in(value).map(Shape::Range),
        "result" => result_in(value),
        "either" => either_in(value),
        "map" => map_in(value),
        _ => None,
    }
}

fn format_in(alloc: Global, value: &BorrowedValue<'_>) -> Result<Option<Shape>, AllocError>
    ensures { IfOk result (λ s. option_map shape_of s
        ≡ option_map formatted (as_str (data_of value.now))) }
{
    let Some(format) = value.as_str() else {
        return Ok(None);
    };
    Ok(Some(Shape::Formatted(String::from_str(alloc, format)?)))
}

/// A shape.
pub fn shape_in(alloc: Global, value: &BorrowedValue<'_>) -> Result<Shape, InputError>
    ensures ok { IfOk result (λ s. shape_in (data_of value.now) ≡ Some (shape_of s)) }
    ensures bad { IfErr result
        (λ e. e ≡ InputError.BadTable → shape_in (data_of value.now) ≡ None) }
{
    match value {
        BorrowedValue::String(name) => shape_named(name).ok_or(InputError::BadTable),
        BorrowedValue::Object(members) => {
            let Some((name, part)) = lone_member(members) else {
                return Err(InputError::BadTable);
            };
            shape_under(alloc, name, part)
        }
        _ => Err(InputError::BadTable),
    }
}

/// The entry of a row.
pub fn entry_in(alloc: Global, value: &BorrowedValue<'_>) -> Result<TypeEntry, InputError>
    ensures ok { IfOk result (λ e. entry_in (data_of value.now) ≡ Some (entry_of e)) }
    ensures bad { IfErr result
        (λ e. e ≡ InputError.BadTable → entry_in (data_of value.now) ≡ None) }
{
    let (Some(inline), Some(shape)) = (flag_in(value, "inline"), value.get("shape")) else {
        return Err(InputError::BadTable);
    };
    let notes = notes_in(alloc, value)?;
    let shape = shape_in(alloc, shape)?;
    Ok(TypeEntry {
        inline,
        notes,
        shape,
    })
}
