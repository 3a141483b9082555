//! The members of objects, and what single values say.
ghost use Rattle.std.specs.Prelude.{◌≡◌, false, None, Some, IfOk, IfErr, option_map};
ghost use Rattle.schemagen_shapes.specs.Words.{no_items, members_view, data_of, items_data, number_in, notes_in, kind_named, kind_in, parts_from, read_each, items_under, optional_member, needed_member, as_bool, as_str};

use crate::error::InputError;
use schemagen_json::{BorrowedValue, copy_members};
use schemars_types::{IntKind, TypeNo};
use serde_json::{Map, Value};
use std::alloc::{AllocError, Global};

fn no_items<'v, 'a>() -> &'v [BorrowedValue<'a>]
    ensures { items_data result.now ≡ no_items }
{
    &[]
}

/// The items of the list under this key: none where it is missing.
pub fn items_under<'v, 'a>(
    value: &'v BorrowedValue<'a>,
    key: &str,
) -> Option<&'v [BorrowedValue<'a>]>
    ensures { option_map (λ v. items_data v.now) result ≡ items_under key.now (data_of value.now) }
{
    let Some(list) = value.get(key) else {
        return Some(no_items::<'v, 'a>());
    };
    Some(list.as_array()?)
}

/// A number of a row.
pub fn number_in(value: &BorrowedValue<'_>) -> Option<TypeNo>
    ensures { result ≡ number_in (data_of value.now) }
{
    let number = value.as_u64()?;
    Some(number as usize)
}

fn numbers_in(
    alloc: Global,
    values: &[BorrowedValue<'_>],
) -> Result<Option<Vec<TypeNo>>, AllocError>
    ensures { IfOk result (λ r. option_map (λ v. v.items) r
        ≡ read_each number_in (items_data values.now)) }
{
    let mut numbers = Vec::new(alloc);
    for value in values {
        let Some(n) = number_in(value) else {
            return Ok(None);
        };
        numbers.push(n)?;
    }
    Ok(Some(numbers))
}

/// The rows that a list says.
pub fn parts_in(alloc: Global, value: &BorrowedValue<'_>) -> Result<Option<Vec<TypeNo>>, AllocError>
    ensures { IfOk result (λ r. option_map (λ v. v.items) r ≡ parts_from (data_of value.now)) }
{
    match value.as_array() {
        Some(values) => numbers_in(alloc, values),
        None => Ok(None),
    }
}

fn kind_named(name: &str) -> Option<IntKind>
    ensures { result ≡ kind_named name.now }
{
    match name {
        "i8" => Some(IntKind::I8),
        "i16" => Some(IntKind::I16),
        "i32" => Some(IntKind::I32),
        "i64" => Some(IntKind::I64),
        "i128" => Some(IntKind::I128),
        "isize" => Some(IntKind::Isize),
        "u8" => Some(IntKind::U8),
        "u16" => Some(IntKind::U16),
        "u32" => Some(IntKind::U32),
        "u64" => Some(IntKind::U64),
        "u128" => Some(IntKind::U128),
        "usize" => Some(IntKind::Usize),
        _ => None,
    }
}

/// A kind of whole number.
pub fn kind_in(value: &BorrowedValue<'_>) -> Option<IntKind>
    ensures { result ≡ kind_in (data_of value.now) }
{
    kind_named(value.as_str()?)
}

/// The text of a member that has to be there.
pub fn text_in<'a>(value: &BorrowedValue<'a>, name: &str) -> Option<&'a str>
    ensures { option_map (λ t. t.now) result ≡ needed_member as_str name.now (data_of value.now) }
{
    value.get(name)?.as_str()
}

/// The number of a member that has to be there.
pub fn number_of(value: &BorrowedValue<'_>, name: &str) -> Option<TypeNo>
    ensures { result ≡ needed_member number_in name.now (data_of value.now) }
{
    number_in(value.get(name)?)
}

/// The truth value of a member; one that is missing is false.
pub fn flag_in(value: &BorrowedValue<'_>, name: &str) -> Option<bool>
    ensures { result ≡ optional_member false as_bool name.now (data_of value.now) }
{
    match value.get(name) {
        None => Some(false),
        Some(flag) => flag.as_bool(),
    }
}

/// The notes of a row, a field or a variant: none where they are missing.
pub fn notes_in(alloc: Global, value: &BorrowedValue<'_>) -> Result<Map<String, Value>, InputError>
    ensures ok { IfOk result (λ m. notes_in (data_of value.now) ≡ Some (members_view m.entries)) }
    ensures bad { IfErr result
        (λ e. e ≡ InputError.BadTable → notes_in (data_of value.now) ≡ None) }
{
    let Some(notes) = value.get("notes") else {
        return Ok(Map::new(alloc));
    };
    match notes.as_object() {
        Some(members) => Ok(copy_members(alloc, members)?),
        None => Err(InputError::BadTable),
    }
}
