//! Fields of structs.
ghost use Rattle.std.specs.Prelude.{◌≡◌, true, None, Some, IfOk, IfErr, option_map, map, codes};
ghost use Rattle.schemagen_shapes.specs.Words.{data_of, items_data, shape_of, field_of, flattened_of, fields_of, required_of, required, required_each, required_in, field_in, fields_said, struct_in, flattened_from, optional_member, fields_in, all_flattened_in, read_each};

use crate::error::InputError;
use crate::members::{flag_in, items_under, notes_in, number_of, text_in};
use schemagen_json::BorrowedValue;
use schemars_types::{Field, Fields, Flattened, Required, Shape};
use std::alloc::Global;

// Whether a member has to be there, said for values that are read and for those that are written.
fn required_each(value: &BorrowedValue<'_>) -> Option<Required>
    ensures { option_map required_of result ≡ required_each (data_of value.now) }
{
    if !value.has_only(&["deserialize", "serialize"]) {
        return None;
    }
    let deserialize = value.get("deserialize")?.as_bool()?;
    let serialize = value.get("serialize")?.as_bool()?;
    Some(Required {
        deserialize,
        serialize,
    })
}

/// Whether a member has to be there: a truth value says it for both directions.
pub fn required_in(value: &BorrowedValue<'_>) -> Option<Required>
    ensures { option_map required_of result ≡ required_in (data_of value.now) }
{
    match value.as_bool() {
        Some(both) => Some(Required {
            deserialize: both,
            serialize: both,
        }),
        None => required_each(value),
    }
}

// What a field says under `required`; where that is missing, it has to be there.
fn need_in(value: &BorrowedValue<'_>) -> Option<Required>
    ensures { option_map required_of result
        ≡ optional_member (required true true) required_in (codes "required") (data_of value.now) }
{
    match value.get("required") {
        None => Some(Required {
            deserialize: true,
            serialize: true,
        }),
        Some(need) => required_in(need),
    }
}

const FIELD_NAMES: [&str; 4] = ["name", "type", "required", "notes"];

fn field_in(alloc: Global, value: &BorrowedValue<'_>) -> Result<Field, InputError>
    ensures ok { IfOk result (λ f. field_in (data_of value.now) ≡ Some (field_of f)) }
    ensures bad { IfErr result
        (λ e. e ≡ InputError.BadTable → field_in (data_of value.now) ≡ None) }
{
    if !value.has_only(&FIELD_NAMES) {
        return Err(InputError::BadTable);
    }
    let (Some(name), Some(ty), Some(required)) = (
        text_in(value, "name"),
        number_of(value, "type"),
        need_in(value),
    ) else {
        return Err(InputError::BadTable);
    };
    let notes = notes_in(alloc, value)?;
    let name = String::from_str(alloc, name)?;
    Ok(Field {
        name,
        ty,
        required,
        notes,
    })
}

// The fields of a struct; there are none where they are missing.
fn fields_in(alloc: Global, value: &BorrowedValue<'_>) -> Result<Vec<Field>, InputError>
    ensures ok { IfOk result (λ v. fields_in (data_of value.now) ≡ Some (map field_of v.items)) }
    ensures bad { IfErr result (λ e. e ≡ InputError.BadTable
        → fields_in (data_of value.now) ≡ None) }
{
    let Some(items) = items_under(value, "fields") else {
        return Err(InputError::BadTable);
    };
    let mut fields = Vec::new(alloc);
    for item in items {
        let field = field_in(alloc, item)?;
        fields.push(field)?;
    }
    Ok(fields)
}

fn flattened_in(value: &BorrowedValue<'_>) -> Option<Flattened>
    ensures { option_map flattened_of result ≡ flattened_from (data_of value.now) }
{
    if !value.has_only(&["type", "required"]) {
        return None;
    }
    let ty = number_of(value, "type")?;
    let required = need_in(value)?;
    Some(Flattened { ty, required })
}

/// The rows flattened into a struct that these items say.
pub fn flattened_each(
    alloc: Global,
    items: &[BorrowedValue<'_>],
) -> Result<Vec<Flattened>, InputError>
    ensures ok { IfOk result
        (λ v. read_each flattened_from (items_data items.now) ≡ Some (map flattened_of v.items)) }
    ensures bad { IfErr result (λ e. e ≡ InputError.BadTable
        → read_each flattened_from (items_data items.now) ≡ None) }
{
    let mut rows = Vec::new(alloc);
    for item in items {
        let Some(row) = flattened_in(item) else {
            return Err(InputError::BadTable);
        };
        rows.push(row)?;
    }
    Ok(rows)
}

// The rows flattened into a struct; there are none where they are missing.
fn all_flattened_in(alloc: Global, value: &BorrowedValue<'_>) -> Result<Vec<Flattened>, InputError>
    ensures ok { IfOk result
        (λ v. all_flattened_in (data_of value.now) ≡ Some (map flattened_of v.items)) }
    ensures bad { IfErr result (λ e. e ≡ InputError.BadTable
        → all_flattened_in (data_of value.now) ≡ None) }
{
    match items_under(value, "flatten") {
        Some(items) => flattened_each(alloc, items),
        None => Err(InputError::BadTable),
    }
}

/// The fields of a struct, the rows flattened into it, and whether other keys are excluded.
pub fn fields_said(alloc: Global, value: &BorrowedValue<'_>) -> Result<Fields, InputError>
    ensures ok { IfOk result (λ f. fields_said (data_of value.now) ≡ Some (fields_of f)) }
    ensures bad { IfErr result (λ e. e ≡ InputError.BadTable
        → fields_said (data_of value.now) ≡ None) }
{
    if !value.has_only(&["fields", "flatten", "closed"]) {
        return Err(InputError::BadTable);
    }
    let Some(closed) = flag_in(value, "closed") else {
        return Err(InputError::BadTable);
    };
    let list = fields_in(alloc, value)?;
    let flatten = all_flattened_in(alloc, value)?;
    Ok(Fields {
        list,
        flatten,
        closed,
    })
}

/// A struct.
pub fn struct_in(alloc: Global, value: &BorrowedValue<'_>) -> Result<Shape, InputError>
    ensures ok { IfOk result (λ s. struct_in (data_of value.now) ≡ Some (shape_of s)) }
    ensures bad { IfErr result
        (λ e. e ≡ InputError.BadTable → struct_in (data_of value.now) ≡ None) }
{
    let fields = fields_said(alloc, value)?;
    Ok(Shape::Struct(fields))
}
