//! Values that own their texts, from values that borrow them.
ghost use Rattle.std.specs.Prelude.{◌≡◌, IfOk};
ghost use Rattle.serde_json.specs.View.{view, items_view, members_view};
ghost use Rattle.schemagen_json.specs.BorrowedValue.{data_of, items_data, members_data};

use crate::borrowed_value::BorrowedValue;
use serde_json::{Map, Value};
use std::alloc::{AllocError, Global};

impl BorrowedValue<'_> {
    /// The same value with texts of its own.
    pub fn to_value(&self, alloc: Global) -> Result<Value, AllocError>
        ensures { IfOk result (λ v. view v ≡ data_of self.now) }
    {
        copy(alloc, self)
    }
}

#[cycle(copy)]
fn copy(alloc: Global, value: &BorrowedValue<'_>) -> Result<Value, AllocError>
    ensures { IfOk result (λ v. view v ≡ data_of value.now) }
{
    match value {
        BorrowedValue::Null => Ok(Value::Null),
        BorrowedValue::Bool(b) => Ok(Value::Bool(*b)),
        BorrowedValue::Number(n) => Ok(Value::Number(*n)),
        BorrowedValue::String(text) => Ok(Value::String(String::from_str(alloc, text)?)),
        BorrowedValue::Array(items) => Ok(Value::Array(copy_items(alloc, items)?)),
        BorrowedValue::Object(members) => Ok(Value::Object(copy_members(alloc, members)?)),
    }
}

#[cycle(copy)]
fn copy_items(alloc: Global, items: &[BorrowedValue<'_>]) -> Result<Vec<Value>, AllocError>
    ensures { IfOk result (λ v. items_view v.items ≡ items_data items.now) }
{
    let mut copies = Vec::with_capacity(alloc, items.len())?;
    for item in items {
        copies.push(copy(alloc, item)?)?;
    }
    Ok(copies)
}

/// The members with texts of their own. Of a name that comes twice, the last member stays.
#[cycle(copy)]
pub fn copy_members(
    alloc: Global,
    members: &[(&str, BorrowedValue<'_>)],
) -> Result<Map<String, Value>, AllocError>
    ensures { IfOk result (λ m. members_view m.entries ≡ members_data members.now) }
{
    let mut copies = Map::new(alloc);
    for (name, member) in members {
        let name = String::from_str(alloc, name)?;
        drop(copies.insert(name, copy(alloc, member)?)?);
    }
    Ok(copies)
}
