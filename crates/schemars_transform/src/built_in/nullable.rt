//! `nullable` for dialects that have no null among their types.
ghost use Rattle.std.specs.Prelude.{◌≡◌, OnOk, Some, true, codes};
ghost use Rattle.schemars_transform.specs.Words.{array, boolean, get, view, items_view, inserted, holds_text, is_null_name, all_null, nulls_in, has_null, without_null, one_or_list, type_without_null, null_taken_out, null_alone, null_among};

use crate::built_in::keywords::put;
use schemars_schema::Schema;
use schemars_walk::rewrite::change::{Change, change_all};
use schemars_walk::{Transform, TransformError};
use serde_json::Value;
use std::alloc::{AllocError, Global};
use std::mem;

/// Sets `nullable` to true where `type` has `null`.
///
/// If `null` is the only type, `const` becomes null and `type` is removed. If it is one of several,
/// it is removed, and a list of one type becomes that type.
#[derive(Clone, Copy)]
pub struct AddNullable {
    /// Whether `null` is removed from `type`. True by default.
    pub remove_null_type: bool,
    /// Whether `const` is set to null if `null` is the only type. True by default; otherwise `type`
    /// becomes an empty list.
    pub add_const_null: bool,
}

impl Default for AddNullable {
    ghost use Rattle.std.specs.Prelude.{◌≡◌, true};

    ghost is_default = { λ t. t ≡ record { remove_null_type = true; add_const_null = true } };

    fn default() -> AddNullable {
        AddNullable {
            remove_null_type: true,
            add_const_null: true,
        }
    }
}

impl Transform for AddNullable {
    ghost use Rattle.schemars_transform.specs.Built.{Changes};
    ghost use Rattle.schemars_transform.specs.Nullable.{add_nullable};

    ghost makes = { λ t s r u v. Changes (add_nullable t) t s r u v };

    fn transform(&mut self, alloc: Global, schema: &mut Schema) -> Result<(), TransformError> {
        change_all(*self, alloc, schema)?;
        Ok(())
    }
}

impl Change for AddNullable {
    ghost use Rattle.schemars_transform.specs.Nullable.{with_nullable};

    ghost changed = { λ t s. with_nullable t s };

    fn change(self, alloc: Global, schema: &mut Schema) -> Result<(), AllocError> {
        match nulls_in(schema) {
            Nulls::Missing => Ok(()),
            Nulls::Alone => {
                set_nullable(alloc, schema)?;
                self.null_alone(alloc, schema)
            }
            Nulls::Among => {
                set_nullable(alloc, schema)?;
                self.null_among(schema);
                Ok(())
            }
        }
    }
}

impl AddNullable {
    fn null_alone(self, alloc: Global, schema: &mut Schema) -> Result<(), AllocError>
        ensures { OnOk result (schema.new ≡ null_alone self schema.old) }
    {
        if self.add_const_null {
            let _old = put(alloc, schema, "const", Value::Null)?;
            if self.remove_null_type {
                let _types = schema.remove("type");
            }
        } else if self.remove_null_type {
            let _types = put(alloc, schema, "type", Value::Array(Vec::new(alloc)))?;
        }
        Ok(())
    }

    fn null_among(self, schema: &mut Schema)
        ensures { schema.new ≡ null_among self schema.old }
    {
        if self.remove_null_type {
            take_null_out(schema);
        }
    }
}

// Whether a type holds null, and whether it holds nothing else.
#[derive(Clone, Copy)]
enum Nulls {
    Missing,
    Alone,
    Among,
}

fn set_nullable(alloc: Global, schema: &mut Schema) -> Result<(), AllocError>
    ensures { OnOk result (schema.new ≡ inserted (codes "nullable") (boolean true) schema.old) }
{
    let _old = put(alloc, schema, "nullable", Value::Bool(true))?;
    Ok(())
}

fn nulls_in(schema: &Schema) -> Nulls
    ensures { result ≡ nulls_in (get (codes "type") schema.now) }
{
    match schema.get("type") {
        Some(types) => nulls_of(types),
        None => Nulls::Missing,
    }
}

fn nulls_of(types: &Value) -> Nulls
    ensures { result ≡ nulls_in (Some (view types.now)) }
{
    match types {
        Value::String(name) => {
            if name.as_str() == "null" {
                Nulls::Alone
            } else {
                Nulls::Missing
            }
        }
        Value::Array(names) => nulls_among(names),
        _ => Nulls::Missing,
    }
}

/// Whether a `type` holds null.
pub fn has_null(types: &Value) -> bool
    ensures { result ≡ has_null (view types.now) }
{
    match types {
        Value::String(name) => name.as_str() == "null",
        Value::Array(names) => holds_null(names),
        _ => false,
    }
}

fn nulls_among(names: &[Value]) -> Nulls
    ensures { result ≡ nulls_in (Some (array (items_view names.now))) }
{
    if !holds_null(names) {
        Nulls::Missing
    } else if all_null(names) {
        Nulls::Alone
    } else {
        Nulls::Among
    }
}

fn holds_null(names: &[Value]) -> bool
    ensures { result ≡ holds_text (codes "null") (items_view names.now) }
{
    for name in names {
        if is_null_name(name) {
            return true;
        }
    }
    false
}

fn all_null(names: &[Value]) -> bool
    ensures { result ≡ all_null (items_view names.now) }
{
    for name in names {
        if !is_null_name(name) {
            return false;
        }
    }
    true
}

fn is_null_name(name: &Value) -> bool
    ensures { result ≡ is_null_name (view name.now) }
{
    match name.as_str() {
        Some(found) => found == "null",
        None => false,
    }
}

fn take_null_out(schema: &mut Schema)
    ensures { schema.new ≡ null_taken_out (get (codes "type") schema.old) schema.old }
{
    if let Some(types) = schema.get_mut("type") {
        remove_null(types);
    }
}

fn remove_null(types: &mut Value)
    ensures { view types.new ≡ type_without_null (view types.old) }
{
    match mem::replace(types, Value::Null) {
        Value::Array(names) => *types = one_or_list(without_null(names)),
        unchanged => *types = unchanged,
    }
}

fn without_null(names: Vec<Value>) -> Vec<Value>
    ensures { items_view result.items ≡ without_null (items_view names.items) }
{
    let mut names = names;
    names.retain(|name| !is_null_name(name));
    names
}

// A list of one becomes its item.
fn one_or_list(names: Vec<Value>) -> Value
    ensures { view result ≡ one_or_list (items_view names.items) }
{
    let mut names = names;
    if names.len() != 1 {
        return Value::Array(names);
    }
    match names.pop() {
        Some(only) => only,
        None => Value::Array(names),
    }
}
