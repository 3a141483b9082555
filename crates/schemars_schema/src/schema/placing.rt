//! Members put into a schema at a JSON Pointer.
ghost use Rattle.std.specs.Prelude.{◌≡◌, if◌then◌else◌, [], Some, None, IsTrue, IfOk, OnOk};
ghost use Rattle.schemars_schema.specs.Words.{object, view, members_view, put_members, pointed_in, placed, placed_at, tokens_below};

use crate::schema::pointer::{split_token, unescaped};
use crate::schema::{Schema, insert_member, member_mut};
use serde_json::{Map, Value};
use std::alloc::{AllocError, Global};

impl Schema {
    /// Adds these members to the object at a JSON Pointer (RFC 6901), and returns whether it could.
    /// Missing objects on the way are created.
    ///
    /// It returns false if the pointer is empty, is only `/`, or does not begin with `/`, and if a
    /// value on the way is not an object. The content of the schema is then unspecified.
    pub fn merge_at(
        &mut self,
        alloc: Global,
        pointer: &str,
        members: Map<String, Value>,
    ) -> Result<bool, AllocError>
        ensures merged { IfOk result (λ done.
            placed_at pointer.now (members_view members.entries) self.old
            ≡ (if done then Some self.new else None)) }
        ensures found { IfOk result (λ done. IsTrue done → pointed_in pointer.now self.new
            ≡ placed [] (members_view members.entries) (pointed_in pointer.now self.old)) }
    {
        if pointer.len() < 2 || !pointer.starts_with('/') {
            return Ok(false);
        }
        match self.as_object_mut() {
            Some(whole) => place(alloc, whole, pointer, members),
            None => Ok(false),
        }
    }
}

// Puts the members into the object that the pointer leads to, and answers whether it could.
fn place(
    alloc: Global,
    into: &mut Map<String, Value>,
    pointer: &str,
    members: Map<String, Value>,
) -> Result<bool, AllocError>
    ensures { IfOk result (λ done.
        placed (tokens_below pointer.now) (members_view members.entries)
        (Some (object (members_view into.old.entries)))
        ≡ (if done then Some (object (members_view into.new.entries)) else None)) }
{
    let Some(tokens) = pointer.strip_prefix('/') else {
        put_members(into, members)?;
        return Ok(true);
    };
    let (token, below) = split_token(tokens);
    let key = unescaped(alloc, token)?;
    match member_mut(into, key.as_str()) {
        Some(member) => match member.as_object_mut() {
            Some(inner) => place(alloc, inner, below, members),
            None => Ok(false),
        },
        None => {
            let made = nested(alloc, below, members)?;
            let _none = insert_member(into, key, made)?;
            Ok(true)
        }
    }
}

// An object of these members, inside an object for each token.
fn nested(alloc: Global, pointer: &str, members: Map<String, Value>) -> Result<Value, AllocError>
    ensures { IfOk result (λ made.
        placed (tokens_below pointer.now) (members_view members.entries) None
        ≡ Some (view made)) }
{
    let Some(tokens) = pointer.strip_prefix('/') else {
        return Ok(Value::Object(members));
    };
    let (token, below) = split_token(tokens);
    let key = unescaped(alloc, token)?;
    let inner = nested(alloc, below, members)?;
    let mut outer = Map::new(alloc);
    let _none = insert_member(&mut outer, key, inner)?;
    Ok(Value::Object(outer))
}

// Puts the members in, one after another.
fn put_members(into: &mut Map<String, Value>, members: Map<String, Value>) -> Result<(), AllocError>
    ensures { OnOk result (members_view into.new.entries
        ≡ put_members (members_view members.entries) (members_view into.old.entries)) }
{
    for (key, value) in members {
        let _old = insert_member(into, key, value)?;
    }
    Ok(())
}
