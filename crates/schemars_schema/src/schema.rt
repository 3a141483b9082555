//! The type of schemas.
ghost use Rattle.std.specs.Prelude.{◌≡◌, ℕ, None, codes, string_bytes, option_map, IfOk, OnOk, OnErr, OnSome};
ghost use Rattle.schemars_schema.specs.Words.{Data, boolean, object, string, member, no_members, put, as_bool, as_object, get, get_member, view, members_view, IsSchema, is_schema, members_in, inserted, LendsIf, LendsIfOk, LendsSo, sem, map_row, Dialect, Patterns, accepts, removed, replaced, without};
ghost use Rattle.serde_json.specs.contracts.value.Value.{the_row as value_row};

mod ordered;
mod placing;
mod pointer;
mod serialized;

use crate::error::NotASchema;
pub use schemars_text::{definitions_to_ordered_string, write_ordered_definitions};
use serde_json::{Map, Value};
use std::alloc::{AllocError, Global};
use std::marker::Model;

/// A JSON Schema: a JSON value that is an object or a truth value.
///
/// `true` accepts every value, `false` accepts none, and an object accepts what all of its keywords
/// accept.
///
/// ```
/// let mut schema = Schema::default(alloc);
/// schema.insert(alloc, key, value)?;
/// let text = schema.to_ordered_string(alloc)?;
/// ```
#[derive(Drop)]
pub struct Schema {
    value: Value,
}

impl Model for Schema {
    ghost use Rattle.serde_json.specs.Data.{Data};
    ghost use Rattle.serde_json.specs.View.{view as data_of};
    ghost use Rattle.schemars_schema.specs.DataCode.{data_code};
    ghost use Rattle.schemars_schema.specs.SchemaData.{IsSchema};

    ghost Value = { Data };

    ghost coded = { data_code };

    ghost view = { λ s. data_of s.value };

    ghost invariant = { λ s. IsSchema (data_of s.value) };
}

impl Schema {
    ghost use Rattle.schemars_schema.specs.contracts.schema.Schema.{the_row};

    /// Returns the schema `{}`, which accepts every value.
    pub fn default(alloc: Global) -> Schema
        ensures { result ≡ object no_members }
    {
        Schema {
            value: Value::Object(Map::new(alloc)),
        }
    }

    /// Returns the schema `{"$ref": reference}`. The text should be a URI reference, such as a `#`
    /// followed by a JSON Pointer.
    pub fn new_ref(alloc: Global, reference: String) -> Result<Schema, AllocError>
        ensures { IfOk result (λ s. s ≡ object (member (codes "$ref")
            (string (string_bytes reference)) no_members)) }
    {
        let mut members = Map::new(alloc);
        serde_json::put(&mut members, alloc, "$ref", Value::String(reference))?;
        Ok(Schema {
            value: Value::Object(members),
        })
    }

    /// Returns the JSON value, which is an object or a truth value.
    pub fn as_value(&self) -> &Value
        ensures value { view result.now ≡ self.now }
        ensures schema { IsSchema self.now }
    {
        &self.value
    }

    /// Returns the truth value, if the schema is one.
    pub fn as_bool(&self) -> Option<bool>
        ensures { result ≡ as_bool self.now }
    {
        self.value.as_bool()
    }

    /// Returns the keywords and their values, if the schema is an object.
    pub fn as_object(&self) -> Option<&Map<String, Value>>
        ensures { option_map (λ m. members_view m.now.entries) result ≡ as_object self.now }
    {
        self.value.as_object()
    }

    /// Borrows the keywords and their values mutably, if the schema is an object.
    pub fn as_object_mut(&mut self) -> Option<&mut Map<String, Value>>
        ensures* writes_back { sem 𝓛 (LendsIf the_row map_row self.entry result
            (λ m. object (members_view m.entries)) self.old) }
        ensures value { option_map (λ m. members_view m.now.entries) result ≡ as_object self.old }
    {
        self.value.as_object_mut()
    }

    /// Converts the schema into its JSON value.
    pub fn to_value(self) -> Value
        ensures value { view result ≡ self }
        ensures schema { IsSchema self }
    {
        let Schema { value } = self;
        value
    }

    /// Returns the value of a keyword. A truth value has none.
    pub fn get(&self, key: &str) -> Option<&Value>
        ensures { option_map (λ v. view v.now) result ≡ get key.now self.now }
    {
        self.value.get(key)
    }

    /// Borrows the value of a keyword mutably. A truth value has none. Whatever is written through
    /// the result, the whole is still a schema.
    pub fn get_mut(&mut self, key: &str) -> Option<&mut Value>
        ensures* writes_back { sem 𝓛 (LendsSo the_row value_row self.entry result
            (λ n w. OnSome result (n ≡ object (replaced key.now (view w) (members_in self.old))))
            (λ n. n ≡ self.old)) }
        ensures value { option_map (λ v. view v.now) result ≡ get key.now self.old }
    {
        match self.as_object_mut() {
            Some(members) => member_mut(members, key),
            None => None,
        }
    }

    /// Removes a keyword, and returns its value. A truth value has none, and is unchanged.
    pub fn remove(&mut self, key: &str) -> Option<Value>
        ensures value { option_map view result ≡ get key.now self.old }
        ensures removed { self.new ≡ removed key.now self.old }
    {
        match self.as_object_mut() {
            Some(members) => remove_member(members, key),
            None => None,
        }
    }

    /// Returns whether the value is an object or a truth value.
    pub fn is_schema(value: &Value) -> bool
        ensures { result ≡ is_schema (view value.now) }
    {
        value.is_object() || value.is_boolean()
    }

    /// Sets the value of a keyword, and returns the value that it had.
    ///
    /// A truth value becomes an object first, as by `ensure_object`.
    ///
    /// # Errors
    ///
    /// `AllocError` if memory runs out; the schema is then unchanged.
    pub fn insert(
        &mut self,
        alloc: Global,
        key: String,
        value: Value,
    ) -> Result<Option<Value>, AllocError>
        ensures ok { OnOk result (self.new ≡ inserted (string_bytes key) (view value) self.old) }
        ensures old { IfOk result (λ old. option_map view old
            ≡ get_member (string_bytes key) (members_in self.old)) }
        ensures err { OnErr result (self.new ≡ self.old) }
    {
        if let Value::Object(members) = &mut self.value {
            let old = insert_member(members, key, value)?;
            return Ok(old);
        }
        let mut members = members_for_truth_value(alloc, &self.value)?;
        let old = insert_member(&mut members, key, value)?;
        self.value = Value::Object(members);
        Ok(old)
    }

    /// Makes the schema an object, and borrows its keywords and their values mutably.
    ///
    /// `true` becomes `{}`, and `false` becomes `{"not":{}}`, which accept the same values.
    ///
    /// # Errors
    ///
    /// `AllocError` if memory runs out; the schema is then unchanged.
    pub fn ensure_object(&mut self, alloc: Global) -> Result<&mut Map<String, Value>, AllocError>
        ensures* writes_back { sem 𝓛 (LendsIfOk the_row map_row self.entry result
            (λ m. object (members_view m.entries)) self.old) }
        ensures value { IfOk result (λ m. members_view m.now.entries ≡ members_in self.old) }
        ensures says_the_same { IfOk result (λ m. (dialect : Dialect) (document : Data)
            (patterns : Patterns) (n : ℕ) (v : Data)
            → accepts dialect document patterns n (object (members_view m.now.entries)) v
            ≡ accepts dialect document patterns n self.old v) }
    {
        self.make_object(alloc)?;
        match self.as_object_mut() {
            Some(members) => Ok(members),
            None => unreachable!(),
        }
    }

    fn make_object(&mut self, alloc: Global) -> Result<(), AllocError>
        ensures schema { IsSchema self.old }
        ensures ok { OnOk result (self.new ≡ object (members_in self.old)) }
        ensures err { OnErr result (self.new ≡ self.old) }
    {
        if !self.value.is_object() {
            let members = members_for_truth_value(alloc, &self.value)?;
            self.value = Value::Object(members);
        }
        Ok(())
    }
}

impl From<bool> for Schema {
    ghost from_gives = { λ b s. s ≡ boolean b };

    fn from(accepts_all: bool) -> Schema {
        Schema {
            value: Value::Bool(accepts_all),
        }
    }
}

impl From<Map<String, Value>> for Schema {
    ghost from_gives = { λ m s. s ≡ object (members_view m.entries) };

    fn from(members: Map<String, Value>) -> Schema {
        Schema {
            value: Value::Object(members),
        }
    }
}

impl TryFrom<Value> for Schema {
    ghost use Rattle.std.specs.Prelude.{◌≡◌, MatchResult};
    ghost use Rattle.serde_json.specs.View.{view as data_of};
    ghost use Rattle.schemars_schema.specs.SchemaData.{IsSchema};

    type Error = NotASchema;

    ghost try_from_gives = { λ v r. MatchResult r (λ s. s ≡ data_of v)
        (λ e. (e.0 ≡ v) × ¬ IsSchema (data_of v)) };

    fn try_from(value: Value) -> Result<Schema, NotASchema> {
        if Schema::is_schema(&value) {
            Ok(Schema { value })
        } else {
            Err(NotASchema(value))
        }
    }
}

impl From<Schema> for Value {
    ghost from_gives = { λ s v. view v ≡ s };

    fn from(schema: Schema) -> Value {
        schema.to_value()
    }
}

impl Clone for Schema {
    ghost is_clone = { λ s t. t ≡ s };

    fn clone(&self) -> Result<Schema, AllocError> {
        let value = self.value.clone()?;
        Ok(Schema { value })
    }
}

// The members of the object that accepts what the truth value does.
fn members_for_truth_value(alloc: Global, value: &Value) -> Result<Map<String, Value>, AllocError>
    requires { as_object (view value.now) ≡ None }
    ensures { IfOk result (λ m. members_view m.entries ≡ members_in (view value.now)) }
{
    let mut members = Map::new(alloc);
    if let Value::Bool(false) = value {
        let nothing = Value::Object(Map::new(alloc));
        serde_json::put(&mut members, alloc, "not", nothing)?;
    }
    Ok(members)
}

pub(crate) fn insert_member(
    members: &mut Map<String, Value>,
    key: String,
    value: Value,
) -> Result<Option<Value>, AllocError>
    ensures ok { OnOk result (members_view members.new.entries
        ≡ put (string_bytes key) (view value) (members_view members.old.entries)) }
    ensures old { IfOk result (λ old. option_map view old
        ≡ get_member (string_bytes key) (members_view members.old.entries)) }
    ensures err { OnErr result (members.new.entries ≡ members.old.entries) }
{
    Ok(members.insert(key, value)?)
}

fn remove_member(members: &mut Map<String, Value>, key: &str) -> Option<Value>
    ensures value { option_map view result
        ≡ get_member key.now (members_view members.old.entries) }
    ensures removed { members_view members.new.entries
        ≡ without key.now (members_view members.old.entries) }
{
    members.remove(key)
}

pub(crate) fn member_mut<'m>(
    members: &'m mut Map<String, Value>,
    key: &str,
) -> Option<&'m mut Value>
    ensures* writes_back { sem 𝓛 (LendsSo map_row value_row members.entry result
        (λ n w. members_view n.entries
        ≡ replaced key.now (view w) (members_view members.old.entries))
        (λ n. members_view n.entries ≡ members_view members.old.entries)) }
    ensures value { option_map (λ v. view v.now) result
        ≡ get_member key.now (members_view members.old.entries) }
{
    members.get_mut(key)
}
