//! Documents without parts, and which members have to be there.
ghost use Rattle.std.specs.Prelude.{◌≡◌, ◌∷◌, [], IfOk, codes, map};
ghost use Rattle.schemars_documents.specs.Words.{string, array, no_items, item, no_members, members_view, field_of, required_of, is_required, byte_document, bytes_document, schema_document, required_names, char_document, put_all};

use crate::shape::scalars::char_keywords;
use schemars_schema::Schema;
use schemars_templates::finished::typed;
pub use schemars_templates::finished::{annotate, make_root, type_alone};
use schemars_templates::template::scalars::schema_of;
use schemars_types::{Contract, Field, Required};
use serde_json::{Map, Value};
use std::alloc::{AllocError, Global};

/// A text of one code point.
pub fn char_document(alloc: Global) -> Result<Schema, AllocError>
    ensures { IfOk result (λ s. s ≡ char_document) }
{
    let keywords = char_keywords(alloc)?;
    schema_of(alloc, &keywords)
}

/// Bytes: a list of them, or, where they are read, a text.
pub fn bytes_document(alloc: Global, contract: Contract, byte: Schema) -> Result<Schema, AllocError>
    ensures { IfOk result (λ s. byte ≡ byte_document → s ≡ bytes_document contract) }
{
    let mut members = match contract {
        Contract::Deserialize => one_of_two(alloc, "array", "string")?,
        Contract::Serialize => typed(alloc, "array")?,
    };
    serde_json::put(&mut members, alloc, "items", byte.to_value())?;
    Ok(Schema::from(members))
}

/// A schema: a map or a truth value.
pub fn schema_document(alloc: Global) -> Result<Schema, AllocError>
    ensures { IfOk result (λ s. s ≡ schema_document) }
{
    Ok(Schema::from(one_of_two(alloc, "object", "boolean")?))
}

fn one_of_two(alloc: Global, first: &str, second: &str) -> Result<Map<String, Value>, AllocError>
    ensures { IfOk result (λ m. members_view m.entries ≡ put_all ((
      codes "type",
      array (item (string first.now) (item (string second.now) no_items)),
    ) ∷ []) no_members) }
{
    let first = Value::try_from_str(alloc, first)?;
    let second = Value::try_from_str(alloc, second)?;
    let mut members = Map::new(alloc);
    serde_json::put(
        &mut members,
        alloc,
        "type",
        Value::Array(vec![in alloc; first, second]?),
    )?;
    Ok(members)
}

/// The names of the fields that have to be there.
pub fn required_names<'t>(
    alloc: Global,
    contract: Contract,
    fields: &'t [Field],
) -> Result<Vec<&'t str>, AllocError>
    ensures { IfOk result (λ v. map (λ n. n.now) v.items
        ≡ required_names contract (map field_of fields.now)) }
{
    let mut names = Vec::with_capacity(alloc, fields.len())?;
    for field in fields {
        if is_required(contract, field.required) {
            names.push(field.name.as_str())?;
        }
    }
    Ok(names)
}

/// Whether a member has to be there, under this contract.
pub fn is_required(contract: Contract, required: Required) -> bool
    ensures { result ≡ is_required contract (required_of required) }
{
    match contract {
        Contract::Deserialize => required.deserialize,
        Contract::Serialize => required.serialize,
    }
}
