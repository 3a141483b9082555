//! Finished schemas, and what is added to one.
ghost use Rattle.std.specs.Prelude.{◌≡◌, ◌∷◌, [], IfOk, OnOk, option_map};
ghost use Rattle.schemars_templates.specs.Words.{string, object, no_members, members_view, typed, type_alone, annotated, root_document, members_in, inserted, put_all};

use schemars_schema::Schema;
use serde_json::{Map, Value};
use std::alloc::{AllocError, Global};

/// The schema of all values of one JSON type.
pub fn type_alone(alloc: Global, name: &str) -> Result<Schema, AllocError>
    ensures { IfOk result (λ s. s ≡ type_alone name.now) }
{
    Ok(Schema::from(typed(alloc, name)?))
}

/// The members of an object with the keyword `type` alone.
pub fn typed(alloc: Global, name: &str) -> Result<Map<String, Value>, AllocError>
    ensures { IfOk result (λ m. members_view m.entries ≡ put_all (typed name.now ∷ []) no_members) }
{
    let mut members = Map::new(alloc);
    serde_json::put(
        &mut members,
        alloc,
        "type",
        Value::try_from_str(alloc, name)?,
    )?;
    Ok(members)
}

/// The schema with these notes, which take the place of members of their names.
pub fn annotate(
    alloc: Global,
    schema: &mut Schema,
    notes: &Map<String, Value>,
) -> Result<(), AllocError>
    ensures { OnOk result (schema.new ≡ annotated (members_view notes.now.entries) schema.old) }
{
    if notes.is_empty() {
        return Ok(());
    }
    make_object(alloc, schema)?;
    for (key, note) in notes.iter() {
        let _ = schema.insert(alloc, key.clone()?, note.clone()?)?;
    }
    Ok(())
}

fn make_object(alloc: Global, schema: &mut Schema) -> Result<(), AllocError>
    ensures { OnOk result (schema.new ≡ object (members_in schema.old)) }
{
    let _ = schema.ensure_object(alloc)?;
    Ok(())
}

/// Makes a document a root document: an object, with the type's name as its title where it has
/// none, and the meta-schema where there is one.
pub fn make_root(
    alloc: Global,
    schema: &mut Schema,
    name: &str,
    meta_schema: Option<&str>,
) -> Result<(), AllocError>
    ensures { OnOk result (schema.new
        ≡ root_document name.now (option_map (λ s. s.now) meta_schema.entry) schema.old) }
{
    make_object(alloc, schema)?;
    if schema.get("title").is_none() {
        set(alloc, schema, "title", name)?;
    }
    if let Some(uri) = meta_schema {
        set(alloc, schema, "$schema", uri)?;
    }
    Ok(())
}

// Sets a keyword whose value is a text.
pub(crate) fn set(
    alloc: Global,
    schema: &mut Schema,
    key: &str,
    text: &str,
) -> Result<(), AllocError>
    ensures { OnOk result (schema.new ≡ inserted key.now (string text.now) schema.old) }
{
    let key = String::from_str(alloc, key)?;
    let _ = schema.insert(alloc, key, Value::try_from_str(alloc, text)?)?;
    Ok(())
}
