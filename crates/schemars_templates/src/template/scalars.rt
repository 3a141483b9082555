//! Finished JSON that a template borrows.
ghost use Rattle.std.specs.Prelude.{◌≡◌, map, IfOk};
ghost use Rattle.schemars_templates.specs.Words.{array, no_members, view, members_view, object_of, put_all, text_items, scalar_view, scalar_keyword};

use crate::template::Scalar;
use schemars_schema::Schema;
use serde_json::{Map, Value};
use std::alloc::{AllocError, Global};

/// The schema of these keywords.
#[inline(never)]
pub fn schema_of(alloc: Global, keywords: &[(&str, Scalar<'_>)]) -> Result<Schema, AllocError>
    ensures { IfOk result (λ s. s ≡ object_of (map scalar_keyword keywords.now)) }
{
    Ok(Schema::from(members_of(alloc, keywords)?))
}

/// The members of an object of these keywords.
pub fn members_of(
    alloc: Global,
    keywords: &[(&str, Scalar<'_>)],
) -> Result<Map<String, Value>, AllocError>
    ensures { IfOk result (λ m. members_view m.entries
        ≡ put_all (map scalar_keyword keywords.now) no_members) }
{
    let mut members = Map::new(alloc);
    for keyword in keywords {
        let value = scalar_value(alloc, keyword.1)?;
        serde_json::put(&mut members, alloc, keyword.0, value)?;
    }
    Ok(members)
}

fn scalar_value(alloc: Global, scalar: Scalar<'_>) -> Result<Value, AllocError>
    ensures { IfOk result (λ v. view v ≡ scalar_view scalar.entry) }
{
    match scalar {
        Scalar::Text(text) => Value::try_from_str(alloc, text),
        Scalar::Integer(number) => Ok(Value::from(number)),
    }
}

// The list of these texts.
#[inline(never)]
pub(crate) fn texts_value(alloc: Global, texts: &[&str]) -> Result<Value, AllocError>
    ensures { IfOk result (λ v. view v ≡ array (text_items (map (λ t. t.now) texts.now))) }
{
    let mut values = Vec::with_capacity(alloc, texts.len())?;
    for text in texts {
        let value = Value::try_from_str(alloc, text)?;
        serde_json::push(&mut values, value)?;
    }
    Ok(Value::Array(values))
}
