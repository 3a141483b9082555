//! Schemas that are written by hand.
ghost use Rattle.std.specs.Prelude.{◌≡◌, OnOk};
ghost use Rattle.schemars_schema.specs.SchemaData.{inserted};
ghost use Rattle.serde_json.specs.Data.{string};

use schemars_schema::Schema;
use serde_json::Value;
use std::alloc::{AllocError, Global};

// Writes a text under a key of the schema.
pub(crate) fn insert_text(
    alloc: Global,
    schema: &mut Schema,
    key: &str,
    text: &str,
) -> Result<(), AllocError>
    ensures { OnOk result (schema.new ≡ inserted key.now (string text.now) schema.old) }
{
    let text = String::from_str(alloc, text)?;
    schema.insert(alloc, String::from_str(alloc, key)?, Value::String(text))?;
    Ok(())
}
