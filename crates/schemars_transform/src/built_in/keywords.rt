//! Keywords put into schemas.
ghost use Rattle.std.specs.Prelude.{◌≡◌, IfOk, OnOk, option_map};
ghost use Rattle.schemars_transform.specs.Words.{get_member, view, members_in, inserted};

use schemars_schema::Schema;
use serde_json::Value;
use std::alloc::{AllocError, Global};

/// Sets the value at a keyword, and answers the one that stood there. A truth value becomes an
/// object first.
pub fn put(
    alloc: Global,
    schema: &mut Schema,
    key: &str,
    value: Value,
) -> Result<Option<Value>, AllocError>
    ensures ok { OnOk result (schema.new ≡ inserted key.now (view value) schema.old) }
    ensures old { IfOk result (λ old. option_map view old
        ≡ get_member key.now (members_in schema.old)) }
{
    let name = String::from_str(alloc, key)?;
    let old = schema.insert(alloc, name, value)?;
    Ok(old)
}
