//! A transform of a JSON value that may be a schema.
ghost use Rattle.serde_json.specs.View.{view};
ghost use Rattle.schemars_schema.specs.SchemaData.{IsSchema};
ghost use Rattle.schemars_walk.specs.Walk.{OnValue};

use crate::transform::{Transform, TransformError};
use schemars_schema::{NotASchema, Schema};
use serde_json::Value;
use std::alloc::Global;
use std::mem;

/// Applies a transform to a value if it is a schema, and returns whether it is. Any other value is
/// unchanged. After an error the value is what the transform left, which is still a schema.
pub fn on_value<T: Transform>(
    alloc: Global,
    t: &mut T,
    value: &mut Value,
) -> Result<bool, TransformError>
    ensures step { OnValue T.makes t.old (view value.old) result t.new (view value.new) }
    ensures schema { IsSchema (view value.old) → IsSchema (view value.new) }
{
    match Schema::try_from(mem::replace(value, Value::Null)) {
        Ok(mut schema) => {
            let answer = t.transform(alloc, &mut schema);
            *value = schema.to_value();
            answer?;
            Ok(true)
        }
        Err(NotASchema(other)) => {
            *value = other;
            Ok(false)
        }
    }
}
