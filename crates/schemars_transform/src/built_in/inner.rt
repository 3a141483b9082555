//! A transform of the schema of a list's items.
ghost use Rattle.serde_json.specs.View.{view};
ghost use Rattle.schemars_walk.specs.Walk.{AtSchema};
ghost use Rattle.schemars_transform.specs.Inner.{AtItems};

use schemars_schema::Schema;
use schemars_walk::{Transform, TransformError, on_value};
use serde_json::Value;
use std::alloc::Global;

/// Applies a transform to the value of `items`, if that is a schema.
pub fn apply_inner_validation<T: Transform>(
    alloc: Global,
    t: &mut T,
    schema: &mut Schema,
) -> Result<(), TransformError>
    ensures { AtItems T.makes t.old schema.old result t.new schema.new }
{
    match schema.get_mut("items") {
        Some(items) => at_schema(alloc, items, t),
        None => Ok(()),
    }
}

// Passes over a value that is not a schema.
fn at_schema<T: Transform>(
    alloc: Global,
    value: &mut Value,
    t: &mut T,
) -> Result<(), TransformError>
    ensures { AtSchema T.makes t.old (view value.old) result t.new (view value.new) }
{
    let _is_schema = on_value(alloc, t, value)?;
    Ok(())
}
