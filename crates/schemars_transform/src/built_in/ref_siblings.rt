//! `$ref` apart from other keywords.
ghost use Rattle.std.specs.Prelude.{◌≡◌, IfOk};
ghost use Rattle.serde_json.specs.View.{view};
ghost use Rattle.schemars_transform.specs.Built.{referring};

use schemars_schema::Schema;
use schemars_schema::edits::{append_at, has_one_member};
use schemars_walk::rewrite::change::{Change, change_all};
use schemars_walk::{Transform, TransformError};
use serde_json::{Map, Value};
use std::alloc::{AllocError, Global};

/// Moves a `$ref` that has other keywords beside it into a schema of its own, at the end of
/// `allOf`.
///
/// `allOf` is created if it is missing. If it is not a list, it is unchanged, and the `$ref` is
/// lost.
#[derive(Clone, Copy, Default)]
pub struct RemoveRefSiblings;

impl Transform for RemoveRefSiblings {
    ghost use Rattle.schemars_transform.specs.Built.{Changes, remove_ref_siblings};

    ghost makes = { λ t s r u v. Changes remove_ref_siblings t s r u v };

    fn transform(&mut self, alloc: Global, schema: &mut Schema) -> Result<(), TransformError> {
        change_all(*self, alloc, schema)?;
        Ok(())
    }
}

impl Change for RemoveRefSiblings {
    ghost use Rattle.schemars_transform.specs.Built.{without_siblings};

    ghost changed = { λ t s. without_siblings s };

    fn change(self, alloc: Global, schema: &mut Schema) -> Result<(), AllocError> {
        if has_one_member(schema) {
            return Ok(());
        }
        let Some(target) = schema.remove("$ref") else {
            return Ok(());
        };
        let moved = reference(alloc, target)?;
        let members = schema.ensure_object(alloc)?;
        append_at(alloc, members, "allOf", moved)
    }
}

// A schema of a `$ref` alone.
fn reference(alloc: Global, target: Value) -> Result<Value, AllocError>
    ensures { IfOk result (λ v. view v ≡ referring (view target)) }
{
    let mut members = Map::new(alloc);
    serde_json::put(&mut members, alloc, "$ref", target)?;
    Ok(Value::Object(members))
}
