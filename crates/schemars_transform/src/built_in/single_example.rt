//! `example` for dialects that have no `examples`.
ghost use Rattle.std.specs.Prelude.{◌≡◌, OnOk, Some};
ghost use Rattle.serde_json.specs.View.{view};
ghost use Rattle.schemars_transform.specs.Built.{first_as_example};

use crate::built_in::keywords::put;
use schemars_schema::Schema;
use schemars_walk::rewrite::change::{Change, change_all};
use schemars_walk::{Transform, TransformError};
use serde_json::Value;
use std::alloc::{AllocError, Global};

/// Removes `examples`, and makes the first of them the value of `example`.
#[derive(Clone, Copy, Default)]
pub struct SetSingleExample;

impl Transform for SetSingleExample {
    ghost use Rattle.schemars_transform.specs.Built.{Changes, set_single_example};

    ghost makes = { λ t s r u v. Changes set_single_example t s r u v };

    fn transform(&mut self, alloc: Global, schema: &mut Schema) -> Result<(), TransformError> {
        change_all(*self, alloc, schema)?;
        Ok(())
    }
}

impl Change for SetSingleExample {
    ghost use Rattle.schemars_transform.specs.Built.{with_single_example};

    ghost changed = { λ t s. with_single_example s };

    fn change(self, alloc: Global, schema: &mut Schema) -> Result<(), AllocError> {
        match schema.remove("examples") {
            Some(examples) => put_first(alloc, schema, examples),
            None => Ok(()),
        }
    }
}

// Makes the first of the examples the only one.
fn put_first(alloc: Global, schema: &mut Schema, examples: Value) -> Result<(), AllocError>
    ensures { OnOk result (schema.new ≡ first_as_example (Some (view examples)) schema.old) }
{
    let Value::Array(list) = examples else {
        return Ok(());
    };
    if let Some(first) = list.into_iter().next() {
        let _old = put(alloc, schema, "example", first)?;
    }
    Ok(())
}
