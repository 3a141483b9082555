//! `enum` for drafts that have no `const`.
use crate::built_in::keywords::put;
use schemars_schema::Schema;
use schemars_walk::rewrite::change::{Change, change_all};
use schemars_walk::{Transform, TransformError};
use serde_json::Value;
use std::alloc::{AllocError, Global};

/// Makes the value of `const` the one value of `enum`.
#[derive(Clone, Copy, Default)]
pub struct ReplaceConstValue;

impl Transform for ReplaceConstValue {
    ghost use Rattle.schemars_transform.specs.Built.{Changes, replace_const_value};

    ghost makes = { λ t s r u v. Changes replace_const_value t s r u v };

    fn transform(&mut self, alloc: Global, schema: &mut Schema) -> Result<(), TransformError> {
        change_all(*self, alloc, schema)?;
        Ok(())
    }
}

impl Change for ReplaceConstValue {
    ghost use Rattle.schemars_transform.specs.Built.{const_as_enum};

    ghost changed = { λ t s. const_as_enum s };

    fn change(self, alloc: Global, schema: &mut Schema) -> Result<(), AllocError> {
        if let Some(value) = schema.remove("const") {
            let values = vec![in alloc; value]?;
            let _old = put(alloc, schema, "enum", Value::Array(values))?;
        }
        Ok(())
    }
}
