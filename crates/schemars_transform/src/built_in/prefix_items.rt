//! `prefixItems` for drafts that have a list under `items`.
use crate::built_in::keywords::put;
use schemars_schema::Schema;
use schemars_walk::rewrite::change::{Change, change_all};
use schemars_walk::{Transform, TransformError};
use std::alloc::{AllocError, Global};

/// Renames `prefixItems` to `items`, and an `items` beside it to `additionalItems`.
#[derive(Clone, Copy, Default)]
pub struct ReplacePrefixItems;

impl Transform for ReplacePrefixItems {
    ghost use Rattle.schemars_transform.specs.Built.{Changes, replace_prefix_items};

    ghost makes = { λ t s r u v. Changes replace_prefix_items t s r u v };

    fn transform(&mut self, alloc: Global, schema: &mut Schema) -> Result<(), TransformError> {
        change_all(*self, alloc, schema)?;
        Ok(())
    }
}

impl Change for ReplacePrefixItems {
    ghost use Rattle.schemars_transform.specs.Built.{prefix_as_items};

    ghost changed = { λ t s. prefix_as_items s };

    fn change(self, alloc: Global, schema: &mut Schema) -> Result<(), AllocError> {
        let Some(prefix) = schema.remove("prefixItems") else {
            return Ok(());
        };
        if let Some(items) = put(alloc, schema, "items", prefix)? {
            let _none = put(alloc, schema, "additionalItems", items)?;
        }
        Ok(())
    }
}
