//! Objects in place of truth values.
ghost use Rattle.std.specs.Prelude.{◌≡◌, OnOk};
ghost use Rattle.serde_json.specs.Data.{object};
ghost use Rattle.schemars_schema.specs.SchemaData.{members_in};

use schemars_schema::Schema;
use schemars_walk::rewrite::place::{Place, place_under};
use schemars_walk::rewrite::{Rule, rewrite};
use schemars_walk::{Transform, TransformError};
use serde_json::Value;
use std::alloc::{AllocError, Global};

/// Makes every schema an object: `true` becomes `{}`, and `false` becomes `{"not":{}}`.
#[derive(Clone, Copy, Default)]
pub struct ReplaceBoolSchemas {
    /// Whether a truth value under `additionalProperties` is kept. False by default.
    pub skip_additional_properties: bool,
}

impl Transform for ReplaceBoolSchemas {
    ghost use Rattle.schemars_transform.specs.Built.{Changes, replace_bool_schemas};

    ghost makes = { λ t s r u v. Changes (replace_bool_schemas t) t s r u v };

    fn transform(&mut self, alloc: Global, schema: &mut Schema) -> Result<(), TransformError> {
        rewrite(*self, alloc, schema)?;
        Ok(())
    }
}

impl Rule for ReplaceBoolSchemas {
    ghost use Rattle.schemars_transform.specs.Built.{bool_rules};

    ghost rules = { bool_rules };

    fn inside(self, _schema: &Value) -> ReplaceBoolSchemas {
        self
    }

    fn place(self, key: &str, value: &Value) -> Place {
        if self.skip_additional_properties && key == "additionalProperties" && value.is_boolean() {
            Place::Nothing
        } else {
            place_under(key)
        }
    }

    fn finish(self, alloc: Global, schema: &mut Schema) -> Result<(), AllocError> {
        let _members = schema.ensure_object(alloc)?;
        Ok(())
    }
}
