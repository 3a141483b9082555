//! A rewrite that does the same at every schema.
ghost use Rattle.std.specs.Prelude.{◌≡◌, OnOk};
ghost use Rattle.serde_json.specs.Data.{Data};
ghost use Rattle.schemars_walk.specs.Rewritten.{all_changed};

use crate::rewrite::place::{Place, place_under};
use crate::rewrite::{Rule, rewrite};
use schemars_schema::Schema;
use serde_json::Value;
use std::alloc::{AllocError, Global};

/// What is done at each schema alike, once the schemas inside it are done.
pub trait Change: Copy {
    // What becomes of a schema.
    ghost changed: { Self → Data → Data };

    /// Changes one schema.
    fn change(self, alloc: Global, schema: &mut Schema) -> Result<(), AllocError>
        ensures { OnOk result (schema.new ≡ changed self schema.old) };
}

#[derive(Clone, Copy)]
struct Everywhere<C> {
    change: C,
}

impl<C: Change> Rule for Everywhere<C> {
    ghost use Rattle.schemars_walk.specs.Rewritten.{everywhere};

    ghost rules = { everywhere (λ e. C.changed e.change) };

    fn inside(self, _schema: &Value) -> Everywhere<C> {
        self
    }

    fn place(self, key: &str, _value: &Value) -> Place {
        place_under(key)
    }

    fn finish(self, alloc: Global, schema: &mut Schema) -> Result<(), AllocError> {
        self.change.change(alloc, schema)
    }
}

/// Changes a schema and all schemas inside it, each after those inside it.
pub fn change_all<C: Change>(
    change: C,
    alloc: Global,
    schema: &mut Schema,
) -> Result<(), AllocError>
    ensures { OnOk result (schema.new ≡ all_changed (C.changed change) schema.old) }
{
    rewrite(Everywhere { change }, alloc, schema)
}
