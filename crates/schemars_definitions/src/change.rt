//! What is made of each definition before it is written.
ghost use Rattle.std.specs.Prelude.{◌≡◌, true, IfOk, OnOk};
ghost use Rattle.serde_json.specs.Data.{Data};
ghost use Rattle.schemars_transform.specs.BuiltIn.{made_by};
ghost use Rattle.schemars_transform.specs.Needs.{needs_of};

use schemars_schema::Schema;
use schemars_transform::{GenTransform, Needs, NoTransform};
use std::alloc::{AllocError, Global};

/// What is made of each definition before it is written, as a dialect's built-in transforms do.
///
/// It depends on the type alone: `made` says it for every value of the type.
pub trait Change {
    // What is made of a schema.
    ghost made: { Data → Data };

    /// Returns whether every schema stays as it is. `false` says nothing.
    fn changes_nothing(&self) -> bool
        ensures { result ≡ true → (d : Data) → made d ≡ d };

    /// Returns whether every schema with these needs stays as it is. `false` says nothing.
    fn leaves(&self, needs: Needs) -> bool
        ensures { result ≡ true → (d : Data) → needs_of d ≡ needs → made d ≡ d };

    /// Returns the built-in transforms that make it, in order.
    ///
    /// # Errors
    ///
    /// `AllocError` if memory runs out.
    fn transforms(&self, alloc: Global) -> Result<Vec<GenTransform<NoTransform>>, AllocError>
        ensures { IfOk result (λ ts. (d : Data) → made d ≡ made_by ts.items d) };

    /// Makes of a schema with these needs what is made of it. After an error it is still a schema,
    /// with unspecified content.
    ///
    /// # Errors
    ///
    /// `AllocError` if memory runs out.
    fn change(&mut self, alloc: Global, schema: &mut Schema, needs: Needs) -> Result<(), AllocError>
        requires { needs ≡ needs_of schema.old }
        ensures { OnOk result (schema.new ≡ made schema.old) };
}

/// Nothing is changed.
#[derive(Drop)]
pub struct Unchanged;

impl Change for Unchanged {
    ghost made = { λ d. d };

    fn changes_nothing(&self) -> bool {
        true
    }

    fn leaves(&self, _needs: Needs) -> bool {
        true
    }

    fn transforms(&self, alloc: Global) -> Result<Vec<GenTransform<NoTransform>>, AllocError> {
        Ok(Vec::new(alloc))
    }

    fn change(
        &mut self,
        _alloc: Global,
        _schema: &mut Schema,
        _needs: Needs,
    ) -> Result<(), AllocError> {
        Ok(())
    }
}
